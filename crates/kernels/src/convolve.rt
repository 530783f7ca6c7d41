// Rows of a convolution, its fields and numbers given plainly. The edge mode makes the lines and is no matter of the kernel.
ghost use Rattle.std.specs.Prelude.{◌≡◌, ◌+◌, ◌*◌, ◌≤◌, length};
ghost use Rattle.window.specs.Limits.{longest_side};
ghost use Rattle.pixel.specs.Bytes.{Painted};
ghost use Rattle.kernel_lines.specs.Lines.{all_lines};
ghost use Rattle.kernel_lines.specs.Convolved.{Convolves, line_pixel};
ghost use Rattle.kernels.specs.PlainNumbers.{convolution, paired_values};

use kernel_lines::Kernel;
use number::Fixed;
use pixel::{Convolution, Edge};

fn convolution_of(
    columns: usize,
    rows: usize,
    divided: bool,
    column: usize,
    row: usize,
    preserve: bool,
) -> Convolution
    ensures { result ≡ convolution columns rows divided column row preserve }
{
    Convolution {
        columns,
        rows,
        divided,
        column,
        row,
        preserve,
        edge: Edge::None,
    }
}

fn values_of(values: &[u64]) -> [Fixed; 64]
    requires { length values.now ≡ 128 }
    ensures { result ≡ paired_values values.now }
{
    let mut paired = [Fixed::ZERO; 64];
    for (i, pair) in paired.iter_mut().enumerate() {
        *pair = Fixed {
            above: values[2 * i],
            below: values[2 * i + 1],
        };
    }
    paired
}

#[unsafe(no_mangle)]
pub extern "C" fn twillgoose_kernel_convolve_row(
    columns: usize,
    rows: usize,
    divided: bool,
    column: usize,
    row: usize,
    preserve: bool,
    values: &[u64],
    lines: &[u8],
    left: usize,
    count: usize,
    dst: &mut [u8],
)
    requires convolves { Convolves (convolution columns rows divided column row preserve) (paired_values values.now) × (length values.now ≡ 128) }
    requires lines_len { (length lines.now ≡ all_lines) × (left + count ≤ longest_side) × (length dst.old ≡ 4 * count) }
    ensures { Painted
        (λ x. line_pixel (convolution columns rows divided column row preserve) (paired_values values.now) lines.now (left + x))
        0 0 count dst.old dst.new }
{
    let convolution = convolution_of(columns, rows, divided, column, row, preserve);
    let values = values_of(values);
    let kernel = Kernel {
        convolution,
        values,
    };
    kernel_convolve::convolve_row(&kernel, lines, left, count, dst);
}
