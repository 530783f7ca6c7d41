// Convolution by rows: the kernel's sums over lines, divided; then colours lowered to their alpha, or premultiplied by one that is kept.
#![tactic(auto)]

mod divisor; // division without dividing
pub mod finish;
mod plan; // what a row is worked from
mod prepare;
pub mod sum;
mod taps; // weights with their places, and sums over them

ghost use Rattle.std.specs.Prelude.{◌≡◌, ◌+◌, ◌*◌, ◌≤◌, length};
ghost use Rattle.window.specs.Limits.{longest_side};
ghost use Rattle.window.specs.Store.{Filled};
ghost use Rattle.pixel.specs.Bytes.{Painted};
ghost use Rattle.kernel_lines.specs.Lines.{all_lines};
ghost use Rattle.kernel_lines.specs.Convolved.{lane_byte, line_pixel};

use kernel_lines::Kernel;
use kernel_taps::sum_small;

// The sums, divided: the quick way where the kernel is small and whole.
fn sums(kernel: &Kernel, lines: &[u8], left: usize, count: usize, out: &mut [u8])
    requires { (length lines.now ≡ all_lines) × (left + count ≤ longest_side) × (4 * count ≤ length out.old) }
    ensures { Filled (λ b. lane_byte kernel.now.convolution kernel.now.values lines.now (4 * left + b)) 0 (4 * count) out.old out.new }
{
    if !sum_small(kernel, lines, left, count, out) {
        sum::sum_row(kernel, lines, left, count, out);
    }
}

// The results in `count` columns from `left` on.
pub fn convolve_row(kernel: &Kernel, lines: &[u8], left: usize, count: usize, out: &mut [u8])
    requires { (length lines.now ≡ all_lines) × (left + count ≤ longest_side) × (length out.old ≡ 4 * count) }
    ensures { Painted (λ x. line_pixel kernel.now.convolution kernel.now.values lines.now (left + x)) 0 0 count out.old out.new }
{
    sums(kernel, lines, left, count, out);
    finish::finish_row(kernel.convolution, lines, left, count, out);
}
