// Rows of the colour steps, and the tables that they look into. Saturate stands for every colour matrix: the work is the same.
ghost use Rattle.std.specs.Prelude.{◌≡◌, ◌*◌, ◌≤◌, length};
ghost use Rattle.pixel.specs.Bytes.{pixel_at, Painted, ValidRow};
ghost use Rattle.pixel.specs.Matrix.{by_matrix, saturation, luminance};
ghost use Rattle.pixel.specs.Coefficient.{AllowedArithmetic, AllowedMatrix};
ghost use Rattle.kernel_alpha.specs.Tables.{UnpremultiplyTable, LuminanceTable};
ghost use Rattle.kernel_arithmetic.specs.Tables.{ArithmeticTable, arithmetic_at};
ghost use Rattle.kernel_matrix.specs.Tables.{MatrixTable};
ghost use Rattle.window.specs.Limits.{longest_side};
ghost use Rattle.kernels.specs.PlainNumbers.{arithmetic};

use number::Fixed;
use pixel::{Arithmetic, Matrix};

// Coefficients that are not below zero, in units.
fn arithmetic_of(k1: u64, k2: u64, k3: u64, k4: u64) -> Arithmetic
    requires { (k1 ≤ 16777216) × (k2 ≤ 16777216) × (k3 ≤ 16777216) × (k4 ≤ 16777216) }
    ensures { (result ≡ arithmetic k1 k2 k3 k4) × AllowedArithmetic result }
{
    Arithmetic {
        k1: Fixed {
            above: k1,
            below: 0,
        },
        k2: Fixed {
            above: k2,
            below: 0,
        },
        k3: Fixed {
            above: k3,
            below: 0,
        },
        k4: Fixed {
            above: k4,
            below: 0,
        },
    }
}

fn saturation_of(s: u64) -> Matrix
    requires { s ≤ 65536 }
    ensures { (result ≡ saturation s) × AllowedMatrix result }
{
    pixel::color_matrix::saturation_matrix(s)
}

#[unsafe(no_mangle)]
pub extern "C" fn twillgoose_kernel_prepare_arithmetic(
    k1: u64,
    k2: u64,
    k3: u64,
    k4: u64,
    table: &mut [u8],
)
    requires { (k1 ≤ 16777216) × (k2 ≤ 16777216) × (k3 ≤ 16777216) × (k4 ≤ 16777216) × (length table.old ≡ 65536) }
    ensures { ArithmeticTable (arithmetic k1 k2 k3 k4) table.new }
{
    kernel_arithmetic::prepare(arithmetic_of(k1, k2, k3, k4), table);
}

#[unsafe(no_mangle)]
pub extern "C" fn twillgoose_kernel_combine_row(
    k1: u64,
    k2: u64,
    k3: u64,
    k4: u64,
    table: &[u8],
    a: &[u8],
    b: &[u8],
    dst: &mut [u8],
    n: usize,
)
    requires k1_bound { (k1 ≤ 16777216) × (k2 ≤ 16777216) × (k3 ≤ 16777216) × (k4 ≤ 16777216) × ArithmeticTable (arithmetic k1 k2 k3 k4) table.now }
    requires a_len { (length a.now ≡ 4 * n) × (length b.now ≡ 4 * n) × (length dst.old ≡ 4 * n) }
    ensures { Painted (arithmetic_at (arithmetic k1 k2 k3 k4) a.now b.now) 0 0 n dst.old dst.new }
{
    kernel_arithmetic::arithmetic_row(arithmetic_of(k1, k2, k3, k4), table, a, b, dst, n);
}

#[unsafe(no_mangle)]
pub extern "C" fn twillgoose_kernel_prepare_unpremultiply(table: &mut [u32])
    requires { length table.old ≡ 512 }
    ensures { UnpremultiplyTable table.new }
{
    kernel_alpha::unpremultiply::prepare(table);
}

#[unsafe(no_mangle)]
pub extern "C" fn twillgoose_kernel_prepare_saturate(s: u64, table: &mut [u64])
    requires { (s ≤ 65536) × (length table.old ≡ 4096) }
    ensures { MatrixTable (saturation s) table.new }
{
    kernel_matrix::matrix::prepare(saturation_of(s), table);
}

#[unsafe(no_mangle)]
pub extern "C" fn twillgoose_kernel_saturate_row(
    s: u64,
    table: &[u64],
    inverse: &[u32],
    src: &[u8],
    dst: &mut [u8],
    n: usize,
)
    requires s_bound { (s ≤ 65536) × MatrixTable (saturation s) table.now × UnpremultiplyTable inverse.now × ValidRow src.now n }
    requires n_le_longest_side { (n ≤ longest_side) × (length src.now ≡ 4 * n) × (length dst.old ≡ 4 * n) }
    ensures { Painted (λ x. by_matrix (saturation s) (pixel_at src.now (4 * x))) 0 0 n dst.old dst.new }
{
    kernel_matrix::matrix::matrix_row(saturation_of(s), table, inverse, src, dst, n);
}

#[unsafe(no_mangle)]
pub extern "C" fn twillgoose_kernel_prepare_luminance(table: &mut [u32])
    requires { length table.old ≡ 768 }
    ensures { LuminanceTable table.new }
{
    kernel_alpha::luminance::prepare(table);
}

#[unsafe(no_mangle)]
pub extern "C" fn twillgoose_kernel_luminance_row(
    table: &[u32],
    inverse: &[u32],
    src: &[u8],
    dst: &mut [u8],
    n: usize,
)
    requires { LuminanceTable table.now × UnpremultiplyTable inverse.now × (length src.now ≡ 4 * n) × (length dst.old ≡ 4 * n)
        × ValidRow src.now n }
    ensures { Painted (λ x. by_matrix luminance (pixel_at src.now (4 * x))) 0 0 n dst.old dst.new }
{
    kernel_alpha::luminance::luminance_row(table, inverse, src, dst, n);
}
