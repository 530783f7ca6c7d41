// The colour matrix. A step's table has each weight times each byte, with a bias that keeps it from falling below zero.
ghost use Rattle.std.specs.Prelude.{◌≡◌, ◌+◌, ◌-◌, ◌*◌, ◌/◌, ◌≤◌, ◌<◌, min, pos, length};
ghost use Rattle.pixel.specs.Whole as Whole;
ghost use Rattle.pixel.specs.Alpha.{Valid};
ghost use Rattle.pixel.specs.Matrix.{by_matrix};
ghost use Rattle.pixel.specs.Bytes.{pixel_at, Painted, ValidRow};
ghost use Rattle.pixel.specs.Coefficient.{Allowed, AllowedRow, AllowedMatrix};
ghost use Rattle.window.specs.Limits.{longest_side};
ghost use Rattle.kernel_alpha.specs.Tables.{UnpremultiplyTable};
ghost use Rattle.kernel_matrix.specs.Tables.{biased, matrix_row_at, MatrixTable};
ghost use Rattle.kernel_matrix.specs.Code.{product, channel_by, by_rows};

use kernel_alpha::premultiply::premultiply_row;
use kernel_alpha::store::put;
use kernel_alpha::unpremultiply::unpremultiply;
use number::Fixed;
use pixel::{Matrix, MatrixRow};

// u·x, with 255 · 256 added.
fn scaled(u: Fixed, x: u64) -> u64
    requires { Allowed u × (x < 256) }
    ensures { (result ≡ biased u x) × (result ≤ 8556380160) }
{
    u.above * x + 4278190080 - u.below * x
}

// The row for R, G, B or A: 0 to 3.
fn matrix_row_at(m: Matrix, c: usize) -> MatrixRow
    requires { AllowedMatrix m }
    ensures { (result ≡ matrix_row_at m c) × AllowedRow result }
{
    match c {
        0 => m.r,
        1 => m.g,
        2 => m.b,
        _ => m.a,
    }
}

// The products of R, then of G, of B and of A; four rows beside each other.
fn entry(m: Matrix, i: usize) -> u64
    requires { AllowedMatrix m × (i < 4096) }
    ensures { result ≡ product m i }
{
    let row = matrix_row_at(m, i % 4);
    let x = (i / 4 % 256) as u64;
    match i / 1024 {
        0 => scaled(row.r, x),
        1 => scaled(row.g, x),
        2 => scaled(row.b, x),
        _ => scaled(row.a, x) + scaled(row.one, 255) + 32768,
    }
}

// The table of a step, from its matrix.
pub fn prepare(m: Matrix, table: &mut [u64])
    requires { (length table.old ≡ 4096) × AllowedMatrix m }
    ensures { MatrixTable m table.new }
{
    for (i, product) in table.iter_mut().enumerate() {
        *product = entry(m, i);
    }
}

// A sum of five biased products, divided by 65,536 and limited. Signed, since the machine limits signed numbers in one step.
fn limited(sum: u64) -> u8
    requires { sum < 42949672960 }
    ensures { result ≡ min ((sum - 21390950400) / 65536) 255 }
{
    ((((sum as i64) - 21390950400) >> 16) as i32).clamp(0, 255) as u8
}

// The new channel c of a pixel whose colours are unpremultiplied.
fn channel(m: Matrix, table: &[u64], c: usize, r: usize, g: usize, b: usize, a: usize) -> u8
    requires { MatrixTable m table.now × AllowedMatrix m × (c < 4) × (r < 256) × (g < 256) × (b < 256) × (a < 256) }
    ensures { result ≡ channel_by (matrix_row_at m c) r g b a }
{
    limited(
        table[4 * r + c]
            + table[4 * g + 1024 + c]
            + table[4 * b + 2048 + c]
            + table[4 * a + 3072 + c],
    )
}

// The pixel at the index i, its new colours not yet premultiplied.
fn channels_at(m: Matrix, table: &[u64], inverse: &[u32], src: &[u8], dst: &mut [u8], i: usize)
    requires matrix_table { MatrixTable m table.now × AllowedMatrix m × UnpremultiplyTable inverse.now × Valid (pixel_at src.now i) }
    requires i_in_bounds { (i + 4 ≤ length src.now) × (i + 4 ≤ length dst.old) }
    ensures { Painted (λ x. by_rows m (pixel_at src.now i)) i 0 1 dst.old dst.new }
{
    let alpha = src[i + 3];
    let r = unpremultiply(inverse, src[i], alpha);
    let g = unpremultiply(inverse, src[i + 1], alpha);
    let b = unpremultiply(inverse, src[i + 2], alpha);
    let a = alpha as usize;
    let red = channel(m, table, 0, r, g, b, a);
    let green = channel(m, table, 1, r, g, b, a);
    let blue = channel(m, table, 2, r, g, b, a);
    put(dst, i, red, green, blue, channel(m, table, 3, r, g, b, a));
}

// The same for a row of n pixels.
fn channels_row(m: Matrix, table: &[u64], inverse: &[u32], src: &[u8], dst: &mut [u8], n: usize)
    requires matrix_table { MatrixTable m table.now × AllowedMatrix m × UnpremultiplyTable inverse.now × ValidRow src.now n }
    requires src_len { (length src.now ≡ 4 * n) × (length dst.old ≡ 4 * n) }
    ensures { Painted (λ x. by_rows m (pixel_at src.now (4 * x))) 0 0 n dst.old dst.new }
{
    for x in 0..n {
        channels_at(m, table, inverse, src, dst, 4 * x);
    }
}

// A row of n pixels. Only the contract reads m.
pub fn matrix_row(m: Matrix, table: &[u64], inverse: &[u32], src: &[u8], dst: &mut [u8], n: usize)
    requires matrix_table { MatrixTable m table.now × AllowedMatrix m × UnpremultiplyTable inverse.now × ValidRow src.now n }
    requires n_le_longest_side { (n ≤ longest_side) × (length src.now ≡ 4 * n) × (length dst.old ≡ 4 * n) }
    ensures { Painted (λ x. by_matrix m (pixel_at src.now (4 * x))) 0 0 n dst.old dst.new }
{
    channels_row(m, table, inverse, src, dst, n);
    premultiply_row(dst, n);
}
