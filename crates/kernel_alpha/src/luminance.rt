// Luminance to alpha: the colours of the result are 0, so only its alpha is worked.
ghost use Rattle.std.specs.Prelude.{◌≡◌, ℕ, ◌+◌, ◌*◌, ◌/◌, ◌≤◌, ◌<◌, length, slice_index};
ghost use Rattle.pixel.specs.Alpha.{Valid};
ghost use Rattle.pixel.specs.Matrix.{luminance, by_matrix};
ghost use Rattle.pixel.specs.Bytes.{pixel_at, Painted, ValidRow};
ghost use Rattle.kernel_alpha.specs.Tables.{UnpremultiplyTable, LuminanceTable};

use super::store::put;
use super::unpremultiply::unpremultiply;

// Each byte by a weight, with what rounds.
fn products(part: &mut [u32], weight: u32, rounding: u32)
    requires { (length part.old ≡ 256) × (weight ≤ 65536) × (rounding ≤ 32768) }
    ensures len { length part.new ≡ 256 }
    ensures each { (x : ℕ) → x < 256 → slice_index part.new x ≡ weight * x + rounding }
{
    for (x, product) in part.iter_mut().enumerate() {
        *product = weight * (x as u32) + rounding;
    }
}

// The table of luminance; it depends on no step.
pub fn prepare(table: &mut [u32])
    requires { length table.old ≡ 768 }
    ensures { LuminanceTable table.new }
{
    let (red, rest) = table.split_at_mut(256);
    let (green, blue) = rest.split_at_mut(256);
    products(red, 13926, 0);
    products(green, 46884, 0);
    products(blue, 4725, 32768);
}

// The new alpha of a pixel whose colours are unpremultiplied.
fn luminance_of(table: &[u32], r: usize, g: usize, b: usize) -> u8
    requires { LuminanceTable table.now × (r < 256) × (g < 256) × (b < 256) }
    ensures { result ≡ (13926 * r + 46884 * g + (4725 * b + 32768)) / 65536 }
{
    ((table[r] + table[g + 256] + table[b + 512]) / 65536) as u8
}

// The pixel at the index i.
fn luminance_at(table: &[u32], inverse: &[u32], src: &[u8], dst: &mut [u8], i: usize)
    requires { LuminanceTable table.now × UnpremultiplyTable inverse.now × (i + 4 ≤ length src.now) × (i + 4 ≤ length dst.old)
        × Valid (pixel_at src.now i) }
    ensures { Painted (λ x. by_matrix luminance (pixel_at src.now i)) i 0 1 dst.old dst.new }
{
    let a = src[i + 3];
    let r = unpremultiply(inverse, src[i], a);
    let g = unpremultiply(inverse, src[i + 1], a);
    let b = unpremultiply(inverse, src[i + 2], a);
    put(dst, i, 0, 0, 0, luminance_of(table, r, g, b));
}

// A row of n pixels.
pub fn luminance_row(table: &[u32], inverse: &[u32], src: &[u8], dst: &mut [u8], n: usize)
    requires { LuminanceTable table.now × UnpremultiplyTable inverse.now × (length src.now ≡ 4 * n) × (length dst.old ≡ 4 * n)
        × ValidRow src.now n }
    ensures { Painted (λ x. by_matrix luminance (pixel_at src.now (4 * x))) 0 0 n dst.old dst.new }
{
    for x in 0..n {
        luminance_at(table, inverse, src, dst, 4 * x);
    }
}
