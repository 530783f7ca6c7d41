// Unpremultiply without a division: two numbers for each alpha, by which (255·c + (a ÷ 2)) ÷ a is a product and a shift.
ghost use Rattle.std.specs.Prelude.{◌≡◌, ◌*◌, ◌≤◌, ◌<◌, length};
ghost use Rattle.pixel.specs.Alpha.{unpremultiplied, straight, Valid};
ghost use Rattle.pixel.specs.Bytes.{pixel_at, Painted, ValidRow};
ghost use Rattle.pixel.specs.Word.{Packed, unpacked};
ghost use Rattle.kernel_alpha.specs.Tables.{ceiling, UnpremultiplyTable};

use pixel::{Pixel, bytes};

// n / a, rounded up.
fn rounded_up(n: u32, a: u32) -> u32
    requires { (n ≤ 16711680) × (a < 256) }
    ensures { result ≡ ceiling n a }
{
    if a == 0 {
        return 0;
    }
    n.div_ceil(a)
}

// The table of every alpha; it depends on no step.
pub fn prepare(table: &mut [u32])
    requires { length table.old ≡ 512 }
    ensures { UnpremultiplyTable table.new }
{
    let (scale, half) = table.split_at_mut(256);
    for (a, entry) in scale.iter_mut().enumerate() {
        *entry = rounded_up(16711680, a as u32);
    }
    for (a, entry) in half.iter_mut().enumerate() {
        let a = a as u32;
        *entry = rounded_up(a / 2 * 65536, a);
    }
}

// The colour c of a pixel with the alpha a.
pub fn unpremultiply(table: &[u32], c: u8, a: u8) -> usize
    requires { UnpremultiplyTable table.now × (c ≤ a) }
    ensures { (result ≡ unpremultiplied c a) × (result < 256) }
{
    let i = a as usize;
    (((c as u32) * table[i] + table[i + 256]) / 65536) as usize
}

// A pixel as one number, its colours unpremultiplied.
fn straight_word(table: &[u32], v: u32) -> u32
    requires { UnpremultiplyTable table.now × Valid (unpacked v) }
    ensures { Packed (straight (unpacked v)) result }
{
    let a = (v / 16777216) as u8;
    bytes::pack(Pixel {
        r: unpremultiply(table, (v % 256) as u8, a) as u8,
        g: unpremultiply(table, (v / 256 % 256) as u8, a) as u8,
        b: unpremultiply(table, (v / 65536 % 256) as u8, a) as u8,
        a,
    })
}

// A row of n pixels, in place.
pub fn unpremultiply_row(table: &[u32], row: &mut [u8], n: usize)
    requires { UnpremultiplyTable table.now × (length row.old ≡ 4 * n) × ValidRow row.old n }
    ensures { Painted (λ x. straight (pixel_at row.old (4 * x))) 0 0 n row.old row.new }
{
    for x in 0..n {
        let i = 4 * x;
        let v = bytes::word(&row[..], i);
        bytes::put(row, i, straight_word(table, v));
    }
}
