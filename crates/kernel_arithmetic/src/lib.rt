// The arithmetic composite. A step's table has the result for every two bytes; a row is then worked by look-ups.
#![tactic(auto)]

ghost use Rattle.std.specs.Prelude.{◌≡◌, ◌+◌, ◌-◌, ◌*◌, ◌/◌, ◌≤◌, ◌<◌, min, length, get_or};
ghost use Rattle.window.specs.Store.{Filled};
ghost use Rattle.pixel.specs.Arithmetic.{channel_of, by_arithmetic};
ghost use Rattle.pixel.specs.Bytes.{pixel_at, Painted};
ghost use Rattle.pixel.specs.Coefficient.{AllowedArithmetic};
ghost use Rattle.kernel_arithmetic.specs.Tables.{ArithmeticTable, arithmetic_at};
ghost use Rattle.kernel_arithmetic.specs.Code.{level};

use kernel_alpha::store::put;
use pixel::Arithmetic;

// The results beside one first byte, of two straight lines in the second: one above zero less one below it, divided by 16,711,680.
fn fill_line(line: &mut [u8], up: u64, above: u64, down: u64, below: u64)
    requires line_len { length line.old ≡ 256 }
    requires small { (up ≤ 8556380160) × (down ≤ 8556380160) × (above ≤ 2181885296640) × (below ≤ 2181885296640) }
    ensures { Filled (level up above down below) 0 256 line.old line.new }
{
    for (y, entry) in line.iter_mut().enumerate() {
        let y = y as u64;
        let sum = (up * y + above).saturating_sub(down * y + below);
        *entry = (sum / 16711680).min(255) as u8;
    }
}

// The table of a step, from its coefficients.
pub fn prepare(k: Arithmetic, table: &mut [u8])
    requires { (length table.old ≡ 65536) × AllowedArithmetic k }
    ensures { ArithmeticTable k table.new }
{
    for i in 0usize..256 {
        let x = i as u64;
        fill_line(
            &mut table[256 * i..256 * i + 256],
            k.k1.above * x + 255 * k.k3.above,
            255 * (k.k2.above * x) + 65025 * k.k4.above + 8355840,
            k.k1.below * x + 255 * k.k3.below,
            255 * (k.k2.below * x) + 65025 * k.k4.below,
        );
    }
}

// The channel at the index i of a and b.
fn look(k: Arithmetic, table: &[u8], a: &[u8], b: &[u8], i: usize) -> u8
    requires { ArithmeticTable k table.now × (i < length a.now) × (i < length b.now) }
    ensures { result ≡ channel_of k (get_or a.now i 0) (get_or b.now i 0) }
{
    table[256 * (a[i] as usize) + (b[i] as usize)]
}

// The pixel at the index i of a and b. Its colours are lowered to its new alpha.
fn arithmetic_at(k: Arithmetic, table: &[u8], a: &[u8], b: &[u8], dst: &mut [u8], i: usize)
    requires { ArithmeticTable k table.now × (i + 4 ≤ length a.now) × (i + 4 ≤ length b.now) × (i + 4 ≤ length dst.old) }
    ensures { Painted (λ x. by_arithmetic k (pixel_at a.now i) (pixel_at b.now i)) i 0 1 dst.old dst.new }
{
    let alpha = look(k, table, a, b, i + 3);
    let red = look(k, table, a, b, i).min(alpha);
    let green = look(k, table, a, b, i + 1).min(alpha);
    let blue = look(k, table, a, b, i + 2).min(alpha);
    put(dst, i, red, green, blue, alpha);
}

// A row of n pixels. Only the contract reads k.
pub fn arithmetic_row(k: Arithmetic, table: &[u8], a: &[u8], b: &[u8], dst: &mut [u8], n: usize)
    requires { ArithmeticTable k table.now × (length a.now ≡ 4 * n) × (length b.now ≡ 4 * n) × (length dst.old ≡ 4 * n) }
    ensures { Painted (arithmetic_at k a.now b.now) 0 0 n dst.old dst.new }
{
    for x in 0..n {
        arithmetic_at(k, table, a, b, dst, 4 * x);
    }
}
