ghost use Rattle.std.specs.Prelude.{◌≡◌, ℕ, ◌+◌, ◌-◌, ◌*◌, ◌/◌, ◌≤◌, ◌<◌, length, get_or};
ghost use Rattle.window.specs.Store.{Filled};
ghost use Rattle.kernel_sums.specs.Reciprocal.{Divides};
ghost use Rattle.kernel_sums.specs.Running.{slid, Slides};
ghost use Rattle.window.specs.Ranges.{Apart};

use crate::reciprocal::{Reciprocal, mean};

// Adds a line, byte by byte.
pub fn gain(line: &[u8], sums: &mut [u16])
    requires n_in_bounds { length line.now ≤ length sums.old }
    requires by_index { (i : ℕ) → i < length line.now → get_or sums.old i 0 < 65280 }
    ensures { Filled (λ i. get_or sums.old i 0 + get_or line.now i 0) 0 (length line.now) sums.old sums.new }
{
    for (i, x) in line.iter().enumerate() {
        sums[i] += u16::from(*x);
    }
}

// Takes a line away.
pub fn lose(line: &[u8], sums: &mut [u16])
    requires n_in_bounds { length line.now ≤ length sums.old }
    requires by_index { (i : ℕ) → i < length line.now → get_or line.now i 0 ≤ get_or sums.old i 0 }
    ensures { Filled (λ i. get_or sums.old i 0 - get_or line.now i 0) 0 (length line.now) sums.old sums.new }
{
    for (i, x) in line.iter().enumerate() {
        sums[i] -= u16::from(*x);
    }
}

// Stores the sums, each divided by size, as a line.
pub fn means(line: &mut [u8], sums: &[u16], by: Reciprocal, size: usize)
    requires n_in_bounds { (length line.old ≤ length sums.now) × Divides by.mul by.shift size }
    requires by_index { (i : ℕ) → i < length line.old → get_or sums.now i 0 ≤ 255 * size + size / 2 }
    ensures { Filled (λ i. get_or sums.now i 0 / size) 0 (length line.old) line.old line.new }
{
    for (i, x) in line.iter_mut().enumerate() {
        *x = mean(sums[i], by, size);
    }
}

// The same three in one loop: adds the line at p, takes the line at q away, and stores the means at r.
pub fn slide_line(
    buf: &mut [u8],
    p: usize,
    q: usize,
    r: usize,
    sums: &mut [u16],
    n: usize,
    by: Reciprocal,
    size: usize,
)
    requires n_in_bounds { (p + n ≤ length buf.old) × (q + n ≤ length buf.old) × (r + n ≤ length buf.old) × (n ≤ length sums.old)
        × Divides by.mul by.shift size }
    requires apart { Apart p n r n × Apart q n r n }
    requires slides { Slides sums.old buf.old p q n size }
    ensures filled { Filled (slid sums.old buf.old p q) 0 n sums.old sums.new }
    ensures filled_2 { Filled (λ j. slid sums.old buf.old p q (j - r) / size) r (r + n) buf.old buf.new }
{
    for (i, sum) in sums[..n].iter_mut().enumerate() {
        *sum = *sum + u16::from(buf[p + i]) - u16::from(buf[q + i]);
        buf[r + i] = mean(*sum, by, size);
    }
}
