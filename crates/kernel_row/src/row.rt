// Rows copied, cleared, filled and moved.
ghost use Rattle.std.specs.Prelude.{◌≡◌, ◌+◌, ◌-◌, ◌*◌, ◌≤◌, length, replicate};
ghost use Rattle.pixel.specs.Alpha.{clear as transparent};
ghost use Rattle.pixel.specs.Bytes.{pixel_at, Painted};
ghost use Rattle.window.specs.Limits.{longest_side};
ghost use Rattle.kernel_row.specs.Row.{alpha_only, moved_row};
ghost use Rattle.kernel_row.specs.Code.{Parted};

use pixel::{Pixel, bytes};

pub fn copy(src: &[u8], dst: &mut [u8])
    requires { length src.now ≡ length dst.old }
    ensures { dst.new ≡ src.now }
{
    for (i, x) in dst.iter_mut().enumerate() {
        *x = src[i];
    }
}

pub fn clear(dst: &mut [u8])
    ensures { dst.new ≡ replicate (length dst.old) 0 }
{
    for x in dst.iter_mut() {
        *x = 0;
    }
}

// Stores p as each of n pixels.
pub fn fill(dst: &mut [u8], n: usize, p: Pixel)
    requires { 4 * n ≤ length dst.old }
    ensures { Painted (λ x. p) 0 0 n dst.old dst.new }
{
    let v = bytes::pack(p);
    for x in 0..n {
        bytes::put(dst, 4 * x, v);
    }
}

// The source's alpha.
pub fn alpha_row(src: &[u8], dst: &mut [u8], n: usize)
    requires { (4 * n ≤ length src.now) × (4 * n ≤ length dst.old) }
    ensures { Painted (λ x. alpha_only (pixel_at src.now (4 * x))) 0 0 n dst.old dst.new }
{
    for x in 0..n {
        let i = 4 * x;
        bytes::put(dst, i, bytes::word(src, i) / 16777216 * 16777216);
    }
}

// Clears the pixels from `from` up to `to` of a row.
pub fn clear_pixels(dst: &mut [u8], from: usize, to: usize)
    requires { (from ≤ to) × (4 * to ≤ length dst.old) }
    ensures { Painted (λ x. transparent) 0 from to dst.old dst.new }
{
    clear(&mut dst[4 * from..4 * to]);
}

// Copies pixels of src, from its pixel `at` on, to the pixels from `from` up to `to` of a row.
pub fn copy_pixels(src: &[u8], at: usize, dst: &mut [u8], from: usize, to: usize)
    requires { (from ≤ to) × (4 * to ≤ length dst.old) × (4 * (at + (to - from)) ≤ length src.now) }
    ensures { Painted (λ x. pixel_at src.now (4 * (at + (x - from)))) 0 from to dst.old dst.new }
{
    let o = 4 * at;
    let e = o + 4 * (to - from);
    copy(&src[o..e], &mut dst[4 * from..4 * to]);
}

// The first place from `from` on, and at most `to`, at which x + m is not below t.
fn part(t: usize, m: usize, from: usize, to: usize) -> usize
    requires { (from ≤ to) × (to ≤ longest_side) × (m ≤ longest_side) }
    ensures { Parted t m from to result }
{
    t.saturating_sub(m).clamp(from, to)
}

// The pixels from `from` up to `to` of a row of w pixels that is moved by right - left.
pub fn shift_row(
    src: &[u8],
    w: usize,
    right: usize,
    left: usize,
    dst: &mut [u8],
    from: usize,
    to: usize,
)
    requires w_in_bounds { (4 * w ≤ length src.now) × (w ≤ longest_side) × (right ≤ longest_side) × (left ≤ longest_side) }
    requires from_le_to { (from ≤ to) × (to ≤ longest_side) × (4 * to ≤ length dst.old) }
    ensures { Painted (moved_row src.now w right left) 0 from to dst.old dst.new }
{
    let lo = part(right, left, from, to);
    let hi = part(right + w, left, lo, to);
    if hi <= lo {
        clear_pixels(dst, from, to);
        return;
    }
    clear_pixels(dst, from, lo);
    copy_pixels(src, lo + left - right, dst, lo, hi);
    clear_pixels(dst, hi, to);
}
