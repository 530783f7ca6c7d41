// Rows copied, cleared, filled and moved, and the scan.
ghost use Rattle.std.specs.Prelude.{◌≡◌, ◌*◌, ◌≤◌, length, replicate};
ghost use Rattle.pixel.specs.Alpha.{pixel};
ghost use Rattle.pixel.specs.Bytes.{pixel_at, Painted, first_invalid};
ghost use Rattle.kernel_row.specs.Row.{alpha_only, moved_row};
ghost use Rattle.window.specs.Limits.{longest_side};

use pixel::Pixel;

#[unsafe(no_mangle)]
pub extern "C" fn twillgoose_kernel_copy(src: &[u8], dst: &mut [u8])
    requires { length src.now ≡ length dst.old }
    ensures { dst.new ≡ src.now }
{
    kernel_row::row::copy(src, dst);
}

#[unsafe(no_mangle)]
pub extern "C" fn twillgoose_kernel_clear(dst: &mut [u8])
    ensures { dst.new ≡ replicate (length dst.old) 0 }
{
    kernel_row::row::clear(dst);
}

#[unsafe(no_mangle)]
pub extern "C" fn twillgoose_kernel_fill(dst: &mut [u8], n: usize, r: u8, g: u8, b: u8, a: u8)
    requires { 4 * n ≤ length dst.old }
    ensures { Painted (λ x. pixel r g b a) 0 0 n dst.old dst.new }
{
    kernel_row::row::fill(dst, n, Pixel { r, g, b, a });
}

#[unsafe(no_mangle)]
pub extern "C" fn twillgoose_kernel_alpha_row(src: &[u8], dst: &mut [u8], n: usize)
    requires { (4 * n ≤ length src.now) × (4 * n ≤ length dst.old) }
    ensures { Painted (λ x. alpha_only (pixel_at src.now (4 * x))) 0 0 n dst.old dst.new }
{
    kernel_row::row::alpha_row(src, dst, n);
}

#[unsafe(no_mangle)]
pub extern "C" fn twillgoose_kernel_shift_row(
    src: &[u8],
    w: usize,
    right: usize,
    left: usize,
    dst: &mut [u8],
    from: usize,
    to: usize,
)
    requires w_in_bounds { (4 * w ≤ length src.now) × (w ≤ longest_side) × (right ≤ longest_side) × (left ≤ longest_side) }
    requires from_le_to { (from ≤ to) × (to ≤ longest_side) × (4 * to ≤ length dst.old) }
    ensures { Painted (moved_row src.now w right left) 0 from to dst.old dst.new }
{
    kernel_row::row::shift_row(src, w, right, left, dst, from, to);
}

#[unsafe(no_mangle)]
pub extern "C" fn twillgoose_kernel_first_invalid(s: &[u8], w: usize, h: usize) -> usize
    requires { length s.now ≡ 4 * (w * h) }
    ensures { result ≡ first_invalid s.now (w * h) }
{
    kernel_row::scan::first_invalid(s, w, h)
}
