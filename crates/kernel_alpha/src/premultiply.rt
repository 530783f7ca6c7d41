// Premultiply a row of pixels in place.
ghost use Rattle.std.specs.Prelude.{◌≡◌, ◌+◌, ◌*◌, ◌≤◌, length, get_or};
ghost use Rattle.window.specs.Store.{Filled};
ghost use Rattle.window.specs.Limits.{longest_side};
ghost use Rattle.pixel.specs.Bytes.{pixel_at, Painted};
ghost use Rattle.kernel_alpha.specs.Premultiplied.{premultiplied_pixel};
ghost use Rattle.kernel_alpha.specs.Code.{factors, scaled_by};

use super::store::alpha;
use pixel::alpha::premultiply;

// What each byte of a pixel is multiplied by: its alpha, and 255 for the alpha itself. The sum of two products keeps the
// four bytes one word: with a constant in the highest the compiler would store them one by one.
fn factor_row(d: &[u8], f: &mut [u8], n: usize)
    requires { (length d.now ≡ 4 * n) × (4 * n ≤ length f.old) }
    ensures { Painted (λ x. factors (get_or d.now (4 * x + 3) 0)) 0 0 n f.old f.new }
{
    for x in 0..n {
        let i = 4 * x;
        let a = alpha(d, i);
        pixel::bytes::put(f, i, a * 16843009 + (255 - a) * 16777216);
    }
}

// Each byte by its factor.
fn scale_row(f: &[u8], d: &mut [u8])
    requires { length d.old ≤ length f.now }
    ensures { Filled (scaled_by d.old f.now) 0 (length d.old) d.old d.new }
{
    for (i, x) in d.iter_mut().enumerate() {
        *x = premultiply(*x, f[i]);
    }
}

// Colours by their alpha.
pub fn premultiply_row(d: &mut [u8], n: usize)
    requires { (length d.old ≡ 4 * n) × (n ≤ longest_side) }
    ensures { Painted (λ x. premultiplied_pixel (pixel_at d.old (4 * x))) 0 0 n d.old d.new }
{
    let mut f = [0u8; window::ROW];
    factor_row(&d[..], &mut f, n);
    scale_row(&f, d);
}
