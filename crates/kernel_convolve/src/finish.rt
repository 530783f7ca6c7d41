// The last step of a row: colours lowered to their alpha, or premultiplied by the input's, which is kept.
ghost use Rattle.std.specs.Prelude.{◌≡◌, cond, ◌+◌, ◌*◌, ◌≤◌, ◌<◌, min, length, get_or};
ghost use Rattle.window.specs.Store.{Filled};
ghost use Rattle.window.specs.Limits.{longest_side};
ghost use Rattle.pixel.specs.Alpha.{lowered};
ghost use Rattle.pixel.specs.Bytes.{pixel_at, Painted};
ghost use Rattle.kernel_lines.specs.Lines.{all_lines};
ghost use Rattle.kernel_lines.specs.Convolved.{own_alpha, kept_by};
ghost use Rattle.kernel_convolve.specs.Code.{with_alpha, lowest};

use pixel::Convolution;

// The alphas of the lines from the index `own` on, four by four, for those of n pixels.
fn put_alphas(lines: &[u8], own: usize, d: &mut [u8], n: usize)
    requires { (own + 4 * n ≤ length lines.now + 3) × (length d.old ≡ 4 * n) }
    ensures { Painted (λ x. with_alpha (get_or lines.now (own + 4 * x) 0) (pixel_at d.old (4 * x))) 0 0 n
        d.old d.new }
{
    for x in 0..n {
        d[4 * x + 3] = lines[own + 4 * x];
    }
}

// The alpha of each pixel four times.
fn alpha_row(d: &[u8], f: &mut [u8], n: usize)
    requires { (length d.now ≡ 4 * n) × (4 * n ≤ length f.old) }
    ensures { Painted (λ x. lowest (get_or d.now (4 * x + 3) 0)) 0 0 n f.old f.new }
{
    for x in 0..n {
        let i = 4 * x;
        pixel::bytes::put(f, i, u32::from(d[i + 3]) * 16843009);
    }
}

// Each byte, or that of f where it is less.
fn lesser_row(f: &[u8], d: &mut [u8])
    requires { length d.old ≤ length f.now }
    ensures { Filled (λ i. min (get_or d.old i 0) (get_or f.now i 0)) 0 (length d.old) d.old d.new }
{
    for (i, x) in d.iter_mut().enumerate() {
        *x = (*x).min(f[i]);
    }
}

// Colours lowered to their alpha.
fn lower_row(d: &mut [u8], n: usize)
    requires { (length d.old ≡ 4 * n) × (n ≤ longest_side) }
    ensures { Painted (λ x. lowered (pixel_at d.old (4 * x))) 0 0 n d.old d.new }
{
    let mut f = [0u8; window::ROW];
    alpha_row(&d[..], &mut f, n);
    lesser_row(&f, d);
}

// Sums that were divided, as pixels.
pub fn finish_row(convolution: Convolution, lines: &[u8], left: usize, count: usize, out: &mut [u8])
    requires { (convolution.row < 5) × (convolution.column < 5) × (length lines.now ≡ all_lines) × (left + count ≤ longest_side)
        × (length out.old ≡ 4 * count) }
    ensures { Painted
        (λ x. cond convolution.preserve (kept_by (own_alpha convolution lines.now (left + x)) (pixel_at out.old (4 * x)))
        (lowered (pixel_at out.old (4 * x))))
        0 0 count out.old out.new }
{
    if convolution.preserve {
        let own = convolution.row * kernel_lines::LINE + 4 * (left + convolution.column) + 3;
        put_alphas(lines, own, out, count);
        kernel_alpha::premultiply::premultiply_row(out, count);
        return;
    }
    lower_row(out, count);
}
