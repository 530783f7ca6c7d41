// The rows of factors of a composite. They can be had of the rows where these lie, before they are copied.
ghost use Rattle.std.specs.Prelude.{◌≡◌, ℕ, ◌+◌, ◌-◌, ◌*◌, ◌≤◌, ◌<◌, length};
ghost use Rattle.pixel.specs.Bytes.{Painted};
ghost use Rattle.kernel_composite.specs.Factors.{twice, alpha_in, FactorRows};

use pixel::{Operator, bytes};

// A factor for each pixel, from its alpha, in both halves of a word.
fn factors<F: Fn(u32) -> u32>(a: &[u8], f: &mut [u8], n: usize, factor: F)
    requires in_bounds { (4 * n ≤ length a.now) × (4 * n ≤ length f.old) }
    requires callable { (t : ℕ) → t < 256 → F.pre factor t }
    requires small { (t r : ℕ) → t < 256 → F.post factor t r → r < 256 }
    ensures { (φ : ℕ → ℕ) → ((t r : ℕ) → t < 256 → F.post factor t r → r ≡ φ t) → Painted (λ x. twice (φ (alpha_in a.now x))) 0 0 n f.old f.new }
{
    for x in 0..n {
        let i = 4 * x;
        let t = factor(bytes::word(a, i) / 16777216);
        bytes::put(f, i, t * 65537);
    }
}

// Each pixel's alpha.
fn alphas(a: &[u8], f: &mut [u8], n: usize)
    requires { (4 * n ≤ length a.now) × (4 * n ≤ length f.old) }
    ensures { Painted (λ x. twice (alpha_in a.now x)) 0 0 n f.old f.new }
{
    factors(a, f, n, |t| t);
}

// What each pixel's alpha leaves of 255.
pub fn inverse_alphas(a: &[u8], f: &mut [u8], n: usize)
    requires { (4 * n ≤ length a.now) × (4 * n ≤ length f.old) }
    ensures { Painted (λ x. twice (255 - alpha_in a.now x)) 0 0 n f.old f.new }
{
    factors(a, f, n, |t| 255 - t);
}

// The factors of the operator that vary, for the rows a and b of n pixels: FA in f, and FB in g.
pub fn factor_rows(op: Operator, a: &[u8], b: &[u8], f: &mut [u8], g: &mut [u8], n: usize)
    requires { (4 * n ≤ length a.now) × (4 * n ≤ length b.now) × (4 * n ≤ length f.old) × (4 * n ≤ length g.old) }
    ensures { FactorRows op a.now b.now n f.old g.old f.new g.new }
{
    match op {
        Operator::Over => inverse_alphas(a, g, n),
        Operator::In => alphas(b, f, n),
        Operator::Out => inverse_alphas(b, f, n),
        Operator::Atop => {
            alphas(b, f, n);
            inverse_alphas(a, g, n);
        }
        Operator::Xor => {
            inverse_alphas(b, f, n);
            inverse_alphas(a, g, n);
        }
    }
}
