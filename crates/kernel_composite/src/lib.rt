// Porter-Duff by rows, two bytes at a time: of 16 bits the compiler makes whole vectors.
#![tactic(auto)]

mod bytes;
mod factor;

ghost use Rattle.std.specs.Prelude.{◌≡◌, ◌+◌, ◌*◌, ◌/◌, ◌%◌, ◌≤◌, ◌<◌, length};
ghost use Rattle.window.specs.Store.{Filled, WorkBuffer};
ghost use Rattle.pixel.specs.declared.Operator.TheVariants as op;
ghost use Rattle.pixel.specs.Bytes.{Painted, ValidRow};
ghost use Rattle.kernel_composite.specs.CompositedRow.{composited_at};
ghost use Rattle.kernel_composite.specs.BytePairs.{Paired};
ghost use Rattle.kernel_composite.specs.Factors.{Factors};
ghost use Rattle.kernel_composite.specs.Code.{weighted, blended, blended_by, row, Fitting};

use pixel::Operator;

// (n + 127) ÷ 255: in 16 bits the compiler makes a multiplication and a shift of it.
fn div255(n: u16) -> u16
    requires { n ≤ 65025 }
    ensures { (result ≡ (n + 127) / 255) × (result < 256) }
{
    (n + 127) / 255
}

// Two bytes as one number.
fn joined(low: u16, high: u16) -> u16
    requires { (low < 256) × (high < 256) }
    ensures { Paired low high result }
{
    low + high * 256
}

// The two bytes x by a factor f.
fn scaled(x: u16, f: u16) -> u16
    requires { f < 256 }
    ensures { Paired ((x % 256 * f + 127) / 255) ((x / 256 * f + 127) / 255) result }
{
    joined(div255(x % 256 * f), div255(x / 256 * f))
}

// The two bytes x by a factor f, and the two bytes y by a factor g.
fn mixed(x: u16, f: u16, y: u16, g: u16) -> u16
    requires { (f < 256) × (g < 256) × (weighted (x % 256) f (y % 256) g ≤ 65025) × (weighted (x / 256) f (y / 256) g ≤ 65025) }
    ensures { Paired ((weighted (x % 256) f (y % 256) g + 127) / 255) ((weighted (x / 256) f (y / 256) g + 127) / 255) result }
{
    let low = div255(x % 256 * f + y % 256 * g);
    let high = div255(x / 256 * f + y / 256 * g);
    joined(low, high)
}

// The same with f of 255: 255·u is a multiple of 255.
fn laid(x: u16, y: u16, g: u16) -> u16
    requires { (g < 256) × (weighted (x % 256) 255 (y % 256) g ≤ 65025) × (weighted (x / 256) 255 (y / 256) g ≤ 65025) }
    ensures { Paired ((weighted (x % 256) 255 (y % 256) g + 127) / 255) ((weighted (x / 256) 255 (y / 256) g + 127) / 255) result }
{
    x + scaled(y, g)
}

// The bytes of a by the factors f.
fn scale(a: &[u8], f: &[u8], dst: &mut [u8], n: usize)
    requires a_len { (length a.now ≡ 4 * n) × (length f.now ≡ 4 * n) × (length dst.old ≡ 4 * n) }
    requires fitting { Fitting a.now (row f.now) a.now (λ _. 0) (4 * n) }
    ensures { Filled (blended a.now (row f.now) a.now (λ _. 0)) 0 (4 * n) dst.old dst.new }
{
    let m = 2 * n;
    for j in 0..m {
        bytes::put_pair(dst, j, scaled(bytes::pair(a, j), bytes::pair(f, j)));
    }
}

// The bytes of a by the factors f, and those of b by g.
fn mix(a: &[u8], f: &[u8], b: &[u8], g: &[u8], dst: &mut [u8], n: usize)
    requires a_len { (length a.now ≡ 4 * n) × (length f.now ≡ 4 * n) × (length b.now ≡ 4 * n) × (length g.now ≡ 4 * n) × (length dst.old ≡ 4 * n) }
    requires fitting { Fitting a.now (row f.now) b.now (row g.now) (4 * n) }
    ensures { Filled (blended_by a.now f.now b.now g.now) 0 (4 * n) dst.old dst.new }
{
    let m = 2 * n;
    for j in 0..m {
        bytes::put_pair(
            dst,
            j,
            mixed(
                bytes::pair(a, j),
                bytes::pair(f, j),
                bytes::pair(b, j),
                bytes::pair(g, j),
            ),
        );
    }
}

// The bytes of a as they are, and those of b by the factors g.
fn lay(a: &[u8], b: &[u8], g: &[u8], dst: &mut [u8], n: usize)
    requires a_len { (length a.now ≡ 4 * n) × (length b.now ≡ 4 * n) × (length g.now ≡ 4 * n) × (length dst.old ≡ 4 * n) }
    requires fitting { Fitting a.now (λ _. 255) b.now (row g.now) (4 * n) }
    ensures { Filled (blended a.now (λ _. 255) b.now (row g.now)) 0 (4 * n) dst.old dst.new }
{
    let m = 2 * n;
    for j in 0..m {
        bytes::put_pair(
            dst,
            j,
            laid(bytes::pair(a, j), bytes::pair(b, j), bytes::pair(g, j)),
        );
    }
}

// The same where b is what dst holds.
fn lay_onto(a: &[u8], g: &[u8], dst: &mut [u8], n: usize)
    requires a_len { (length a.now ≡ 4 * n) × (length g.now ≡ 4 * n) × (length dst.old ≡ 4 * n) }
    requires fitting { Fitting a.now (λ _. 255) dst.old (row g.now) (4 * n) }
    ensures { Filled (blended a.now (λ _. 255) dst.old (row g.now)) 0 (4 * n) dst.old dst.new }
{
    let m = 2 * n;
    for j in 0..m {
        let y = bytes::pair(&dst[..], j);
        bytes::put_pair(dst, j, laid(bytes::pair(a, j), y, bytes::pair(g, j)));
    }
}

// A row of a composited with a row of b, each of n pixels, by the rows of factors f and g.
pub fn blend_row(op: Operator, a: &[u8], b: &[u8], f: &[u8], g: &[u8], dst: &mut [u8], n: usize)
    requires a_len { (length a.now ≡ 4 * n) × (length b.now ≡ 4 * n) × (length f.now ≡ 4 * n) × (length g.now ≡ 4 * n) × (length dst.old ≡ 4 * n) }
    requires valid_row { ValidRow a.now n × ValidRow b.now n × Factors op a.now b.now f.now g.now n }
    ensures { Painted (composited_at op a.now b.now) 0 0 n dst.old dst.new }
{
    match op {
        Operator::Over => lay(a, b, g, dst, n),
        Operator::In => scale(a, f, dst, n),
        Operator::Out => scale(a, f, dst, n),
        Operator::Atop => mix(a, f, b, g, dst, n),
        Operator::Xor => mix(a, f, b, g, dst, n),
    }
}

// A row of a composited with a row of b, each of n pixels; f and g are work rows.
pub fn composite_row(
    op: Operator,
    a: &[u8],
    b: &[u8],
    f: &mut [u8],
    g: &mut [u8],
    dst: &mut [u8],
    n: usize,
)
    requires a_len { (length a.now ≡ 4 * n) × (length b.now ≡ 4 * n) × (length f.old ≡ 4 * n) × (length g.old ≡ 4 * n) × (length dst.old ≡ 4 * n) }
    requires valid_row { ValidRow a.now n × ValidRow b.now n }
    ensures painted { Painted (composited_at op a.now b.now) 0 0 n dst.old dst.new }
    ensures work_buffer { WorkBuffer f.old f.new × WorkBuffer g.old g.new }
{
    factor::factor_rows(op, a, b, f, g, n);
    blend_row(op, a, b, f, g, dst, n);
}

// A row of a laid over what dst holds, as merge does; g is a work row.
pub fn over_onto(a: &[u8], g: &mut [u8], dst: &mut [u8], n: usize)
    requires a_len { (length a.now ≡ 4 * n) × (length g.old ≡ 4 * n) × (length dst.old ≡ 4 * n) }
    requires valid_row { ValidRow a.now n × ValidRow dst.old n }
    ensures painted { Painted (composited_at op.Over a.now dst.old) 0 0 n dst.old dst.new }
    ensures work_buffer { WorkBuffer g.old g.new }
{
    factor::inverse_alphas(a, g, n);
    lay_onto(a, g, dst, n);
}
