ghost use Rattle.std.specs.Prelude.{ℕ, ◌+◌, ◌*◌, ◌≤◌, ◌<◌, length, get_or};
ghost use Rattle.window.specs.Store.{Filled};
ghost use Rattle.window.specs.Window.{behind};
ghost use Rattle.kernel_sums.specs.Running.{columns, Sums, without};

use crate::reciprocal::Reciprocal;
use crate::sums::{gain, lose};

// A pass over count lines of n bytes: the means of those at from go to those at to.
#[derive(Clone, Copy)]
pub struct BoxPass {
    pub from: usize,
    pub to: usize,
    pub n: usize,
    pub count: usize,
    pub back: usize,
    pub ahead: usize,
    pub by: Reciprocal,
}

// Adds line v, or nothing where there is no line v.
pub fn enter(buf: &[u8], p: BoxPass, v: usize, sums: &mut [u16])
    requires n_in_bounds { (p.from + p.count * p.n ≤ length buf.now) × (p.n ≤ length sums.old) }
    requires by_index { (i : ℕ) → i < p.n → get_or sums.old i 0 < 65280 }
    ensures { Filled (λ i. get_or sums.old i 0 + columns p buf.now i v) 0 p.n sums.old sums.new }
{
    if v < p.count {
        let o = p.from + v * p.n;
        gain(&buf[o..o + p.n], sums);
    }
}

// Takes away the line that is behind the window at y, if there is one.
pub fn leave(buf: &[u8], p: BoxPass, y: usize, sums: &mut [u16])
    requires n_in_bounds { (p.from + p.count * p.n ≤ length buf.now) × (p.n ≤ length sums.old) × (y < p.count) }
    requires by_index { (i : ℕ) → i < p.n → behind (p.back + 1) (columns p buf.now i) y ≤ get_or sums.old i 0 }
    ensures { Filled (without p buf.now y sums.old) 0 p.n sums.old sums.new }
{
    if p.back < y {
        let o = p.from + (y - p.back - 1) * p.n;
        lose(&buf[o..o + p.n], sums);
    }
}

// The sums before the first line.
pub fn start(buf: &[u8], p: BoxPass, sums: &mut [u16])
    requires { (p.from + p.count * p.n ≤ length buf.now) × (p.n ≤ length sums.old) × (p.back + p.ahead + 1 ≤ 61) }
    ensures { Sums p buf.now 0 sums.new }
{
    let half = ((p.back + p.ahead + 1) / 2) as u16;
    sums[..p.n].fill(half);
    for v in 0..p.ahead {
        enter(buf, p, v, sums);
    }
}
