// Folds of whole lines.
ghost use Rattle.std.specs.Prelude.{◌≡◌, ◌+◌, ◌*◌, ◌≤◌, ◌<◌, ◌^◌, length};
ghost use Rattle.window.specs.Store.{Filled, Lined};
ghost use Rattle.kernel_fold.specs.Operation.{operation};
ghost use Rattle.kernel_fold.specs.Ranges.{InBuffer};
ghost use Rattle.kernel_fold.specs.Lines.{earlier, later, paired_lines, around_line, twice_between, twice_at};

use super::Extreme;
use super::between::{Between, Reach};
use super::fold::fold_bytes;

// The line s before v, or v where there is none.
#[tactic(auto, unfolding(crate::specs::Lines::earlier))]
pub fn earlier_line(s: usize, v: usize) -> usize
    ensures { (result ≡ earlier s v) × (result ≤ v) }
{
    v.checked_sub(s).unwrap_or(v)
}

// The line t after v, or v where there is none among count.
#[tactic(auto, unfolding(crate::specs::Lines::later))]
pub fn later_line(t: usize, count: usize, v: usize) -> usize
    requires { v < count }
    ensures { (result ≡ later t count v) × (result < count) }
{
    if t < count - v { v + t } else { v }
}

// Where line v starts.
pub fn line_at(o: usize, n: usize, count: usize, v: usize) -> usize
    requires { (o + count * n < 2 ^ 64) × (v < count) }
    ensures { (result ≡ o + v * n) × (result + n ≤ o + count * n) }
{
    o + v * n
}

// Stores at each of the lines at `to` the extreme of two lines at `from`: the one that lies `back` before it and the one that lies `ahead` after
// it, or itself where there is none. Three runs of bytes, so that no loop tests for an edge.
pub fn fold_lines(op: Extreme, buf: &mut [u8], lines: Between, near: Reach)
    requires { InBuffer lines buf.old × (near.back + near.ahead ≤ lines.count) }
    ensures { Lined (paired_lines (operation op) buf.old lines.from lines.n lines.count near.back near.ahead) lines.to lines.n lines.count buf.old buf.new }
{
    let first = near.back * lines.n;
    let last = near.ahead * lines.n;
    let middle = lines.count * lines.n - first - last;
    let from = lines.from;
    let to = lines.to + first;
    fold_bytes(op, buf, from, [from + last], lines.to, first);
    fold_bytes(op, buf, from, [from + (first + last)], to, middle);
    fold_bytes(
        op,
        buf,
        from + middle,
        [from + middle + first],
        to + middle,
        last,
    );
}

// The same of three lines: the one before, the one after and itself.
pub fn fold_around(op: Extreme, buf: &mut [u8], lines: Between, near: Reach)
    requires { InBuffer lines buf.old × (near.back + near.ahead ≤ lines.count) }
    ensures { Lined (around_line (operation op) buf.old lines.from lines.n lines.count near.back near.ahead) lines.to lines.n lines.count buf.old buf.new }
{
    let before = near.back * lines.n;
    let after = near.ahead * lines.n;
    let whole = lines.count * lines.n - before - after;
    let from = lines.from;
    let own = from + before;
    let to = lines.to + before;
    fold_bytes(op, buf, from, [from + after], lines.to, before);
    fold_bytes(op, buf, from, [own + after, own], to, whole);
    fold_bytes(
        op,
        buf,
        from + whole,
        [from + whole + before],
        to + whole,
        after,
    );
}

// Two growths of line v at once, by `one` and then by `two`.
pub fn fold_line_twice(
    op: Extreme,
    buf: &mut [u8],
    lines: Between,
    v: usize,
    one: Reach,
    two: Reach,
)
    requires { InBuffer lines buf.old × (v < lines.count) }
    ensures { Filled (twice_at op buf.old lines one two v (lines.to + v * lines.n)) (lines.to + v * lines.n) (lines.to + v * lines.n + lines.n) buf.old buf.new }
{
    let from = lines.from;
    let n = lines.n;
    let count = lines.count;
    let y = earlier_line(two.back, v);
    let z = later_line(two.ahead, count, v);
    let a = line_at(from, n, count, earlier_line(one.back, y));
    let b = line_at(from, n, count, later_line(one.ahead, count, y));
    let c = line_at(from, n, count, earlier_line(one.back, z));
    let d = line_at(from, n, count, later_line(one.ahead, count, z));
    let to = line_at(lines.to, n, count, v);
    fold_bytes(op, buf, a, [b, c, d], to, n);
}

// The same for every line.
pub fn fold_lines_twice(op: Extreme, buf: &mut [u8], lines: Between, one: Reach, two: Reach)
    requires { InBuffer lines buf.old }
    ensures { Lined (twice_between op buf.old lines one two) lines.to lines.n lines.count buf.old buf.new }
{
    for v in 0..lines.count {
        fold_line_twice(op, buf, lines, v, one, two);
    }
}
