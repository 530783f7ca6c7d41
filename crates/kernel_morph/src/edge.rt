// The edges of windows that leave the lines.
ghost use Rattle.std.specs.Prelude.{◌+◌, ◌*◌, ◌≤◌, length};
ghost use Rattle.window.specs.Store.{Lined};
ghost use Rattle.kernel_morph.specs.Growth.{edged_line};

use kernel_fold::Extreme;
use kernel_fold::between::Reach;

// The least of a window that leaves the lines is 0.
pub fn clear_edges(buf: &mut [u8], o: usize, n: usize, count: usize, reach: Reach)
    requires { o + count * n ≤ length buf.old }
    ensures { Lined (edged_line Extreme.Least reach.back reach.ahead buf.old o n count) o n count buf.old buf.new }
{
    let end = o + count * n;
    let first = reach.back.min(count) * n;
    let last = reach.ahead.min(count) * n;
    buf[o..o + first].fill(0);
    buf[end - last..end].fill(0);
}

// The largest needs no more than the cut windows: 0 never exceeds a byte.
pub fn finish_edges(op: Extreme, buf: &mut [u8], o: usize, n: usize, count: usize, reach: Reach)
    requires { o + count * n ≤ length buf.old }
    ensures { Lined (edged_line op reach.back reach.ahead buf.old o n count) o n count buf.old buf.new }
{
    match op {
        Extreme::Least => clear_edges(buf, o, n, count, reach),
        Extreme::Largest => {}
    }
}
