// The least and the largest of a window of lines (erode, dilate): lines of bytes in one buffer, by windows that double.
#![tactic(auto)]

mod edge;
mod growth;

ghost use Rattle.kernel_morph.specs.Extremes.{extreme_at};
ghost use Rattle.kernel_morph.specs.PingPong.{Windowed, PingPong};

use kernel_fold::Extreme;
use kernel_fold::between::{Between, Reach};

// Of each of the count lines of n bytes at a, the extreme over the lines from `back` before it to `ahead` after it, byte by byte, where a line
// outside of them reads 0. The answer is where these lines are, a or b; the other of the two is scratch.
pub fn extreme_lines(
    op: Extreme,
    buf: &mut [u8],
    a: usize,
    b: usize,
    n: usize,
    count: usize,
    back: usize,
    ahead: usize,
) -> usize
    requires { Windowed a b n count back ahead buf.old }
    ensures { PingPong (extreme_at op back ahead buf.old a n count) a b n count result buf.old buf.new }
{
    let last = count - 1;
    let lines = Between {
        from: a,
        to: b,
        n,
        count,
    };
    let whole = Reach {
        back: back.min(last),
        ahead: ahead.min(last),
    };
    let here = growth::grow_windows(op, buf, lines, whole);
    edge::finish_edges(op, buf, here, n, count, Reach { back, ahead });
    here
}
