ghost use Rattle.std.specs.Prelude.{ℕ, ◌+◌, ◌*◌, ◌≤◌, ◌<◌, length};
ghost use Rattle.window.specs.Store.{Lined, WorkBuffer};
ghost use Rattle.window.specs.Window.{column, mean};
ghost use Rattle.window.specs.Ranges.{Apart};
ghost use Rattle.kernel_sums.specs.Running.{Sums};
ghost use Rattle.kernel_blur.specs.PassAdvanced.{PassReady, Advanced};

use kernel_sums::reciprocal::reciprocal_of;
use kernel_sums::running::{BoxPass, enter, leave, start};
use kernel_sums::sums::{means, slide_line};

// One line of the pass, near the first or the last.
fn edge_line(buf: &mut [u8], p: BoxPass, y: usize, sums: &mut [u16])
    requires { PassReady p buf.old sums.old × (y < p.count) × Sums p buf.old y sums.old }
    ensures { Advanced p y (y + 1) buf.old sums.old buf.new sums.new }
{
    enter(&buf[..], p, y + p.ahead, sums);
    leave(&buf[..], p, y, sums);
    let to = p.to + y * p.n;
    means(
        &mut buf[to..to + p.n],
        &sums[..],
        p.by,
        p.back + p.ahead + 1,
    );
}

// The same where a line enters and a line leaves.
fn inner_line(buf: &mut [u8], p: BoxPass, y: usize, sums: &mut [u16])
    requires { PassReady p buf.old sums.old × (p.back < y) × (y + p.ahead < p.count) × Sums p buf.old y sums.old }
    ensures { Advanced p y (y + 1) buf.old sums.old buf.new sums.new }
{
    let enters = p.from + (y + p.ahead) * p.n;
    let leaves = p.from + (y - p.back - 1) * p.n;
    let to = p.to + y * p.n;
    let size = p.back + p.ahead + 1;
    slide_line(buf, enters, leaves, to, sums, p.n, p.by, size);
}

// A box pass along the columns of count lines of n bytes: from the lines at from to those at to. The sums are for its own use.
pub fn box_pass(
    buf: &mut [u8],
    from: usize,
    to: usize,
    n: usize,
    count: usize,
    back: usize,
    ahead: usize,
    sums: &mut [u16],
)
    requires n_in_bounds { (from + count * n ≤ length buf.old) × (to + count * n ≤ length buf.old) × Apart from (count * n) to (count * n) }
    requires n_in_bounds_2 { (n ≤ length sums.old) × (count ≤ 65536) × (1 ≤ back + ahead) × (back + ahead + 1 ≤ 61) }
    ensures lined { Lined (λ v i. mean back ahead (column buf.old from n count i) v) to n count buf.old buf.new }
    ensures work_buffer { WorkBuffer sums.old sums.new }
{
    let p = BoxPass {
        from,
        to,
        n,
        count,
        back,
        ahead,
        by: reciprocal_of(back + ahead + 1),
    };
    // a line leaves from y on, and none enters from z on
    let y = count.min(back + 1);
    let z = y.max(count.saturating_sub(ahead));
    start(&buf[..], p, sums);
    // a loop for each kind of line, since a test inside would keep it from being vectorised
    for v in 0..y {
        edge_line(buf, p, v, sums);
    }
    for v in y..z {
        inner_line(buf, p, v, sums);
    }
    for v in z..count {
        edge_line(buf, p, v, sums);
    }
}
