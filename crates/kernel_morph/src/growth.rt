// Windows that grow until they reach as far as is asked.
ghost use Rattle.std.specs.Prelude.{◌≡◌, true, ◌+◌, ◌-◌, ◌≤◌, ◌<◌};
ghost use Rattle.kernel_fold.specs.Ranges.{InBuffer};
ghost use Rattle.kernel_morph.specs.PingPong.{PingPong};
ghost use Rattle.kernel_morph.specs.Growth.{Growing, Sides, Stretch, Towards, Widened, windows};

use kernel_fold::Extreme;
use kernel_fold::between::{Between, Reach};
use kernel_fold::line::{fold_around, fold_lines, fold_lines_twice};

// From the reach `now` on towards `whole`: it about doubles.
fn stretch(now: Reach, whole: Reach) -> Reach
    requires { Growing now whole }
    ensures { Stretch now.back now.ahead whole.back whole.ahead result.back result.ahead }
{
    let s = now.back.max(1).min(whole.back - now.back);
    let most = (now.ahead + 1).min(now.back + now.ahead + 1 - s);
    let t = most.min(whole.ahead - now.ahead);
    Reach {
        back: now.back + s,
        ahead: now.ahead + t,
    }
}

// The same, as far as three windows cover: each side about doubles.
fn stretch_sides(now: Reach, whole: Reach) -> Reach
    requires { Growing now whole }
    ensures { Sides now.back now.ahead whole.back whole.ahead result.back result.ahead }
{
    Reach {
        back: whole.back.min(now.back + now.back + 1),
        ahead: whole.ahead.min(now.ahead + now.ahead + 1),
    }
}

// From one reach to the next.
fn step(now: Reach, next: Reach) -> Reach
    requires { (now.back ≤ next.back) × (now.ahead ≤ next.ahead) }
    ensures { (result.back ≡ next.back - now.back) × (result.ahead ≡ next.ahead - now.ahead) }
{
    Reach {
        back: next.back - now.back,
        ahead: next.ahead - now.ahead,
    }
}

// Lines of this many bytes and more grow twice in one pass over them: a picture of such lines does not stay in the cache.
const LONG: usize = 1024;

// Whether a pass takes three windows: the first one over short lines, where by two a last pass would be left for one line alone.
fn takes_three(n: usize, now: Reach, whole: Reach) -> bool
    requires { Growing now whole }
    ensures { result ≡ true → now.back + now.ahead ≡ 0 }
{
    now.back + now.ahead == 0
        && whole.back == whole.ahead
        && n < LONG
        && whole.back.is_power_of_two()
}

// From the windows at one place longer ones at the other. The answer is their reach; how far it is, within `Towards`, is open: a caller goes on
// until they reach far enough.
fn widen(op: Extreme, buf: &mut [u8], lines: Between, now: Reach, whole: Reach) -> Reach
    requires in_buffer { InBuffer lines buf.old }
    requires growing { Growing now whole × (whole.back < lines.count) × (whole.ahead < lines.count) }
    ensures widened { Widened op now.back now.ahead result.back result.ahead lines.from lines.to lines.n lines.count buf.old buf.new }
    ensures towards { Towards now.back now.ahead whole.back whole.ahead result.back result.ahead }
{
    if takes_three(lines.n, now, whole) {
        let three = stretch_sides(now, whole);
        fold_around(op, buf, lines, step(now, three));
        return three;
    }
    let one = stretch(now, whole);
    if lines.n < LONG {
        fold_lines(op, buf, lines, step(now, one));
        return one;
    }
    let two = stretch(one, whole);
    fold_lines_twice(op, buf, lines, step(now, one), step(one, two));
    two
}

// The windows of the lines at the first place, cut at the ends of the lines, by windows that double. The answer is where they are.
pub fn grow_windows(op: Extreme, buf: &mut [u8], lines: Between, whole: Reach) -> usize
    requires in_buffer { InBuffer lines buf.old }
    requires short { (whole.back < lines.count) × (whole.ahead < lines.count) × (whole.back ≤ 64) × (whole.ahead ≤ 64) }
    ensures { PingPong (windows op buf.old lines.from lines.n lines.count whole.back whole.ahead) lines.from lines.to lines.n lines.count result buf.old buf.new }
{
    let mut way = lines;
    let mut now = Reach { back: 0, ahead: 0 };
    while now.back + now.ahead < whole.back + whole.ahead {
        now = widen(op, buf, way, now, whole);
        way = way.turned();
    }
    way.from
}
