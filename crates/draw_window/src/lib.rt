// What steps that look around have in common: how much of a line their results look at. The crate's laws say that it is enough.
#![tactic(auto)]

ghost use Rattle.std.specs.Prelude.{◌-◌, ◌≤◌, ◌<◌};
ghost use Rattle.window.specs.Limits.{longest_side};
ghost use Rattle.draw_window.specs.LookedAt.{LookedAt};

// Places from .. to - 1 of a line.
#[derive(Clone, Copy)]
pub struct Span {
    pub from: usize,
    pub to: usize,
}

// All that the places from .. to - 1 of a line of n places look at, up to `back` places before each and `ahead` behind it.
pub fn looked_at(n: usize, from: usize, to: usize, back: usize, ahead: usize) -> Span
    requires { (from < to) × (to ≤ n) × (n ≤ longest_side) × (ahead ≤ longest_side) }
    ensures { LookedAt n from to back ahead result.from result.to }
{
    Span {
        from: from.saturating_sub(back),
        to: n.min(to + ahead),
    }
}
