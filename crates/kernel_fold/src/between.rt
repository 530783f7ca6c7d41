// Where lines are read and stored, and how far from a line the others that it takes in lie.
ghost use Rattle.std.specs.Prelude.{◌≡◌, ◌+◌, ◌*◌, ◌≤◌, ◌<◌};

// count lines of n bytes at the index `from` of a buffer, and as many at `to`. They have no byte in common: lines at `to` that begin before
// those at `from` end, end before those begin.
#[derive(Clone, Copy)]
pub struct Between {
    pub from: usize,
    pub to: usize,
    pub n: usize,
    pub count: usize,
    ghost apart: { to < from + count * n → to + count * n ≤ from },
}

impl Between {
    // The way back.
    pub fn turned(self) -> Between
        ensures from { result.from ≡ self.to }
        ensures to { result.to ≡ self.from }
        ensures n { result.n ≡ self.n }
        ensures count { result.count ≡ self.count }
    {
        Between {
            from: self.to,
            to: self.from,
            n: self.n,
            count: self.count,
        }
    }
}

// As many lines before a line, and as many after it.
#[derive(Clone, Copy)]
pub struct Reach {
    pub back: usize,
    pub ahead: usize,
}
