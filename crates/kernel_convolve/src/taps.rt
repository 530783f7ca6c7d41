ghost use Rattle.std.specs.Prelude.{◌≤◌};

// A weight, and the offset of the byte that it goes with: small enough, and not too far on.
#[derive(Clone, Copy)]
pub struct Tap {
    pub weight: u64,
    pub offset: usize,
    pub ghost small: { weight ≤ 16777216 },
    pub ghost near: { offset ≤ 16464 },
}

impl Tap {
    ghost use Rattle.std.specs.Prelude.{◌≡◌, ◌+◌, ◌*◌};

    // A byte more in a sum.
    fn more(self, sum: u64, x: u8) -> u64
        requires { sum ≤ 106954752000 }
        ensures { (result ≡ sum + self.weight * x) × (result ≤ sum + 4278190080) }
    {
        sum + self.weight * u64::from(x)
    }
}

// One sum for each channel.
#[derive(Clone, Copy)]
pub struct Sums {
    pub r: u64,
    pub g: u64,
    pub b: u64,
    pub a: u64,
}

impl Sums {
    ghost use Rattle.std.specs.Prelude.{◌+◌, length};
    ghost use Rattle.kernel_convolve.specs.Code.{Added, SmallSums, Summed};

    // One tap more, with the pixel at the index o.
    fn with(self, tap: Tap, lines: &[u8], o: usize) -> Sums
        requires { SmallSums self × (o + 4 ≤ length lines.now) }
        ensures { Added self tap.weight lines.now o result }
    {
        Sums {
            r: tap.more(self.r, lines[o]),
            g: tap.more(self.g, lines[o + 1]),
            b: tap.more(self.b, lines[o + 2]),
            a: tap.more(self.a, lines[o + 3]),
        }
    }

    // All the taps, with the pixels from the index i on.
    pub fn of(taps: &[Tap], lines: &[u8], i: usize) -> Sums
        requires { (length taps.now ≤ 25) × (i + 16468 ≤ length lines.now) }
        ensures { Summed taps.now lines.now i result }
    {
        let mut sums = Sums {
            r: 0,
            g: 0,
            b: 0,
            a: 0,
        };
        for tap in taps {
            sums = sums.with(*tap, lines, tap.offset + i);
        }
        sums
    }
}
