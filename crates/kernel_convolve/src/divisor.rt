ghost use Rattle.std.specs.Prelude.{◌≡◌, ◌/◌, ◌≤◌, ◌<◌};

use number::Fixed;

// How far a divisor is from zero, and 2^40 divided by that.
#[derive(Clone, Copy)]
pub struct Divisor {
    pub size: u64,
    pub inverse: u64,
    pub ghost some: { 0 < size },
    pub ghost small: { size ≤ 419430400 },
    pub ghost inverts: { inverse ≡ 1099511627776 / size },
}

impl Divisor {
    ghost use Rattle.std.specs.Prelude.{◌+◌, ◌-◌, ◌*◌, min};
    ghost use Rattle.pixel.specs.Coefficient.{Allowed};
    ghost use Rattle.kernel_convolve.specs.Code.{lift_over, lift_under};

    pub fn new(size: u64) -> Divisor
        requires { (0 < size) × (size ≤ 419430400) }
        ensures { result.size ≡ size }
    {
        Divisor {
            size,
            inverse: 1099511627776 / size,
        }
    }

    // What the bias and the half that rounds add to a sum, where that is above zero.
    pub fn lift_over(self, bias: Fixed, a: u8) -> u64
        requires { Allowed bias }
        ensures { (result ≡ lift_over bias self.size a) × (result ≤ 27380626227200) }
    {
        let x = u64::from(a);
        self.size * (bias.above * x + 32768).saturating_sub(bias.below * x) / 65536
    }

    // What they take away, where that is below zero; rounded up, so that the sum is rounded down.
    pub fn lift_under(self, bias: Fixed, a: u8) -> u64
        requires { Allowed bias }
        ensures { (result ≡ lift_under bias self.size a) × (result ≤ 27380626227200) }
    {
        let x = u64::from(a);
        (self.size * (bias.below * x).saturating_sub(bias.above * x + 32768) + 65535) / 65536
    }

    // z / size without a division, at most one too small.
    fn nearly(self, z: u64) -> u64
        requires { z ≤ 255 * self.size }
        ensures { (result * self.size ≤ z) × (z < result * self.size + 2 * self.size) × (result ≤ 255) }
    {
        z * self.inverse / 1099511627776
    }

    fn quotient(self, z: u64) -> u8
        requires { z ≤ 255 * self.size }
        ensures { result ≡ z / self.size }
    {
        let q = self.nearly(z);
        let next = q * self.size + self.size;
        if next <= z {
            return (q + 1) as u8;
        }
        q as u8
    }

    // A channel from its two sums.
    pub fn divide(self, s: u64, t: u64, over: u64, under: u64) -> u8
        requires { (s ≤ 106954752000) × (t ≤ 106954752000) × (over ≤ 27380626227200) × (under ≤ 27380626227200) }
        ensures { result ≡ min ((s + over - (t + under)) / self.size) 255 }
    {
        self.quotient((s + over).saturating_sub(t + under).min(255 * self.size))
    }
}
