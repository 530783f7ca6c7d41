ghost use Rattle.std.specs.Prelude.{◌≤◌, length};
ghost use Rattle.pixel.specs.Coefficient.{Allowed};

use crate::divisor::Divisor;
use crate::taps::{Sums, Tap};
use kernel_alpha::store::put;
use number::Fixed;
use pixel::Pixel;

// What a row is worked from: the taps above zero and those below it, the bias, the divisor, and where in the lines the own alpha of column 0
// lies.
#[derive(Clone, Copy)]
pub struct Plan<'a> {
    pub up: &'a [Tap],
    pub down: &'a [Tap],
    pub bias: Fixed,
    pub divisor: Divisor,
    pub own: usize,
    pub ghost few_up: { length up.now ≤ 25 },
    pub ghost few_down: { length down.now ≤ 25 },
    pub ghost allowed: { Allowed bias },
    pub ghost near: { own ≤ 16467 },
}

impl Plan<'_> {
    ghost use Rattle.std.specs.Prelude.{◌≡◌, ◌+◌};
    ghost use Rattle.pixel.specs.Bytes.{Painted};
    ghost use Rattle.kernel_convolve.specs.Code.{SmallSums, divided_pixel, planned_pixel};

    // A pixel from the two sums of each channel, and the own alpha.
    fn divided(self, s: Sums, t: Sums, a: u8) -> Pixel
        requires { SmallSums s × SmallSums t }
        ensures { result ≡ divided_pixel self.entry s t a }
    {
        let d = self.divisor;
        let over = d.lift_over(self.bias, a);
        let under = d.lift_under(self.bias, a);
        Pixel {
            r: d.divide(s.r, t.r, over, under),
            g: d.divide(s.g, t.g, over, under),
            b: d.divide(s.b, t.b, over, under),
            a: d.divide(s.a, t.a, over, under),
        }
    }

    // The pixel whose first tap starts at the index i of the lines, to the index o.
    pub fn put_pixel(self, lines: &[u8], i: usize, out: &mut [u8], o: usize)
        requires { (i + 16468 ≤ length lines.now) × (o + 4 ≤ length out.old) }
        ensures { Painted (λ x. planned_pixel self.entry lines.now i) o 0 1 out.old out.new }
    {
        let s = Sums::of(self.up, lines, i);
        let t = Sums::of(self.down, lines, i);
        let q = self.divided(s, t, lines[self.own + i]);
        put(out, o, q.r, q.g, q.b, q.a);
    }
}
