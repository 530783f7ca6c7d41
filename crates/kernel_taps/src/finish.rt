ghost use Rattle.std.specs.Prelude.{◌≡◌, ◌*◌};
ghost use Rattle.kernel_sums.specs.Reciprocal.{Divides};

use kernel_sums::reciprocal::{Reciprocal, mean};

// From a sum to a byte. What is below zero in the kernel, 255 times, is the lift: with it no sum is below zero. With half of size it is the
// base, and most is 255 times size.
#[derive(Clone, Copy)]
pub struct Finish {
    pub base: u16,
    pub lift: u16,
    pub most: u16,
    pub by: Reciprocal,
    pub size: usize,
    pub ghost divides: { Divides by.mul by.shift size },
    pub ghost most_is: { most ≡ 255 * size },
}

impl Finish {
    ghost use Rattle.std.specs.Prelude.{◌+◌, ◌/◌, ◌≤◌};
    ghost use Rattle.kernel_taps.specs.Lanes.{FinishOf, finished};

    pub(crate) fn new(lift: u64, size: usize, by: Reciprocal) -> Finish
        requires { (255 * lift + size / 2 ≤ 65535) × (size ≤ 257) × Divides by.mul by.shift size }
        ensures { FinishOf lift size result }
    {
        Finish {
            base: (255 * lift + (size / 2) as u64) as u16,
            lift: (255 * lift) as u16,
            most: (255 * size) as u16,
            by,
            size,
        }
    }

    // The lift taken off, limited to 255 times size, and divided. Sums count in 16 bits: a weight below zero has 65,536 added, and here they
    // fall away.
    #[tactic(auto, unfolding(crate::specs::Lanes::finished))]
    pub(crate) fn byte(self, sum: u32) -> u8
        requires { sum ≤ 417785625 }
        ensures { result ≡ finished self sum }
    {
        let lifted = ((sum + u32::from(self.base)) % 65536) as u16;
        mean(
            lifted.saturating_sub(self.lift).min(self.most),
            self.by,
            self.size,
        )
    }
}
