ghost use Rattle.std.specs.Prelude.{◌≡◌, ◌%◌, ◌/◌, ◌≤◌, ◌<◌, IfSome};
ghost use Rattle.kernel_taps.specs.Taps.{turned, exchanged, TapsOf};

use kernel_lines::Kernel;
use number::Fixed;

// The weights of a kernel, five a row; what is below zero in them, and all of them, added up.
#[derive(Clone, Copy)]
pub struct Taps {
    pub weights: [u16; 25],
    pub lift: u64,
    pub most: u64,
}

// The value that goes with neighbour j of line i: the kernel is turned half round.
#[tactic(auto, unfolding(crate::specs::Taps::turned))]
fn turned_at(kernel: &Kernel, i: usize, j: usize) -> Fixed
    ensures { result ≡ turned kernel.now.convolution kernel.now.values i j }
{
    let rows = kernel.convolution.rows;
    let columns = kernel.convolution.columns;
    if rows <= i || columns <= j {
        return Fixed { above: 0, below: 0 };
    }
    let row = rows - 1 - i;
    let column = columns - 1 - j;
    kernel.values[row * columns + column]
}

// A divisor below zero exchanges what is above zero and what is below it.
pub fn exchange(negative: bool, u: Fixed) -> Fixed
    ensures { result ≡ exchanged negative u }
{
    if negative {
        return Fixed {
            above: u.below,
            below: u.above,
        };
    }
    u
}

// How many units a part has, if they are whole and few.
fn units(part: u64, unit: u64) -> Option<u16>
    requires { 0 < unit }
    ensures { IfSome result (λ n. (part % unit ≡ 0) × (n ≡ part / unit) × (n ≤ 257)) }
{
    let n = part / unit;
    if part % unit != 0 || n > 257 {
        return None;
    }
    Some(n as u16)
}

// The weights as multiples of the unit; one below zero counts from 65,536 down.
pub fn taps_of(kernel: &Kernel, negative: bool, unit: u64) -> Option<Taps>
    requires { 0 < unit }
    ensures taps_of { IfSome result (λ t. TapsOf kernel.now.convolution kernel.now.values negative unit t.weights t.lift t.most) }
    ensures lift_le_most { IfSome result (λ t. (t.lift ≤ t.most) × (t.most ≤ 12850)) }
{
    let mut weights = [0u16; 25];
    let mut lift: u64 = 0;
    let mut most: u64 = 0;
    for (t, weight) in weights.iter_mut().enumerate() {
        let u = exchange(negative, turned_at(kernel, t / 5, t % 5));
        let above = units(u.above, unit)?;
        let below = units(u.below, unit)?;
        *weight = above.wrapping_sub(below);
        lift += u64::from(below);
        most += u64::from(above) + u64::from(below);
    }
    Some(Taps {
        weights,
        lift,
        most,
    })
}
