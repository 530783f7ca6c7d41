ghost use Rattle.std.specs.Prelude.{◌≡◌, ◌≤◌, ◌<◌, IfSome, pos};
ghost use Rattle.number.specs.Number.{value};
ghost use Rattle.pixel.specs.Convolve.{divisor_of, bias_of};
ghost use Rattle.kernel_lines.specs.Convolved.{value_at};
ghost use Rattle.kernel_taps.specs.Taps.{Scaled, Prepares};

use crate::division::division_by;
use crate::finish::Finish;
use crate::taps::taps_of;
use kernel_lines::Kernel;
use number::Fixed;

// All that a row of a small whole kernel needs.
#[derive(Clone, Copy)]
pub struct Prepared {
    pub weights: [u16; 25],
    pub finish: Finish,
}

// A divisor as a multiple of a unit.
#[derive(Clone, Copy)]
struct Scale {
    negative: bool,
    size: usize,
}

// How many units a divisor has, if they are whole, and a number that division_by takes.
fn scale_of(d: Fixed, unit: u64) -> Option<Scale>
    requires { (d.above ≤ 419430400) × (d.below ≤ 419430400) × (0 < unit) }
    ensures le_size { IfSome result (λ s. (2 ≤ s.size) × (s.size ≤ 257)) }
    ensures scaled { IfSome result (λ s. Scaled d s.negative unit s.size) }
{
    let negative = d.above < d.below;
    let far = d.above.abs_diff(d.below);
    let size = far / unit;
    if far % unit != 0 || size < 2 || size > 257 {
        return None;
    }
    Some(Scale {
        negative,
        size: size as usize,
    })
}

// With one unit: a divisor that has a reciprocal, whole weights, and sums that count in 16 bits.
fn prepare_by(kernel: &Kernel, d: Fixed, unit: u64) -> Option<Prepared>
    requires unbiased { (bias_of kernel.now.convolution (value_at kernel.now.values) ≡ pos 0) × (0 < unit) }
    requires d_value { (value d ≡ divisor_of kernel.now.convolution (value_at kernel.now.values)) × (d.above ≤ 419430400) × (d.below ≤ 419430400) }
    ensures { IfSome result (λ p. Prepares kernel.now.convolution kernel.now.values p.weights p.finish) }
{
    let scale = scale_of(d, unit)?;
    let taps = taps_of(kernel, scale.negative, unit)?;
    let by = division_by(scale.size)?;
    if 255 * taps.most + (scale.size / 2) as u64 > 65535 {
        return None;
    }
    let finish = Finish::new(taps.lift, scale.size, by);
    let weights = taps.weights;
    Some(Prepared { weights, finish })
}

// Ones for whole numbers; halves so that a divisor of 1 has something to divide by; finer units for finer kernels.
pub fn prepare(kernel: &Kernel) -> Option<Prepared>
    ensures { IfSome result (λ p. Prepares kernel.now.convolution kernel.now.values p.weights p.finish) }
{
    let b = kernel.bias();
    if b.above != b.below {
        return None;
    }
    let d = kernel.divisor();
    prepare_by(kernel, d, 65536)
        .or_else(|| prepare_by(kernel, d, 32768))
        .or_else(|| prepare_by(kernel, d, 4096))
        .or_else(|| prepare_by(kernel, d, 256))
}
