// The taps of a kernel, worked out once a row.
ghost use Rattle.std.specs.Prelude.{◌≡◌, ◌*◌, ◌≤◌, ◌<◌, length};
ghost use Rattle.pixel.specs.Convolve.{cells};
ghost use Rattle.kernel_convolve.specs.Code.{part_of, offset_of, Gathered};

use crate::taps::Tap;
use kernel_lines::Kernel;
use number::Fixed;

// What is below zero, or what is above it.
fn part(value: Fixed, below: bool) -> u64
    ensures { result ≡ part_of below value }
{
    if below { value.below } else { value.above }
}

// Where tap t lies in the lines, behind the result's own column.
fn offset(t: usize, columns: usize) -> usize
    requires { (0 < columns) × (columns ≤ 5) × (t < columns * 5) }
    ensures { (result ≡ offset_of columns t) × (result ≤ 16464) }
{
    t / columns * kernel_lines::LINE + 4 * (t % columns)
}

// The taps whose weights are above zero, or those below it: the kernel turned half round, and no tap without a weight.
pub fn gather<'a>(kernel: &Kernel, below: bool, room: &'a mut [Tap]) -> &'a [Tap]
    requires { length room.old ≡ 25 }
    ensures { Gathered kernel.now.convolution kernel.now.values below (cells kernel.now.convolution) result.now }
{
    let columns = kernel.convolution.columns;
    let cells = kernel.cells();
    let mut n: usize = 0;
    for t in 0..cells {
        let weight = part(kernel.values[cells - 1 - t], below);
        if weight > 0 {
            let offset = offset(t, columns);
            room[n] = Tap { weight, offset };
            n += 1;
        }
    }
    let whole = &room[..];
    &whole[..n]
}
