// The kernel's sums, divided, with the bias: byte by byte, before colours are lowered or premultiplied.
ghost use Rattle.std.specs.Prelude.{◌≡◌, ◌+◌, ◌*◌, ◌≤◌, length};
ghost use Rattle.window.specs.Store.{Filled};
ghost use Rattle.window.specs.Limits.{longest_side};
ghost use Rattle.pixel.specs.Bytes.{Painted};
ghost use Rattle.kernel_lines.specs.Lines.{all_lines};
ghost use Rattle.kernel_lines.specs.Convolved.{lane_byte};
ghost use Rattle.kernel_convolve.specs.Code.{planned_pixel};

use crate::divisor::Divisor;
use crate::plan::Plan;
use crate::prepare::gather;
use crate::taps::Tap;
use kernel_lines::Kernel;

// A row of pixels.
fn sum_pixels(plan: Plan<'_>, lines: &[u8], left: usize, count: usize, out: &mut [u8])
    requires { (length lines.now ≡ all_lines) × (left + count ≤ longest_side) × (4 * count ≤ length out.old) }
    ensures { Painted (λ x. planned_pixel plan.entry lines.now (4 * (left + x))) 0 0 count out.old out.new }
{
    for x in 0..count {
        plan.put_pixel(lines, 4 * (left + x), out, 4 * x);
    }
}

// The bytes of `count` pixels, those of the columns from `left` on. A divisor below zero exchanges what is above zero and what is below it.
pub fn sum_row(kernel: &Kernel, lines: &[u8], left: usize, count: usize, out: &mut [u8])
    requires { (length lines.now ≡ all_lines) × (left + count ≤ longest_side) × (4 * count ≤ length out.old) }
    ensures { Filled (λ b. lane_byte kernel.now.convolution kernel.now.values lines.now (4 * left + b)) 0 (4 * count) out.old out.new }
{
    let convolution = kernel.convolution;
    let divisor = kernel.divisor();
    let turned = divisor.above < divisor.below;
    let none = Tap {
        weight: 0,
        offset: 0,
    };
    let mut up = [none; 25];
    let mut down = [none; 25];
    let plan = Plan {
        up: gather(kernel, turned, &mut up),
        down: gather(kernel, !turned, &mut down),
        bias: kernel.bias(),
        divisor: Divisor::new(divisor.above.abs_diff(divisor.below)),
        own: convolution.row * kernel_lines::LINE + 4 * convolution.column + 3,
    };
    sum_pixels(plan, lines, left, count, out);
}
