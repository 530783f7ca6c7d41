// Convolution with a small whole kernel: sums of 16 bits, and a division by a product and two shifts.
#![tactic(auto)]

pub mod division; // the reciprocal of a divisor
pub mod finish; // what becomes of a sum
pub mod lanes; // the sums of a row
pub mod taps; // the kernel turned half round, as 16-bit weights
pub mod prepared; // whether a convolution can go this way, and all that a row needs

ghost use Rattle.std.specs.Prelude.{◌≡◌, true, false, ◌+◌, ◌*◌, ◌≤◌, length};
ghost use Rattle.window.specs.Limits.{longest_side};
ghost use Rattle.window.specs.Store.{Filled};
ghost use Rattle.kernel_lines.specs.Lines.{all_lines};
ghost use Rattle.kernel_lines.specs.Convolved.{lane_byte};

use crate::lanes::fill;
use crate::prepared::prepare;
use kernel_lines::Kernel;

// The bytes of count results from column `left` on, or false where the kernel is not small and whole.
pub fn sum_small(kernel: &Kernel, lines: &[u8], left: usize, count: usize, out: &mut [u8]) -> bool
    requires { (length lines.now ≡ all_lines) × (left + count ≤ longest_side) × (4 * count ≤ length out.old) }
    ensures filled { result ≡ true → Filled (λ b. lane_byte kernel.now.convolution kernel.now.values lines.now (4 * left + b)) 0 (4 * count)
        out.old out.new }
    ensures out_unchanged { result ≡ false → out.new ≡ out.old }
{
    let Some(p) = prepare(kernel) else {
        return false;
    };
    let convolution = kernel.convolution;
    if convolution.columns <= 3 && convolution.rows <= 3 {
        fill::<3>(lines, 4 * left, p.weights, p.finish, out, 4 * count);
    } else {
        fill::<5>(lines, 4 * left, p.weights, p.finish, out, 4 * count);
    }
    true
}
