ghost use Rattle.std.specs.Prelude.{◌≤◌, IfSome};
ghost use Rattle.kernel_sums.specs.Reciprocal.{Divides};

use kernel_sums::reciprocal::{Reciprocal, candidate};

// The reciprocal of a size, if it divides every sum that can come: how far it is off, rounded up, counts in none.
pub fn division_by(size: usize) -> Option<Reciprocal>
    requires { (2 ≤ size) × (size ≤ 257) }
    ensures { IfSome result (λ by. Divides by.mul by.shift size) }
{
    let by = candidate(size);
    let whole = 65536usize << by.shift;
    let off = usize::from(by.mul) * size - whole;
    if 256 * size * off < whole {
        return Some(by);
    }
    None
}
