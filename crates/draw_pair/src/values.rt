// A step's values as a kernel takes them.
ghost use Rattle.std.specs.Prelude.{◌≡◌};
ghost use Rattle.filter.specs.Kinds.{arithmetic_of};

use filter::Sheet;
use number::Fixed;
use pixel::Arithmetic;

// "k1 to k4."
pub fn arithmetic_of(values: [Fixed; Sheet::NUMBERS]) -> Arithmetic
    ensures { result ≡ arithmetic_of values }
{
    let k1 = values[0];
    let k2 = values[1];
    let k3 = values[2];
    let k4 = values[3];
    Arithmetic { k1, k2, k3, k4 }
}
