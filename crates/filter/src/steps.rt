// A step's inputs and numbers by their place.
ghost use Rattle.std.specs.Prelude.{◌≡◌, ◌<◌};
ghost use Rattle.filter.specs.Steps.{input_at, number_at};

use super::{Input, Step};
use number::Number;

pub fn input_at(step: Step, i: usize) -> Input
    requires { i < 4 }
    ensures { result ≡ input_at step i }
{
    step.inputs[i]
}

// Zero behind the last.
pub fn number_at(step: Step, i: usize) -> Number
    ensures { result ≡ number_at step i }
{
    step.numbers.get(i).copied().unwrap_or(Number::Decimal(0))
}
