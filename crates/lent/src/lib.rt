// A list of steps that its holder lends. What the proofs of the functions over such a list share stands in proofs/.
#![tactic(auto)]

ghost use Rattle.std.specs.Prelude.{◌≡◌, replicate};
ghost use Rattle.filter.specs.Limits.{most_steps};
ghost use Rattle.filter.specs.Steps.{blank_step};

use filter::{Sheet, Step};

// A list as long as a sheet may be.
pub fn blanks() -> [Step; Sheet::STEPS]
    ensures { result ≡ replicate most_steps blank_step }
{
    [Step::blank(); Sheet::STEPS]
}
