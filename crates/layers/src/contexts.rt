// What a step is drawn in, from its sheet and from what the steps before it left.
ghost use Rattle.std.specs.Prelude.{◌≡◌};

use buffers::Context;
use damage::SoFar;
use filter::kinds::signature_of;
use filter::{Input, Sheet, Step};
use pixel::Space;

// A table costs as much as the conversion of so many pixels without one.
const TABLE_PAYS: usize = 3500;

// Whether an input is kept in another space than the step's own. The source's alpha has no colours.
fn differs(spaces: &[Space; Sheet::STEPS], input: Input, space: Space) -> bool {
    match input {
        Input::Source => space != Space::Srgb,
        Input::SourceAlpha => false,
        Input::Layer(k) => spaces.get(k).is_some_and(|kept| *kept != space),
    }
}

// Whether a table is worth its making where a step draws so many pixels. No picture depends on it.
fn worth_table(spaces: &[Space; Sheet::STEPS], step: Step, pixels: usize) -> bool {
    if pixels < TABLE_PAYS {
        return false;
    }
    let count = signature_of(step.kind).inputs;
    for input in step.inputs.iter().take(count) {
        if differs(spaces, *input, step.space) {
            return true;
        }
    }
    false
}

pub fn context_for(sheet: Sheet, n: usize, step: Step, before: SoFar, pixels: usize) -> Context
    ensures { (result.w ≡ sheet.width) × (result.h ≡ sheet.height) × (result.n ≡ n) × (result.space ≡ step.space) × (result.spaces ≡ before.spaces) }
{
    let spaces = before.spaces;
    let tabled = worth_table(&spaces, step, pixels);
    Context {
        w: sheet.width,
        h: sheet.height,
        n,
        space: step.space,
        spaces,
        tabled,
    }
}
