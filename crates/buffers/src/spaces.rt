// A row brought to the working space of the step that reads it.
ghost use Rattle.std.specs.Prelude.{◌≡◌, true, ◌*◌, ◌≤◌, ◌<◌, length};
ghost use Rattle.filter.specs.Checks.{allowed?};
ghost use Rattle.filter.specs.declared.Input.TheVariants.{Layer};
ghost use Rattle.filter.specs.Limits.{longest_side, most_steps};
ghost use Rattle.buffers.specs.Shown.{spaces_in, as_kept, Tabled};
ghost use Rattle.buffers.specs.Seen.{converts?, lies?, stays?};
ghost use Rattle.buffers.specs.Code.{RowConverted};

use super::Context;
use filter::Input;
use kernel_remap::convert_row;
use kernel_remap::few::convert_few;
use pixel::Space;

// The space that an input is kept in.
#[tactic(auto, unfolding(crate::specs::Shown::spaces_by))]
fn kept_space(context: Context, input: Input) -> Space
    requires { allowed? most_steps input ≡ true }
    ensures { result ≡ spaces_in context input }
{
    match input {
        Input::Source | Input::SourceAlpha => Space::Srgb,
        Input::Layer(k) => context.spaces[k],
    }
}

// The same step where it sees an input as it is kept: for a kernel that converts by itself.
pub fn as_kept(context: Context, input: Input) -> Context
    requires { allowed? most_steps input ≡ true }
    ensures { result ≡ as_kept context input }
{
    Context {
        space: kept_space(context, input),
        ..context
    }
}

// Whether the rows of an input are converted. The source's alpha is the same in both spaces.
pub fn converts(context: Context, input: Input) -> bool
    requires { allowed? most_steps input ≡ true }
    ensures { result ≡ converts? context input }
{
    let kept = kept_space(context, input);
    match input {
        Input::SourceAlpha => false,
        Input::Source | Input::Layer(_) => kept != context.space,
    }
}

// Whether an input is the source, and not converted: its rows can be read where they lie.
pub fn lies(context: Context, input: Input) -> bool
    requires { allowed? most_steps input ≡ true }
    ensures { result ≡ lies? context input }
{
    matches!(input, Input::Source) && !converts(context, input)
}

// Whether an input is a layer, and not converted: its rows are copied as they stand.
pub fn stays(context: Context, input: Input) -> bool
    requires { allowed? most_steps input ≡ true }
    ensures { result ≡ stays? context input }
{
    matches!(input, Input::Layer(_)) && !converts(context, input)
}

// The first `count` pixels of a row, converted to the step's space in place.
pub fn convert_loaded(context: Context, pairs: &[u8], row: &mut [u8], count: usize)
    requires { Tabled context pairs.now × (count ≤ longest_side) × (4 * count ≤ length row.old) }
    ensures { RowConverted context count row.old row.new }
{
    let space = context.space;
    if 0 < pairs.len() {
        convert_row(space, row, count, pairs);
        return;
    }
    convert_few(space, row, count);
}
