ghost use Rattle.std.specs.Prelude.{◌≡◌, true};
ghost use Rattle.filter.specs.Checks.{allowed?};
ghost use Rattle.buffers.specs.Context.{Drawable};

use buffers::Context;
use filter::Input;

// A step's input, with the buffers that it stands in and the table of the step's space, or an empty one.
#[derive(Clone, Copy)]
pub struct View<'a> {
    pub workspace: &'a [u8],
    pub source: &'a [u8],
    pub pairs: &'a [u8],
    pub context: Context,
    pub input: Input,
    pub ghost drawable: { Drawable context source.now workspace.now pairs.now },
    pub ghost allowed: { allowed? context.n input ≡ true },
}
