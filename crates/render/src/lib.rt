// The entry points: a sheet is drawn into buffers that the caller lends, whole or in part, and a layer is shown. None asks anything
// beforehand: what cannot be drawn is refused with the number and place of RULES 7.2, and a refusal changes no byte.
#![tactic(auto)]

mod settling;
pub mod views;

ghost use Rattle.std.specs.Prelude.{◌≡◌};
ghost use Rattle.filter.specs.Answers.{number_of, place_of};
ghost use Rattle.layers.specs.Given.{given};
ghost use Rattle.render.specs.Promise.{
  returned_answer,
  returned_count,
  answered,
  as_number,
  as_place,
  if_accepted,
  pixels_worked,
  if_drawn,
  zeros,
  RedrawsFor,
  ValidFor,
};

use filter::{Call, Refusal, Sheet, Step};
use layers::{check_steps, draw_steps};
use settling::{counted, finish, settle, usable};

// Where a layer lies in a workspace: `bytes` bytes from `offset` on.
#[derive(Clone, Copy)]
pub struct View {
    pub offset: usize,
    pub bytes: usize,
}

impl View {
    // An empty part at the workspace's start.
    pub const EMPTY: View = View {
        offset: 0,
        bytes: 0,
    };
}

// A sheet drawn on the picture in `source`: every layer, or the layers in `workspace` brought up to date with a source that has changed
// inside the changed rectangle only; the pixels that a redraw worked, or why the call is refused. The sheet's steps are the first of the list;
// those past its count do not count.
pub fn draw(
    call: Call,
    sheet: Sheet,
    steps: &[Step],
    source: &[u8],
    workspace: &mut [u8],
    scratch: &mut [u8],
) -> Result<usize, Refusal>
    ensures answers { returned_answer result ≡ answered (given call sheet steps source workspace scratch) }
    ensures number { number_of (returned_answer result) ≡ as_number (given call sheet steps source workspace scratch) }
    ensures place { place_of (returned_answer result) ≡ as_place (given call sheet steps source workspace scratch) }
    ensures counts { returned_count result ≡ pixels_worked (returned_answer result) call sheet steps.now }
    ensures layers { workspace.new ≡ if_drawn (returned_answer result) (given call sheet steps source workspace scratch) }
    ensures cleared { scratch.new ≡ if_accepted (returned_answer result) (zeros scratch.old) scratch.old }
    ensures redraws { RedrawsFor (returned_answer result) (given call sheet steps source workspace scratch) workspace.new }
    ensures valid { ValidFor (returned_answer result) (given call sheet steps source workspace scratch) workspace.new }
{
    let n = sheet.count.min(steps.len());
    let count = usable(n);
    let checked = check_steps(sheet.width, sheet.height, steps, count);
    let answer = settle(call, sheet, n, checked, source, workspace, scratch.len());
    let drawn = draw_steps(
        call,
        counted(sheet, count),
        answer,
        steps,
        source,
        &mut *workspace,
        &mut *scratch,
    );
    finish(answer, drawn, scratch)
}
