// Steps read from lines and drawn: the answer by value.
ghost use Rattle.std.specs.Prelude.{◌≡◌};
ghost use Rattle.capi.specs.Lines.{calling, replied, reply_for, layers_for, cleared_for, RedrawsAfter, ValidAfter};

use super::Redrawing;
use checks::answers::{number, place};
use filter::{Answer, Call};
use lines::draw_lines;
use text::{Form, ReadAnswer, TextRefusal};

// Number and place: of a text that is refused, or else the sheet's own.
#[tactic(auto, unfolding(crate::specs::Lines::replied))]
fn reply(reading: ReadAnswer, answer: Answer, count: usize) -> Redrawing
    ensures { result ≡ replied reading answer count }
{
    match reading {
        Ok(()) => Redrawing {
            number: number(answer),
            place: place(answer),
            count,
        },
        Err(TextRefusal::Line(place)) => Redrawing {
            number: 15,
            place,
            count,
        },
        Err(TextRefusal::Records) => Redrawing {
            number: 21,
            place: 0,
            count,
        },
    }
}

pub fn call_lines(
    call: Call,
    width: usize,
    height: usize,
    steps: &[u8],
    source: &[u8],
    workspace: &mut [u8],
    scratch: &mut [u8],
) -> Redrawing
    ensures answers { result ≡ reply_for (calling call width height steps source workspace scratch) }
    ensures layers { workspace.new ≡ layers_for (calling call width height steps source workspace scratch) }
    ensures cleared { scratch.new ≡ cleared_for (calling call width height steps source workspace scratch) }
    ensures redraws { RedrawsAfter (calling call width height steps source workspace scratch) workspace.new }
    ensures valid { ValidAfter (calling call width height steps source workspace scratch) workspace.new }
{
    let drawn = draw_lines(
        Form::Lines,
        steps,
        call,
        width,
        height,
        source,
        workspace,
        scratch,
    );
    reply(drawn.reading, drawn.answer, drawn.count)
}
