// Lines of text read as steps, then drawn. The list of steps is this crate's own, so that its callers lend bytes only.
#![tactic(auto)]

ghost use Rattle.std.specs.Prelude.{◌≡◌};
ghost use Rattle.render.specs.Promise.{if_accepted, zeros};
ghost use Rattle.render.specs.Promise.{returned_answer, returned_count};
ghost use Rattle.text.specs.Reading.{count_of, answer_of};
ghost use Rattle.lines.specs.Lines.{reading_in, given_text, answer_in, worked_in, layers_in, RedrawsIn, ValidIn};

use filter::{Answer, Call, Refusal, Sheet};
use lent::blanks;
use render::draw;
use text::reader::read;
use text::{Form, ReadAnswer, Reading, TextRefusal};

// What the reader says, the sheet's answer, and how many pixels a redraw worked. A refused text is a sheet of no steps, which is refused.
#[derive(Clone, Copy)]
pub struct LinesDrawn {
    pub reading: ReadAnswer,
    pub answer: Answer,
    pub count: usize,
}

// The sheet of a text on a canvas; a refused text has no steps.
fn sheet_of(reading: Result<Reading, TextRefusal>, width: usize, height: usize) -> Sheet
    ensures { result ≡ record { width = width; height = height; count = count_of reading } }
{
    let count = match reading {
        Ok(read) => read.count,
        Err(_) => 0,
    };
    Sheet {
        width,
        height,
        count,
    }
}

fn told(reading: Result<Reading, TextRefusal>, drawn: Result<usize, Refusal>) -> LinesDrawn
    ensures { result ≡ record { reading = answer_of reading; answer = returned_answer drawn; count = returned_count drawn } }
{
    LinesDrawn {
        reading: reading.map(|_| ()),
        answer: drawn.map(|_| ()),
        count: drawn.unwrap_or(0),
    }
}

pub fn draw_lines(
    form: Form,
    text: &[u8],
    call: Call,
    width: usize,
    height: usize,
    source: &[u8],
    workspace: &mut [u8],
    scratch: &mut [u8],
) -> LinesDrawn
    ensures reads { result.reading ≡ answer_of (reading_in form text.now) }
    ensures answers { result.answer ≡ answer_in (given_text form text call width height source workspace scratch) }
    ensures counts { result.count ≡ worked_in result.answer (given_text form text call width height source workspace scratch) }
    ensures layers { workspace.new ≡ layers_in result.answer (given_text form text call width height source workspace scratch) }
    ensures cleared { scratch.new ≡ if_accepted result.answer (zeros scratch.old) scratch.old }
    ensures redraws { RedrawsIn result.answer (given_text form text call width height source workspace scratch) workspace.new }
    ensures valid { ValidIn result.answer (given_text form text call width height source workspace scratch) workspace.new }
{
    let mut list = blanks();
    let reading = read(form, text, &mut list);
    let drawn = draw(
        call,
        sheet_of(reading, width, height),
        &list,
        source,
        workspace,
        scratch,
    );
    told(reading, drawn)
}
