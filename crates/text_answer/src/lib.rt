// From a text to what the program `sheet` prints. Canvases in text are small, so all buffers are local.
#![tactic(auto)]

ghost use Rattle.std.specs.Prelude.{◌≡◌, true, ◌-◌, ◌*◌, ◌≤◌, ◌<◌, length, replicate, Ok, IfOk};
ghost use Rattle.filter.specs.Bytes.{size, read as picture};
ghost use Rattle.filter.specs.Answers.{accepted?};
ghost use Rattle.filter.specs.Limits.{most_steps, longest_text_side};
ghost use Rattle.text.specs.declared.Form.TheVariants as F;
ghost use Rattle.text.specs.Reading.{count_of};
ghost use Rattle.lines.specs.Lines.{reading_in, answer_in, layers_in};
ghost use Rattle.text_print.specs.Code.{Put};
ghost use Rattle.text_answer.specs.Answer.{longest, text_render, last_space, sheet_text, read_text, reading_text, printed_of, printed_into};
ghost use Rattle.text_answer.specs.Code.{ReadingWithin, answer_from};

use checks::answers::{number, place};
use checks::sizes::picture_size;
use filter::{Answer, Call, Sheet};
use lines::draw_lines;
use pixel::Space;
use text::reader::{last_space, scan};
use text::{Form, Reading, TextRefusal};
use text_print::digits::put_word;
use text_print::lines::{put_ok, put_refused};

// No answer is longer: `ok` and sixteen rows of sixteen pixels.
pub const LONGEST: usize = 2371;

// A full render of the text's steps with a scratch buffer of its own.
fn draw(text: &[u8], width: usize, height: usize, source: &[u8], workspace: &mut [u8]) -> Answer
    requires { (width ≤ longest_text_side) × (height ≤ longest_text_side) }
    ensures value { result ≡ answer_in (text_render text.now width height source.now workspace.old) }
    ensures workspace_after { workspace.new ≡ layers_in result (text_render text.now width height source.now workspace.old) }
{
    let mut scratch = [0u8; 2 * Sheet::TEXT_PICTURE];
    let n = 2 * picture_size(width, height);
    let drawn = draw_lines(
        Form::Sheet,
        text,
        Call::Render,
        width,
        height,
        source,
        workspace,
        &mut scratch[..n],
    );
    drawn.answer
}

// The last of `count` layers.
fn last_layer(width: usize, height: usize, count: usize, workspace: &[u8]) -> &[u8]
    requires { (width ≤ longest_text_side) × (height ≤ longest_text_side) × (0 < count) × (length workspace.now ≡ count * size width height) }
    ensures result_len { length result.now ≡ size width height }
    ensures result_value { picture width height result.now 0 ≡ picture width height workspace.now ((count - 1) * size width height) }
{
    let from = (count - 1) * picture_size(width, height);
    &workspace[from..]
}

// The last of `count` layers, which is kept in `space`, or the refusal.
fn print_answer(
    answer: Answer,
    width: usize,
    height: usize,
    count: usize,
    space: Space,
    workspace: &[u8],
    out: &mut [u8],
) -> usize
    requires width_le_longest_text_side { (width ≤ longest_text_side) × (height ≤ longest_text_side) × (length workspace.now ≡ count * size width height) }
    requires out_len { (length out.old ≡ longest) × (accepted? answer ≡ true → 0 < count) }
    ensures { Put (answer_from answer space width height count workspace.now) 0 out.old out.new result }
{
    if answer.is_ok() {
        let layer = last_layer(width, height, count, workspace);
        return put_ok(out, 0, width, height, layer, space);
    }
    put_refused(out, 0, number(answer) as usize, place(answer))
}

// The text's sheet on the picture in `source`, with a workspace of zeros.
fn print_drawn(
    text: &[u8],
    width: usize,
    height: usize,
    count: usize,
    space: Space,
    source: &[u8],
    workspace: &mut [u8],
    out: &mut [u8],
) -> usize
    requires width_le_longest_text_side { (width ≤ longest_text_side) × (height ≤ longest_text_side) × (count ≡ count_of (reading_in F.Sheet text.now)) }
    requires workspace_value { (workspace.old ≡ replicate (count * size width height) 0) × (length out.old ≡ longest) × (space ≡ last_space text.now count) }
    ensures { Put (sheet_text text.now width height count source.now) 0 out.old out.new result }
{
    let answer = draw(text, width, height, source, workspace);
    print_answer(answer, width, height, count, space, &workspace[..], out)
}

fn print_sheet(
    text: &[u8],
    width: usize,
    height: usize,
    count: usize,
    space: Space,
    source: &[u8],
    out: &mut [u8],
) -> usize
    requires width_le_longest_text_side { (width ≤ longest_text_side) × (height ≤ longest_text_side) × (count ≡ count_of (reading_in F.Sheet text.now)) }
    requires count_le_most_steps { (count ≤ most_steps) × (length out.old ≡ longest) × (space ≡ last_space text.now count) }
    ensures { Put (sheet_text text.now width height count source.now) 0 out.old out.new result }
{
    let mut workspace = [0u8; Sheet::STEPS * Sheet::TEXT_PICTURE];
    let n = count * picture_size(width, height);
    print_drawn(
        text,
        width,
        height,
        count,
        space,
        source,
        &mut workspace[..n],
        out,
    )
}

// The working space of the text's last step. A text without steps is refused: there it is that of a blank step.
fn space_of(text: &[u8], reading: Reading) -> Space
    requires { reading_in F.Sheet text.now ≡ Ok reading }
    ensures { result ≡ last_space text.now reading.count }
{
    if reading.count == 0 {
        return Space::Linear;
    }
    last_space(Form::Sheet, text, reading.from, reading.count)
}

fn print_read(text: &[u8], reading: Reading, out: &mut [u8]) -> usize
    requires { (reading_in F.Sheet text.now ≡ Ok reading) × ReadingWithin reading × (length out.old ≡ longest) }
    ensures { Put (read_text text.now reading) 0 out.old out.new result }
{
    let width = reading.width;
    let height = reading.height;
    let count = reading.count;
    let pixels = reading.pixels;
    let space = space_of(text, reading);
    let n = picture_size(width, height);
    print_sheet(text, width, height, count, space, &pixels[..n], out)
}

fn print_reading(text: &[u8], reading: Result<Reading, TextRefusal>, out: &mut [u8]) -> usize
    requires { (reading ≡ reading_in F.Sheet text.now) × IfOk reading ReadingWithin × (length out.old ≡ longest) }
    ensures { Put (reading_text text.now reading) 0 out.old out.new result }
{
    match reading {
        Ok(read) => print_read(text, read, out),
        Err(TextRefusal::Line(line)) => put_refused(out, 0, 15, line),
        Err(TextRefusal::Records) => put_refused(out, 0, 21, 0),
    }
}

// What `sheet` prints for a text. The answer is its length, at most 2,371; it is stored at the start of `out` where that is long enough,
// and else `out` is left as it was.
pub fn answer(text: &[u8], out: &mut [u8]) -> usize
    ensures long { result ≡ length (printed_of text.now) }
    ensures enough { result ≤ longest }
    ensures printed { out.new ≡ printed_into out.old text.now }
{
    let mut printed = [0u8; LONGEST];
    let n = print_reading(text, scan(Form::Sheet, text, Sheet::STEPS), &mut printed);
    if n <= out.len() {
        put_word(out, 0, &printed[..n]);
    }
    n
}
