// The library for C and Rust: the entry points on numbers and byte slices, steps as lines of text. A slice passes as pointer, then
// length. Nothing is asked beforehand: what cannot be drawn is refused with the number and place of RULES 7.2, and a refused render or redraw
// changes no byte of a slice. A line not of the form is 15 at its line, a sixty-fifth step line too; the answer to a whole text is stored in `out`.
#![tactic(auto)]

mod drawing;

ghost use Rattle.std.specs.Prelude.{◌≡◌, ◌≤◌, length};
ghost use Rattle.render.specs.View.{view_at};
ghost use Rattle.text_answer.specs.Answer.{longest, printed_of, printed_into};
ghost use Rattle.capi.specs.Lines.{rendering, redrawing, number_for, place_for, worked_for, layers_for, cleared_for, RedrawsAfter, ValidAfter};
ghost use Rattle.capi.specs.Rules.{rules_number};

use drawing::call_lines;
use filter::{Call, Region};

// The rules of this build: RULES.md names them at its head.
pub const RULES: u64 = 7;

// Number and place of an answer, and how many pixels a redraw worked.
#[derive(Clone, Copy)]
pub struct Redrawing {
    pub number: u64,
    pub place: usize,
    pub count: usize,
}

// A full render; returns the number.
#[unsafe(no_mangle)]
pub extern "C" fn twillgoose_render(
    width: usize,
    height: usize,
    steps: &[u8],
    source: &[u8],
    workspace: &mut [u8],
    scratch: &mut [u8],
    place: &mut u64,
) -> u64
    ensures number { result ≡ number_for (rendering width height steps source workspace scratch) }
    ensures place { place.new ≡ place_for (rendering width height steps source workspace scratch) }
    ensures layers { workspace.new ≡ layers_for (rendering width height steps source workspace scratch) }
    ensures cleared { scratch.new ≡ cleared_for (rendering width height steps source workspace scratch) }
    ensures valid { ValidAfter (rendering width height steps source workspace scratch) workspace.new }
{
    let rendered = call_lines(
        Call::Render,
        width,
        height,
        steps,
        source,
        workspace,
        scratch,
    );
    *place = rendered.place as u64;
    rendered.number
}

// A redraw of a rectangle; returns the number.
#[unsafe(no_mangle)]
pub extern "C" fn twillgoose_redraw(
    width: usize,
    height: usize,
    steps: &[u8],
    x: usize,
    y: usize,
    columns: usize,
    rows: usize,
    source: &[u8],
    workspace: &mut [u8],
    scratch: &mut [u8],
    place: &mut u64,
    count: &mut u64,
) -> u64
    ensures number { result ≡ number_for (redrawing x y columns rows width height steps source workspace scratch) }
    ensures place { place.new ≡ place_for (redrawing x y columns rows width height steps source workspace scratch) }
    ensures count { count.new ≡ worked_for (redrawing x y columns rows width height steps source workspace scratch) }
    ensures layers { workspace.new ≡ layers_for (redrawing x y columns rows width height steps source workspace scratch) }
    ensures cleared { scratch.new ≡ cleared_for (redrawing x y columns rows width height steps source workspace scratch) }
    ensures redraws { RedrawsAfter (redrawing x y columns rows width height steps source workspace scratch) workspace.new }
    ensures valid { ValidAfter (redrawing x y columns rows width height steps source workspace scratch) workspace.new }
{
    let changed = Region {
        x,
        y,
        width: columns,
        height: rows,
    };
    let redrawn = call_lines(
        Call::Redraw(changed),
        width,
        height,
        steps,
        source,
        workspace,
        scratch,
    );
    *place = redrawn.place as u64;
    *count = redrawn.count as u64;
    redrawn.number
}

// Where layer n lies in a workspace of so many bytes; returns its length, 0 where there is no such layer.
#[unsafe(no_mangle)]
pub extern "C" fn twillgoose_layer(
    width: usize,
    height: usize,
    steps: usize,
    n: usize,
    workspace: usize,
    offset: &mut u64,
) -> u64
    ensures long { result ≡ (view_at width height steps n workspace).bytes }
    ensures offset { offset.new ≡ (view_at width height steps n workspace).offset }
{
    let v = render::views::view_at(width, height, steps, n, workspace);
    *offset = v.offset as u64;
    v.bytes as u64
}

// What `sheet` prints for a text, stored at the start of out where it fits; returns its length.
#[unsafe(no_mangle)]
pub extern "C" fn twillgoose_sheet(text: &[u8], out: &mut [u8]) -> u64
    ensures long { result ≡ length (printed_of text.now) }
    ensures enough { result ≤ longest }
    ensures printed { out.new ≡ printed_into out.old text.now }
{
    let n = text_answer::answer(text, out);
    n as u64
}

// Which rules this build has; a grader compares pictures drawn under the same number only.
#[unsafe(no_mangle)]
pub extern "C" fn twillgoose_rules() -> u64
    ensures number { result ≡ rules_number }
{
    RULES
}
