// Rows of the pictures in the caller's buffers, brought to work rows and back.
#![tactic(auto)]

pub mod rows;
pub mod spaces;

ghost use Rattle.std.specs.Prelude.{◌≡◌, true, ◌+◌, ◌-◌, ◌*◌, ◌≤◌, ◌<◌, length};
ghost use Rattle.pixel.specs.Bytes.{pixel_at, Painted};
ghost use Rattle.kernel_row.specs.Row.{alpha_only};
ghost use Rattle.filter.specs.Checks.{allowed?};
ghost use Rattle.filter.specs.Bytes.{size};
ghost use Rattle.filter.specs.Accepted.{Within};
ghost use Rattle.filter.specs.Limits.{longest_side, most_pixels, most_steps};
ghost use Rattle.buffers.specs.Buffers.{row_at, row_start, Sized};
ghost use Rattle.buffers.specs.Shown.{shown};
ghost use Rattle.buffers.specs.Context.{InLimits, layer_end, LayerIn, OnRow, Readable, LoadedPart, columns_at, RowPainted, DrawnIn};
ghost use Rattle.buffers.specs.Strip.{strip_in};
ghost use Rattle.buffers.specs.Seen.{OwnCopied, OwnHeld, LayerCopied, LayerHeld, Seen};
ghost use Rattle.buffers.specs.Code.{Copied};

use filter::{Input, Rect, Sheet};
use pixel::Space;
use spaces::{convert_loaded, converts, lies, stays};

// What a step is drawn in: the canvas, the step's number, which is its layer's, and how it sees its inputs: its own working space, the
// space that each layer is kept in, and whether a table is worth its making, which alters no picture.
#[derive(Clone, Copy)]
pub struct Context {
    pub w: usize,
    pub h: usize,
    pub n: usize,
    pub space: Space,
    pub spaces: [Space; Sheet::STEPS],
    pub tabled: bool,
}

// The pixels from `from` up to `to` of row y.
#[derive(Clone, Copy)]
pub struct RowPart {
    pub y: usize,
    pub from: usize,
    pub to: usize,
}

// The index of the first pixel of row y of layer n, counted in pixels.
pub fn row_start(w: usize, h: usize, n: usize, y: usize) -> usize
    requires { (w ≤ longest_side) × (h ≤ longest_side) × (n < most_steps) × (y < h) }
    ensures { (result ≡ row_start w h n y) × (4 * result + 4 * w ≤ n * size w h + size w h) × (result + w ≤ most_steps * most_pixels) }
{
    n * (w * h) + y * w
}

// The alpha of the count pixels of src from the place `at` on, to the start of a work row.
fn alpha_part(src: &[u8], at: usize, count: usize, row: &mut [u8])
    requires { (at ≤ most_steps * most_pixels) × (count ≤ longest_side) × (4 * (at + count) ≤ length src.now) × (4 * count ≤ length row.old) }
    ensures { Painted (λ j. alpha_only (pixel_at src.now (4 * (at + j)))) 0 0 count row.old row.new }
{
    let a = 4 * at;
    let e = a + 4 * count;
    kernel_row::row::alpha_row(&src[a..e], row, count);
}

// The index in the workspace of the first pixel of a part of the step's own layer.
pub fn start(context: Context, part: RowPart) -> usize
    requires { InLimits context × OnRow context part }
    ensures value { result ≡ row_at context.w context.h context.n part.y + 4 * part.from }
    ensures from_bound { (result + 4 * (context.w - part.from) ≤ layer_end context) × (result ≤ 4 * (most_steps * most_pixels)) }
{
    4 * (row_start(context.w, context.h, context.n, part.y) + part.from)
}

// A part of a row of an input, as it stands, to the start of a work row. Its place in a picture is worked out once for all three.
fn copy_row(
    workspace: &[u8],
    source: &[u8],
    context: Context,
    input: Input,
    part: RowPart,
    row: &mut [u8],
)
    requires sized { Sized context.w context.h context.n source.now workspace.now × OnRow context part }
    requires input_value { (allowed? context.n input ≡ true) × (4 * (part.to - part.from) ≤ length row.old) }
    ensures { Copied context input part source.now workspace.now row.old row.new }
{
    let at = part.y * context.w + part.from;
    let count = part.to - part.from;
    match input {
        Input::Source => kernel_row::row::copy_pixels(source, at, row, 0, count),
        Input::SourceAlpha => alpha_part(source, at, count, row),
        Input::Layer(k) => {
            let start = k * (context.w * context.h) + at;
            kernel_row::row::copy_pixels(workspace, start, row, 0, count)
        }
    }
}

// The same part as a step sees it; `pairs` is the table of its space, or empty.
pub fn bring(
    workspace: &[u8],
    source: &[u8],
    context: Context,
    pairs: &[u8],
    input: Input,
    part: RowPart,
    row: &mut [u8],
)
    requires readable { Readable context source.now workspace.now pairs.now × OnRow context part }
    requires input_value { (allowed? context.n input ≡ true) × (4 * (part.to - part.from) ≤ length row.old) }
    ensures { LoadedPart (shown context source.now workspace.now input) part row.old row.new }
{
    copy_row(workspace, source, context, input, part, row);
    if converts(context, input) {
        convert_loaded(context, pairs, row, part.to - part.from);
    }
}

// A part of a row of an input that is not converted, to the start of a work row; `load` brings the others. The two are apart so that this one is
// small enough to be taken in where the work row is a local array: there the compiler makes one block move of it.
pub fn copy_own(
    workspace: &[u8],
    source: &[u8],
    context: Context,
    input: Input,
    part: RowPart,
    row: &mut [u8],
)
    requires sized { Sized context.w context.h context.n source.now workspace.now × OnRow context part }
    requires input_value { (allowed? context.n input ≡ true) × (4 * (part.to - part.from) ≤ length row.old) }
    ensures { OwnCopied context input part source.now workspace.now row.old row.new }
{
    if converts(context, input) {
        return;
    }
    copy_row(workspace, source, context, input, part, row);
}

// The same part as a step sees it, after `copy_own`.
pub fn load(
    workspace: &[u8],
    source: &[u8],
    context: Context,
    pairs: &[u8],
    input: Input,
    part: RowPart,
    row: &mut [u8],
)
    requires readable { Readable context source.now workspace.now pairs.now × OnRow context part }
    requires input_value { (allowed? context.n input ≡ true) × (4 * (part.to - part.from) ≤ length row.old) }
    requires own_held { OwnHeld context input part source.now workspace.now row.old }
    ensures { LoadedPart (shown context source.now workspace.now input) part row.old row.new }
{
    if converts(context, input) {
        bring(workspace, source, context, pairs, input, part, row);
    }
}

// A part of a row of a layer that is not converted, to the start of a work row; `see` brings the other inputs.
pub fn copy_layer(
    workspace: &[u8],
    source: &[u8],
    context: Context,
    input: Input,
    part: RowPart,
    row: &mut [u8],
)
    requires sized { Sized context.w context.h context.n source.now workspace.now × OnRow context part }
    requires input_value { (allowed? context.n input ≡ true) × (4 * (part.to - part.from) ≤ length row.old) }
    ensures { LayerCopied context input part source.now workspace.now row.old row.new }
{
    if stays(context, input) {
        copy_row(workspace, source, context, input, part, row);
    }
}

// The part as a step sees it, after `copy_layer`: the source's own bytes where they lie, or else the work row. What else the work row holds
// is open; it stays lent for as long as the part is read.
pub fn see<'a>(
    workspace: &[u8],
    source: &'a [u8],
    context: Context,
    pairs: &[u8],
    input: Input,
    part: RowPart,
    row: &'a mut [u8],
) -> &'a [u8]
    requires readable { Readable context source.now workspace.now pairs.now × OnRow context part }
    requires input_value { (allowed? context.n input ≡ true) × (4 * (part.to - part.from) ≤ length row.old) }
    requires layer_held { LayerHeld context input part source.now workspace.now row.old }
    ensures { Seen (shown context source.now workspace.now input) part result.now }
{
    let k = 4 * (part.to - part.from);
    if lies(context, input) {
        let a = 4 * (part.y * context.w + part.from);
        let e = a + k;
        return &source[a..e];
    }
    if stays(context, input) {
        return &row[..k];
    }
    bring(workspace, source, context, pairs, input, part, row);
    &row[..k]
}

// The pixels of a work row from the place `at` on, to a part of a row of the step's own layer.
pub fn store(workspace: &mut [u8], context: Context, part: RowPart, row: &[u8], at: usize)
    requires { InLimits context × LayerIn context workspace.old × OnRow context part × (4 * (at + (part.to - part.from)) ≤ length row.now) }
    ensures { RowPainted context part (columns_at row.now at part.from) workspace.old workspace.new }
{
    let p = row_start(context.w, context.h, context.n, part.y);
    kernel_row::row::copy_pixels(row, at, workspace, p + part.from, p + part.to);
}

// The rows top .. bottom - 1 of a strip, to the same rows of the step's own layer.
pub fn store_rows(
    workspace: &mut [u8],
    context: Context,
    rect: Rect,
    strip: &[u8],
    at: usize,
    first: usize,
)
    requires in_limits { InLimits context × LayerIn context workspace.old × (rect.left < rect.right) × Within context.w context.h rect }
    requires first_le_top { (first ≤ rect.top) × (4 * (at + (rect.bottom - first) * (rect.right - rect.left)) ≤ length strip.now) }
    ensures { DrawnIn context rect (strip_in strip.now at rect first) workspace.old workspace.new }
{
    for y in rect.top..rect.bottom {
        let from = at + (y - first) * (rect.right - rect.left);
        let part = RowPart {
            y,
            from: rect.left,
            to: rect.right,
        };
        store(workspace, context, part, strip, from);
    }
}
