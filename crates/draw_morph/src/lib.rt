// A strip of an input: the smallest or largest along its rows, and then down its columns (erode and dilate).
#![tactic(auto)]

ghost use Rattle.std.specs.Prelude.{◌≡◌, true, ◌+◌, ◌-◌, ◌*◌, ◌≤◌, ◌<◌, length};
ghost use Rattle.filter.specs.Checks.{allowed?};
ghost use Rattle.filter.specs.Limits.{longest_side, longest_row, most_pixels};
ghost use Rattle.buffers.specs.Shown.{shown};
ghost use Rattle.buffers.specs.Context.{OnRow, Readable, LoadedPart};
ghost use Rattle.draw_window.specs.LineRules.{RowWorked};
ghost use Rattle.draw_window.specs.Strips.{StripOn, area_of, StripAcross, StripDown};
ghost use Rattle.draw_morph.specs.ExtremeRule.{extremes};

use buffers::{Context, RowPart};
use draw_window::looked_at;
use filter::{Input, Rect};
use kernel_fold::Extreme;

// Where the second of a line's two rows begins: not 4,096 bytes after the first, where a load waits for the store that seems to be at its place.
const SECOND: usize = window::ROW + 512;

// A part of a row of an input as a step sees it, at the start of a line.
fn load_line(
    workspace: &[u8],
    source: &[u8],
    context: Context,
    pairs: &[u8],
    input: Input,
    part: RowPart,
    line: &mut [u8],
)
    requires readable { Readable context source.now workspace.now pairs.now × OnRow context part }
    requires input_value { (allowed? context.n input ≡ true) × (4 * (part.to - part.from) ≤ length line.old) }
    ensures { LoadedPart (shown context source.now workspace.now input) part line.old line.new }
{
    buffers::copy_own(workspace, source, context, input, part, line);
    buffers::load(workspace, source, context, pairs, input, part, line);
}

// The first count pixels of a line are worked as a row of their own; width of the results, from `skip` on, go to the pixels of dst from `at` on.
fn extreme_row(
    op: Extreme,
    line: &mut [u8],
    count: usize,
    back: usize,
    ahead: usize,
    skip: usize,
    dst: &mut [u8],
    at: usize,
    width: usize,
)
    requires line_len { (length line.old ≡ 2 * longest_row + 512) × (0 < count) × (count ≤ longest_side) × (back ≤ 64) × (ahead ≤ 64) }
    requires width_bound { (skip + width ≤ count) × (4 * (at + width) ≤ length dst.old) }
    ensures { RowWorked (extremes op back ahead) line.old count skip at width dst.old dst.new }
{
    let here = kernel_morph::extreme_lines(op, line, 0, SECOND, 4, count, back, ahead);
    kernel_row::row::copy_pixels(&line[..], here / 4 + skip, dst, at, at + width);
}

// A strip of the input, worked along its rows, at the start of scratch. A result looks at the places from `back` before it to `ahead` behind it.
// `&workspace[..]` and `&source[..]` are passed as pointer and length, so that rows of them are copied in one block.
pub fn extreme_across(
    op: Extreme,
    workspace: &[u8],
    source: &[u8],
    scratch: &mut [u8],
    context: Context,
    pairs: &[u8],
    input: Input,
    strip: Rect,
    back: usize,
    ahead: usize,
)
    requires readable { Readable context source.now workspace.now pairs.now × (allowed? context.n input ≡ true) × (back ≤ 64) × (ahead ≤ 64) }
    requires strip_on { StripOn context.w context.h strip × (4 * area_of strip ≤ length scratch.old) }
    ensures { StripAcross (extremes op back ahead) context source.now workspace.now input strip scratch.new }
{
    let left = strip.left;
    let right = strip.right;
    let top = strip.top;
    let bottom = strip.bottom;
    let width = right - left;
    let span = looked_at(context.w, left, right, back, ahead);
    let from = span.from;
    let to = span.to;
    let mut line = [0u8; SECOND + window::ROW];
    for y in top..bottom {
        let part = RowPart { y, from, to };
        load_line(
            &workspace[..],
            &source[..],
            context,
            pairs,
            input,
            part,
            &mut line,
        );
        let at = (y - top) * width;
        extreme_row(
            op,
            &mut line,
            to - from,
            back,
            ahead,
            left - from,
            scratch,
            at,
            width,
        );
    }
}

// A strip at the start of scratch, worked down its columns. The answer is the pixel where the result starts: 0 or half.
pub fn extreme_down(
    op: Extreme,
    scratch: &mut [u8],
    half: usize,
    strip: Rect,
    back: usize,
    ahead: usize,
) -> usize
    requires scratch_len { (length scratch.old ≡ 8 * half) × (half ≤ most_pixels) × (back ≤ 64) × (ahead ≤ 64) }
    requires strip_on { StripOn longest_side longest_side strip × (area_of strip ≤ half) }
    ensures { StripDown (extremes op back ahead) strip result scratch.old scratch.new × (result ≤ half) }
{
    let n = 4 * (strip.right - strip.left);
    let count = strip.bottom - strip.top;
    let here = kernel_morph::extreme_lines(op, scratch, 0, 4 * half, n, count, back, ahead);
    here / 4
}
