// Blur, erode and dilate, drawn inside one rectangle of a layer: a strip of the input is worked along its rows, then down its columns, and its
// rows are stored. What differs from kind to kind is its rule for a line, and how far that looks.
#![tactic(auto)]

ghost use Rattle.std.specs.Prelude.{◌≡◌, true, ◌*◌, ◌≤◌, length};
ghost use Rattle.window.specs.Store.{WorkBuffer};
ghost use Rattle.filter.specs.Checks.{allowed?};
ghost use Rattle.filter.specs.Accepted.{Within, most_of};
ghost use Rattle.filter.specs.Bytes.{size};
ghost use Rattle.filter.specs.Limits.{longest_side, most_pixels};
ghost use Rattle.buffers.specs.Context.{Readable};
ghost use Rattle.draw_window.specs.Strips.{StripOn, area_of, StripAcross, StripDown};
ghost use Rattle.draw_pass.specs.PassDrawn.{PassDrawn};
ghost use Rattle.draw_pass.specs.PassRule.{rule_of};

use buffers::Context;
use draw_blur::{blur_across, blur_down};
use draw_morph::{extreme_across, extreme_down};
use draw_window::looked_at;
use filter::kinds::{ahead_of, back_of};
use filter::{Input, Pass, Rect};
use kernel_fold::Extreme;

// A strip of the input, worked along its rows, at the start of scratch.
fn across(
    ws: &[u8],
    src: &[u8],
    scratch: &mut [u8],
    context: Context,
    pairs: &[u8],
    pass: Pass,
    input: Input,
    strip: Rect,
    d: usize,
)
    requires readable { Readable context src.now ws.now pairs.now × (allowed? context.n input ≡ true) × (d ≤ most_of pass) }
    requires strip_on { StripOn context.w context.h strip × (4 * area_of strip ≤ length scratch.old) }
    ensures { StripAcross (rule_of pass d) context src.now ws.now input strip scratch.new }
{
    match pass {
        Pass::Blur => blur_across(ws, src, scratch, context, pairs, input, strip, d),
        Pass::Erode => {
            let op = Extreme::Least;
            extreme_across(op, ws, src, scratch, context, pairs, input, strip, d, d)
        }
        Pass::Dilate => {
            let op = Extreme::Largest;
            extreme_across(op, ws, src, scratch, context, pairs, input, strip, d, d)
        }
    }
}

// A strip at the start of scratch, worked down its columns. The answer is the pixel where the result starts: 0 or half.
fn down(scratch: &mut [u8], half: usize, pass: Pass, strip: Rect, d: usize) -> usize
    requires scratch_len { (length scratch.old ≡ 8 * half) × (half ≤ most_pixels) × (d ≤ most_of pass) }
    requires strip_on { StripOn longest_side longest_side strip × (area_of strip ≤ half) }
    ensures { StripDown (rule_of pass d) strip result scratch.old scratch.new × (result ≤ half) }
{
    match pass {
        Pass::Blur => blur_down(scratch, half, strip, d),
        Pass::Erode => extreme_down(Extreme::Least, scratch, half, strip, d, d),
        Pass::Dilate => extreme_down(Extreme::Largest, scratch, half, strip, d, d),
    }
}

// A pass of the sizes dx and dy inside a rectangle of the step's own layer; nothing else of the workspace changes.
pub fn draw_pass(
    workspace: &mut [u8],
    source: &[u8],
    scratch: &mut [u8],
    context: Context,
    pairs: &[u8],
    pass: Pass,
    input: Input,
    dx: usize,
    dy: usize,
    rect: Rect,
)
    requires readable { Readable context source.now workspace.old pairs.now × (length scratch.old ≡ 2 * size context.w context.h) }
    requires input_value { (allowed? context.n input ≡ true) × (dx ≤ most_of pass) × (dy ≤ most_of pass) × Within context.w context.h rect }
    ensures pass_drawn { PassDrawn context pass input dx dy rect source.now workspace.old workspace.new }
    ensures work_buffer { WorkBuffer scratch.old scratch.new }
{
    if rect.right <= rect.left || rect.bottom <= rect.top {
        return;
    }
    let back = back_of(pass, dy);
    let ahead = ahead_of(pass, dy);
    let span = looked_at(context.h, rect.top, rect.bottom, back, ahead);
    let strip = Rect {
        left: rect.left,
        right: rect.right,
        top: span.from,
        bottom: span.to,
    };
    across(
        &workspace[..],
        source,
        scratch,
        context,
        pairs,
        pass,
        input,
        strip,
        dx,
    );
    let at = down(scratch, context.w * context.h, pass, strip, dy);
    buffers::store_rows(workspace, context, rect, &scratch[..], at, strip.top);
}
