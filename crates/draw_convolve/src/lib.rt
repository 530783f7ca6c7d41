// A convolution, drawn inside one rectangle of its layer. The rows that its kernel reads are brought to scratch once, in the step's space and
// unpremultiplied where alpha is preserved; for each row of the result they are laid out as lines, with what the edge mode puts beyond the canvas,
// and worked.
#![tactic(auto)]

mod lines;
mod stage;
mod view;

ghost use Rattle.std.specs.Prelude.{◌≡◌, true, ◌*◌, ◌<◌, length};
ghost use Rattle.window.specs.Store.{WorkBuffer};
ghost use Rattle.kernel_lines.specs.Lines.{all_lines};
ghost use Rattle.filter.specs.Convolutions.{convolution?};
ghost use Rattle.filter.specs.Signature.{convolution_numbers};
ghost use Rattle.filter.specs.Checks.{allowed?};
ghost use Rattle.filter.specs.Bytes.{size};
ghost use Rattle.filter.specs.Accepted.{Within, Ranged, Divides};
ghost use Rattle.buffers.specs.Context.{InLimits, LayerIn, OnRow, Drawable};
ghost use Rattle.draw_convolve.specs.Convolved.{ConvolveDrawn};
ghost use Rattle.draw_convolve.specs.Staged.{RowFrom, RectFrom};

use buffers::{Context, RowPart};
use filter::{Input, Rect, Sheet};
use kernel_convolve::convolve_row;
use kernel_lines::Kernel;
use lines::lay_lines;
use number::Fixed;
use pixel::Convolution;
use stage::{rows_read, stage};
use view::View;

// A part of a row of the layer, from the rows in scratch.
fn paint(
    workspace: &mut [u8],
    scratch: &[u8],
    context: Context,
    kernel: &Kernel,
    part: RowPart,
    lines: &mut [u8],
)
    requires in_limits { InLimits context × LayerIn context workspace.old × OnRow context part × (part.from < part.to) }
    requires scratch_len { (length scratch.now ≡ 2 * size context.w context.h) × (length lines.old ≡ all_lines) }
    ensures row_from { RowFrom context kernel.now.convolution kernel.now.values part scratch.now workspace.old workspace.new }
    ensures workspace_len_unchanged { (length workspace.new ≡ length workspace.old) × (length lines.new ≡ length lines.old) }
{
    let count = part.to - part.from;
    let lo = buffers::start(context, part);
    let hi = lo + 4 * count;
    lay_lines(
        scratch,
        context.w,
        context.h,
        kernel.convolution,
        part.y,
        lines,
    );
    convolve_row(kernel, &lines[..], part.from, count, &mut workspace[lo..hi]);
}

// Each row of the rectangle.
fn paint_rows(workspace: &mut [u8], scratch: &[u8], context: Context, kernel: &Kernel, rect: Rect)
    requires in_limits { InLimits context × LayerIn context workspace.old × Within context.w context.h rect × (rect.left < rect.right) }
    requires scratch_len { length scratch.now ≡ 2 * size context.w context.h }
    ensures { RectFrom context kernel.now.convolution kernel.now.values rect scratch.now workspace.old workspace.new }
{
    let mut lines = [0u8; kernel_lines::LINES];
    let Rect {
        left,
        right,
        top,
        bottom,
    } = rect;
    for y in top..bottom {
        let part = RowPart {
            y,
            from: left,
            to: right,
        };
        paint(workspace, scratch, context, kernel, part, &mut lines);
    }
}

// The step inside one rectangle; nothing else of the workspace changes. `pairs` is the table of its space, or empty.
pub fn draw_convolve(
    workspace: &mut [u8],
    source: &[u8],
    scratch: &mut [u8],
    context: Context,
    pairs: &[u8],
    convolution: Convolution,
    values: [Fixed; Sheet::NUMBERS],
    input: Input,
    rect: Rect,
)
    requires drawable { Drawable context source.now workspace.old pairs.now × (length scratch.old ≡ 2 * size context.w context.h) }
    requires input_value { (allowed? context.n input ≡ true) × (convolution? convolution ≡ true) × Ranged (convolution_numbers convolution) values }
    requires divides { Divides convolution values × Within context.w context.h rect }
    ensures convolve_drawn { ConvolveDrawn context convolution values input rect source.now workspace.old workspace.new }
    ensures work_buffer { WorkBuffer scratch.old scratch.new }
{
    if rect.right <= rect.left || rect.bottom <= rect.top {
        return;
    }
    let kernel = Kernel {
        convolution,
        values,
    };
    let rows = rows_read(context.h, convolution, rect.top, rect.bottom);
    let view = View {
        workspace: &workspace[..],
        source,
        pairs,
        context,
        input,
    };
    stage(view, scratch, convolution.preserve, rows);
    paint_rows(workspace, &scratch[..], context, &kernel, rect);
}
