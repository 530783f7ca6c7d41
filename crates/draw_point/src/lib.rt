// One step of a shape that has no kinds inside, drawn inside one rectangle of its layer, row by row.
#![tactic(auto)]

mod flood;
mod merge;
mod offset;

ghost use Rattle.std.specs.Prelude.{◌≤◌};
ghost use Rattle.filter.specs.Kinds.{reads};
ghost use Rattle.filter.specs.Earlier.{Earlier};
ghost use Rattle.filter.specs.Accepted.{Within, Measured};
ghost use Rattle.buffers.specs.Context.{OnRow, Drawable};
ghost use Rattle.draw_point.specs.Kindless.{Kindless, ShapeDrawn};
ghost use Rattle.draw_point.specs.RowDrawn.{Workable, WorkRow, RowDrawn};

use buffers::{Context, RowPart};
use filter::{Rect, Shape};
use flood::paint_flood;
use merge::paint_merge;
use offset::paint_offset;

// One row; `pairs` is the table of the step's space, or empty, and a, g and row are work rows.
fn paint(
    workspace: &mut [u8],
    source: &[u8],
    context: Context,
    pairs: &[u8],
    shape: Shape,
    part: RowPart,
    a: &mut [u8],
    g: &mut [u8],
    row: &mut [u8],
)
    requires workable { Workable context source.now workspace.old pairs.now shape × Kindless shape × OnRow context part }
    requires work_row { WorkRow part.from part.to a.old × WorkRow part.from part.to g.old × WorkRow part.from part.to row.old }
    ensures { RowDrawn context shape part source.now workspace.old workspace.new }
{
    match shape {
        Shape::Flood(p) => paint_flood(workspace, context, p, part),
        Shape::Offset(i, dx, dy) => {
            paint_offset(workspace, source, context, pairs, i, dx, dy, part, a)
        }
        Shape::Merge(count, inputs) => paint_merge(
            workspace, source, context, pairs, count, inputs, part, a, g, row,
        ),
        Shape::Pass(_, _, _, _) => return,
        Shape::Map(_, _) => return,
        Shape::Pair(_, _, _) => return,
        Shape::Convolve(_, _) => return,
    }
}

// Each row of a rectangle that is not turned.
fn paint_rows(
    workspace: &mut [u8],
    source: &[u8],
    context: Context,
    pairs: &[u8],
    shape: Shape,
    rect: Rect,
    a: &mut [u8],
    g: &mut [u8],
    row: &mut [u8],
)
    requires workable { Workable context source.now workspace.old pairs.now shape × Kindless shape }
    requires within { Within context.w context.h rect × (rect.left ≤ rect.right) }
    requires work_row { WorkRow rect.left rect.right a.old × WorkRow rect.left rect.right g.old × WorkRow rect.left rect.right row.old }
    ensures { ShapeDrawn context shape rect source.now workspace.old workspace.new }
{
    for y in rect.top..rect.bottom {
        let part = RowPart {
            y,
            from: rect.left,
            to: rect.right,
        };
        paint(workspace, source, context, pairs, shape, part, a, g, row);
    }
}

// The step inside one rectangle; nothing else of the workspace changes. The work rows are exactly as wide as the rectangle.
pub fn draw_rows(
    workspace: &mut [u8],
    source: &[u8],
    context: Context,
    pairs: &[u8],
    shape: Shape,
    rect: Rect,
)
    requires drawable { Drawable context source.now workspace.old pairs.now × Earlier context.n (reads context.w context.h shape)
        × Measured shape × Kindless shape }
    requires within { Within context.w context.h rect }
    ensures { ShapeDrawn context shape rect source.now workspace.old workspace.new }
{
    if rect.right <= rect.left {
        return;
    }
    let mut a = [0u8; window::ROW];
    let mut g = [0u8; window::ROW];
    let mut row = [0u8; window::ROW];
    let k = 4 * (rect.right - rect.left);
    paint_rows(
        workspace,
        source,
        context,
        pairs,
        shape,
        rect,
        &mut a[..k],
        &mut g[..k],
        &mut row[..k],
    );
}
