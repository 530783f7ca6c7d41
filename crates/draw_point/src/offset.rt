// One row of an offset.
ghost use Rattle.std.specs.Prelude.{◌≡◌, ◌-◌, min};
ghost use Rattle.window.specs.Store.{WorkBuffer};
ghost use Rattle.pixel.specs.Alpha.{clear};
ghost use Rattle.filter.specs.declared.Shape.TheVariants as S;
ghost use Rattle.buffers.specs.Context.{InLimits, LayerIn, OnRow, RowPainted};
ghost use Rattle.draw_point.specs.RowDrawn.{Workable, WorkRow, RowDrawn};

use super::flood::paint_flood;
use buffers::{Context, RowPart};
use filter::{Input, Shift};
use pixel::Pixel;

// t - m, cut to 0..w.
fn cut(t: usize, m: usize, w: usize) -> usize
    ensures { result ≡ min (t - m) w }
{
    t.saturating_sub(m).min(w)
}

// A part of a row that shows nothing.
fn paint_none(workspace: &mut [u8], context: Context, part: RowPart)
    requires { InLimits context × LayerIn context workspace.old × OnRow context part }
    ensures { RowPainted context part (λ x. clear) workspace.old workspace.new }
{
    let none = Pixel {
        r: 0,
        g: 0,
        b: 0,
        a: 0,
    };
    paint_flood(workspace, context, none, part);
}

// Only the columns of the input that show are loaded.
pub fn paint_offset(
    workspace: &mut [u8],
    source: &[u8],
    context: Context,
    pairs: &[u8],
    i: Input,
    dx: Shift,
    dy: Shift,
    part: RowPart,
    a: &mut [u8],
)
    requires { Workable context source.now workspace.old pairs.now (S.Offset i dx dy) × OnRow context part × WorkRow part.from part.to a.old }
    ensures row_drawn { RowDrawn context (S.Offset i dx dy) part source.now workspace.old workspace.new }
    ensures work_buffer { WorkBuffer a.old a.new }
{
    let below = part.y + dy.minus;
    if below < dy.plus {
        paint_none(workspace, context, part);
        return;
    }
    let v = below - dy.plus;
    if context.h <= v {
        paint_none(workspace, context, part);
        return;
    }
    let w = context.w;
    let right = dx.plus;
    let left = dx.minus;
    let first = cut(part.from + left, right, w);
    let last = cut(part.to + left, right, w);
    let loaded = RowPart {
        y: v,
        from: first,
        to: last,
    };
    buffers::copy_own(&workspace[..], source, context, i, loaded, a);
    buffers::load(&workspace[..], source, context, pairs, i, loaded, a);
    let whole = RowPart {
        y: part.y,
        from: 0,
        to: w,
    };
    let lo = buffers::start(context, whole);
    let hi = lo + 4 * w;
    kernel_row::row::shift_row(
        &a[..],
        last - first,
        right + first,
        left,
        &mut workspace[lo..hi],
        part.from,
        part.to,
    );
}
