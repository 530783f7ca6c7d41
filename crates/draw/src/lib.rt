// One step of any shape, drawn inside one rectangle of its layer; and a layer cleared around a rectangle.
#![tactic(auto)]

ghost use Rattle.std.specs.Prelude.{◌≡◌, ◌*◌, length};
ghost use Rattle.window.specs.Store.{WorkBuffer};
ghost use Rattle.filter.specs.Kinds.{reads};
ghost use Rattle.filter.specs.Earlier.{Earlier};
ghost use Rattle.filter.specs.Accepted.{Within, Bounded};
ghost use Rattle.filter.specs.Bytes.{size};
ghost use Rattle.buffers.specs.Buffers.{stands, Sized, ValidInputs};
ghost use Rattle.buffers.specs.Context.{InLimits, LayerIn, Drawable, StepDrawn};
ghost use Rattle.draw.specs.ClearedAround.{ClearedAround};
ghost use Rattle.draw.specs.CoversCanvas.{covers?};

use buffers::Context;
use draw_convolve::draw_convolve;
use draw_map::draw_map;
use draw_pair::draw_pair;
use draw_pass::draw_pass;
use draw_point::draw_rows;
use filter::{Rect, Resolved, Shape};

// A step inside one rectangle of its layer, its inputs converted by the table t of its space, or without one where t is empty. `&src[..]` is passed as
// pointer and length, so that the compiler sees that the source is apart from work rows and copies it in one block.
fn draw_shape(
    ws: &mut [u8],
    src: &[u8],
    scratch: &mut [u8],
    context: Context,
    t: &[u8],
    step: Resolved,
    rect: Rect,
)
    requires drawable { Drawable context src.now ws.old t.now × (length scratch.old ≡ 2 * size context.w context.h) }
    requires earlier { Earlier context.n (reads context.w context.h step.shape) × Bounded step × Within context.w context.h rect }
    ensures step_drawn { StepDrawn context step rect src.now ws.old ws.new }
    ensures work_buffer { WorkBuffer scratch.old scratch.new }
{
    let shape = step.shape;
    let values = step.values;
    match shape {
        Shape::Pass(pass, i, dx, dy) => {
            draw_pass(ws, &src[..], scratch, context, t, pass, i, dx, dy, rect)
        }
        Shape::Map(map, i) => draw_map(ws, &src[..], context, t, map, values, i, rect),
        Shape::Pair(pair, i, j) => draw_pair(ws, &src[..], context, t, pair, values, i, j, rect),
        Shape::Convolve(k, i) => {
            draw_convolve(ws, &src[..], scratch, context, t, k, values, i, rect)
        }
        _ => draw_rows(ws, &src[..], context, t, shape, rect),
    }
}

// The table of the step's space is worked out once.
fn draw_tabled(
    workspace: &mut [u8],
    source: &[u8],
    scratch: &mut [u8],
    context: Context,
    step: Resolved,
    rect: Rect,
)
    requires sized { Sized context.w context.h context.n source.now workspace.old × (length scratch.old ≡ 2 * size context.w context.h) }
    requires valid_inputs { ValidInputs context.n (stands context.w context.h source.now workspace.old)
        × Earlier context.n (reads context.w context.h step.shape) × Bounded step }
    requires within { Within context.w context.h rect }
    ensures step_drawn { StepDrawn context step rect source.now workspace.old workspace.new }
    ensures work_buffer { WorkBuffer scratch.old scratch.new }
{
    let space = context.space;
    let mut pairs = [0u8; 65536];
    kernel_remap::prepare(space, &mut pairs);
    draw_shape(workspace, source, scratch, context, &pairs, step, rect);
}

// A step inside one rectangle of its layer; nothing else of the workspace changes. A step that has no table pays for none.
pub fn draw(
    workspace: &mut [u8],
    source: &[u8],
    scratch: &mut [u8],
    context: Context,
    step: Resolved,
    rect: Rect,
)
    requires sized { Sized context.w context.h context.n source.now workspace.old × (length scratch.old ≡ 2 * size context.w context.h) }
    requires valid_inputs { ValidInputs context.n (stands context.w context.h source.now workspace.old)
        × Earlier context.n (reads context.w context.h step.shape) × Bounded step }
    requires within { Within context.w context.h rect }
    ensures step_drawn { StepDrawn context step rect source.now workspace.old workspace.new }
    ensures work_buffer { WorkBuffer scratch.old scratch.new }
{
    if context.tabled {
        draw_tabled(workspace, source, scratch, context, step, rect);
        return;
    }
    let none = &source[..0];
    draw_shape(workspace, source, scratch, context, none, step, rect);
}

// Whether the rectangle holds the whole canvas.
#[tactic(auto, using(crate::proofs::Clearing::covering))]
fn covers(rect: Rect, w: usize, h: usize) -> bool
    ensures { result ≡ covers? w h rect }
{
    rect.left == 0 && (w <= rect.right && (rect.top == 0 && h <= rect.bottom))
}

// Everything of the step's layer outside a rectangle is cleared; the inside is left to whoever draws it. A rectangle that holds the canvas
// leaves nothing to clear.
pub fn clear_around(workspace: &mut [u8], context: Context, rect: Rect)
    requires { InLimits context × LayerIn context workspace.old }
    ensures { ClearedAround context.w context.h context.n rect workspace.old workspace.new }
{
    if covers(rect, context.w, context.h) {
        return;
    }
    let area = context.w * context.h;
    let from = context.n * area;
    kernel_row::row::clear_pixels(workspace, from, from + area);
}
