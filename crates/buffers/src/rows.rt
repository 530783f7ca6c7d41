// The rows of a rectangle of a step's layer, worked by a kernel from the rows of its inputs.
ghost use Rattle.std.specs.Prelude.{◌≡◌, true, ◌-◌, ◌*◌, ◌≤◌, length};
ghost use Rattle.pixel.specs.declared.Pixel.{Pixel};
ghost use Rattle.filter.specs.Checks.{allowed?};
ghost use Rattle.filter.specs.Accepted.{Within};
ghost use Rattle.buffers.specs.Shown.{shown};
ghost use Rattle.buffers.specs.Context.{OnRow, Drawable, RowPainted, DrawnIn};
ghost use Rattle.buffers.specs.Kernels.{Takes, Maps};

use super::{Context, RowPart, copy_layer, see, start};
use filter::{Input, Rect};

// A part of a row of the layer; a is a work row.
fn map_part<F: Fn(&[u8], &mut [u8], usize)>(
    workspace: &mut [u8],
    source: &[u8],
    context: Context,
    pairs: &[u8],
    input: Input,
    part: RowPart,
    a: &mut [u8],
    kernel: &F,
)
    requires drawable { Drawable context source.now workspace.old pairs.now × (allowed? context.n input ≡ true) × OnRow context part }
    requires work_row { 4 * (part.to - part.from) ≤ length a.old }
    requires takes { Takes (F.pre kernel.now) }
    ensures { (f : Pixel → Pixel) → Maps (F.post kernel.now) f
        → RowPainted context part (λ x. f (shown context source.now workspace.old input x part.y)) workspace.old workspace.new }
{
    let count = part.to - part.from;
    let lo = start(context, part);
    let hi = lo + 4 * count;
    copy_layer(&workspace[..], source, context, input, part, a);
    let seen = see(&workspace[..], source, context, pairs, input, part, a);
    kernel(seen, &mut workspace[lo..hi], count);
}

// Each row of a rectangle.
pub fn map_rows<F: Fn(&[u8], &mut [u8], usize)>(
    workspace: &mut [u8],
    source: &[u8],
    context: Context,
    pairs: &[u8],
    input: Input,
    rect: Rect,
    kernel: F,
)
    requires drawable { Drawable context source.now workspace.old pairs.now × (allowed? context.n input ≡ true) }
    requires within { Within context.w context.h rect × (rect.left ≤ rect.right) }
    requires takes { Takes (F.pre kernel) }
    requires maps { (f : Pixel → Pixel) × Maps (F.post kernel) f }
    ensures { (f : Pixel → Pixel) → Maps (F.post kernel) f
        → DrawnIn context rect (λ x y. f (shown context source.now workspace.old input x y)) workspace.old workspace.new }
{
    let mut a = [0u8; window::ROW];
    for y in rect.top..rect.bottom {
        let part = RowPart {
            y,
            from: rect.left,
            to: rect.right,
        };
        map_part(
            workspace, source, context, pairs, input, part, &mut a, &kernel,
        );
    }
}
