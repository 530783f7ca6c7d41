// The rows of a rectangle, worked by a kernel from the rows of two inputs.
ghost use Rattle.std.specs.Prelude.{◌≡◌, true, ◌≤◌};
ghost use Rattle.pixel.specs.declared.Pixel.{Pixel};
ghost use Rattle.filter.specs.Checks.{allowed?};
ghost use Rattle.filter.specs.Accepted.{Within};
ghost use Rattle.buffers.specs.Context.{Drawable};
ghost use Rattle.draw_pair.specs.Pair.{PairDrawn};
ghost use Rattle.draw_pair.specs.Code.{Takes, Pairs};

use buffers::{Context, RowPart, copy_layer, see, start};
use filter::{Input, Rect};
use window::ROW;

// Each row of a rectangle. The kernel also has two work rows.
pub fn pair_rows<F: Fn(&[u8], &[u8], &mut [u8], &mut [u8], &mut [u8], usize)>(
    workspace: &mut [u8],
    source: &[u8],
    context: Context,
    pairs: &[u8],
    i: Input,
    j: Input,
    rect: Rect,
    kernel: F,
)
    requires drawable { Drawable context source.now workspace.old pairs.now }
    requires i_value { (allowed? context.n i ≡ true) × (allowed? context.n j ≡ true) }
    requires within { Within context.w context.h rect × (rect.left ≤ rect.right) }
    requires takes { Takes (F.pre kernel) }
    requires gives { (h : Pixel → Pixel → Pixel) × Pairs (F.post kernel) h }
    ensures { (h : Pixel → Pixel → Pixel) → Pairs (F.post kernel) h → PairDrawn context h i j rect source.now workspace.old workspace.new }
{
    let mut a = [0u8; ROW];
    let mut b = [0u8; ROW];
    let mut f = [0u8; ROW];
    let mut g = [0u8; ROW];
    let count = rect.right - rect.left;
    let k = 4 * count;
    for y in rect.top..rect.bottom {
        let part = RowPart {
            y,
            from: rect.left,
            to: rect.right,
        };
        let lo = start(context, part);
        let hi = lo + 4 * count;
        copy_layer(&workspace[..], source, context, i, part, &mut a);
        copy_layer(&workspace[..], source, context, j, part, &mut b);
        let first = see(&workspace[..], source, context, pairs, i, part, &mut a);
        let second = see(&workspace[..], source, context, pairs, j, part, &mut b);
        kernel(
            first,
            second,
            &mut f[..k],
            &mut g[..k],
            &mut workspace[lo..hi],
            count,
        );
    }
}
