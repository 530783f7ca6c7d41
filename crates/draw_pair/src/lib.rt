// A step that works each pixel from the pixels of two inputs at its place, drawn inside one rectangle of its layer. Each kind is a kernel with the
// table that it reads.
#![tactic(auto)]

mod rows;
mod values;

ghost use Rattle.std.specs.Prelude.{◌≡◌, true, ◌≤◌};
ghost use Rattle.pixel.specs.Arithmetic.{by_arithmetic};
ghost use Rattle.filter.specs.declared.Pair.TheVariants as P;
ghost use Rattle.filter.specs.Kinds.{arithmetic_of, paired};
ghost use Rattle.filter.specs.Signature.{pair_numbers};
ghost use Rattle.filter.specs.Checks.{allowed?};
ghost use Rattle.filter.specs.Accepted.{Within, Ranged};
ghost use Rattle.buffers.specs.Context.{Drawable};
ghost use Rattle.draw_pair.specs.Pair.{PairDrawn};

use buffers::Context;
use filter::{Input, Pair, Rect, Sheet};
use kernel_arithmetic::arithmetic_row;
use kernel_composite::composite_row;
use number::Fixed;
use rows::pair_rows;
use values::arithmetic_of;

// The table of an arithmetic composite is worked out once.
fn draw_arithmetic(
    workspace: &mut [u8],
    source: &[u8],
    context: Context,
    pairs: &[u8],
    values: [Fixed; Sheet::NUMBERS],
    i: Input,
    j: Input,
    rect: Rect,
)
    requires drawable { Drawable context source.now workspace.old pairs.now × Ranged (pair_numbers P.Arithmetic) values }
    requires i_value { (allowed? context.n i ≡ true) × (allowed? context.n j ≡ true) }
    requires within { Within context.w context.h rect × (rect.left ≤ rect.right) }
    ensures { PairDrawn context (by_arithmetic (arithmetic_of values)) i j rect source.now workspace.old workspace.new }
{
    let mut sums = [0u8; 65536];
    let k = arithmetic_of(values);
    kernel_arithmetic::prepare(k, &mut sums);
    pair_rows(
        workspace,
        source,
        context,
        pairs,
        i,
        j,
        rect,
        |a, b, _, _, dst, n| { arithmetic_row(k, &sums, a, b, dst, n) },
    );
}

// The step inside one rectangle; nothing else of the workspace changes. `pairs` is the table of its space, or empty.
pub fn draw_pair(
    workspace: &mut [u8],
    source: &[u8],
    context: Context,
    pairs: &[u8],
    pair: Pair,
    values: [Fixed; Sheet::NUMBERS],
    i: Input,
    j: Input,
    rect: Rect,
)
    requires drawable { Drawable context source.now workspace.old pairs.now × Ranged (pair_numbers pair) values }
    requires i_value { (allowed? context.n i ≡ true) × (allowed? context.n j ≡ true) × Within context.w context.h rect }
    ensures { PairDrawn context (paired pair values) i j rect source.now workspace.old workspace.new }
{
    if rect.right <= rect.left {
        return;
    }
    match pair {
        Pair::Operator(o) => {
            pair_rows(
                workspace,
                source,
                context,
                pairs,
                i,
                j,
                rect,
                |a, b, f, g, dst, n| { composite_row(o, a, b, f, g, dst, n) },
            )
        }
        Pair::Arithmetic => draw_arithmetic(workspace, source, context, pairs, values, i, j, rect),
    }
}
