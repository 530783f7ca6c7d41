// One row of a flood.
ghost use Rattle.buffers.specs.Context.{InLimits, LayerIn, OnRow, RowPainted};

use buffers::{Context, RowPart};
use pixel::Pixel;

pub fn paint_flood(workspace: &mut [u8], context: Context, p: Pixel, part: RowPart)
    requires { InLimits context × LayerIn context workspace.old × OnRow context part }
    ensures { RowPainted context part (λ x. p) workspace.old workspace.new }
{
    let count = part.to - part.from;
    let lo = buffers::start(context, part);
    let hi = lo + 4 * count;
    kernel_row::row::fill(&mut workspace[lo..hi], count, p);
}
