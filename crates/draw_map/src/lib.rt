// A step that works each pixel from the pixel of one input at its place, drawn inside one rectangle of its layer. Each kind is a kernel with the
// tables that it reads, and a curve has its own crate.
#![tactic(auto)]

mod values;

ghost use Rattle.std.specs.Prelude.{◌≡◌, true, ◌≤◌};
ghost use Rattle.pixel.specs.Coefficient.{AllowedMatrix};
ghost use Rattle.pixel.specs.Matrix.{by_matrix, luminance};
ghost use Rattle.filter.specs.Kinds.{mapped};
ghost use Rattle.filter.specs.Signature.{map_numbers, map_tables?};
ghost use Rattle.filter.specs.Checks.{allowed?};
ghost use Rattle.filter.specs.Accepted.{Within, Ranged};
ghost use Rattle.buffers.specs.Context.{Drawable};
ghost use Rattle.draw_map.specs.Map.{MapDrawn};

use buffers::Context;
use buffers::rows::map_rows;
use draw_curve::draw_curve;
use filter::{Input, Map, Rect, Sheet};
use kernel_alpha::{luminance, unpremultiply};
use kernel_matrix::matrix;
use number::Fixed;
use pixel::Matrix;
use values::{matrix_of, saturate_of};

// By a matrix, whose tables are worked out once.
fn draw_matrix(
    workspace: &mut [u8],
    source: &[u8],
    context: Context,
    pairs: &[u8],
    m: Matrix,
    input: Input,
    rect: Rect,
)
    requires drawable { Drawable context source.now workspace.old pairs.now × (allowed? context.n input ≡ true) × AllowedMatrix m }
    requires within { Within context.w context.h rect × (rect.left ≤ rect.right) }
    ensures { MapDrawn context (by_matrix m) input rect source.now workspace.old workspace.new }
{
    let mut products = [0u64; 4096];
    let mut inverse = [0u32; 512];
    matrix::prepare(m, &mut products);
    unpremultiply::prepare(&mut inverse);
    map_rows(
        workspace,
        source,
        context,
        pairs,
        input,
        rect,
        |src, dst, n| { matrix::matrix_row(m, &products, &inverse, src, dst, n) },
    );
}

// By the weights of luminance, whose tables are worked out once.
fn draw_luminance(
    workspace: &mut [u8],
    source: &[u8],
    context: Context,
    pairs: &[u8],
    input: Input,
    rect: Rect,
)
    requires drawable { Drawable context source.now workspace.old pairs.now × (allowed? context.n input ≡ true) }
    requires within { Within context.w context.h rect × (rect.left ≤ rect.right) }
    ensures { MapDrawn context (by_matrix luminance) input rect source.now workspace.old workspace.new }
{
    let mut luminances = [0u32; 768];
    let mut inverse = [0u32; 512];
    luminance::prepare(&mut luminances);
    unpremultiply::prepare(&mut inverse);
    map_rows(
        workspace,
        source,
        context,
        pairs,
        input,
        rect,
        |src, dst, n| { luminance::luminance_row(&luminances, &inverse, src, dst, n) },
    );
}

// The step inside one rectangle; nothing else of the workspace changes. `pairs` is the table of its space, or empty.
pub fn draw_map(
    workspace: &mut [u8],
    source: &[u8],
    context: Context,
    pairs: &[u8],
    map: Map,
    values: [Fixed; Sheet::NUMBERS],
    input: Input,
    rect: Rect,
)
    requires drawable { Drawable context source.now workspace.old pairs.now × (allowed? context.n input ≡ true) }
    requires map_value { (map_tables? map ≡ true) × Ranged (map_numbers map) values × Within context.w context.h rect }
    ensures { MapDrawn context (mapped map values) input rect source.now workspace.old workspace.new }
{
    if rect.right <= rect.left {
        return;
    }
    match map {
        Map::Matrix => draw_matrix(
            workspace,
            source,
            context,
            pairs,
            matrix_of(values),
            input,
            rect,
        ),
        Map::Saturate => draw_matrix(
            workspace,
            source,
            context,
            pairs,
            saturate_of(values),
            input,
            rect,
        ),
        Map::Luminance => draw_luminance(workspace, source, context, pairs, input, rect),
        Map::Curve(transfers) => draw_curve(
            workspace, source, context, pairs, transfers, values, input, rect,
        ),
    }
}
