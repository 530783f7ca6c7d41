// A component transfer, drawn inside one rectangle of its layer: the maps of its channels, and for many pixels tables that have the conversion
// of its input in them, so that a curve in linear light costs no more than one in sRGB.
#![tactic(auto)]

mod maps;

ghost use Rattle.std.specs.Prelude.{◌≡◌, true, ◌≤◌, length};
ghost use Rattle.kernel_remap.specs.Remaps.{maps_in, Inner};
ghost use Rattle.filter.specs.Kinds.{curve_maps};
ghost use Rattle.filter.specs.Curves.{transfers?};
ghost use Rattle.filter.specs.Signature.{curve_numbers};
ghost use Rattle.filter.specs.Checks.{allowed?};
ghost use Rattle.filter.specs.Accepted.{Within, Ranged};
ghost use Rattle.filter.specs.Limits.{longest_side};
ghost use Rattle.buffers.specs.Context.{Drawable};
ghost use Rattle.buffers.specs.Seen.{converts?};
ghost use Rattle.draw_curve.specs.Curve.{CurveDrawn};
ghost use Rattle.draw_curve.specs.Code.{tabled?};

use buffers::Context;
use buffers::rows::map_rows;
use buffers::spaces::{as_kept, converts};
use filter::{Input, Rect, Sheet};
use kernel_remap::few::remap_few;
use kernel_remap::remap::{prepare_maps, remap_row};
use maps::fill_maps;
use number::Fixed;
use pixel::Transfers;

// Tables cost as much as the maps of so many pixels without them.
const TABLES_PAY: usize = 12000;

// Whether tables are worth their making. No picture depends on it.
fn pays(rect: Rect) -> bool
    requires { Within longest_side longest_side rect }
{
    TABLES_PAY <= rect.right.saturating_sub(rect.left) * rect.bottom.saturating_sub(rect.top)
}

// The tables are worked out once; `inner` is the table of the step's space where the input is converted, or empty. The conversion is in the
// tables, so the input is read as it is kept. Apart from its caller, so that no other step's stack holds the tables.
#[inline(never)]
fn draw_tabled(
    workspace: &mut [u8],
    source: &[u8],
    context: Context,
    input: Input,
    rect: Rect,
    maps: &[u8],
    inner: &[u8],
)
    requires drawable { Drawable context source.now workspace.old inner.now × (allowed? context.n input ≡ true) }
    requires within { Within context.w context.h rect × (rect.left ≤ rect.right) }
    requires maps_len { (length maps.now ≡ 1024) × Inner context.space inner.now × (tabled? inner.now ≡ converts? context input) }
    ensures { CurveDrawn context (maps_in maps.now) input rect source.now workspace.old workspace.new }
{
    let mut tables = [0u8; 196608];
    prepare_maps(context.space, inner, maps, &mut tables);
    let kept = as_kept(context, input);
    map_rows(
        workspace,
        source,
        kept,
        &source[..0],
        input,
        rect,
        |src, dst, n| remap_row(maps, &tables, src, dst, n),
    );
}

// By tables where they pay, if there is the table of the step's space for an input that is converted; without them each pixel is remapped by itself.
fn draw_maps(
    workspace: &mut [u8],
    source: &[u8],
    context: Context,
    pairs: &[u8],
    input: Input,
    rect: Rect,
    maps: &[u8],
)
    requires drawable { Drawable context source.now workspace.old pairs.now × (allowed? context.n input ≡ true) }
    requires within { Within context.w context.h rect × (rect.left ≤ rect.right) × (length maps.now ≡ 1024) }
    ensures { CurveDrawn context (maps_in maps.now) input rect source.now workspace.old workspace.new }
{
    let converted = converts(context, input);
    if pays(rect) && (!converted || 0 < pairs.len()) {
        let inner = if converted { pairs } else { &source[..0] };
        draw_tabled(workspace, source, context, input, rect, maps, inner);
        return;
    }
    map_rows(
        workspace,
        source,
        context,
        pairs,
        input,
        rect,
        |src, dst, n| remap_few(maps, src, dst, n),
    );
}

// The step inside one rectangle; nothing else of the workspace changes. `pairs` is the table of its space, or empty.
pub fn draw_curve(
    workspace: &mut [u8],
    source: &[u8],
    context: Context,
    pairs: &[u8],
    transfers: Transfers,
    values: [Fixed; Sheet::NUMBERS],
    input: Input,
    rect: Rect,
)
    requires drawable { Drawable context source.now workspace.old pairs.now × (allowed? context.n input ≡ true) }
    requires transfers_value { (transfers? transfers ≡ true) × Ranged (curve_numbers transfers) values × Within context.w context.h rect }
    ensures { CurveDrawn context (curve_maps transfers values) input rect source.now workspace.old workspace.new }
{
    if rect.right <= rect.left {
        return;
    }
    let mut maps = [0u8; 1024];
    fill_maps(transfers, values, &mut maps);
    draw_maps(workspace, source, context, pairs, input, rect, &maps);
}
