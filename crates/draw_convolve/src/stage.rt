// The rows that a convolution reads, brought to scratch.
ghost use Rattle.std.specs.Prelude.{◌≡◌, true, ℕ, ◌+◌, ◌-◌, ◌*◌, ◌≤◌, ◌<◌, IfSome, is_some, length};
ghost use Rattle.window.specs.Store.{WorkBuffer};
ghost use Rattle.pixel.specs.Alpha.{Valid, straight};
ghost use Rattle.pixel.specs.Bytes.{pixel_at, Painted};
ghost use Rattle.kernel_alpha.specs.Tables.{UnpremultiplyTable};
ghost use Rattle.kernel_lines.specs.Convolved.{as_read};
ghost use Rattle.filter.specs.Convolutions.{convolution?};
ghost use Rattle.filter.specs.Bytes.{size};
ghost use Rattle.filter.specs.Limits.{longest_side};
ghost use Rattle.draw_convolve.specs.Staged.{seen, Staged, RowsRead};

use crate::view::View;
use buffers::RowPart;
use draw_window::{Span, looked_at};
use kernel_alpha::unpremultiply::{prepare, unpremultiply_row};
use pixel::{Convolution, Edge};

// The rows that the results in the rows top .. bottom - 1 read: an edge that is extended may bring any.
pub fn rows_read(h: usize, convolution: Convolution, top: usize, bottom: usize) -> Span
    requires { (h ≤ longest_side) × (top < bottom) × (bottom ≤ h) × (convolution? convolution ≡ true) }
    ensures { RowsRead h convolution top bottom result.from result.to }
{
    let back = convolution.row;
    let ahead = convolution.rows - 1 - back;
    match convolution.edge {
        Edge::Duplicate | Edge::Wrap => Span { from: 0, to: h },
        Edge::None => looked_at(h, top, bottom, back, ahead),
    }
}

// Row y of the input as the step sees it, at its own place.
fn load_row(view: View<'_>, scratch: &mut [u8], y: usize)
    requires { (length scratch.old ≡ 2 * size view.context.w view.context.h) × (y < view.context.h) }
    ensures { Painted (λ p. seen view.entry (p - y * view.entry.context.w) y)
        0 (y * view.entry.context.w) (y * view.entry.context.w + view.entry.context.w) scratch.old scratch.new }
{
    let w = view.context.w;
    let mut row = [0u8; window::ROW];
    let part = RowPart { y, from: 0, to: w };
    buffers::copy_layer(
        view.workspace,
        view.source,
        view.context,
        view.input,
        part,
        &mut row,
    );
    let shown = buffers::see(
        view.workspace,
        view.source,
        view.context,
        view.pairs,
        view.input,
        part,
        &mut row,
    );
    let at = y * w;
    kernel_row::row::copy_pixels(shown, 0, scratch, at, at + w);
}

// Its colours unpremultiplied.
fn straighten_row(scratch: &mut [u8], inverse: &[u32], w: usize, y: usize)
    requires unpremultiply_table { UnpremultiplyTable inverse.now × (w ≤ longest_side) × (y < longest_side) × (4 * (y * w + w) ≤ length scratch.old) }
    requires by_index { (x : ℕ) → x < w → Valid (pixel_at scratch.old (4 * (y * w + x))) }
    ensures { Painted (λ p. straight (pixel_at scratch.old (4 * p))) 0 (y * w) (y * w + w) scratch.old scratch.new }
{
    let o = 4 * (y * w);
    let e = o + 4 * w;
    unpremultiply_row(inverse, &mut scratch[o..e], w);
}

// Row y as a convolution reads it: unpremultiplied by the table, if there is one.
fn stage_row(view: View<'_>, scratch: &mut [u8], inverse: Option<&[u32]>, y: usize)
    requires table { IfSome inverse (λ t. UnpremultiplyTable t.now) }
    requires room { (length scratch.old ≡ 2 * size view.context.w view.context.h) × (y < view.context.h) }
    ensures { Painted (λ p. as_read (is_some inverse.entry) (seen view.entry (p - y * view.entry.context.w) y))
        0 (y * view.entry.context.w) (y * view.entry.context.w + view.entry.context.w) scratch.old scratch.new }
{
    load_row(view, scratch, y);
    if let Some(inverse) = inverse {
        straighten_row(scratch, inverse, view.context.w, y);
    }
}

// The rows of a span.
fn stage_rows(view: View<'_>, scratch: &mut [u8], inverse: Option<&[u32]>, rows: Span)
    requires table { IfSome inverse (λ t. UnpremultiplyTable t.now) }
    requires room { (length scratch.old ≡ 2 * size view.context.w view.context.h) × (rows.from ≤ rows.to) × (rows.to ≤ view.context.h) }
    ensures { Staged view.entry.context.w (is_some inverse.entry) (seen view.entry) rows.from rows.to
        scratch.new × WorkBuffer scratch.old scratch.new }
{
    let Span { from, to } = rows;
    for y in from..to {
        stage_row(view, scratch, inverse, y);
    }
}

// The same with the table of every alpha, which is worked out where alpha is preserved.
pub fn stage(view: View<'_>, scratch: &mut [u8], preserve: bool, rows: Span)
    requires { (length scratch.old ≡ 2 * size view.context.w view.context.h) × (rows.from ≤ rows.to) × (rows.to ≤ view.context.h) }
    ensures { Staged view.entry.context.w preserve (seen view.entry) rows.from rows.to
        scratch.new × WorkBuffer scratch.old scratch.new }
{
    if preserve {
        let mut inverse = [0u32; 512];
        prepare(&mut inverse);
        stage_rows(view, scratch, Some(&inverse[..]), rows);
    } else {
        stage_rows(view, scratch, None, rows);
    }
}
