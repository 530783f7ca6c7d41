// Rows of a picture extended beyond its edges: what a convolution reads. A buffer of lines holds one row for each of the kernel's.
#![tactic(auto)]

mod kernel; // a convolution with its values, and its divisor and bias

ghost use Rattle.std.specs.Prelude.{◌≡◌, cond, ◌+◌, ◌-◌, ◌*◌, ◌≤◌, ◌<◌, leb, length};
ghost use Rattle.window.specs.Limits.{longest_side};
ghost use Rattle.pixel.specs.Alpha.{clear};
ghost use Rattle.pixel.specs.Bytes.{Painted};
ghost use Rattle.pixel.specs.Convolve.{extended};
ghost use Rattle.pixel.specs.Word.{Packed};
ghost use Rattle.kernel_lines.specs.Lines.{line_bytes, all_lines, place_of, pixel_in};

pub use kernel::Kernel;
use kernel_row::row::{clear_pixels, copy_pixels};
use pixel::{Edge, bytes};

// The pixels of a line, its bytes, and those of all lines.
const PLACES: usize = window::SIDE + 4;

pub const LINE: usize = 4 * PLACES;

pub const LINES: usize = 5 * LINE;

// The place i − t of a line of n places, by the edge mode.
pub fn place_of(edge: Edge, n: usize, t: usize, i: usize) -> usize
    requires { (0 < n) × (n ≤ longest_side) × (t ≤ 5) × (i ≤ longest_side + 5) }
    ensures { result ≡ place_of edge n t i }
{
    match edge {
        Edge::Duplicate => i.saturating_sub(t).min(n - 1),
        Edge::Wrap => (i + t * (n - 1)) % n,
        Edge::None => i.checked_sub(t).unwrap_or(n),
    }
}

// Pixel p of a row of w pixels, transparent black behind them.
fn pixel_in(row: &[u8], w: usize, p: usize) -> u32
    requires { (length row.now ≡ 4 * w) × (w ≤ longest_side) }
    ensures { Packed (pixel_in row.now w p) result }
{
    if p < w { bytes::word(row, 4 * p) } else { 0 }
}

// The places from `from` up to `to` of the line that starts at the pixel s, one by one.
fn lay_places(
    row: &[u8],
    w: usize,
    edge: Edge,
    t: usize,
    lines: &mut [u8],
    s: usize,
    from: usize,
    to: usize,
)
    requires row_len { (length row.now ≡ 4 * w) × (0 < w) × (w ≤ longest_side) × (t ≤ 5) }
    requires from_le_to { (from ≤ to) × (to ≤ longest_side + 5) × (4 * (s + to) ≤ length lines.old) }
    ensures { Painted (extended edge w t (pixel_in row.now w)) (4 * s) from to lines.old lines.new }
{
    for x in from..to {
        bytes::put(
            lines,
            4 * (s + x),
            pixel_in(row, w, place_of(edge, w, t, x)),
        );
    }
}

// Lays a row of w pixels as line i, with what lies before and behind it: a block of the row, and the few places about it one by one.
pub fn lay_line(
    row: &[u8],
    w: usize,
    edge: Edge,
    t: usize,
    order: usize,
    lines: &mut [u8],
    i: usize,
)
    requires row_len { (length row.now ≡ 4 * w) × (0 < w) × (w ≤ longest_side) }
    requires t_lt_order { (t < order) × (order ≤ 5) × (i < 5) × (length lines.old ≡ all_lines) }
    ensures { Painted (extended edge w t (pixel_in row.now w)) (i * line_bytes) 0 (w + order - 1) lines.old lines.new }
{
    let s = i * PLACES;
    lay_places(row, w, edge, t, lines, s, 0, t);
    copy_pixels(row, 0, lines, s + t, s + t + w);
    lay_places(row, w, edge, t, lines, s, t + w, w + order - 1);
}

// Clears the first n places of line i.
pub fn clear_line(lines: &mut [u8], i: usize, n: usize)
    requires { (n ≤ longest_side + 4) × (i < 5) × (length lines.old ≡ all_lines) }
    ensures { Painted (λ m. clear) (i * line_bytes) 0 n lines.old lines.new }
{
    let s = i * PLACES;
    clear_pixels(lines, s, s + n);
}
