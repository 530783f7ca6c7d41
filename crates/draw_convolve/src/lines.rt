// The lines that the results of one row are worked from.
ghost use Rattle.std.specs.Prelude.{◌≡◌, ◌<◌, length};
ghost use Rattle.draw_convolve.specs.Staged.{Laid, LineLaid, LinesLaid};

use kernel_lines::{clear_line, lay_line, place_of};
use pixel::Convolution;

// Line i, for the results in row y.
fn lay(scratch: &[u8], w: usize, h: usize, k: Convolution, y: usize, i: usize, lines: &mut [u8])
    requires { Laid w h k scratch.now lines.old × (y < h) × (i < k.rows) }
    ensures line_laid { LineLaid w h k y i scratch.now lines.old lines.new }
    ensures lines_len_unchanged { length lines.new ≡ length lines.old }
{
    let q = place_of(k.edge, h, k.row, y + i);
    if q < h {
        let o = 4 * (q * w);
        let e = o + 4 * w;
        lay_line(&scratch[o..e], w, k.edge, k.column, k.columns, lines, i);
    } else {
        clear_line(lines, i, w + k.columns - 1);
    }
}

// A line for each of the kernel's rows.
pub fn lay_lines(scratch: &[u8], w: usize, h: usize, k: Convolution, y: usize, lines: &mut [u8])
    requires { Laid w h k scratch.now lines.old × (y < h) }
    ensures lines_laid { LinesLaid w h k y scratch.now lines.new }
    ensures lines_len_unchanged { length lines.new ≡ length lines.old }
{
    for i in 0..k.rows {
        lay(scratch, w, h, k, y, i, lines);
    }
}
