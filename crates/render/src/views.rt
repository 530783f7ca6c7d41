// A layer as a part of the caller's workspace.
ghost use Rattle.std.specs.Prelude.{◌≡◌, ◌+◌, ◌≤◌, length};
ghost use Rattle.render.specs.View.{view_at, pointer, part_at};

use super::View;
use checks::sizes::{is_canvas, is_count, picture_size};

// Where layer n lies in a workspace of `long` bytes; an empty part at its start where there is no such layer.
pub fn view_at(width: usize, height: usize, steps: usize, n: usize, long: usize) -> View
    ensures { (result ≡ view_at width height steps n long) × (result.offset + result.bytes ≤ long) }
{
    if !is_canvas(width, height) {
        return View::EMPTY;
    }
    if !is_count(steps) {
        return View::EMPTY;
    }
    let size = picture_size(width, height);
    if long != steps * size {
        return View::EMPTY;
    }
    if steps <= n {
        return View::EMPTY;
    }
    View {
        offset: n * size,
        bytes: size,
    }
}

// The layer's own bytes.
pub fn layer(width: usize, height: usize, steps: usize, n: usize, workspace: &[u8]) -> &[u8]
    ensures placed { result.ref_ptr ≡ pointer (view_at width height steps n (length workspace.now)) workspace.entry.ref_ptr }
    ensures shown { result.now ≡ part_at (view_at width height steps n (length workspace.now)) workspace.now }
{
    let v = view_at(width, height, steps, n, workspace.len());
    let a = v.offset;
    let e = a + v.bytes;
    &workspace[a..e]
}
