ghost use Rattle.std.specs.Prelude.{◌+◌, ◌*◌, ◌≤◌, length};
ghost use Rattle.window.specs.Store.{WorkBuffer};
ghost use Rattle.window.specs.Ranges.{Apart};
ghost use Rattle.kernel_blur.specs.Blurred.{Blurred};

use crate::pass::box_pass;

// The three box passes of a blur of d along the columns of count lines of n bytes: from the lines at a to those at b.
pub fn blur_lines(
    buf: &mut [u8],
    a: usize,
    b: usize,
    n: usize,
    count: usize,
    d: usize,
    sums: &mut [u16],
)
    requires n_in_bounds { (a + count * n ≤ length buf.old) × (b + count * n ≤ length buf.old) × Apart a (count * n) b (count * n) }
    requires n_in_bounds_2 { (n ≤ length sums.old) × (count ≤ 65536) × (2 ≤ d) × (d ≤ 60) }
    ensures blurred { Blurred d a b n count buf.old buf.new }
    ensures work_buffer { WorkBuffer sums.old sums.new }
{
    let e = d / 2;
    // an even d's first two boxes are one shorter, each on another side
    let short = e - (1 - d % 2);
    box_pass(buf, a, b, n, count, e, short, sums);
    box_pass(buf, b, a, n, count, short, e, sums);
    box_pass(buf, a, b, n, count, e, e, sums);
}
