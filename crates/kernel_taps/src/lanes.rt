ghost use Rattle.std.specs.Prelude.{◌≡◌, ◌+◌, ◌*◌, ◌≤◌, ◌<◌, length};
ghost use Rattle.window.specs.Store.{Filled};
ghost use Rattle.kernel_lines.specs.Lines.{all_lines, line_bytes};
ghost use Rattle.kernel_taps.specs.Lanes.{row_total, tapped};

use crate::finish::Finish;
use kernel_lines::LINE;

// N weights from `first` on over the bytes four by four from `at` on.
fn row<const N: usize>(lines: &[u8], at: usize, weights: [u16; 25], first: usize) -> u32
    requires { (N ≤ 5) × (at + 4 * N ≤ length lines.now + 3) × (first + N ≤ 25) }
    ensures { (result ≡ row_total N weights first lines.now at) × (result ≤ 16711425 * N) }
{
    let mut sum: u32 = 0;
    for j in 0..N {
        sum += u32::from(weights[first + j]) * u32::from(lines[at + 4 * j]);
    }
    sum
}

// Byte `at` of N lines and those behind it.
fn lane<const N: usize>(lines: &[u8], at: usize, weights: [u16; 25], finish: Finish) -> u8
    requires { (N ≤ 5) × (length lines.now ≡ all_lines) × (at + 16 < line_bytes) }
    ensures { result ≡ tapped N weights finish lines.now at }
{
    let mut sum: u32 = 0;
    for i in 0..N {
        sum += row::<N>(lines, at + i * LINE, weights, 5 * i);
    }
    finish.byte(sum)
}

// n bytes of the results of a kernel of at most N rows and columns, from byte `at` of the lines on.
pub fn fill<const N: usize>(
    lines: &[u8],
    at: usize,
    weights: [u16; 25],
    finish: Finish,
    out: &mut [u8],
    n: usize,
)
    requires { (N ≤ 5) × (length lines.now ≡ all_lines) × (at + n + 16 ≤ line_bytes) × (n ≤ length out.old) }
    ensures { Filled (λ b. tapped N weights finish lines.now (at + b)) 0 n out.old out.new }
{
    for (b, x) in out[..n].iter_mut().enumerate() {
        *x = lane::<N>(lines, at + b, weights, finish);
    }
}
