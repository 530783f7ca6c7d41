// A strip of an input, blurred along its rows, and then down its columns.
#![tactic(auto)]

mod lanes; // eight rows at a time, turned into lines of 32 bytes

ghost use Rattle.std.specs.Prelude.{◌≡◌, true, ◌⊎◌, ◌*◌, ◌≤◌, length};
ghost use Rattle.filter.specs.Checks.{allowed?};
ghost use Rattle.filter.specs.Limits.{longest_side, most_pixels};
ghost use Rattle.buffers.specs.Context.{Readable};
ghost use Rattle.draw_window.specs.LineRules.{Worked};
ghost use Rattle.draw_window.specs.Strips.{StripOn, area_of, StripAcross, StripDown};
ghost use Rattle.draw_blur.specs.BlurRule.{blurs};

use buffers::Context;
use draw_window::looked_at;
use filter::{Input, Rect};
use lanes::{deal_rows, gather_rows};
use window::spread_of;

// The bytes of such lines for the longest rows.
const TILE: usize = 32 * window::SIDE;

// The passes of a blur of d along the columns of count lines of n bytes at the start of a buffer. The answer is where the results start:
// at half, or at 0 where a blur has no passes.
#[tactic(auto, using(crate::proofs::BlurBanded::byte_without_passes))]
fn pass_lines(
    buf: &mut [u8],
    half: usize,
    n: usize,
    count: usize,
    d: usize,
    sums: &mut [u16],
) -> usize
    requires { (2 * half ≤ length buf.old) × (count * n ≤ half) × (n ≤ length sums.old) × (count ≤ longest_side) × (d ≤ 60) }
    ensures { Worked (blurs d) result n count buf.old buf.new × ((result ≡ 0) ⊎ (result ≡ half)) }
{
    if d < 2 {
        return 0;
    }
    kernel_blur::blur::blur_lines(buf, 0, half, n, count, d, sums);
    half
}

// A strip of the input, worked along its rows, at the start of scratch.
pub fn blur_across(
    workspace: &[u8],
    source: &[u8],
    scratch: &mut [u8],
    context: Context,
    pairs: &[u8],
    input: Input,
    strip: Rect,
    d: usize,
)
    requires readable { Readable context source.now workspace.now pairs.now × (allowed? context.n input ≡ true) × (d ≤ 60) }
    requires strip_on { StripOn context.w context.h strip × (4 * area_of strip ≤ length scratch.old) }
    ensures { StripAcross (blurs d) context source.now workspace.now input strip scratch.new }
{
    let left = strip.left;
    let right = strip.right;
    let top = strip.top;
    let bottom = strip.bottom;
    let width = right - left;
    let reach = spread_of(d);
    let span = looked_at(context.w, left, right, reach, reach);
    let places = span.to - span.from;
    let skip = 32 * (left - span.from);
    let mut tile = [0u8; 2 * TILE];
    let mut sums = [0u16; 32];
    for y in (top..bottom).step_by(8) {
        let count = (bottom - y).min(8);
        deal_rows(
            workspace, source, context, pairs, input, y, count, span, &mut tile,
        );
        let o = pass_lines(&mut tile, TILE, 32, places, d, &mut sums);
        let at = (y - top) * width;
        gather_rows(&tile, o + skip, scratch, at, width, count);
    }
}

// A strip at the start of scratch, worked down its columns. The answer is the pixel where the result starts: 0 or half.
pub fn blur_down(scratch: &mut [u8], half: usize, strip: Rect, d: usize) -> usize
    requires scratch_len { (length scratch.old ≡ 8 * half) × (half ≤ most_pixels) × (d ≤ 60) }
    requires strip_on { StripOn longest_side longest_side strip × (area_of strip ≤ half) }
    ensures { StripDown (blurs d) strip result scratch.old scratch.new × (result ≤ half) }
{
    let n = 4 * (strip.right - strip.left);
    let count = strip.bottom - strip.top;
    let mut sums = [0u16; window::ROW];
    pass_lines(scratch, 4 * half, n, count, d, &mut sums) / 4
}
