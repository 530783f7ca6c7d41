ghost use Rattle.std.specs.Prelude.{◌≡◌, true, ◌+◌, ◌*◌, ◌≤◌, length};
ghost use Rattle.filter.specs.Checks.{allowed?};
ghost use Rattle.filter.specs.Limits.{longest_side};
ghost use Rattle.buffers.specs.Shown.{shown};
ghost use Rattle.buffers.specs.Context.{Readable};
ghost use Rattle.draw_blur.specs.Lanes.{Dealt, Gathered};

use buffers::{Context, RowPart};
use draw_window::Span;
use filter::Input;
use kernel_blur::rows::{copy_rows, deal_row};

// A span of the rows y .. y + count - 1 of an input as a step sees it, dealt to the lanes of the lines at the start of `lines`.
pub fn deal_rows(
    workspace: &[u8],
    source: &[u8],
    context: Context,
    pairs: &[u8],
    input: Input,
    y: usize,
    count: usize,
    span: Span,
    lines: &mut [u8],
)
    requires readable { Readable context source.now workspace.now pairs.now × (allowed? context.n input ≡ true) × (y + count ≤ context.h) × (count ≤ 8) }
    requires from_le_to { (span.from ≤ span.to) × (span.to ≤ context.w) × (length lines.old ≡ 64 * longest_side) }
    ensures { Dealt (shown context source.now workspace.now input) span y count lines.old lines.new }
{
    let mut row = [0u8; window::ROW];
    for k in 0..count {
        let part = RowPart {
            y: y + k,
            from: span.from,
            to: span.to,
        };
        buffers::copy_layer(workspace, source, context, input, part, &mut row);
        let seen = buffers::see(workspace, source, context, pairs, input, part, &mut row);
        deal_row(seen, lines, 4 * k, span.to - span.from);
    }
}

// And back: of the lines from the index o on, lane k goes to the k-th row of width pixels from the pixel `at` on.
pub fn gather_rows(lines: &[u8], o: usize, dst: &mut [u8], at: usize, width: usize, count: usize)
    requires { (o + 32 * width ≤ length lines.now) × (count ≤ 8) × (4 * (at + count * width) ≤ length dst.old) }
    ensures { Gathered lines.now o at width count dst.old dst.new }
{
    for k in 0..count {
        copy_rows(lines, o + 4 * k, 32, dst, 4 * (at + k * width), 4, 4, width);
    }
}
