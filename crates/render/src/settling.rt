// All checks of a call, in the order of RULES 7.3, before the first store; and what comes after the last one.
ghost use Rattle.std.specs.Prelude.{◌≡◌, ◌*◌, ◌≤◌, length};
ghost use Rattle.filter.specs.Checks.{pixels_answer, rectangle_answer, contents_answer};
ghost use Rattle.filter.specs.Bytes.{size};
ghost use Rattle.filter.specs.Limits.{longest_side, most_steps};
ghost use Rattle.render.specs.Promise.{if_accepted, zeros};
ghost use Rattle.render.specs.Code.{usable_of, settled, outcome, AllBytes};

use checks::sizes::{check_rectangle, check_sizes};
use damage::SoFar;
use filter::{Answer, Call, Refusal, Sheet};
use kernel_row::row::clear;
use kernel_row::scan::first_invalid;

// 14, over a buffer of h rows of w pixels.
fn check_pixels(d: &[u8], w: usize, h: usize) -> Answer
    requires { length d.now ≡ 4 * (w * h) }
    ensures { result ≡ pixels_answer d.now (w * h) }
{
    let p = first_invalid(d, w, h);
    if p == w * h {
        return Ok(());
    }
    Err(Refusal::AboveAlpha(p))
}

// 14: the source, then the workspace of a redraw.
#[tactic(auto, using(checks::proofs::AnswerLaws::joined))]
fn check_contents(
    call: Call,
    source: &[u8],
    workspace: &[u8],
    w: usize,
    h: usize,
    count: usize,
) -> Answer
    requires { (count ≤ most_steps) × (h ≤ longest_side) × (length source.now ≡ size w h) × (length workspace.now ≡ count * size w h) }
    ensures { result ≡ contents_answer w h count source.now workspace.now call }
{
    check_pixels(source, w, h)?;
    match call {
        Call::Render => Ok(()),
        Call::Redraw(_) => check_pixels(workspace, w, count * h),
    }
}

// 6: redraw only.
fn check_changed(width: usize, height: usize, call: Call) -> Answer
    ensures { result ≡ rectangle_answer width height call }
{
    match call {
        Call::Render => Ok(()),
        Call::Redraw(changed) => check_rectangle(width, height, changed),
    }
}

// How many of n steps are looked at: none where a sheet may not have so many.
pub fn usable(n: usize) -> usize
    ensures { result ≡ usable_of n }
{
    if n <= Sheet::STEPS {
        return n;
    }
    0
}

// The sheet with so many steps.
pub fn counted(sheet: Sheet, count: usize) -> Sheet
    ensures { result ≡ record { width = sheet.width; height = sheet.height; count = count } }
{
    Sheet {
        width: sheet.width,
        height: sheet.height,
        count,
    }
}

// The answer to a call for n steps, from the steps' own answer and the length of the scratch buffer.
#[tactic(auto, unfolding(crate::specs::Code::settled), using(checks::proofs::AnswerLaws::joined))]
pub fn settle(
    call: Call,
    sheet: Sheet,
    n: usize,
    checked: Answer,
    source: &[u8],
    workspace: &[u8],
    scratch: usize,
) -> Answer
    ensures value { result ≡ settled call sheet n checked source.now workspace.now scratch }
    ensures all_bytes { AllBytes source.now × AllBytes workspace.now }
{
    let width = sheet.width;
    let height = sheet.height;
    check_sizes(width, height, n, source.len(), workspace.len(), scratch)?;
    check_changed(width, height, call)?;
    checked?;
    check_contents(call, source, workspace, width, height, n)
}

// After the work: "all zero after an accepted call".
pub fn finish(answer: Answer, drawn: SoFar, scratch: &mut [u8]) -> Result<usize, Refusal>
    ensures value { result ≡ outcome answer drawn.count }
    ensures scratch_after { scratch.new ≡ if_accepted answer (zeros scratch.old) scratch.old }
{
    answer?;
    clear(scratch);
    Ok(drawn.count)
}
