// The steps of a sheet, which stand in a lent list: checked one after another, then drawn, each layer whole or in its redraw rectangle only.
#![tactic(auto)]

mod contexts;
pub mod steps;

ghost use Rattle.std.specs.Prelude.{◌≡◌, true, ℕ, ◌<◌, ◌≤◌, length};
ghost use Rattle.filter.specs.Answers.{accepted?};
ghost use Rattle.filter.specs.Checks.{steps_answer};
ghost use Rattle.filter.specs.Steps.{step_at};
ghost use Rattle.filter.specs.Valid.{FloodBytes};
ghost use Rattle.layers.specs.Given.{given};
ghost use Rattle.layers.specs.Drawing.{ReadyFor, Drawing};

use checks::checks::check_next;
use damage::SoFar;
use damage::progress::none_so_far;
use filter::{Answer, Call, Sheet, Step};
use steps::draw_next;

// Checks 7 to 11 and 13 of the first `count` steps.
pub fn check_steps(width: usize, height: usize, steps: &[Step], count: usize) -> Answer
    requires { count ≤ length steps.now }
    ensures answers { result ≡ steps_answer width height steps.now count }
    ensures floods { (k : ℕ) → k < count → FloodBytes (step_at steps.now k).kind }
{
    let mut answer = Ok(());
    for (n, step) in steps[..count].iter().enumerate() {
        answer = check_next(answer, width, height, n, *step);
    }
    answer
}

// The steps of a call, drawn; none where it is refused. The count is that of the pixels a redraw works.
pub fn draw_steps(
    call: Call,
    sheet: Sheet,
    answer: Answer,
    steps: &[Step],
    source: &[u8],
    workspace: &mut [u8],
    scratch: &mut [u8],
) -> SoFar
    requires count_in_bounds { sheet.count ≤ length steps.now }
    requires ready_for { accepted? answer ≡ true → ReadyFor call sheet steps.now source.now workspace.old scratch.old }
    ensures { Drawing (given call sheet steps source workspace scratch) answer workspace.new scratch.new result.count }
{
    let mut so_far = none_so_far();
    for (n, step) in steps[..sheet.count].iter().enumerate() {
        so_far = draw_next(
            call,
            sheet,
            answer,
            n,
            *step,
            so_far,
            source,
            &mut *workspace,
            &mut *scratch,
        );
    }
    so_far
}
