// One step of a full render, one of a redraw, and one of either.
ghost use Rattle.std.specs.Prelude.{◌≡◌, true};
ghost use Rattle.window.specs.Store.{WorkBuffer};
ghost use Rattle.filter.specs.Answers.{accepted?};
ghost use Rattle.layers.specs.InContext.{ContextReady, RectInside, ContextRendered, ContextRedrawn};
ghost use Rattle.layers.specs.Next.{StepReady, RectsReady, NextReady, Rendered, Redrawn, NextDrawn, ScratchAfter};

use super::contexts::context_for;
use buffers::Context;
use damage::SoFar;
use damage::damage::damage_of;
use damage::progress::{with_rect, with_space};
use damage::rectangle::{area, bounds};
use damage::resolve::resolve;
use draw::{clear_around, draw};
use filter::{Answer, Call, Rect, Region, Resolved, Sheet, Step};

// A full render's step: its region is drawn, and its layer is transparent black around it.
pub fn render_step(
    workspace: &mut [u8],
    source: &[u8],
    scratch: &mut [u8],
    context: Context,
    step: Resolved,
    region: Rect,
)
    requires { ContextReady context step region source.now workspace.old scratch.old }
    ensures context_rendered { ContextRendered context step region source.now workspace.old workspace.new }
    ensures work_buffer { WorkBuffer scratch.old scratch.new }
{
    clear_around(workspace, context, region);
    draw(workspace, source, scratch, context, step, region);
}

// A redraw's step: its rectangle is drawn.
pub fn redraw_step(
    workspace: &mut [u8],
    source: &[u8],
    scratch: &mut [u8],
    context: Context,
    step: Resolved,
    region: Rect,
    rect: Rect,
)
    requires { ContextReady context step region source.now workspace.old scratch.old × RectInside context region rect }
    ensures context_redrawn { ContextRedrawn context step region rect source.now workspace.old workspace.new }
    ensures work_buffer { WorkBuffer scratch.old scratch.new }
{
    draw(workspace, source, scratch, context, step, rect);
}

// What it leaves to the next step is its space.
fn render_next(
    sheet: Sheet,
    n: usize,
    step: Step,
    before: SoFar,
    source: &[u8],
    workspace: &mut [u8],
    scratch: &mut [u8],
) -> SoFar
    requires { StepReady sheet.width sheet.height n step source.now workspace.old scratch.old }
    ensures rendered { Rendered sheet.width sheet.height n step source.now workspace.old workspace.new before result }
    ensures work_buffer { WorkBuffer scratch.old scratch.new }
{
    let region = bounds(step.region);
    let context = context_for(sheet, n, step, before, area(region));
    render_step(workspace, source, scratch, context, resolve(step), region);
    with_space(before, n, step.space)
}

// Its rectangle is worked out from those so far, and joins them.
fn redraw_next(
    sheet: Sheet,
    changed: Region,
    n: usize,
    step: Step,
    before: SoFar,
    source: &[u8],
    workspace: &mut [u8],
    scratch: &mut [u8],
) -> SoFar
    requires step_ready { StepReady sheet.width sheet.height n step source.now workspace.old scratch.old }
    requires rects_ready { RectsReady sheet.width sheet.height n changed before }
    ensures redrawn { Redrawn sheet.width sheet.height n changed step source.now workspace.old workspace.new before result }
    ensures work_buffer { WorkBuffer scratch.old scratch.new }
{
    let region = bounds(step.region);
    let made = resolve(step);
    let rect = damage_of(
        sheet.width,
        sheet.height,
        made.shape,
        region,
        bounds(changed),
        before.rects,
    );
    let context = context_for(sheet, n, step, before, area(rect));
    redraw_step(workspace, source, scratch, context, made, region, rect);
    with_space(with_rect(before, n, rect), n, step.space)
}

// Step n of a call; where the call is refused nothing changes.
pub fn draw_next(
    call: Call,
    sheet: Sheet,
    answer: Answer,
    n: usize,
    step: Step,
    before: SoFar,
    source: &[u8],
    workspace: &mut [u8],
    scratch: &mut [u8],
) -> SoFar
    requires { accepted? answer ≡ true → NextReady call sheet n step before source.now workspace.old scratch.old }
    ensures next_drawn { NextDrawn call sheet answer n step source.now workspace.old workspace.new before result }
    ensures scratch_after { ScratchAfter answer scratch.old scratch.new }
{
    if answer.is_err() {
        return before;
    }
    match call {
        Call::Render => render_next(sheet, n, step, before, source, workspace, scratch),
        Call::Redraw(changed) => redraw_next(
            sheet, changed, n, step, before, source, workspace, scratch,
        ),
    }
}
