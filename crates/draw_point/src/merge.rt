// One row of a merge.
ghost use Rattle.std.specs.Prelude.{◌≡◌, true, ◌-◌};
ghost use Rattle.window.specs.Store.{WorkBuffer};
ghost use Rattle.pixel.specs.Bytes.{ValidRow};
ghost use Rattle.filter.specs.declared.Shape.TheVariants as S;
ghost use Rattle.filter.specs.Checks.{allowed?};
ghost use Rattle.buffers.specs.Shown.{shown};
ghost use Rattle.buffers.specs.Context.{OnRow, Readable, Drawable, LoadedPart};
ghost use Rattle.draw_point.specs.RowDrawn.{Workable, WorkRow, RowDrawn, merge_input_at, RowStacked, Laid};

use buffers::{Context, RowPart};
use filter::{Input, Inputs};

fn merge_input_at(inputs: Inputs, j: usize) -> Input
    ensures { result ≡ merge_input_at inputs j }
{
    match j {
        0 => inputs.first,
        1 => inputs.second,
        2 => inputs.third,
        _ => inputs.fourth,
    }
}

// An input's row, laid over what the row `under` holds.
fn lay(
    workspace: &[u8],
    source: &[u8],
    context: Context,
    pairs: &[u8],
    i: Input,
    part: RowPart,
    a: &mut [u8],
    g: &mut [u8],
    under: &mut [u8],
)
    requires drawable { Drawable context source.now workspace.now pairs.now × (allowed? context.n i ≡ true) × OnRow context part }
    requires work_row { WorkRow part.from part.to a.old × WorkRow part.from part.to g.old × WorkRow part.from part.to under.old }
    requires valid_row { ValidRow under.old (part.to - part.from) }
    ensures laid { Laid (shown context source.now workspace.now i) part under.old under.new }
    ensures valid_row_2 { ValidRow under.new (part.to - part.from) }
{
    buffers::copy_layer(workspace, source, context, i, part, a);
    let seen = buffers::see(workspace, source, context, pairs, i, part, a);
    kernel_composite::over_onto(seen, g, under, part.to - part.from);
}

// The first input's row.
fn load_first(
    workspace: &[u8],
    source: &[u8],
    context: Context,
    pairs: &[u8],
    i: Input,
    part: RowPart,
    row: &mut [u8],
)
    requires readable { Readable context source.now workspace.now pairs.now × OnRow context part }
    requires i_value { (allowed? context.n i ≡ true) × WorkRow part.from part.to row.old }
    ensures { LoadedPart (shown context source.now workspace.now i) part row.old row.new }
{
    buffers::copy_own(workspace, source, context, i, part, row);
    buffers::load(workspace, source, context, pairs, i, part, row);
}

// The inputs' rows, each laid over those before it.
fn stack(
    workspace: &[u8],
    source: &[u8],
    context: Context,
    pairs: &[u8],
    count: usize,
    inputs: Inputs,
    part: RowPart,
    a: &mut [u8],
    g: &mut [u8],
    row: &mut [u8],
)
    requires workable { Workable context source.now workspace.now pairs.now (S.Merge count inputs) × OnRow context part }
    requires work_row { WorkRow part.from part.to a.old × WorkRow part.from part.to g.old × WorkRow part.from part.to row.old }
    ensures { RowStacked (shown context source.now workspace.now) inputs count part row.old row.new }
{
    let first = inputs.first;
    load_first(workspace, source, context, pairs, first, part, row);
    for j in 1..count {
        let input = merge_input_at(inputs, j);
        lay(workspace, source, context, pairs, input, part, a, g, row);
    }
}

pub fn paint_merge(
    workspace: &mut [u8],
    source: &[u8],
    context: Context,
    pairs: &[u8],
    count: usize,
    inputs: Inputs,
    part: RowPart,
    a: &mut [u8],
    g: &mut [u8],
    row: &mut [u8],
)
    requires workable { Workable context source.now workspace.old pairs.now (S.Merge count inputs) × OnRow context part }
    requires work_row { WorkRow part.from part.to a.old × WorkRow part.from part.to g.old × WorkRow part.from part.to row.old }
    ensures row_drawn { RowDrawn context (S.Merge count inputs) part source.now workspace.old workspace.new }
    ensures work_buffer { WorkBuffer a.old a.new × WorkBuffer g.old g.new }
    ensures work_buffer_2 { WorkBuffer row.old row.new }
{
    stack(
        &workspace[..],
        source,
        context,
        pairs,
        count,
        inputs,
        part,
        a,
        g,
        row,
    );
    buffers::store(workspace, context, part, &row[..], 0);
}
