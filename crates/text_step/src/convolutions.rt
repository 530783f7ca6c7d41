// The convolution of a line.
ghost use Rattle.std.specs.Prelude.{◌≡◌, ◌≤◌};
ghost use Rattle.text_field.specs.Split.{split};
ghost use Rattle.text_step.specs.Convolutions.{truth_in, edge_in, divisor_field, ordered, convolution_in};

use super::fields::{whole_at, whole_field};
use filter::convolutions::{orders_allowed, values_in};
use pixel::{Convolution, Edge};
use text_field::lines::field;

// What `true` and `false` say.
#[tactic(auto, unfolding(crate::specs::Convolutions::truth_in))]
fn truth_in(f: &[u8]) -> Option<bool>
    ensures { result ≡ truth_in f.now }
{
    match f {
        b"true" => Some(true),
        b"false" => Some(false),
        _ => None,
    }
}

// The edge mode that a field names.
#[tactic(auto, unfolding(crate::specs::Convolutions::edge_in))]
fn edge_in(f: &[u8]) -> Option<Edge>
    ensures { result ≡ edge_in f.now }
{
    match f {
        b"duplicate" => Some(Edge::Duplicate),
        b"wrap" => Some(Edge::Wrap),
        b"none" => Some(Edge::None),
        _ => None,
    }
}

fn ordered(columns: usize, rows: usize) -> Convolution
    ensures { result ≡ ordered columns rows }
{
    Convolution {
        columns,
        rows,
        divided: false,
        column: 0,
        row: 0,
        preserve: false,
        edge: Edge::None,
    }
}

fn divisor_field(convolution: Convolution) -> usize
    ensures { (result ≡ divisor_field convolution) × (result ≤ 33) }
{
    8 + values_in(convolution)
}

// The convolution of a line: orders of 1 to 5, and target, preserve-alpha and edge mode of the form. The orders say how many values
// there are, and so where the other fields stand.
#[tactic(auto, unfolding(crate::specs::Convolutions::convolution_of))]
pub fn convolution_in(line: &[u8]) -> Option<Convolution>
    ensures { result ≡ convolution_in (split 9 line.now) }
{
    let kernel = ordered(whole_at(line, 6), whole_at(line, 7));
    if !orders_allowed(kernel) {
        return None;
    }
    let d = divisor_field(kernel);
    Some(Convolution {
        divided: 0 < field(line, d).len(),
        column: whole_field(line, d + 2)?,
        row: whole_field(line, d + 3)?,
        preserve: truth_in(field(line, d + 4))?,
        edge: edge_in(field(line, d + 5))?,
        ..kernel
    })
}
