// The kinds by their words.
ghost use Rattle.std.specs.Prelude.{◌≡◌, ◌&&◌, length};
ghost use Rattle.filter.specs.Checks.{merges?};
ghost use Rattle.text_field.specs.Split.{split};
ghost use Rattle.text_step.specs.Kinds.{merge_inputs, kind_in};

use super::convolutions::convolution_in;
use super::fields::byte_field;
use super::spaces::space_in;
use super::transfers::transfers_in;
use filter::{Kind, Map, Pair, Pass, Signature};
use pixel::Operator;
use text_field::lines::field;

// How many inputs a merge of n fields has: those after the region, without a working space.
#[tactic(auto, unfolding(crate::specs::Kinds::merge_inputs))]
fn merge_inputs(line: &[u8], n: usize) -> usize
    requires { n ≡ length (split 9 line.now) }
    ensures { result ≡ merge_inputs (split 9 line.now) }
{
    if space_in(field(line, n.saturating_sub(1))).is_some() {
        return n.saturating_sub(6);
    }
    n.saturating_sub(5)
}

// The kind of a line of n fields, with what the line says of it.
#[tactic(auto, unfolding(crate::specs::Kinds::kind_of, crate::specs::Kinds::first_kind))]
pub fn kind_in(line: &[u8], n: usize) -> Option<Kind>
    requires { n ≡ length (split 9 line.now) }
    ensures { result ≡ kind_in (split 9 line.now) }
{
    match field(line, 0) {
        b"flood" => Some(Kind::Flood(
            byte_field(line, 5)?,
            byte_field(line, 6)?,
            byte_field(line, 7)?,
        )),
        b"offset" => Some(Kind::Offset),
        b"blur" => Some(Kind::Pass(Pass::Blur)),
        b"erode" => Some(Kind::Pass(Pass::Erode)),
        b"dilate" => Some(Kind::Pass(Pass::Dilate)),
        b"matrix" => Some(Kind::Map(Map::Matrix)),
        b"saturate" => Some(Kind::Map(Map::Saturate)),
        b"lumalpha" => Some(Kind::Map(Map::Luminance)),
        b"curve" => Some(Kind::Map(Map::Curve(transfers_in(line)?))),
        b"over" => Some(Kind::Pair(Pair::Operator(Operator::Over))),
        b"in" => Some(Kind::Pair(Pair::Operator(Operator::In))),
        b"out" => Some(Kind::Pair(Pair::Operator(Operator::Out))),
        b"atop" => Some(Kind::Pair(Pair::Operator(Operator::Atop))),
        b"xor" => Some(Kind::Pair(Pair::Operator(Operator::Xor))),
        b"arith" => Some(Kind::Pair(Pair::Arithmetic)),
        b"merge" => Some(Kind::Merge(merge_inputs(line, n))),
        b"conv" => Some(Kind::Convolve(convolution_in(line)?)),
        _ => None,
    }
}

// A merge has 1 to 4 inputs, and a table 1 to 16 entries.
pub fn is_allowed(row: Signature) -> bool
    ensures { result ≡ (merges? row && row.tables) }
{
    row.least <= row.inputs && row.inputs <= 4 && row.tables
}
