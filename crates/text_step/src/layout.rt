// Where the inputs and numbers of a kind stand in its line.
ghost use Rattle.std.specs.Prelude.{◌≡◌, ◌+◌, ◌≤◌};
ghost use Rattle.filter.specs.Limits.{most_numbers};
ghost use Rattle.filter.specs.Signature.{signature_of, numbers_of};
ghost use Rattle.text_step.specs.Layout.{curve_heads, map_heads, convolution_heads, heads_to, number_field, behind_of, fields_of};

use super::transfers::head_of;
use filter::convolutions::values_in;
use filter::kinds::curve_numbers;
use filter::{Kind, Map, Signature};
use pixel::{Convolution, Transfers};

// The words and counts of a curve up to the channel of number i.
fn curve_heads(transfers: Transfers, i: usize) -> usize
    ensures { (result ≡ curve_heads transfers i) × (result ≤ 8) }
{
    let Transfers { r, g, b, a } = transfers;
    let numbers = curve_numbers(transfers);
    let red = head_of(r);
    if i < numbers.first.end {
        return red;
    }
    let green = red + head_of(g);
    if i < numbers.second.end {
        return green;
    }
    let blue = green + head_of(b);
    if i < numbers.third.end {
        return blue;
    }
    blue + head_of(a)
}

fn map_heads(map: Map, i: usize) -> usize
    ensures { (result ≡ map_heads map i) × (result ≤ 8) }
{
    match map {
        Map::Matrix | Map::Saturate | Map::Luminance => 0,
        Map::Curve(transfers) => curve_heads(transfers, i),
    }
}

// The orders, and in front of the bias a divisor's field that is empty.
fn convolution_heads(convolution: Convolution, i: usize) -> usize
    ensures { (result ≡ convolution_heads convolution i) × (result ≤ 8) }
{
    if i < values_in(convolution) || convolution.divided {
        return 2;
    }
    3
}

// The fields in front of number i that are no numbers.
fn heads_to(kind: Kind, i: usize) -> usize
    ensures { (result ≡ heads_to kind i) × (result ≤ 8) }
{
    match kind {
        Kind::Map(map) => map_heads(map, i),
        Kind::Convolve(convolution) => convolution_heads(convolution, i),
        Kind::Flood(_, _, _) | Kind::Offset | Kind::Pass(_) | Kind::Pair(_) | Kind::Merge(_) => 0,
    }
}

// The field of number i: word and region, bytes and inputs come first.
pub fn number_field(kind: Kind, row: Signature, i: usize) -> usize
    requires { (row ≡ signature_of kind) × (row.inputs ≤ 4) × (i ≤ most_numbers) }
    ensures { (result ≡ number_field kind i) × (result ≤ 20 + most_numbers) }
{
    5 + row.bytes + row.inputs + heads_to(kind, i) + i
}

fn behind_of(kind: Kind) -> usize
    ensures { (result ≡ behind_of kind) × (result ≤ 4) }
{
    match kind {
        Kind::Convolve(_) => 4,
        _ => 0,
    }
}

// How many fields the line of a kind with n numbers has.
pub fn field_count(kind: Kind, row: Signature, n: usize) -> usize
    requires { (row ≡ signature_of kind) × (row.inputs ≤ 4) × (n ≡ numbers_of kind) }
    ensures { (result ≡ fields_of kind) × (result ≤ 24 + most_numbers) }
{
    number_field(kind, row, n) + behind_of(kind)
}
