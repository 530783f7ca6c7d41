// The table of steps (RULES 5.1): a row for each kind.
ghost use Rattle.std.specs.Prelude.{◌≡◌, ◌≤◌};
ghost use Rattle.filter.specs.Accepted.{most_of};
ghost use Rattle.filter.specs.Kinds.{back_of, ahead_of};
ghost use Rattle.filter.specs.Limits.{longest_side};
ghost use Rattle.filter.specs.Signature.{
  up_to,
  alike,
  number_count,
  range_in,
  curve_numbers,
  map_numbers,
  map_tables?,
  pair_numbers,
  pass_numbers,
  signature,
  signature_of,
};

use super::convolutions::{convolution_count, divisor_place, is_allowed};
use super::curves::{are_allowed, transfer_count, transfer_range};
use super::{Group, Kind, Map, Numbers, Pair, Pass, Signature};
use number::Range;
use pixel::Transfers;
use window::spread_of;

// So many numbers of one range.
fn numbers_alike(count: usize, range: Range) -> Numbers
    ensures { result ≡ alike count range }
{
    let group = Group { end: count, range };
    Numbers {
        first: group,
        second: group,
        third: group,
        fourth: group,
    }
}

fn group(end: usize, range: Range) -> Group
    ensures { result ≡ up_to end range }
{
    Group { end, range }
}

// The channels of a curve, a group each.
pub fn curve_numbers(transfers: Transfers) -> Numbers
    ensures { result ≡ curve_numbers transfers }
{
    let Transfers { r, g, b, a } = transfers;
    let first = transfer_count(r);
    let second = first + transfer_count(g);
    let third = second + transfer_count(b);
    let fourth = third + transfer_count(a);
    Numbers {
        first: group(first, transfer_range(r)),
        second: group(second, transfer_range(g)),
        third: group(third, transfer_range(b)),
        fourth: group(fourth, transfer_range(a)),
    }
}

pub fn map_numbers(map: Map) -> Numbers
    ensures { result ≡ map_numbers map }
{
    match map {
        Map::Matrix => numbers_alike(20, Range::Coefficient),
        Map::Saturate => numbers_alike(1, Range::Fraction),
        Map::Luminance => numbers_alike(0, Range::Coefficient),
        Map::Curve(transfers) => curve_numbers(transfers),
    }
}

// 16: a table has 1 to 16 entries.
pub fn map_tables(map: Map) -> bool
    ensures { result ≡ map_tables? map }
{
    match map {
        Map::Matrix | Map::Saturate | Map::Luminance => true,
        Map::Curve(transfers) => are_allowed(transfers),
    }
}

pub fn pair_numbers(pair: Pair) -> Numbers
    ensures { result ≡ pair_numbers pair }
{
    match pair {
        Pair::Operator(_) => numbers_alike(0, Range::Coefficient),
        Pair::Arithmetic => numbers_alike(4, Range::Coefficient),
    }
}

pub fn pass_numbers(pass: Pass) -> Numbers
    ensures { result ≡ pass_numbers pass }
{
    match pass {
        Pass::Blur => numbers_alike(2, Range::Deviation),
        Pass::Erode | Pass::Dilate => numbers_alike(2, Range::Radius),
    }
}

// How far a pass of the size d looks back along a line.
pub fn back_of(pass: Pass, d: usize) -> usize
    requires { d ≤ most_of pass }
    ensures { (result ≡ back_of pass d) × (result ≤ longest_side) }
{
    match pass {
        Pass::Blur => spread_of(d),
        Pass::Erode | Pass::Dilate => d,
    }
}

// And ahead.
pub fn ahead_of(pass: Pass, d: usize) -> usize
    requires { d ≤ most_of pass }
    ensures { (result ≡ ahead_of pass d) × (result ≤ longest_side) }
{
    match pass {
        Pass::Blur => spread_of(d),
        Pass::Erode | Pass::Dilate => d,
    }
}

// The row of a kind without tables, kernel and divisor.
fn signature(bytes: usize, least: usize, inputs: usize, numbers: Numbers) -> Signature
    ensures { result ≡ signature bytes least inputs numbers }
{
    Signature {
        bytes,
        least,
        inputs,
        tables: true,
        kernel: true,
        divisor: None,
        numbers,
    }
}

pub fn signature_of(kind: Kind) -> Signature
    ensures { result ≡ signature_of kind }
{
    match kind {
        Kind::Flood(_, _, _) => signature(3, 0, 0, numbers_alike(1, Range::Fraction)),
        Kind::Offset => signature(0, 1, 1, numbers_alike(2, Range::Offset)),
        Kind::Pass(pass) => signature(0, 1, 1, pass_numbers(pass)),
        Kind::Map(map) => Signature {
            tables: map_tables(map),
            ..signature(0, 1, 1, map_numbers(map))
        },
        Kind::Pair(pair) => signature(0, 1, 2, pair_numbers(pair)),
        Kind::Merge(n) => signature(0, 1, n, numbers_alike(0, Range::Coefficient)),
        Kind::Convolve(convolution) => Signature {
            kernel: is_allowed(convolution),
            divisor: divisor_place(convolution),
            ..signature(
                0,
                1,
                1,
                numbers_alike(convolution_count(convolution), Range::Coefficient),
            )
        },
    }
}

// How many numbers a kind has.
pub fn number_count(numbers: Numbers) -> usize
    ensures { result ≡ number_count numbers }
{
    numbers.fourth.end
}

// What is allowed for number i.
pub fn range_in(numbers: Numbers, i: usize) -> Range
    ensures { result ≡ range_in numbers i }
{
    let Numbers {
        first,
        second,
        third,
        fourth,
    } = numbers;
    if i < first.end {
        return first.range;
    }
    if i < second.end {
        return second.range;
    }
    if i < third.end {
        return third.range;
    }
    fourth.range
}
