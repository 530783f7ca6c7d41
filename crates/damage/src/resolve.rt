// A step as the renderer works it: its shape, and its numbers in units.
ghost use Rattle.std.specs.Prelude.{◌≡◌, ◌*◌, ◌≤◌, ltb, cond};
ghost use Rattle.number.specs.Number.{judged, fixed_of, limit_of};
ghost use Rattle.number.specs.declared.Range.TheVariants as Of;
ghost use Rattle.window.specs.Window.{box_size};
ghost use Rattle.filter.specs.Kinds.{no_value};
ghost use Rattle.filter.specs.Signature.{range_in, pass_numbers};
ghost use Rattle.filter.specs.Steps.{number_at, shift_of, radius_of, size_of, pixels_of, four_inputs, shaped, resolved};

use filter::kinds::{number_count, range_in, signature_of};
use filter::steps::{input_at, number_at};
use filter::{Inputs, Kind, Pass, Resolved, Shape, Sheet, Shift, Step};
use number::{Fixed, Range, judge};
use pixel::Space;
use pixel::convert::convert;
use pixel::flood::flood;
use std::array::from_fn;

// The units of number i within a range; 0 stands for those of a refused one.
fn units_at(step: Step, i: usize, range: Range) -> Fixed
    ensures { (result ≡ fixed_of (judged range (number_at step i))) × (result.above ≤ 65536 * limit_of range) × (result.below ≤ 65536 * limit_of range) }
{
    judge(range, number_at(step, i)).unwrap_or(Fixed::ZERO)
}

// An offset in whole pixels.
fn shift_at(step: Step, i: usize) -> Shift
    ensures { result ≡ shift_of (fixed_of (judged Of.Offset (number_at step i))) }
{
    let units = units_at(step, i, Range::Offset);
    Shift {
        plus: (units.above / 65536) as usize,
        minus: (units.below / 65536) as usize,
    }
}

// A radius in whole pixels.
fn radius_at(step: Step, i: usize) -> usize
    ensures { result ≡ radius_of (fixed_of (judged Of.Radius (number_at step i))) }
{
    let units = units_at(step, i, Range::Radius);
    (units.above / 65536) as usize
}

// d of a blur of u units.
fn box_size(u: u64) -> usize
    requires { u ≤ 2097152 }
    ensures { result ≡ box_size u }
{
    ((2 * (u * 18799712) + 655360000000) / 1310720000000) as usize
}

// d of a blur in one direction.
fn size_at(step: Step, i: usize) -> usize
    ensures { result ≡ size_of (fixed_of (judged Of.Deviation (number_at step i))) }
{
    let units = units_at(step, i, Range::Deviation);
    box_size(units.above)
}

// A number of a pass in whole pixels.
fn pixels_at(pass: Pass, step: Step, i: usize) -> usize
    ensures { result ≡ pixels_of pass (fixed_of (judged (range_in (pass_numbers pass) i) (number_at step i))) }
{
    match pass {
        Pass::Blur => size_at(step, i),
        Pass::Erode | Pass::Dilate => radius_at(step, i),
    }
}

fn inputs(step: Step) -> Inputs
    ensures { result ≡ four_inputs step }
{
    Inputs {
        first: input_at(step, 0),
        second: input_at(step, 1),
        third: input_at(step, 2),
        fourth: input_at(step, 3),
    }
}

// What a step reads, and how far.
#[tactic(auto, unfolding(filter::specs::Steps::shaped))]
pub fn shape_of(step: Step) -> Shape
    ensures { result ≡ shaped step }
{
    match step.kind {
        Kind::Flood(r, g, b) => {
            let opacity = units_at(step, 0, Range::Fraction);
            let made = flood(r, g, b, opacity.above);
            Shape::Flood(convert(Space::Srgb, step.space, made))
        }
        Kind::Offset => Shape::Offset(input_at(step, 0), shift_at(step, 0), shift_at(step, 1)),
        Kind::Pass(p) => {
            Shape::Pass(
                p,
                input_at(step, 0),
                pixels_at(p, step, 0),
                pixels_at(p, step, 1),
            )
        }
        Kind::Map(m) => Shape::Map(m, input_at(step, 0)),
        Kind::Pair(p) => Shape::Pair(p, input_at(step, 0), input_at(step, 1)),
        Kind::Merge(n) => Shape::Merge(n, inputs(step)),
        Kind::Convolve(k) => Shape::Convolve(k, input_at(step, 0)),
    }
}

// Only the step's own numbers are judged.
pub fn resolve(step: Step) -> Resolved
    ensures { result ≡ resolved step }
{
    let numbers = signature_of(step.kind).numbers;
    let count = number_count(numbers);
    let shape = shape_of(step);
    let values = from_fn(
        |i: usize| -> Fixed
            ensures { result ≡ cond (ltb i count) (fixed_of (judged (range_in numbers i) (number_at step i))) no_value }
        {
            if i < count {
                units_at(step, i, range_in(numbers, i))
            } else {
                Fixed::ZERO
            }
        },
    );
    Resolved { shape, values }
}
