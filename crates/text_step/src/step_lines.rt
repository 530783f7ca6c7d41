// The line of a step.
ghost use Rattle.std.specs.Prelude.{◌≡◌, ◌≤◌, true, length};
ghost use Rattle.filter.specs.Signature.{signature_of, numbers_of};
ghost use Rattle.text_field.specs.Split.{split};
ghost use Rattle.text_step.specs.Kinds.{details?};
ghost use Rattle.text_step.specs.Layout.{fields_from, number_fields};
ghost use Rattle.text_step.specs.StepLine.{region_in, input_of, step_inputs_of, step_numbers_of, step_as, step_of};

use super::fields::whole_field;
use super::kinds::{is_allowed, kind_in};
use super::layout::{field_count, number_field};
use super::spaces::{is_closed, space_at};
use filter::kinds::{number_count, signature_of};
use filter::{Input, Kind, Region, Sheet, Signature, Step};
use number::Number;
use text_field::decimals::numeral_of;
use text_field::lines::{count, field};
use text_field::wholes::whole;

fn region_in(line: &[u8]) -> Option<Region>
    ensures { result ≡ region_in (split 9 line.now) }
{
    Some(Region {
        x: whole_field(line, 1)?,
        y: whole_field(line, 2)?,
        width: whole_field(line, 3)?,
        height: whole_field(line, 4)?,
    })
}

// The field of an input.
#[tactic(auto, unfolding(crate::specs::StepLine::input_of))]
fn input_of(f: &[u8]) -> Option<Input>
    ensures { result ≡ input_of f.now }
{
    match f {
        b"src" => Some(Input::Source),
        b"alpha" => Some(Input::SourceAlpha),
        _ => Some(Input::Layer(whole(f)? as usize)),
    }
}

// The inputs of n fields from the field at on.
fn step_inputs(line: &[u8], at: usize, n: usize) -> Option<[Input; 4]>
    requires { (at ≤ 8) × (n ≤ 4) }
    ensures { result ≡ step_inputs_of (fields_from at n (split 9 line.now)) }
{
    let mut inputs = [Input::Source; 4];
    for i in 0..n {
        inputs[i] = input_of(field(line, at + i))?;
    }
    Some(inputs)
}

// The numbers of a kind's line.
fn step_numbers(
    line: &[u8],
    kind: Kind,
    row: Signature,
    n: usize,
) -> Option<[Number; Sheet::NUMBERS]>
    requires { (row ≡ signature_of kind) × (row.inputs ≤ 4) × (n ≡ numbers_of kind) }
    ensures { result ≡ step_numbers_of (number_fields kind (split 9 line.now)) }
{
    let mut numbers = [Number::Decimal(0); Sheet::NUMBERS];
    for i in 0..n {
        numbers[i] = numeral_of(field(line, number_field(kind, row, i)))?;
    }
    Some(numbers)
}

// The line of n fields of a kind.
#[tactic(auto, unfolding(crate::specs::StepLine::step_as))]
fn step_as(line: &[u8], kind: Kind, n: usize) -> Option<Step>
    requires count { n ≡ length (split 9 line.now) }
    requires given { details? kind (split 9 line.now) ≡ true }
    ensures { result ≡ step_as kind (split 9 line.now) }
{
    let row = signature_of(kind);
    if !is_allowed(row) {
        return None;
    }
    let numbers = number_count(row.numbers);
    let fields = field_count(kind, row, numbers);
    if !is_closed(line, n, fields) {
        return None;
    }
    Some(Step {
        kind,
        region: region_in(line)?,
        inputs: step_inputs(line, 5 + row.bytes, row.inputs)?,
        numbers: step_numbers(line, kind, row, numbers)?,
        space: space_at(line, fields),
    })
}

// The line of a step.
pub fn step_of(line: &[u8]) -> Option<Step>
    ensures { result ≡ step_of (split 9 line.now) }
{
    let n = count(line);
    step_as(line, kind_in(line, n)?, n)
}
