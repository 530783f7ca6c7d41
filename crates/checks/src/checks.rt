// Checks 7, 16, 17, 8 to 11 and 13: the steps, in the order of checking.
ghost use Rattle.std.specs.Prelude.{◌≡◌};
ghost use Rattle.number.specs.Number.{fixed_of};
ghost use Rattle.filter.specs.Checks.{
  unless,
  or_else,
  allowed?,
  merges?,
  inputs?,
  zero?,
  divides?,
  number_answer,
  numbers_answer,
  on_canvas?,
  step_answer,
};
ghost use Rattle.filter.specs.Valid.{FloodBytes};

use super::sizes::on_canvas;
use filter::kinds::{number_count, range_in, signature_of};
use filter::steps::{input_at, number_at};
use filter::{Answer, Input, Refusal, Region, Signature, Step};
use number::{Fault, Fixed, judge};

// 7: the source, or an earlier layer.
fn is_allowed(n: usize, input: Input) -> bool
    ensures { result ≡ allowed? n input }
{
    match input {
        Input::Source | Input::SourceAlpha => true,
        Input::Layer(k) => k < n,
    }
}

// 7: a merge has 1 to 4 inputs.
fn merges(signature: Signature) -> bool
    ensures { result ≡ merges? signature }
{
    signature.least <= signature.inputs && signature.inputs <= 4
}

fn inputs_allowed(n: usize, step: Step) -> bool
    ensures { result ≡ inputs? n step }
{
    let signature = signature_of(step.kind);
    if !merges(signature) {
        return false;
    }
    step.inputs[..signature.inputs]
        .iter()
        .all(|input| is_allowed(n, *input))
}

// 8 to 11, of a judged number.
fn number_answer(n: usize, number: Result<Fixed, Fault>) -> Answer
    ensures { result ≡ number_answer n number }
{
    match number {
        Ok(_) => Ok(()),
        Err(Fault::NotFinite) => Err(Refusal::NotFinite(n)),
        Err(Fault::Negative) => Err(Refusal::Negative(n)),
        Err(Fault::OutOfRange) => Err(Refusal::OutOfRange(n)),
        Err(Fault::NotWhole) => Err(Refusal::NotWhole(n)),
    }
}

// Each number in its listed order.
fn check_numbers(n: usize, step: Step) -> Answer
    ensures { result ≡ numbers_answer n step }
{
    let numbers = signature_of(step.kind).numbers;
    for i in 0..number_count(numbers) {
        number_answer(n, judge(range_in(numbers, i), number_at(step, i)))?;
    }
    Ok(())
}

// Whether a number is of 0 units; a refused one counts as 0.
fn is_zero(number: Result<Fixed, Fault>) -> bool
    ensures { result ≡ zero? (fixed_of number) }
{
    match number {
        Ok(units) => units.above == units.below,
        Err(_) => true,
    }
}

fn divides(step: Step) -> bool
    ensures { result ≡ divides? step }
{
    let signature = signature_of(step.kind);
    match signature.divisor {
        Some(i) => !is_zero(judge(range_in(signature.numbers, i), number_at(step, i))),
        None => true,
    }
}

// 17: a divisor that is given is not 0.
fn check_divisor(n: usize, step: Step) -> Answer
    ensures { result ≡ unless (divides? step) (Err (Refusal.Kernel n)) (Ok tt) }
{
    if divides(step) {
        Ok(())
    } else {
        Err(Refusal::Kernel(n))
    }
}

fn check_region(width: usize, height: usize, n: usize, region: Region) -> Answer
    ensures { result ≡ unless (on_canvas? width height region) (Err (Refusal.OutsideCanvas n)) (Ok tt) }
{
    if on_canvas(width, height, region) {
        Ok(())
    } else {
        Err(Refusal::OutsideCanvas(n))
    }
}

// 7, then 16, then 17, then each number through 8 to 11, then the divisor, then 13. The numbers of a step that 7, 16 or 17 refuses are not looked at.
#[tactic(auto, unfolding(filter::specs::Checks::step_answer), using(crate::proofs::AnswerLaws::joined))]
pub fn check_step(width: usize, height: usize, n: usize, step: Step) -> Answer
    ensures { result ≡ step_answer width height n step }
{
    let signature = signature_of(step.kind);
    if !inputs_allowed(n, step) {
        return Err(Refusal::Input(n));
    }
    if !signature.tables {
        return Err(Refusal::TableSize(n));
    }
    if !signature.kernel {
        return Err(Refusal::Kernel(n));
    }
    check_numbers(n, step)?;
    check_divisor(n, step)?;
    check_region(width, height, n, step.region)
}

// One step more. That a flood's colours are bytes its type says; who has the step by value can tell it.
#[tactic(auto, using(crate::proofs::AnswerLaws::joined))]
pub fn check_next(answer: Answer, width: usize, height: usize, n: usize, step: Step) -> Answer
    ensures value { result ≡ or_else answer (step_answer width height n step) }
    ensures flood_bytes { FloodBytes step.kind }
{
    answer?;
    check_step(width, height, n, step)
}
