ghost use Rattle.std.specs.Prelude.{◌≡◌, ◌++◌, IfOk, OnOk};
ghost use Rattle.std.specs.Fmt.{decimal, signed_decimal};
ghost use Rattle.mh_plan.specs.Limits.{IsWithinLimits, calls_in};
ghost use Rattle.mh_report.specs.Results.{result_said, results_said, thread_said};
ghost use Rattle.mh_main.specs.Sums.{int_of, result_int, returned_int, sum_line, sum_of, with_results};

use itoa::Buffer;
use mh_base::NoMemory;
use mh_handle::Answer;
use mh_plan::Plan;
use mh_report::Answers;
use mh_values::{Num, Outcome, Value};
use std::alloc::Global;

// An int, and 0 of any other value.
fn int_of(value: &Value) -> i32
    ensures { result ≡ int_of value.now }
{
    match value {
        Value::Prim(Num::I(int)) => *int,
        _ => 0,
    }
}

fn returned_int(value: &Option<Value>) -> i32
    ensures { result ≡ returned_int value.now }
{
    match value {
        Some(value) => int_of(value),
        None => 0,
    }
}

// The int that a call returned, or 0 if it returned none.
fn result_int(answer: &Answer) -> i32
    ensures { result ≡ result_int (result_said answer.now) }
{
    match answer.outcome() {
        Outcome::Return(value) => returned_int(value),
        Outcome::Throw(_) => 0,
    }
}

// A sum with the ints that a thread's calls returned, wrapped to 32 bits.
fn with_results(sum: i32, answers: &Answers) -> i32
    ensures { result ≡ with_results sum (thread_said answers.now) }
{
    answers
        .as_slice()
        .iter()
        .fold(sum, |sum, answer| sum.wrapping_add(result_int(answer)))
}

/// The sum of the ints that the calls of all threads returned, wrapped to 32 bits.
pub(crate) fn sum_of(threads: &[Answers]) -> i32
    ensures { result ≡ sum_of (results_said threads.now) }
{
    threads.iter().fold(0, with_results)
}

/// How many calls a plan has.
pub(crate) fn calls_in(plan: &Plan) -> usize
    requires { IsWithinLimits plan.now }
    ensures { result ≡ calls_in plan.now }
{
    let mut count = 0;
    for calls in plan.as_slice() {
        count += calls.len();
    }
    count
}

/// What is written of the run of the input that is made from a number.
#[derive(Clone, Copy)]
pub(crate) struct Sums {
    pub(crate) number: u32,
    pub(crate) sites: usize,
    pub(crate) calls: usize,
    /// Of the ints that the calls returned, wrapped to 32 bits.
    pub(crate) sum: i32,
    pub(crate) forms: u32,
    pub(crate) types: u32,
}

// A word, and the digits of a number.
fn push_part(text: &mut Vec<u8>, word: &[u8], digits: &str) -> Result<(), NoMemory>
    ensures { OnOk result (text.new.items ≡ text.old.items ++ word.now ++ digits.now) }
{
    text.extend_from_slice(word)?;
    text.extend_from_slice(digits.as_bytes())?;
    Ok(())
}

/// The line of a run.
pub(crate) fn line(alloc: Global, sums: &Sums) -> Result<Vec<u8>, NoMemory>
    ensures { IfOk result (λ text. text.items
        ≡ sum_line sums.now.number sums.now.sites sums.now.calls
        sums.now.sum sums.now.forms sums.now.types) }
{
    let mut digits = Buffer::new();
    let mut text = Vec::new(alloc);
    push_part(&mut text, b"gen ", digits.format(sums.number))?;
    push_part(&mut text, b" sites ", digits.format(sums.sites))?;
    push_part(&mut text, b" calls ", digits.format(sums.calls))?;
    push_part(&mut text, b" sum ", digits.format(sums.sum))?;
    push_part(&mut text, b" forms ", digits.format(sums.forms))?;
    push_part(&mut text, b" types ", digits.format(sums.types))?;
    text.extend_from_slice(b"\n")?;
    Ok(text)
}
