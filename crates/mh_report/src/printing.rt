ghost use Rattle.std.specs.Prelude.{◌≡◌, ◌+◌, ◌++◌, ◌<◌, ◌≤◌, ◌^◌, length, IfOk, OnOk, codes, List};
ghost use Rattle.std.specs.Fmt.{decimal};
ghost use Rattle.mh_values.specs.declared.class.Class.{Class};
ghost use Rattle.mh_report.specs.Text.{linked_text, recorded_text, site_text, sites_text, constant_value_text, row_text, constant_text, constants_text, outcome_text, returned_text, calls_text, result_line, results_text, thread_text, threads_text, summary_text, report_text};
ghost use Rattle.mh_report.specs.Results.{result_said, thread_said, results_said};

use crate::{ConstRow, ConstRows, Recorded, Shown, Table, ThreadAnswers};
use itoa::Buffer;
use mh_base::NoMemory;
use mh_form::Calls;
use mh_handle::Answer;
use mh_texts::{show_exc, show_type, show_value};
use mh_values::{Classes, Exc, LeafId, Outcome, Value};
use std::alloc::Global;

fn push(text: &mut Vec<u8>, bytes: &[u8]) -> Result<(), NoMemory>
    ensures { OnOk result (text.new.items ≡ text.old.items ++ bytes.now) }
{
    text.extend_from_slice(bytes)?;
    Ok(())
}

fn push_number(text: &mut Vec<u8>, number: u64) -> Result<(), NoMemory>
    ensures { OnOk result (text.new.items ≡ text.old.items ++ decimal number) }
{
    push(text, Buffer::new().format(number).as_bytes())
}

// What was linked at a site.
fn push_linked(
    alloc: Global,
    text: &mut Vec<u8>,
    shown: &Shown,
    classes: &Classes,
) -> Result<(), NoMemory>
    ensures { OnOk result (text.new.items ≡ text.old.items ++ linked_text classes.now shown.now) }
{
    match shown {
        Shown::Linked(ty) => {
            push(text, b"linked ")?;
            push(text, &show_type(alloc, ty, classes)?)
        }
        Shown::Error(exc) => {
            push(text, b"error ")?;
            push(text, &show_exc(alloc, exc, classes)?)
        }
    }
}

// What is recorded at a site.
fn push_recorded(
    alloc: Global,
    text: &mut Vec<u8>,
    entry: &Option<Recorded>,
    classes: &Classes,
) -> Result<(), NoMemory>
    ensures { OnOk result
        (text.new.items ≡ text.old.items ++ recorded_text classes.now entry.now) }
{
    let Some(recorded) = entry else {
        return push(text, b"none");
    };
    push(text, b"serial ")?;
    push_number(text, recorded.serial)?;
    push(text, b" ")?;
    push_linked(alloc, text, &recorded.shown, classes)
}

// The line of a site.
fn push_site(
    alloc: Global,
    text: &mut Vec<u8>,
    number: usize,
    entry: &Option<Recorded>,
    classes: &Classes,
) -> Result<(), NoMemory>
    ensures { OnOk result
        (text.new.items ≡ text.old.items ++ site_text classes.now number entry.now) }
{
    push(text, b"site ")?;
    push_number(text, number as u64)?;
    push(text, b" ")?;
    push_recorded(alloc, text, entry, classes)?;
    push(text, b"\n")
}

// The lines of all sites.
fn push_sites(
    alloc: Global,
    text: &mut Vec<u8>,
    table: &Table,
    classes: &Classes,
) -> Result<(), NoMemory>
    ensures { OnOk result
        (text.new.items ≡ text.old.items ++ sites_text classes.now 0 table.now) }
{
    for number in 0..table.len() {
        push_site(alloc, text, number, table.get(number), classes)?;
    }
    Ok(())
}

// The value of a constant, or its error.
fn push_constant_value(
    alloc: Global,
    text: &mut Vec<u8>,
    value: &Result<Value, Exc>,
    classes: &Classes,
) -> Result<(), NoMemory>
    ensures { OnOk result
        (text.new.items ≡ text.old.items ++ constant_value_text classes.now value.now) }
{
    match value {
        Ok(value) => {
            push(text, b"value ")?;
            push(text, &show_value(alloc, value, classes)?)
        }
        Err(exc) => {
            push(text, b"error ")?;
            push(text, &show_exc(alloc, exc, classes)?)
        }
    }
}

// What is recorded of a constant.
fn push_row(
    alloc: Global,
    text: &mut Vec<u8>,
    entry: &Option<ConstRow>,
    classes: &Classes,
) -> Result<(), NoMemory>
    ensures { OnOk result (text.new.items ≡ text.old.items ++ row_text classes.now entry.now) }
{
    let Some(row) = entry else {
        return push(text, b"none");
    };
    push(text, b"serial ")?;
    push_number(text, row.serial)?;
    push(text, b" ")?;
    push_constant_value(alloc, text, &row.value, classes)
}

// The line of a constant.
fn push_constant(
    alloc: Global,
    text: &mut Vec<u8>,
    number: usize,
    entry: &Option<ConstRow>,
    classes: &Classes,
) -> Result<(), NoMemory>
    ensures { OnOk result
        (text.new.items ≡ text.old.items ++ constant_text classes.now number entry.now) }
{
    push(text, b"constant ")?;
    push_number(text, number as u64)?;
    push(text, b" ")?;
    push_row(alloc, text, entry, classes)?;
    push(text, b"\n")
}

// The lines of all constants.
fn push_constants(
    alloc: Global,
    text: &mut Vec<u8>,
    rows: &ConstRows,
    classes: &Classes,
) -> Result<(), NoMemory>
    ensures { OnOk result
        (text.new.items ≡ text.old.items ++ constants_text classes.now 0 rows.now) }
{
    for number in 0..rows.len() {
        push_constant(alloc, text, number, rows.get(number), classes)?;
    }
    Ok(())
}

// The value that was returned, or `void`.
fn push_returned(
    alloc: Global,
    text: &mut Vec<u8>,
    value: &Option<Value>,
    classes: &Classes,
) -> Result<(), NoMemory>
    ensures { OnOk result (text.new.items ≡ text.old.items ++ returned_text classes.now value.now) }
{
    match value {
        None => push(text, b"void"),
        Some(value) => push(text, &show_value(alloc, value, classes)?),
    }
}

// A space, and the number of a leaf. A number of one digit is written together with the space.
#[tactic(auto, using(std::proofs::lemmas::Fmt::decimal_digit))]
fn push_next(text: &mut Vec<u8>, leaf: LeafId) -> Result<(), NoMemory>
    ensures { OnOk result (text.new.items ≡ text.old.items ++ (codes " " ++ decimal leaf.0)) }
{
    if leaf.0 < 10 {
        return push(text, &[b' ', b'0' + leaf.0 as u8]);
    }
    push(text, b" ")?;
    push_number(text, u64::from(leaf.0))
}

// The numbers of the leaves that were called, or a dash.
fn push_calls(text: &mut Vec<u8>, calls: &Calls) -> Result<(), NoMemory>
    ensures { OnOk result (text.new.items ≡ text.old.items ++ calls_text calls.now) }
{
    if calls.is_empty() {
        return push(text, b"-");
    }
    push_number(text, u64::from(calls.leaf(0).0))?;
    for at in 1..calls.len() {
        push_next(text, calls.leaf(at))?;
    }
    Ok(())
}

// How a call ended: what it returned, or what it threw.
fn push_outcome(
    alloc: Global,
    text: &mut Vec<u8>,
    outcome: &Outcome,
    classes: &Classes,
) -> Result<(), NoMemory>
    ensures { OnOk result
        (text.new.items ≡ text.old.items ++ outcome_text classes.now outcome.now) }
{
    match outcome {
        Outcome::Return(value) => {
            push(text, b"returns ")?;
            push_returned(alloc, text, value, classes)
        }
        Outcome::Throw(exc) => {
            push(text, b"throws ")?;
            push(text, &show_exc(alloc, exc, classes)?)
        }
    }
}

/// Appends the line of a call: `returns VALUE calls LEAVES`, or `throws EXC calls LEAVES`. `VALUE`
/// is a literal or `void`; `LEAVES` are the numbers of the leaf calls in order, with a space
/// between, or `-` for none.
pub fn push_answer(
    alloc: Global,
    text: &mut Vec<u8>,
    answer: &Answer,
    classes: &Classes,
) -> Result<(), NoMemory>
    ensures { OnOk result
        (text.new.items ≡ text.old.items ++ result_line classes.now (result_said answer.now)) }
{
    push_outcome(alloc, text, answer.outcome(), classes)?;
    push(text, b" calls ")?;
    push_calls(text, answer.calls())?;
    push(text, b"\n")
}

// The lines of a thread's calls.
fn push_answers(
    alloc: Global,
    text: &mut Vec<u8>,
    answers: &[Answer],
    classes: &Classes,
) -> Result<(), NoMemory>
    ensures { OnOk result
        (text.new.items ≡ text.old.items ++ results_text classes.now (thread_said answers.now)) }
{
    for answer in answers {
        push_answer(alloc, text, answer, classes)?;
    }
    Ok(())
}

/// The lines of a thread.
pub(crate) fn push_thread(
    alloc: Global,
    text: &mut Vec<u8>,
    number: usize,
    answers: &[Answer],
    classes: &Classes,
) -> Result<(), NoMemory>
    ensures { OnOk result (text.new.items
        ≡ text.old.items ++ thread_text classes.now number (thread_said answers.now)) }
{
    push(text, b"thread ")?;
    push_number(text, number as u64)?;
    push(text, b"\n")?;
    push_answers(alloc, text, answers, classes)
}

// The lines of all threads.
fn push_threads(
    alloc: Global,
    text: &mut Vec<u8>,
    threads: &ThreadAnswers,
    classes: &Classes,
) -> Result<(), NoMemory>
    ensures { OnOk result (text.new.items
        ≡ text.old.items ++ threads_text classes.now 0 (results_said threads.now)) }
{
    for number in 0..threads.len() {
        push_thread(alloc, text, number, threads.get(number).as_slice(), classes)?;
    }
    Ok(())
}

/// The last line.
pub(crate) fn push_summary(text: &mut Vec<u8>, summary: Summary) -> Result<(), NoMemory>
    ensures { OnOk result (text.new.items
        ≡ text.old.items ++ summary_text summary.attempts summary.forms summary.types) }
{
    push(text, b"attempts ")?;
    push_number(text, u64::from(summary.attempts))?;
    push(text, b" forms ")?;
    push_number(text, u64::from(summary.forms))?;
    push(text, b" types ")?;
    push_number(text, u64::from(summary.types))?;
    push(text, b"\n")
}

/// What the last line of a report counts.
#[derive(Clone, Copy, Debug, PartialEq, Eq)]
pub struct Summary {
    /// How many attempts to link call sites were made.
    pub attempts: u32,
    /// How many forms there are.
    pub forms: u32,
    /// How many different types the targets of call sites hold.
    pub types: u32,
}

/// The lines of all call sites and of all constants.
pub(crate) fn push_recordings(
    alloc: Global,
    text: &mut Vec<u8>,
    table: &Table,
    constants: &ConstRows,
    classes: &Classes,
) -> Result<(), NoMemory>
    ensures { OnOk result (text.new.items ≡ text.old.items
        ++ (sites_text classes.now 0 table.now ++ constants_text classes.now 0 constants.now)) }
{
    push_sites(alloc, text, table, classes)?;
    push_constants(alloc, text, constants, classes)
}

/// The report on a run. It has a line for each call site with what is recorded there, and a line
/// for each dynamic constant with what is recorded of it. For each thread it has its number and a
/// line for each of its calls. The last line counts attempts to link call sites, forms and types.
pub fn report(
    alloc: Global,
    threads: &ThreadAnswers,
    table: &Table,
    constants: &ConstRows,
    summary: Summary,
    classes: &Classes,
) -> Result<Vec<u8>, NoMemory>
    ensures { IfOk result (λ text. text.items
        ≡ report_text classes.now table.now constants.now (results_said threads.now)
        summary.attempts summary.forms summary.types) }
{
    let mut text = Vec::new(alloc);
    push_recordings(alloc, &mut text, table, constants, classes)?;
    push_threads(alloc, &mut text, threads, classes)?;
    push_summary(&mut text, summary)?;
    Ok(text)
}
