//! The program, over any words, inputs and sink.

ghost use Rattle.std.specs.Prelude.{◌≡◌, ◌≢◌, ◌++◌, IfOk, IfErr, OnOk};
ghost use Rattle.std.specs.Io.KnownBytes.{Keeps};
ghost use Rattle.mh_words.specs.Options.{said};
ghost use Rattle.mh_words.specs.Words.{held_names};
ghost use Rattle.mh_outside.specs.Causes.{Rose};
ghost use Rattle.mh_drawn.specs.Answer.{AnswersRequest, IsAnswerTo, IsDue, SaysStop, SaysUsage, ShowsRead, StopsRequest};
ghost use Rattle.mh_drawn.specs.Answer.{Writes, WritesPart};
ghost use Rattle.mh_drawn.specs.Lines.{fault_line, named_line, no_site_line, stop_line, stop_status};
ghost use Rattle.mh_drawn.specs.Status.{no_memory, write_failed};
ghost use Rattle.mh_drawn.specs.Words.{held_asked};

use crate::reading::read_given;
use crate::show::show;
use crate::status::{
    DONE, FORMS_FULL, NO_MEMORY, REFUSED, TYPES_FULL, UNREAD, USAGE_WANTED, WRITE_FAILED,
};
use crate::stop::Stop;
use crate::words::{Asked, asked_of, completed, names_in, other_words};
use itoa::Buffer;
use mh_base::NoMemory;
use mh_outside::{Inputs, Sink, write_whole};
use mh_shown::push_number;
use mh_words::Names;
use std::alloc::Global;
use std::marker::Brand;
use std::sync::Wait;

/// The line for refused words.
const USAGE: &[u8] =
    b"usage: mh_draw [--mode run] --leaves F --scripts F [--plan F] [--why A B] [CLASS]...\n";

/// What is written, and the status that it comes with.
#[derive(Drop)]
struct Answer {
    status: u8,
    text: Vec<u8>,
}

// Writes bytes as they are.
fn push(text: &mut Vec<u8>, more: &[u8]) -> Result<(), NoMemory>
    ensures { OnOk result (text.new.items ≡ text.old.items ++ more.now) }
{
    text.extend_from_slice(more)?;
    Ok(())
}

// A line.
fn line(alloc: Global, text: &[u8]) -> Result<Vec<u8>, NoMemory>
    ensures { IfOk result (λ line. line.items ≡ text.now) }
{
    Ok(Vec::from_slice(alloc, text)?)
}

// The line for a call site that is not there.
fn no_site(alloc: Global, number: u32, count: u32) -> Result<Vec<u8>, NoMemory>
    ensures { IfOk result (λ text. text.items ≡ no_site_line number count) }
{
    let mut text = Vec::new(alloc);
    push(&mut text, b"refused --why: there is no site ")?;
    push_number(&mut text, number)?;
    push(&mut text, b" among ")?;
    push_number(&mut text, count)?;
    push(&mut text, b"\n")?;
    Ok(text)
}

// The line for a file that has a fault at a place or in a line.
fn fault(alloc: Global, name: &str, word: &[u8], at: usize, kind: &str) -> Result<Vec<u8>, NoMemory>
    ensures { IfOk result (λ text. text.items ≡ fault_line name.now word.now at kind.now) }
{
    let mut digits = Buffer::new();
    let mut text = Vec::new(alloc);
    push(&mut text, b"refused ")?;
    push(&mut text, name.as_bytes())?;
    push(&mut text, word)?;
    push(&mut text, digits.format(at).as_bytes())?;
    push(&mut text, b" ")?;
    push(&mut text, kind.as_bytes())?;
    push(&mut text, b"\n")?;
    Ok(text)
}

fn named(alloc: Global, before: &[u8], name: &str, after: &[u8]) -> Result<Vec<u8>, NoMemory>
    ensures { IfOk result (λ text. text.items ≡ named_line before.now name.now after.now) }
{
    let mut text = Vec::new(alloc);
    push(&mut text, before)?;
    push(&mut text, name.as_bytes())?;
    push(&mut text, after)?;
    Ok(text)
}

// The line that says why nothing is shown.
fn stop_line(alloc: Global, stop: Stop<'_>) -> Result<Vec<u8>, NoMemory>
    ensures { IfOk result (λ text. text.items ≡ stop_line stop.entry) }
{
    match stop {
        Stop::NoMemory => Err(NoMemory),
        Stop::ReadFault(name) => named(alloc, b"cannot read ", name, b"\n"),
        Stop::TooLong(name) => named(alloc, b"refused ", name, b" too long\n"),
        Stop::Fault(name, at, kind) => fault(alloc, name, b" line ", at as usize, kind),
        Stop::Place(name, at, kind) => fault(alloc, name, b" at ", at, kind),
        Stop::FormsFull => line(alloc, b"forms full\n"),
        Stop::TypesFull => line(alloc, b"types full\n"),
        Stop::NoSite(number, count) => no_site(alloc, number, count),
    }
}

fn stop_status(stop: &Stop<'_>) -> u8
    ensures { result ≡ stop_status stop.now }
{
    match stop {
        Stop::NoMemory => NO_MEMORY,
        Stop::ReadFault(_) => UNREAD,
        Stop::TooLong(_) | Stop::Fault(_, _, _) | Stop::Place(_, _, _) | Stop::NoSite(_, _) =>
            REFUSED,
        Stop::FormsFull => FORMS_FULL,
        Stop::TypesFull => TYPES_FULL,
    }
}

fn stopped(alloc: Global, stop: Stop<'_>) -> Result<Answer, NoMemory>
    ensures { IfOk result (λ answer. SaysStop stop.entry answer.status answer.text.items) }
{
    Ok(Answer {
        status: stop_status(&stop),
        text: stop_line(alloc, stop)?,
    })
}

fn usage(alloc: Global) -> Result<Answer, NoMemory>
    ensures { IfOk result (λ answer. SaysUsage answer.status answer.text.items) }
{
    Ok(Answer {
        status: USAGE_WANTED,
        text: line(alloc, USAGE)?,
    })
}

// Reads the inputs, and shows what is asked for.
fn read_and_show<'a, R: Wait, I: Inputs>(
    rt: &R,
    alloc: Global,
    inputs: &mut I,
    asked: Asked,
    names: &Names<'a>,
) -> Result<Vec<u8>, Stop<'a>>
    ensures text { IfOk result (λ text. ShowsRead (held_asked asked) (held_names names.now)
        (I.contents inputs.old) text.items) }
    ensures stop { IfErr result (StopsRequest (held_asked asked) (held_names names.now)
        (I.contents inputs.old) (I.faults inputs.old) (I.faults inputs.new)) }
{
    let given = read_given(alloc, inputs, names)?;
    show::<Brand, R>(rt, alloc, &given, asked)
}

// The answer to a request.
fn answer_request<R: Wait, I: Inputs>(
    rt: &R,
    alloc: Global,
    inputs: &mut I,
    asked: Asked,
    names: &Names<'_>,
) -> Result<Answer, NoMemory>
    ensures { IfOk result (λ answer. AnswersRequest (held_asked asked) (held_names names.now)
        (I.contents inputs.old) (I.faults inputs.old) (I.faults inputs.new)
        answer.status answer.text.items) }
{
    match read_and_show(rt, alloc, inputs, asked, names) {
        Ok(text) => Ok(Answer { status: DONE, text }),
        Err(stop) => stopped(alloc, stop),
    }
}

fn answer_words<R: Wait, I: Inputs>(
    rt: &R,
    alloc: Global,
    words: &[&str],
    inputs: &mut I,
) -> Result<Answer, NoMemory>
    ensures { IfOk result (λ answer. IsAnswerTo (said words.now) (I.contents inputs.old)
        (I.faults inputs.old) (I.faults inputs.new) answer.status answer.text.items) }
{
    let Some(asked) = asked_of(words) else {
        return usage(alloc);
    };
    let words = completed(alloc, other_words(alloc, words)?)?;
    match names_in(alloc, &words)? {
        Some(names) => answer_request(rt, alloc, inputs, asked, &names),
        None => usage(alloc),
    }
}

/// The program: it reads what the words name, links all call sites in one thread, and writes their
/// drawing, or why two of them share a form or do not. It gives the exit status. If no memory is
/// left, nothing is written; if a write fails, a front part of what was due may stand there.
pub fn draw<R: Wait, I: Inputs, S: Sink>(
    rt: &R,
    alloc: Global,
    words: &[&str],
    inputs: &mut I,
    sink: &mut S,
) -> u8
    ensures answers { result ≢ no_memory → result ≢ write_failed
        → Writes (IsAnswerTo (said words.now) (I.contents inputs.old)
        (I.faults inputs.old) (I.faults inputs.new) result)
        (S.taken sink.old) (S.taken sink.new) }
    ensures nothing { result ≡ no_memory → Keeps (S.taken sink.old) (S.taken sink.new) }
    ensures broken { result ≡ write_failed → WritesPart (IsDue (said words.now)
        (I.contents inputs.old) (I.faults inputs.old) (I.faults inputs.new))
        (S.taken sink.old) (S.taken sink.new) }
    ensures failed { result ≡ write_failed → Rose (S.faults sink.old) (S.faults sink.new) }
{
    let Ok(answer) = answer_words(rt, alloc, words, inputs) else {
        return NO_MEMORY;
    };
    match write_whole(sink, &answer.text) {
        Ok(()) => answer.status,
        Err(_) => WRITE_FAILED,
    }
}
