use crate::running::{Ran, run_case};
use crate::saying::{GaveUp, say};
use mh_base::LineError;
use mh_case_text::{Case, Difference, first_difference, read_cases, shown_line};
use mh_outside::{Inputs, ReadWhole, Sink, read_whole, write_whole};
use std::alloc::Global;
use std::sync::Wait;
use std::thread::Threads;

/// How many bytes a file of cases has at most.
const LIMIT: usize = 1 << 24;

/// How many cases ran, how many of them agree, and how many files were not read.
#[derive(Clone, Copy)]
struct Tally {
    cases: u64,
    agree: u64,
    unread: u64,
}

/// Writes the first line of a text after a word.
fn say_line<S: Sink>(sink: &mut S, word: &[u8], text: &[u8]) -> Result<(), GaveUp> {
    let (line, end) = shown_line(text);
    write_whole(sink, word)?;
    write_whole(sink, line)?;
    say(sink, &[end.as_bytes()])
}

/// Writes at which line a text differs from what is wanted.
fn say_difference<S: Sink>(
    alloc: Global,
    sink: &mut S,
    name: &str,
    difference: Difference<'_>,
) -> Result<(), GaveUp> {
    let head = format!(in alloc; "{name}: line {}", difference.line)?;
    say(sink, &[head.as_bytes()])?;
    say_line(sink, b"  wanted ", difference.wanted)?;
    say_line(sink, b"  found  ", difference.found)
}

/// Says how a run differs from what it must give, and answers whether it agrees.
fn judge<S: Sink>(alloc: Global, sink: &mut S, ran: &Ran) -> Result<bool, GaveUp> {
    let name = ran.name.as_str();
    let Some((wanted, found)) = &ran.gave else {
        say(sink, &[name.as_bytes(), b": a class cannot be made"])?;
        return Ok(false);
    };
    let mut agrees = true;
    if found.status != wanted.status {
        let line = format!(in alloc; "{name}: status {}, wanted {}", found.status, wanted.status)?;
        say(sink, &[line.as_bytes()])?;
        agrees = false;
    }
    if let Some(difference) = first_difference(&wanted.text, &found.text) {
        say_difference(alloc, sink, name, difference)?;
        agrees = false;
    }
    Ok(agrees)
}

/// Runs cases, says which differ, and counts them.
fn check_cases<R: Threads + Wait + Sync, S: Sink>(
    rt: &R,
    alloc: Global,
    cases: Vec<Case>,
    sink: &mut S,
    tally: &mut Tally,
) -> Result<(), GaveUp> {
    for case in cases {
        let ran = run_case(rt, alloc, case)?;
        tally.cases = tally.cases.saturating_add(1);
        if judge(alloc, sink, &ran)? {
            tally.agree = tally.agree.saturating_add(1);
        }
    }
    Ok(())
}

/// The cases of a file. If they cannot be read it says why, and there is nothing.
fn read_file<I: Inputs, S: Sink>(
    alloc: Global,
    inputs: &mut I,
    name: &str,
    sink: &mut S,
) -> Result<Option<Vec<Case>>, GaveUp> {
    let bytes = match read_whole(alloc, inputs, name, LIMIT) {
        Ok(bytes) => bytes,
        Err(ReadWhole::NoMemory) => return Err(GaveUp::NoMemory),
        Err(error) => {
            let line = format!(in alloc; "{name}: not read: {error}")?;
            say(sink, &[line.as_bytes()])?;
            return Ok(None);
        }
    };
    let Ok(text) = str::from_utf8(&bytes) else {
        say(sink, &[name.as_bytes(), b": no text"])?;
        return Ok(None);
    };
    match read_cases(alloc, text) {
        Ok(cases) if cases.is_empty() => {
            say(sink, &[name.as_bytes(), b": no case"])?;
            Ok(None)
        }
        Ok(cases) => Ok(Some(cases)),
        Err(LineError::NoMemory) => Err(GaveUp::NoMemory),
        Err(LineError::Kind(fault)) => {
            let line = format!(in alloc; "{name}: line {} {}", fault.line, fault.kind)?;
            say(sink, &[line.as_bytes()])?;
            Ok(None)
        }
    }
}

/// Runs the cases of the files of these names, and says which differ and how many agree. Answers
/// whether each file was read, there is a case, and each case agrees.
pub fn check_files<R: Threads + Wait + Sync, I: Inputs, S: Sink>(
    rt: &R,
    alloc: Global,
    names: &[String],
    inputs: &mut I,
    sink: &mut S,
) -> Result<bool, GaveUp> {
    let mut tally = Tally {
        cases: 0,
        agree: 0,
        unread: 0,
    };
    for name in names {
        match read_file(alloc, inputs, name.as_str(), sink)? {
            Some(cases) => check_cases(rt, alloc, cases, sink, &mut tally)?,
            None => tally.unread = tally.unread.saturating_add(1),
        }
    }
    let Tally {
        cases,
        agree,
        unread,
    } = tally;
    let line = format!(in alloc; "{agree} of {cases} cases agree")?;
    say(sink, &[line.as_bytes()])?;
    if cases == 0 {
        say(sink, &[b"there is no case"])?;
    }
    Ok(unread == 0 && cases != 0 && agree == cases)
}
