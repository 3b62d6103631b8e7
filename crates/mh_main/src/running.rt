ghost use Rattle.std.specs.Prelude.{◌≡◌, ◌≢◌, [], None};
ghost use Rattle.std.specs.List.{flat_map};
ghost use Rattle.std.specs.Io.KnownBytes.{Appends, Keeps};
ghost use Rattle.mh_outside.specs.Causes.{IsStill, AreSame, AppendsPart};
ghost use Rattle.mh_outside.specs.Kept.{KeepsInputs};
ghost use Rattle.mh_words.specs.Options.{said};
ghost use Rattle.mh_words.specs.Words.{command_of};
ghost use Rattle.mh_main.specs.Runnable.{IsRunnable};
ghost use Rattle.mh_main.specs.Input.{input, IsRefused, AreAccepted, IsMissing, FitsTables};
ghost use Rattle.mh_main.specs.Reading.{ReadsInputs};
ghost use Rattle.mh_main.specs.Stops.{stop_line, stop_status, InputsStill};
ghost use Rattle.mh_main.specs.Status.{done, refused, usage_wanted, no_memory, forms_full, types_full, unread, write_failed, IsStatus, IsUsageOrWant, IsRefusedOrWant, IsUnreadOrWant, IsDoneOrWant, IsDoneFullOrWant, FailsWhere};
ghost use Rattle.mh_main.specs.Due.{AnswersCalls, AreAnswersOf, FailsToRead, FillsForms, FillsTypes, IsDue, IsDueOf, IsFullOf, IsGenerated, IsEmptyAnswer, IsListing, IsListingOf, IsOverfullOf, IsReportOf, RefusesInput, RefusesWords, Reports, Writes, WritesPart};

use crate::generated::read_generated;
use crate::lines::{FORMS, TYPES, USAGE, write_parts, write_pieces};
use crate::listing::list_sites;
use crate::reading::read_program;
use crate::reporting::run_and_report;
use crate::status::{
    DONE, FORMS_FULL, NO_MEMORY, REFUSED, TYPES_FULL, UNREAD, USAGE_WANTED, WRITE_FAILED,
};
use crate::stop::Stop;
use crate::{Output, Program, TopAnswer};
use itoa::Buffer;
use mh_base::Seq;
use mh_outside::{Failed, Gate, Inputs, Sink, write_whole};
use mh_report::Report;
use mh_runtime::WorkError;
use mh_words::{Command, read_words};
use std::alloc::Global;
use std::mem;
use std::sync::Wait;
use std::thread::Threads;

fn nothing_ran(alloc: Global, status: u8) -> TopAnswer
    ensures status { result.status ≡ status }
    ensures idle { IsEmptyAnswer result }
{
    TopAnswer {
        status,
        table: Seq::new(alloc),
        attempts: Seq::new(alloc),
        threads: Seq::new(alloc),
        constants: Seq::new(alloc),
        constant_attempts: Seq::new(alloc),
    }
}

// Writes a line that takes no memory, and gives the status that it comes with, or that of a write
// that failed.
fn answer_line<S: Sink>(alloc: Global, sink: &mut S, status: u8, pieces: &[&[u8]]) -> TopAnswer
    requires { status ≢ write_failed }
    ensures idle { IsEmptyAnswer result }
    ensures status { result.status ≢ write_failed → result.status ≡ status }
    ensures written { result.status ≢ write_failed
        → Appends (S.taken sink.old) (S.taken sink.new) (flat_map (λ p. p.now) pieces.now) }
    ensures part { result.status ≡ write_failed
        → AppendsPart (S.taken sink.old) (S.taken sink.new) (flat_map (λ p. p.now) pieces.now) }
    ensures fails { FailsWhere result.status (S.faults sink.old) (S.faults sink.new) }
{
    match write_pieces(sink, pieces) {
        Ok(()) => nothing_ran(alloc, status),
        Err(Failed) => nothing_ran(alloc, WRITE_FAILED),
    }
}

// The answer if its report is not written.
fn unwritten(answer: TopAnswer) -> TopAnswer
    ensures status { result.status ≡ write_failed }
    ensures threads { result.threads ≡ answer.threads }
    ensures table { result.table ≡ answer.table }
    ensures attempts { result.attempts ≡ answer.attempts }
    ensures constants { result.constants ≡ answer.constants }
    ensures resolving { result.constant_attempts ≡ answer.constant_attempts }
{
    TopAnswer {
        status: WRITE_FAILED,
        ..answer
    }
}

// Writes the report of a run.
fn answer_report<S: Sink>(sink: &mut S, answer: TopAnswer, report: &Report) -> TopAnswer
    requires { answer.status ≡ done }
    ensures threads { result.threads ≡ answer.threads }
    ensures table { result.table ≡ answer.table }
    ensures attempts { result.attempts ≡ answer.attempts }
    ensures constants { result.constants ≡ answer.constants }
    ensures resolving { result.constant_attempts ≡ answer.constant_attempts }
    ensures status { result.status ≢ write_failed → result.status ≡ done }
    ensures written { result.status ≢ write_failed
        → Appends (S.taken sink.old) (S.taken sink.new) report.now }
    ensures part { result.status ≡ write_failed
        → AppendsPart (S.taken sink.old) (S.taken sink.new) report.now }
    ensures fails { FailsWhere result.status (S.faults sink.old) (S.faults sink.new) }
{
    match write_parts(sink, report.parts()) {
        Ok(()) => answer,
        Err(Failed) => unwritten(answer),
    }
}

// Runs a program, and writes its report, or that there are too few forms for it, or too few slots
// for its types. The program then lasts as long as the process.
fn run_program<R: Threads + Wait + Sync, S: Sink, G: Gate + Sync>(
    rt: &R,
    alloc: Global,
    sink: &mut S,
    gate: &G,
    program: Program,
) -> TopAnswer
    requires { IsRunnable program }
    ensures report { result.status ≡ done
        → Writes (IsReportOf program result) (S.taken sink.old) (S.taken sink.new) }
    ensures answers { result.status ≡ done
        → AreAnswersOf program result.table result.constants result.threads }
    ensures full { result.status ≡ forms_full
        → Writes (IsFullOf program) (S.taken sink.old) (S.taken sink.new) }
    ensures types { result.status ≡ types_full
        → Writes (IsOverfullOf program) (S.taken sink.old) (S.taken sink.new) }
    ensures broken { result.status ≡ write_failed
        → WritesPart (IsDueOf program result) (S.taken sink.old) (S.taken sink.new) }
    ensures nothing { result.status ≡ no_memory → Keeps (S.taken sink.old) (S.taken sink.new) }
    ensures idle { result.status ≢ done → result.status ≢ write_failed → IsEmptyAnswer result }
    ensures status { result.status ≢ write_failed → IsDoneFullOrWant result.status }
    ensures fails { FailsWhere result.status (S.faults sink.old) (S.faults sink.new) }
{
    let ran = run_and_report(rt, alloc, &program, gate);

    // To give the blocks of memory of each job back would take a fortieth of the run.
    mem::forget(program);
    match ran {
        Ok((answer, report)) => answer_report(sink, answer, &report),
        Err(WorkError::NoMemory) => nothing_ran(alloc, NO_MEMORY),
        Err(WorkError::FormsFull { drawn: _ }) => {
            answer_line(alloc, sink, FORMS_FULL, &[FORMS.as_bytes()])
        }
        Err(WorkError::TypesFull { bucket: _ }) => {
            answer_line(alloc, sink, TYPES_FULL, &[TYPES.as_bytes()])
        }
    }
}

// Says why there is no program.
fn answer_stop<S: Sink>(alloc: Global, sink: &mut S, stop: Stop<'_>) -> TopAnswer
    ensures idle { IsEmptyAnswer result }
    ensures status { result.status ≢ write_failed → result.status ≡ stop_status stop.entry }
    ensures written { result.status ≢ write_failed → stop_status stop.entry ≢ no_memory
        → Appends (S.taken sink.old) (S.taken sink.new) (stop_line stop.entry) }
    ensures nothing { stop_status stop.entry ≡ no_memory
        → Keeps (S.taken sink.old) (S.taken sink.new) }
    ensures broken { result.status ≡ write_failed
        → AppendsPart (S.taken sink.old) (S.taken sink.new) (stop_line stop.entry) }
    ensures spoken { result.status ≡ write_failed → stop_status stop.entry ≢ no_memory }
    ensures fails { FailsWhere result.status (S.faults sink.old) (S.faults sink.new) }
{
    match stop {
        Stop::NoMemory => nothing_ran(alloc, NO_MEMORY),
        Stop::ReadFault(name) => {
            let line: &[&[u8]] = &[b"cannot read ", name.as_bytes(), b"\n"];
            answer_line(alloc, sink, UNREAD, line)
        }
        Stop::TooLong(name) => {
            let line: &[&[u8]] = &[b"refused ", name.as_bytes(), b" too long\n"];
            answer_line(alloc, sink, REFUSED, line)
        }
        Stop::Place(name, at, kind) => {
            let mut digits = Buffer::new();
            let pieces: &[&[u8]] = &[
                b"refused ",
                name.as_bytes(),
                b" at ",
                digits.format(at).as_bytes(),
                b" ",
                kind.as_bytes(),
                b"\n",
            ];
            answer_line(alloc, sink, REFUSED, pieces)
        }
        Stop::Fault(name, line, kind) => {
            let mut digits = Buffer::new();
            let pieces: &[&[u8]] = &[
                b"refused ",
                name.as_bytes(),
                b" line ",
                digits.format(line).as_bytes(),
                b" ",
                kind.as_bytes(),
                b"\n",
            ];
            answer_line(alloc, sink, REFUSED, pieces)
        }
    }
}

// Writes the listing of class files.
fn answer_listing<S: Sink>(alloc: Global, sink: &mut S, text: &[u8]) -> TopAnswer
    ensures idle { IsEmptyAnswer result }
    ensures status { result.status ≢ write_failed → result.status ≡ done }
    ensures written { result.status ≢ write_failed
        → Appends (S.taken sink.old) (S.taken sink.new) text.now }
    ensures part { result.status ≡ write_failed
        → AppendsPart (S.taken sink.old) (S.taken sink.new) text.now }
    ensures fails { FailsWhere result.status (S.faults sink.old) (S.faults sink.new) }
{
    match write_whole(sink, text) {
        Ok(()) => nothing_ran(alloc, DONE),
        Err(Failed) => nothing_ran(alloc, WRITE_FAILED),
    }
}

/// The program: it reads what the words name, runs it with concurrent threads, and writes what it
/// gives. Each thread calls the gate before and after it records the linkage of a site; a gate may
/// hold it there, and changes nothing. What was read and linked lasts as long as the process.
pub fn top<'a, R: Threads + Wait + Sync, I: Inputs, S: Sink, G: Gate + Sync>(
    rt: &R,
    alloc: Global,
    words: &'a [&'a str],
    inputs: &mut I,
    sink: &mut S,
    gate: &G,
) -> TopAnswer
    ensures known { IsStatus result.status }

    // What was written, by the status: at `write_failed` a front part of what was due.
    ensures headline { result.status ≡ done
        → Writes (Reports (said words.now) (I.contents inputs.old) result)
        (S.taken sink.old) (S.taken sink.new) }
    ensures answers { result.status ≡ done
        → AnswersCalls (said words.now) (I.contents inputs.old) result }
    ensures refusal { result.status ≡ refused
        → Writes (RefusesInput (said words.now) (I.contents inputs.old)
        (I.faults inputs.old) (I.faults inputs.new)) (S.taken sink.old) (S.taken sink.new) }
    ensures usage { result.status ≡ usage_wanted
        → Writes (RefusesWords (said words.now)) (S.taken sink.old) (S.taken sink.new) }
    ensures nothing { result.status ≡ no_memory → Keeps (S.taken sink.old) (S.taken sink.new) }
    ensures full { result.status ≡ forms_full
        → Writes (FillsForms (said words.now) (I.contents inputs.old))
        (S.taken sink.old) (S.taken sink.new) }
    ensures types { result.status ≡ types_full
        → Writes (FillsTypes (said words.now) (I.contents inputs.old))
        (S.taken sink.old) (S.taken sink.new) }
    ensures unreadable { result.status ≡ unread
        → Writes (FailsToRead (command_of (said words.now)) (I.contents inputs.old)
        (I.faults inputs.old) (I.faults inputs.new)) (S.taken sink.old) (S.taken sink.new) }
    ensures broken { result.status ≡ write_failed
        → WritesPart (IsDue (said words.now) (I.contents inputs.old)
        (I.faults inputs.old) (I.faults inputs.new) result) (S.taken sink.old) (S.taken sink.new) }
    ensures idle { result.status ≢ done → result.status ≢ write_failed → IsEmptyAnswer result }
    ensures listed { IsListing (command_of (said words.now)) → IsEmptyAnswer result }

    // The status `write_failed` comes if and only if the sink failed.
    ensures fails { FailsWhere result.status (S.faults sink.old) (S.faults sink.new) }

    // A read that failed is never passed over, and never reported as lack of memory.
    ensures keeps { KeepsInputs (I.contents inputs.old) (I.contents inputs.new)
        (I.faults inputs.old) (I.faults inputs.new) }
    ensures no_fault { result.status ≢ unread → result.status ≢ write_failed
        → AreSame (I.faults inputs.old) (I.faults inputs.new) }

    // If nothing failed, the words and the inputs decide the status, except if memory runs out. A
    // program is run to its end if there are numbers for the forms that it can need, and slots for
    // its types.
    ensures usage_due { command_of (said words.now) ≡ None
        → IsStill (S.faults sink.old) (S.faults sink.new) → IsUsageOrWant result.status }
    ensures refusal_wanted { IsRefused (input (said words.now) (I.contents inputs.old))
        → InputsStill (command_of (said words.now)) (I.faults inputs.old) (I.faults inputs.new)
        → IsStill (S.faults sink.old) (S.faults sink.new) → IsRefusedOrWant result.status }
    ensures complete { AreAccepted (input (said words.now) (I.contents inputs.old))
        → FitsTables (input (said words.now) (I.contents inputs.old))
        → InputsStill (command_of (said words.now)) (I.faults inputs.old) (I.faults inputs.new)
        → IsStill (S.faults sink.old) (S.faults sink.new) → IsDoneOrWant result.status }

    // The input that is made from a number is never refused.
    ensures generated { IsGenerated (command_of (said words.now))
        → IsStill (S.faults sink.old) (S.faults sink.new) → IsDoneFullOrWant result.status }

    // An input that does not exist, as contracts see, cannot be read.
    ensures unread_wanted { IsMissing (input (said words.now) (I.contents inputs.old))
        → IsStill (S.faults sink.old) (S.faults sink.new) → IsUnreadOrWant result.status }

    // How far files are read: each once, from its front, and one byte past its limit at most.
    ensures reads { ReadsInputs (command_of (said words.now)) (I.reached inputs.old)
        (I.reached inputs.new) (I.starts inputs.old) (I.starts inputs.new) }
{
    let Ok(command) = read_words(alloc, words) else {
        return nothing_ran(alloc, NO_MEMORY);
    };
    let Some(command) = command else {
        return answer_line(alloc, sink, USAGE_WANTED, &[USAGE.as_bytes()]);
    };
    match command {
        Command::Run(names) => match read_program(alloc, inputs, &names, Output::Report) {
            Ok(program) => run_program(rt, alloc, sink, gate, program),
            Err(stop) => answer_stop(alloc, sink, stop),
        },
        Command::Sites(names) => match list_sites(alloc, inputs, &names) {
            Ok(text) => answer_listing(alloc, sink, &text),
            Err(stop) => answer_stop(alloc, sink, stop),
        },
        Command::Generate(number) => match read_generated(alloc, number) {
            Ok(made) => run_program(rt, alloc, sink, gate, made),
            Err(stop) => answer_stop(alloc, sink, stop),
        },
    }
}
