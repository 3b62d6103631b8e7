//! What the program does, over any words, inputs and sink.

ghost use Rattle.std.specs.Prelude.{◌≡◌, ◌≢◌, [], drop, map, string_bytes, IfOk, IfErr, IsErr};
ghost use Rattle.std.specs.Iterator.{Drains, IsFinite};
ghost use Rattle.std.specs.IoError.{error_kind};
ghost use Rattle.std.specs.Result.{IsOkAnd};
ghost use Rattle.std.specs.declared.io.ErrorKind.TheVariants.{OutOfMemory};
ghost use Rattle.std.specs.Process.{exit_status};
ghost use Rattle.mh_outside.specs.Causes.{IsStill};
ghost use Rattle.mh_main.specs.Status.{no_memory, IsUsageOrWant};
ghost use Rattle.mh.specs.Ending.{EndsOnGiven, EndsWith, after_name, outside};

use mh_base::NoMemory;
use mh_main::status::NO_MEMORY;
use mh_main::top;
use mh_outside::{Inputs, OpenGate, Sink, all_words, texts_of};
use std::alloc::Global;
use std::process::ExitCode;
use std::sync::Wait;
use std::thread::Threads;
use std::{io, mem};

// All the words, in order. Words that are no text are refused, as an empty list of words is.
fn words_of<W: Iterator<Item = String> + Drop>(
    alloc: Global,
    args: io::Result<W>,
) -> Result<Vec<String>, NoMemory>
    requires { IfOk args (λ args. W.can_next args × IsFinite (W.remaining args)) }
    ensures all { IfOk args (λ args. IfOk result (λ words. Drains W.next_gives args words.items)) }
    ensures no_text { IfErr args (λ error. error_kind error ≢ OutOfMemory
        → IsOkAnd result (λ words. words.items ≡ [])) }
    ensures memory { IfErr args (λ error. error_kind error ≡ OutOfMemory → IsErr result) }
{
    match args {
        Ok(args) => all_words(alloc, args),
        Err(error) if error.kind() == io::ErrorKind::OutOfMemory => Err(NoMemory),
        Err(_) => Ok(Vec::new(alloc)),
    }
}

// The words after the first, which is the program's name.
fn after_name(words: &[String]) -> &[String]
    ensures { map string_bytes result.now ≡ after_name words.now }
{
    match words.split_first() {
        Some((_, others)) => others,
        None => words,
    }
}

// Runs the program on words, and ends with the status of its answer.
fn run_words<R: Threads + Wait + Sync, I: Inputs, S: Sink>(
    rt: &R,
    alloc: Global,
    words: &[String],
    inputs: &mut I,
    sink: &mut S,
) -> ExitCode
    ensures { EndsWith (exit_status result) (map string_bytes words.now)
        (outside (I.contents inputs.old) (I.faults inputs.old) (I.reached inputs.old)
        (I.starts inputs.old) (S.taken sink.old) (S.faults sink.old))
        (outside (I.contents inputs.new) (I.faults inputs.new) (I.reached inputs.new)
        (I.starts inputs.new) (S.taken sink.new) (S.faults sink.new)) }
{
    let Ok(texts) = texts_of(alloc, words) else {
        return ExitCode::from(NO_MEMORY);
    };
    let answer = top(rt, alloc, &texts, inputs, sink, &OpenGate);
    let status = answer.status;

    // The process ends next, which gives all its memory back at once.
    mem::forget(answer);
    ExitCode::from(status)
}

/// Runs the program on the words after its name, all and in order, and ends with the status of its
/// answer. Words that are no text are refused.
pub fn run<R: Threads + Wait + Sync, W: Iterator<Item = String> + Drop, I: Inputs, S: Sink>(
    rt: &R,
    alloc: Global,
    args: io::Result<W>,
    inputs: &mut I,
    sink: &mut S,
) -> ExitCode
    requires { IfOk args (λ args. W.can_next args × IsFinite (W.remaining args)) }
    ensures given { IfOk args (λ args. EndsOnGiven (exit_status result) (Drains W.next_gives args)
        (outside (I.contents inputs.old) (I.faults inputs.old) (I.reached inputs.old)
        (I.starts inputs.old) (S.taken sink.old) (S.faults sink.old))
        (outside (I.contents inputs.new) (I.faults inputs.new) (I.reached inputs.new)
        (I.starts inputs.new) (S.taken sink.new) (S.faults sink.new))) }
    ensures no_text { IfErr args (λ _. IsStill (S.faults sink.old) (S.faults sink.new)
        → IsUsageOrWant (exit_status result)) }
    ensures memory { IfErr args (λ error. error_kind error ≡ OutOfMemory
        → exit_status result ≡ no_memory) }
{
    let Ok(words) = words_of(alloc, args) else {
        return ExitCode::from(NO_MEMORY);
    };
    run_words(rt, alloc, after_name(&words), inputs, sink)
}
