ghost use Rattle.std.specs.Prelude.{◌≡◌, map};
ghost use Rattle.mh_base.specs.Lines.{TakesLine, built_from};
ghost use Rattle.mh_plan.specs.Plan.{none_counted, thread_counted, call_counted, tokens_counted, line_counted};
ghost use Rattle.mh_plan.specs.Fault.{TellsLines};

use crate::grammar::{are_full, is_call, is_thread};
use crate::kinds::LineResult;
use crate::{PlanError, PlanKind};
use mh_base::{LineError, LineFault, NoMemory, is_passed, is_plain, split_at_byte};
use std::alloc::Global;

/// The most threads that a plan may have.
const MOST_THREADS: u32 = 128;

/// The most calls that all threads of a plan may have together.
const MOST_CALLS: u32 = 10000;

/// How many threads and calls there are.
#[derive(Clone, Copy)]
pub(crate) struct Counts {
    pub threads: u32,
    pub calls: u32,
}

impl Counts {
    fn add_thread(&mut self) -> LineResult
        ensures { TakesLine self.new result (thread_counted self.old) }
    {
        if self.threads >= MOST_THREADS {
            return Err(LineError::Kind(PlanKind::TooMany));
        }
        self.threads += 1;
        Ok(())
    }

    fn add_call(&mut self, tokens: &[&[u8]]) -> LineResult
        ensures { TakesLine self.new result (call_counted self.old (map (λ t. t.now) tokens.now)) }
    {
        if !(is_call(tokens) && self.threads != 0) {
            return Err(LineError::Kind(PlanKind::BadLine));
        }
        if self.calls >= MOST_CALLS {
            return Err(LineError::Kind(PlanKind::TooMany));
        }
        self.calls += 1;
        Ok(())
    }

    // Counts the tokens of a line.
    fn add_tokens(&mut self, tokens: &[&[u8]]) -> LineResult
        ensures { TakesLine self.new result
            (tokens_counted self.old (map (λ t. t.now) tokens.now)) }
    {
        if !are_full(tokens) {
            return Err(LineError::Kind(PlanKind::BadLine));
        }
        if is_thread(tokens) {
            self.add_thread()
        } else {
            self.add_call(tokens)
        }
    }

    // Counts what a line begins.
    fn add_line(&mut self, alloc: Global, line: &[u8]) -> LineResult
        ensures { TakesLine self.new result (line_counted self.old line.now) }
    {
        if !is_plain(line) {
            return Err(LineError::Kind(PlanKind::BadLine));
        }
        if is_passed(line) {
            return Ok(());
        }
        let tokens = split_at_byte(alloc, line, b' ')?;
        self.add_tokens(&tokens)
    }
}

/// Checks the form of each line, and how many threads and calls there are.
pub(crate) fn check_lines(alloc: Global, lines: &[&[u8]]) -> Result<Counts, PlanError>
    ensures { TellsLines result
        (built_from line_counted 1 none_counted (map (λ l. l.now) lines.now)) }
{
    let mut counts = Counts {
        threads: 0,
        calls: 0,
    };
    let mut number = 1u32;
    for line in lines {
        match counts.add_line(alloc, line) {
            Ok(()) => {}
            Err(LineError::NoMemory) => return Err(PlanError::NoMemory),
            Err(LineError::Kind(kind)) => {
                return Err(PlanError::Fault(LineFault { line: number, kind }));
            }
        }
        number = number.checked_add(1).ok_or(NoMemory)?;
    }
    Ok(counts)
}
