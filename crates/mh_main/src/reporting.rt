ghost use Rattle.std.specs.Prelude.{◌≡◌, ◌<◌, IfOk, length, option_map};
ghost use Rattle.mh_handle.specs.Form.{most_forms};
ghost use Rattle.mh_plan.specs.Limits.{IsWithinLimits, calls_in};
ghost use Rattle.mh_report.specs.Forms.{forms};
ghost use Rattle.mh_report.specs.Prelinked.{draws_by, types_by};
ghost use Rattle.mh_report.specs.Recorded.{recorded, row_serials, rows, serials_of, types};
ghost use Rattle.mh_report.specs.Results.{results_said};
ghost use Rattle.mh_report.specs.Text.{report_text};
ghost use Rattle.mh_report.specs.Types.{Overfill};
ghost use Rattle.mh_runtime.specs.Asking.{IfFull, IfTypesFull};
ghost use Rattle.mh_runtime.specs.Report.{ConstLedgerBy, LedgerBy};
ghost use Rattle.mh_main.specs.Program.{given_by, given_of, text, written};
ghost use Rattle.mh_main.specs.Runnable.{IsRunnable};
ghost use Rattle.mh_main.specs.Status.{done};
ghost use Rattle.mh_main.specs.Due.{AreAnswersOf};
ghost use Rattle.mh_main.specs.Sums.{sum_line, sum_of};

use crate::status::DONE;
use crate::sums::{Sums, calls_in, line, sum_of};
use crate::{Output, Program, TopAnswer};
use mh_base::{NoMemory, Seq};
use mh_outside::Gate;
use mh_report::{
    Attempts, ConstRow, ConstRows, Finished, Recorded, Report, Serials, Summary, Table,
    report_by_threads,
};
use mh_runtime::{RunInput, RunReport, WorkError, run_all};
use mh_values::Classes;
use std::alloc::Global;
use std::sync::Wait;
use std::thread::Threads;

// How many attempts there are. A number that does not fit counts as out of memory.
fn count(attempts: &Attempts) -> Result<u32, NoMemory>
    ensures { IfOk result (λ n. n ≡ length attempts.now) }
{
    match u32::try_from(attempts.len()) {
        Ok(count) => Ok(count),
        Err(_) => Err(NoMemory),
    }
}

// The serial of the attempt by which a site is linked.
fn serial(entry: &Option<Recorded>) -> Option<u64>
    ensures { result ≡ option_map (λ r. r.serial) entry.now }
{
    match entry {
        Some(recorded) => Some(recorded.serial),
        None => None,
    }
}

// For each site the serial of the attempt by which it is linked.
fn serials(alloc: Global, table: &Table) -> Result<Serials, NoMemory>
    ensures { IfOk result (λ serials. serials ≡ serials_of table.now) }
{
    let entries = table.as_slice();
    let mut serials = Seq::new(alloc);
    for entry in entries {
        serials.push(serial(entry))?;
    }
    Ok(serials)
}

// The run of a program's plan.
fn run<R: Threads + Wait + Sync, G: Gate + Sync>(
    rt: &R,
    alloc: Global,
    program: &Program,
    gate: &G,
) -> Result<RunReport, WorkError>
    requires { IsRunnable program.now }
    ensures ledger { IfOk result (λ run. LedgerBy program.now.workers program.now.plan
        (length program.now.jobs) (serials_of run.table) run.attempts) }
    ensures constants { IfOk result (λ run. ConstLedgerBy (given_of program.now)
        program.now.workers program.now.plan run.attempts (row_serials run.constants)
        run.constant_attempts) }
    ensures answers { IfOk result (λ run. AreAnswersOf program.now (serials_of run.table)
        (row_serials run.constants) run.threads) }
    ensures rows { IfOk result (λ run. run.constants
        ≡ rows (given_by program.now (row_serials run.constants)) (row_serials run.constants)) }
    ensures table { IfOk result (λ run. run.table
        ≡ recorded (given_by program.now (row_serials run.constants)) (serials_of run.table)) }
    ensures forms { IfOk result (λ run. run.forms
        ≡ forms (given_by program.now (row_serials run.constants)) program.now.plan run.attempts) }
    ensures types { IfOk result (λ run. run.types
        ≡ types (given_by program.now (row_serials run.constants)) (serials_of run.table)) }
    ensures full { IfFull result (most_forms
        < draws_by (given_of program.now) program.now.workers program.now.plan) }
    ensures no_slot { IfTypesFull result (λ bucket. Overfill bucket
        (types_by (given_of program.now) program.now.workers program.now.plan)) }
{
    let input = RunInput {
        leaves: &program.leaves,
        scripts: &program.scripts,
        jobs: &program.jobs,
        constants: &program.constants,
    };
    match run_all(rt, alloc, &input, &program.plan, program.workers, gate) {
        Ok(run) => Ok(run),
        Err(stop) => Err(stop.error),
    }
}

// The report on a run.
fn report_of<R: Threads + Wait + Sync>(
    rt: &R,
    alloc: Global,
    classes: &Classes,
    run: &RunReport,
) -> Result<Report, NoMemory>
    ensures { IfOk result (λ report. report ≡ report_text classes.now run.now.table
        run.now.constants (results_said run.now.threads) (length run.now.attempts) run.now.forms
        run.now.types) }
{
    let summary = Summary {
        attempts: count(&run.attempts)?,
        forms: run.forms,
        types: run.types,
    };
    let finished = Finished {
        threads: &run.threads,
        table: &run.table,
        constants: &run.constants,
        summary,
    };
    report_by_threads(rt, alloc, &finished, classes)
}

// The line of a run of the input that is made from a number.
fn line_of(
    alloc: Global,
    number: u32,
    program: &Program,
    run: &RunReport,
) -> Result<Vec<u8>, NoMemory>
    requires { IsWithinLimits program.now.plan }
    ensures { IfOk result (λ text. text.items
        ≡ sum_line number (length program.now.jobs) (calls_in program.now.plan)
        (sum_of (results_said run.now.threads)) run.now.forms run.now.types) }
{
    let sums = Sums {
        number,
        sites: program.jobs.len(),
        calls: calls_in(&program.plan),
        sum: sum_of(run.threads.as_slice()),
        forms: run.forms,
        types: run.types,
    };
    line(alloc, &sums)
}

// What is to be written of a run.
fn text_of<R: Threads + Wait + Sync>(
    rt: &R,
    alloc: Global,
    program: &Program,
    run: &RunReport,
) -> Result<Report, NoMemory>
    requires { IsWithinLimits program.now.plan }
    ensures { IfOk result (λ report. report ≡ written program.now run.now.table
        run.now.constants (results_said run.now.threads) (length run.now.attempts) run.now.forms
        run.now.types) }
{
    match program.output {
        Output::Report => report_of(rt, alloc, program.leaves.classes(), run),
        Output::Line(number) => Report::of(alloc, line_of(alloc, number, program, run)?),
    }
}

// The serial of the attempt by which a constant is resolved.
fn row_serial(entry: &Option<ConstRow>) -> Option<u64>
    ensures { result ≡ option_map (λ r. r.serial) entry.now }
{
    match entry {
        Some(row) => Some(row.serial),
        None => None,
    }
}

// For each constant the serial of the attempt by which it is resolved.
fn row_serials(alloc: Global, rows: &ConstRows) -> Result<Serials, NoMemory>
    ensures { IfOk result (λ serials. serials ≡ row_serials rows.now) }
{
    let entries = rows.as_slice();
    let mut serials = Seq::new(alloc);
    for entry in entries {
        serials.push(row_serial(entry))?;
    }
    Ok(serials)
}

// The answer with what a run gave.
fn answered(table: Serials, constants: Serials, run: RunReport) -> TopAnswer
    ensures status { result.status ≡ done }
    ensures threads { result.threads ≡ run.threads }
    ensures table { result.table ≡ table }
    ensures attempts { result.attempts ≡ run.attempts }
    ensures constants { result.constants ≡ constants }
    ensures resolving { result.constant_attempts ≡ run.constant_attempts }
{
    TopAnswer {
        status: DONE,
        table,
        attempts: run.attempts,
        threads: run.threads,
        constants,
        constant_attempts: run.constant_attempts,
    }
}

/// What the run of a program's calls gives, if it is written, and its text.
pub fn run_and_report<R: Threads + Wait + Sync, G: Gate + Sync>(
    rt: &R,
    alloc: Global,
    program: &Program,
    gate: &G,
) -> Result<(TopAnswer, Report), WorkError>
    requires { IsRunnable program.now }
    ensures ledger { IfOk result (λ r. LedgerBy program.now.workers program.now.plan
        (length program.now.jobs) r.0.table r.0.attempts) }
    ensures constants { IfOk result (λ r. ConstLedgerBy (given_of program.now)
        program.now.workers program.now.plan r.0.attempts r.0.constants r.0.constant_attempts) }
    ensures answers { IfOk result
        (λ r. AreAnswersOf program.now r.0.table r.0.constants r.0.threads) }
    ensures text { IfOk result
        (λ r. r.1 ≡ text program.now r.0.table r.0.constants r.0.attempts) }
    ensures status { IfOk result (λ r. r.0.status ≡ done) }
    ensures full { IfFull result (most_forms
        < draws_by (given_of program.now) program.now.workers program.now.plan) }
    ensures no_slot { IfTypesFull result (λ bucket. Overfill bucket
        (types_by (given_of program.now) program.now.workers program.now.plan)) }
{
    let run = run(rt, alloc, program, gate)?;
    let report = text_of(rt, alloc, program, &run)?;
    let table = serials(alloc, &run.table)?;
    let constants = row_serials(alloc, &run.constants)?;
    Ok((answered(table, constants, run), report))
}
