//! The lines of many threads, each thread's written by a thread of its own.

ghost use Rattle.std.specs.Prelude.{◌≡◌, ◌++◌, IfOk, OnOk, length};
ghost use Rattle.mh_report.specs.Results.{results_said, thread_said};
ghost use Rattle.mh_report.specs.Text.{report_text, thread_text, threads_text};

use crate::printing::{Summary, push_recordings, push_summary, push_thread, report};
use crate::{Answers, ConstRows, Report, Table, ThreadAnswers};
use mh_base::NoMemory;
use mh_threads::{ForkJoin, fork_join};
use mh_values::Classes;
use std::alloc::Global;
use std::snapshot::Snapshot;
use std::sync::Wait;
use std::thread::Threads;

/// The fewest calls for which threads are started to write their lines.
const MANY_CALLS: usize = 1_000;

/// The lines of one thread.
#[derive(Drop)]
pub(crate) struct Lines<'a> {
    number: usize,
    answers: &'a Answers,
    /// Nothing before they are written, or if no memory was left.
    text: Option<Vec<u8>>,
}

// The lines of a thread, as a text of their own.
fn lines_of(
    alloc: Global,
    number: usize,
    answers: &Answers,
    classes: &Classes,
) -> Result<Vec<u8>, NoMemory>
    ensures { IfOk result
        (λ text. text.items ≡ thread_text classes.now number (thread_said answers.now)) }
{
    let mut text = Vec::new(alloc);
    push_thread(alloc, &mut text, number, answers.as_slice(), classes)?;
    Ok(text)
}

/// The lines of all threads are to be put at the end of a report. Contracts see what it is before.
#[derive(Drop)]
pub(crate) struct Printing<'a> {
    alloc: Global,
    threads: &'a ThreadAnswers,
    classes: &'a Classes,
    front: Snapshot<Report>,
}

/// A thread writes the lines of each of the threads, and these are put together in their order.
impl<'a> ForkJoin for Printing<'a> {
    ghost use Rattle.std.specs.Prelude.{◌≡◌, length};
    ghost use Rattle.mh_report.specs.Sharing.{AreLinesOf, AreWritten, IsWritten};

    type Lane = Lines<'a>;

    type State = Report;

    ghost count = { λ p. length p.threads.now };

    ghost forked = { λ p report lanes. (report ≡ p.front.value) × AreLinesOf p.threads.now lanes };

    ghost ready = { λ p lane. Unit {0} };

    ghost done = { λ p old new. IsWritten p.classes.now old new };

    ghost joined = { λ p before after report. AreLinesOf p.threads.now before
        × AreWritten p.classes.now p.threads.now p.front.value (length after)
        report };

    fn lanes(&self) -> usize {
        self.threads.len()
    }

    fn fork(&self, _report: &mut Report, number: usize) -> Result<Lines<'a>, NoMemory> {
        Ok(Lines {
            number,
            answers: self.threads.get(number),
            text: None,
        })
    }

    fn run<R: Wait>(&self, _rt: &R, lane: &mut Lines<'a>) {
        lane.text = lines_of(self.alloc, lane.number, lane.answers, self.classes).ok();
    }

    fn join(&self, report: &mut Report, lane: Lines<'a>) -> Result<(), NoMemory> {
        match lane.text {
            Some(lines) => report.push(lines),
            None => Err(NoMemory),
        }
    }

    fn start(&self, report: &Report) {
        let _report = report;
    }
}

// Whether several threads have made so many calls that it pays to start threads for their lines.
fn are_many(threads: &ThreadAnswers) -> bool {
    let mut calls: usize = 0;
    for answers in threads.as_slice() {
        calls = calls.saturating_add(answers.len());
    }
    threads.len() > 1 && calls >= MANY_CALLS
}

// The lines of all threads, each thread's written by a thread of their own as a part of a report.
fn push_by_threads<R: Threads + Wait + Sync>(
    rt: &R,
    alloc: Global,
    report: &mut Report,
    threads: &ThreadAnswers,
    classes: &Classes,
) -> Result<(), NoMemory>
    ensures { OnOk result
        (report.new ≡ report.old ++ threads_text classes.now 0 (results_said threads.now)) }
{
    let printing = Printing {
        alloc,
        threads,
        classes,
        front: Snapshot::of(report),
    };
    fork_join(rt, alloc, &printing, report)
}

/// A finished run, as a report shows it.
#[derive(Drop)]
pub struct Finished<'a> {
    /// The answers of each thread.
    pub threads: &'a ThreadAnswers,
    /// What is recorded at each call site.
    pub table: &'a Table,
    /// What is recorded of each dynamic constant.
    pub constants: &'a ConstRows,
    /// What the last line counts.
    pub summary: Summary,
}

// The report on a run, as one part.
fn whole_report(alloc: Global, run: &Finished<'_>, classes: &Classes) -> Result<Report, NoMemory>
    ensures { IfOk result (λ report. report
        ≡ report_text classes.now run.now.table.now run.now.constants.now
        (results_said run.now.threads.now)
        run.now.summary.attempts run.now.summary.forms run.now.summary.types) }
{
    let text = report(
        alloc,
        run.threads,
        run.table,
        run.constants,
        run.summary,
        classes,
    )?;
    Report::of(alloc, text)
}

// The report on a run, with a part for the lines of each thread.
fn shared_report<R: Threads + Wait + Sync>(
    rt: &R,
    alloc: Global,
    run: &Finished<'_>,
    classes: &Classes,
) -> Result<Report, NoMemory>
    ensures { IfOk result (λ report. report
        ≡ report_text classes.now run.now.table.now run.now.constants.now
        (results_said run.now.threads.now)
        run.now.summary.attempts run.now.summary.forms run.now.summary.types) }
{
    let mut first = Vec::new(alloc);
    push_recordings(alloc, &mut first, run.table, run.constants, classes)?;
    let mut report = Report::of(alloc, first)?;
    push_by_threads(rt, alloc, &mut report, run.threads, classes)?;
    let mut last = Vec::new(alloc);
    push_summary(&mut last, run.summary)?;
    report.push(last)?;
    Ok(report)
}

/// The report on a run, whose text is that of [`report`]. If the run has several threads and many
/// calls, the lines of each thread are written by a thread of their own, as a part of the report.
pub fn report_by_threads<R: Threads + Wait + Sync>(
    rt: &R,
    alloc: Global,
    run: &Finished<'_>,
    classes: &Classes,
) -> Result<Report, NoMemory>
    ensures { IfOk result (λ report. report
        ≡ report_text classes.now run.now.table.now run.now.constants.now
        (results_said run.now.threads.now)
        run.now.summary.attempts run.now.summary.forms run.now.summary.types) }
{
    if are_many(run.threads) {
        shared_report(rt, alloc, run, classes)
    } else {
        whole_report(alloc, run, classes)
    }
}
