//! Two threads that resolve the same constants.

ghost use Rattle.std.specs.Prelude.{◌≡◌, IfOk, OnOk};
ghost use Rattle.mh_condy.specs.Runs.{AreResolvable};
ghost use Rattle.mh_sharing_tests.specs.Built.{CanResolve, run_of};

use crate::constants::asking::{Answer, resolve, two_passes};
use crate::constants::broken::Broken;
use crate::constants::built::{Built, ladder, wide};
use mh_condy::{ConstAttempt, ConstPass, ConstRun, ConstTable};
use std::alloc::Global;
use std::marker::Brand;
use std::sync::Wait;
use std::sync::atomic::{AtomicU32, Ordering};
use std::test::Fail;
use std::thread::{self, Threads, join_mut};

/// How often a thread looks whether the other has come.
const LOOKS: u32 = 10_000;

/// Where two threads wait for each other, so that both set out at once.
#[derive(Drop)]
struct Meeting {
    came: AtomicU32,
}

impl Meeting {
    /// Holds the caller until two threads have come, or it has looked often. Each look lets another
    /// thread run, so that both come soon on one processor too.
    fn come(&self) {
        self.came.fetch_add(1, Ordering::SeqCst);
        for _ in 0..LOOKS {
            if self.came.load(Ordering::SeqCst) >= 2 {
                return;
            }
            thread::yield_now();
        }
    }
}

/// Resolves each constant of a table, from the first on, once another thread has come to do so too.
fn resolve_all<'s, 't, J: ConstRun, R: Wait>(
    rt: &R,
    alloc: Global,
    table: &'s ConstTable<'t, J>,
    pass: &mut ConstPass<'s, 't, J>,
    meeting: &Meeting,
) -> Result<Vec<Answer>, Broken>
    requires { CanResolve table.now pass.old }
    ensures { pass.new.table ≡ pass.old.table }
{
    meeting.come();
    let mut answers = Vec::new(alloc);
    for constant in 0..table.len() {
        let constant = u32::try_from(constant).or(Err(Broken::Fixture(
            "a table that is too long",
        )))?;
        answers.push(resolve(rt, table, pass, constant)?)?;
    }
    Ok(answers)
}

/// How often a constant is among attempts.
fn count_of(attempts: &[ConstAttempt], constant: u32) -> usize {
    attempts.iter().filter(|it| it.constant == constant).count()
}

/// What is wrong, and of which constant.
type Fault = (&'static str, usize);

/// The first constant of which the answers of two threads differ, or all if one has more answers.
fn first_apart(a: &[Answer], b: &[Answer]) -> Option<Fault> {
    for (at, (one, two)) in a.iter().zip(b.iter()).enumerate() {
        if one != two {
            return Some(("two answers", at));
        }
    }
    if a.len() != b.len() {
        return Some(("fewer answers", a.len()));
    }
    None
}

/// What is wrong with what is recorded of a constant: it is not what is answered or attempted, it
/// is not alone, or the constant was attempted more than twice.
fn fault_of(
    attempt: &ConstAttempt,
    answers: &[Answer],
    recorded: &[ConstAttempt],
    attempts: &[ConstAttempt],
) -> Option<Fault> {
    let constant = attempt.constant;
    let at = constant as usize;
    if at >= answers.len() || answers[at].0 != attempt.serial {
        return Some(("another answer than is recorded", at));
    }
    if !attempts.contains(attempt) {
        return Some(("recorded without an attempt", at));
    }
    if count_of(recorded, constant) != 1 {
        return Some(("recorded twice", at));
    }
    if count_of(attempts, constant) > 2 {
        return Some(("attempted more than twice", at));
    }
    None
}

/// The first fault of attempts that should have recorded each constant once, with what is answered.
fn first_fault(
    answers: &[Answer],
    recorded: &[ConstAttempt],
    attempts: &[ConstAttempt],
) -> Option<Fault> {
    for attempt in recorded {
        if let Some(fault) = fault_of(attempt, answers, recorded, attempts) {
            return Some(fault);
        }
    }
    if recorded.len() != answers.len() {
        return Some(("not all are recorded", recorded.len()));
    }
    None
}

/// What is wrong after two threads have resolved the same constants. They should get the same of
/// each, which one of them has recorded.
fn agree<'s, 't, J: ConstRun + Send + Sync, R: Threads + Wait + Sync>(
    rt: &R,
    alloc: Global,
    table: &'s ConstTable<'t, J>,
    mut one: ConstPass<'s, 't, J>,
    mut two: ConstPass<'s, 't, J>,
) -> Result<Option<Fault>, Broken>
    requires one { CanResolve table.now one }
    requires two { CanResolve table.now two }
{
    let meeting = Meeting {
        came: AtomicU32::new(0),
    };
    let (a, b) = join_mut(
        rt,
        &mut || resolve_all(rt, alloc, table, &mut two, &meeting),
        &mut || resolve_all(rt, alloc, table, &mut one, &meeting),
    );
    let (a, b) = (a?, b?);
    table.join(&mut one, two)?;
    let apart = first_apart(a.as_slice(), b.as_slice());
    if apart.is_some() {
        return Ok(apart);
    }
    Ok(first_fault(a.as_slice(), one.recorded(), one.attempts()))
}

/// The same over a new table.
fn agree_on<J: ConstRun + Send + Sync, R: Threads + Wait + Sync>(
    rt: &R,
    alloc: Global,
    built: &Built,
) -> Result<Option<Fault>, Broken>
    requires run { run_of built.now ≡ J.run }
    requires are { AreResolvable J.run }
{
    let (table, seat) = ConstTable::<J>::new(alloc, &built.jobs, &built.scripts, &built.leaves)?;
    let (one, two) = two_passes(&table, seat)?;
    agree(rt, alloc, &table, one, two)
}

/// The same of these constants.
fn race<R: Threads + Wait + Sync>(
    rt: &R,
    alloc: Global,
    built: &Built,
) -> Result<Option<Fault>, Broken>
    requires { AreResolvable (run_of built.now) }
{
    agree_on::<Brand, R>(rt, alloc, built)
}

/// How often two threads race for the same constants.
const RACES: u32 = 10;

/// What is wrong after the first race for these constants after which something is.
fn race_often<R: Threads + Wait + Sync>(
    rt: &R,
    alloc: Global,
    built: &Built,
) -> Result<Option<Fault>, Broken>
    requires { AreResolvable (run_of built.now) }
{
    for _ in 0..RACES {
        let fault = race(rt, alloc, built)?;
        if fault.is_some() {
            return Ok(fault);
        }
    }
    Ok(None)
}

#[test]
fn threads_that_race_for_a_constant_get_the_same(rt: HostRuntime) -> Result<(), Fail> {
    let alloc = rt.alloc();
    assert_eq!(rt;
        race_often(&rt, alloc, &wide(alloc, 0)?)?,
        None,
        "one constant"
    );
    assert_eq!(rt;
        race_often(&rt, alloc, &ladder(alloc, 64)?)?,
        None,
        "a ladder"
    );
    assert_eq!(rt;
        race_often(&rt, alloc, &wide(alloc, 255)?)?,
        None,
        "one over others"
    );
    Ok(())
}
