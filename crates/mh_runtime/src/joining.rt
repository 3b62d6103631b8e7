ghost use Rattle.std.specs.Prelude.{◌≡◌, ◌≢◌, [], ◌∷◌, ◌++◌, None, IfOk, OnOk};
ghost use Rattle.mh_runtime.specs.Joining.{JoinsLane};
ghost use Rattle.mh_runtime.specs.Linkers.{CanSplit, IsOf, SplitsPass};
ghost use Rattle.mh_runtime.specs.Stops.{stop_after, stop_at};

use crate::base::Based;
use crate::lane::Lane;
use crate::pass::Pass;
use crate::plan_run::PlanRun;
use crate::stops::{Stop, ThreadRun, first_stop, stop_of};
use mh_base::NoMemory;
use mh_jobs::Run;
use mh_outside::Gate;
use mh_plan::ThreadCalls;
use mh_report::ThreadAnswers;
use mh_threads::ForkJoin;
use std::sync::Wait;

// The lane of a thread, with a pass split off one that others were split off.
fn lane<'s, 't, J: Run, B: Based, G>(
    run: &PlanRun<'s, 't, J, B, G>,
    joined: &mut Joined<'s, 't, J>,
    calls: &'s ThreadCalls,
    thread: u32,
) -> Result<Lane<'s, 't, J>, NoMemory>
    requires pass { IsOf J.given run.now.linker.now joined.old.pass }
    requires room { CanSplit joined.old.pass }
    ensures lane { IfOk result
        (λ lane. SplitsPass thread joined.old.pass joined.new.pass lane.pass) }
    ensures calls { IfOk result (λ lane. lane.calls.now ≡ calls.now) }
    ensures threads { joined.new.threads ≡ joined.old.threads }
    ensures stop { joined.new.stop ≡ joined.old.stop }
{
    Ok(Lane {
        pass: run.linker.split(&mut joined.pass, thread)?,
        calls,
        ran: None,
    })
}

/// What the threads of a run leave together: a pass that has what all theirs have, the answers of
/// each thread, and the stop to report.
#[derive(Drop)]
pub(crate) struct Joined<'s, 't, J: Run> {
    pub(crate) pass: Pass<'s, 't, J>,
    pub(crate) threads: ThreadAnswers,
    pub(crate) stop: Option<Stop>,
}

impl<'s, 't, J: Run> Joined<'s, 't, J> {
    // Joins what a thread leaves.
    fn add<B: Based, G>(
        &mut self,
        run: &PlanRun<'s, 't, J, B, G>,
        lane: Lane<'s, 't, J>,
    ) -> Result<(), NoMemory>
        requires pass { IsOf J.given run.now.linker.now self.old.pass }
        requires lane { IsOf J.given run.now.linker.now lane.pass }
        requires constants { lane.pass.links.constants.table
            ≡ self.old.pass.links.constants.table }
        requires ran { lane.ran ≢ None }
        ensures { OnOk result (JoinsLane self.old lane.entry self.new) }
    {
        let Lane {
            pass,
            calls: _,
            ran,
        } = lane;
        let thread = pass.links.thread();
        run.linker.join(&mut self.pass, pass)?;
        match ran {
            Some(run) => {
                self.answered(thread, run)?;
                Ok(())
            }
            None => unreachable!(),
        }
    }

    // Adds what the calls of a thread gave.
    fn answered(&mut self, thread: u32, run: ThreadRun) -> Result<(), NoMemory>
        ensures pass { self.new.pass ≡ self.old.pass }
        ensures threads { OnOk result
            (self.new.threads ≡ self.old.threads ++ run.answers ∷ []) }
        ensures stop { OnOk result
            (self.new.stop ≡ stop_after self.old.stop (stop_at thread run.stop)) }
    {
        let ThreadRun { answers, stop } = run;
        self.threads.push(answers)?;
        self.stop = first_stop(self.stop, stop_of(thread, stop));
        Ok(())
    }
}

/// A lane is forked off for each thread of the plan, with a pass that has learnt what the base has;
/// and what it leaves is joined.
impl<'s, 't, J: Run + Send + Sync, B: Based + Sync, G: Gate + Sync> ForkJoin
    for PlanRun<'s, 't, J, B, G> {
    ghost use Rattle.std.specs.Prelude.{◌≡◌, length};
    ghost use Rattle.mh_runtime.specs.Bases.{pass_of};
    ghost use Rattle.mh_runtime.specs.Lanes.{IsReadyLane, HasRun};
    ghost use Rattle.mh_runtime.specs.Linkers.{IsOf};
    ghost use Rattle.mh_runtime.specs.Joining.{AreForked, AreJoinedTo};
    ghost use Rattle.mh_runtime.specs.RunStops.{HasMade};
    ghost use Rattle.mh_runtime.specs.Stops.{end_in};

    type Lane = Lane<'s, 't, J>;

    type State = Joined<'s, 't, J>;

    ghost count = { λ c. length c.plan.now };

    ghost forked = { λ c state lanes. IsOf J.given c.linker.now (pass_of B.base)
        × AreForked J.given (pass_of B.base) c.plan.now state lanes };

    ghost ready = { λ c lane. IsOf J.given c.linker.now (pass_of B.base)
        × IsReadyLane J.given (pass_of B.base) lane };

    ghost done = { λ c old new. (new.calls ≡ old.calls)
        × HasRun J.given (pass_of B.base) old.pass.links.thread old.calls.now new
        × HasMade J.given B.base old.pass.links.thread old.calls.now (end_in new.ran) };

    ghost joined = { λ c before after state. IsOf J.given c.linker.now (pass_of B.base)
        × AreJoinedTo J.given (pass_of B.base) c.plan.now before after state };

    fn lanes(&self) -> usize {
        self.plan.len()
    }

    fn fork(
        &self,
        joined: &mut Joined<'s, 't, J>,
        number: usize,
    ) -> Result<Lane<'s, 't, J>, NoMemory> {
        let calls = self.plan.get(number);
        let thread = number as u32;
        lane(self, joined, calls, thread)
    }

    fn run<R: Wait>(&self, rt: &R, lane: &mut Lane<'s, 't, J>) {
        self.run_lane(rt, lane);
    }

    fn join(&self, joined: &mut Joined<'s, 't, J>, lane: Lane<'s, 't, J>) -> Result<(), NoMemory> {
        joined.add(self, lane)
    }

    fn start(&self, joined: &Joined<'s, 't, J>) {
        let _threads = &joined.threads;
    }
}
