ghost use Rattle.std.specs.Prelude.{◌≡◌};
ghost use Rattle.mh_runtime.specs.Bases.{pass_of};
ghost use Rattle.mh_runtime.specs.Lanes.{IsReadyLane, HasRun};
ghost use Rattle.mh_runtime.specs.Linkers.{IsOf};
ghost use Rattle.mh_runtime.specs.RunStops.{HasMade};
ghost use Rattle.mh_runtime.specs.Stops.{end_in};

use crate::base::Based;
use crate::pass::Pass;
use crate::plan_run::PlanRun;
use crate::stops::ThreadRun;
use mh_jobs::Run;
use mh_outside::Gate;
use mh_plan::ThreadCalls;
use std::sync::Wait;

/// What one thread of a run works on: its pass and its calls; and what those gave.
#[derive(Drop)]
pub(crate) struct Lane<'s, 't, J: Run> {
    pub(crate) pass: Pass<'s, 't, J>,
    pub(crate) calls: &'s ThreadCalls,
    /// Nothing before the thread has run.
    pub(crate) ran: Option<ThreadRun>,
}

impl<'s, 't, J: Run, B: Based, G: Gate> PlanRun<'s, 't, J, B, G> {
    /// Makes the calls of a lane.
    pub(crate) fn run_lane<R: Wait>(&self, rt: &R, lane: &mut Lane<'s, 't, J>)
        requires base { IsOf J.given self.now.linker.now (pass_of B.base) }
        requires lane { IsReadyLane J.given (pass_of B.base) lane.old }
        ensures calls { lane.new.calls ≡ lane.old.calls }
        ensures ran { HasRun J.given (pass_of B.base) lane.old.pass.links.thread
            lane.old.calls.now lane.new }
        ensures made { HasMade J.given B.base lane.old.pass.links.thread lane.old.calls.now
            (end_in lane.new.ran) }
    {
        let ran = self
            .linker
            .run_thread(rt, &mut lane.pass, self.gate, lane.calls);
        lane.ran = Some(ran);
    }
}
