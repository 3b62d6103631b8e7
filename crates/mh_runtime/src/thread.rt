ghost use Rattle.std.specs.Prelude.{◌≡◌, [], All, length};
ghost use Rattle.mh_handle.specs.Works.{GoesOn};
ghost use Rattle.mh_plan.specs.Calls.{IsCallOf};
ghost use Rattle.mh_runtime.specs.Asking.{thread_draws};
ghost use Rattle.mh_runtime.specs.Linkers.{IsReadyFor, RunsThread, pass_in};
ghost use Rattle.mh_runtime.specs.Stops.{run_of};

use crate::context::Context;
use crate::site_pass::SitePass;
use crate::stops::ThreadRun;
use mh_attempt::WorkError;
use mh_base::Seq;
use mh_form::Machine;
use mh_handle::Work;
use mh_jobs::Run;
use mh_outside::Gate;
use mh_plan::ThreadCalls;
use mh_report::Answers;
use std::sync::Wait;

impl<'s, 'g, 't, J: Run, G: Gate> Context<'s, 'g, 't, J, G> {
    // Makes the calls of a thread, in order and in one machine, up to the first that stops, and
    // adds their answers.
    fn make_calls<R: Wait>(
        &self,
        w: &mut Work<'_, 't>,
        rt: &R,
        pass: &mut SitePass<'s, 't, J>,
        calls: &ThreadCalls,
        answers: &mut Answers,
    ) -> Result<(), WorkError>
        requires calls { All (IsCallOf J.given.leaves J.given.jobs) calls.now }
        requires ready { IsReadyFor J.given self.now.linker.now (length calls.now) pass.old w.old }
        requires none { answers.old ≡ [] }
        ensures goes_on { GoesOn (thread_draws calls.now) w.old w.new }
        ensures runs { RunsThread {J = J} J.given calls.now (pass_in pass.old w.old)
            (pass_in pass.new w.new) (run_of answers.new result) }
    {
        pass.constants_told();
        let mut machine = Machine::new(w.alloc);
        for next in calls.as_slice() {
            answers.push(self.call(&mut machine, w, rt, pass, next)?)?;
        }
        Ok(())
    }

    /// Makes the calls of a thread, in order, up to the first that stops. The calls before that one
    /// are answered.
    pub(crate) fn run_thread<R: Wait>(
        &self,
        w: &mut Work<'_, 't>,
        rt: &R,
        pass: &mut SitePass<'s, 't, J>,
        calls: &ThreadCalls,
    ) -> ThreadRun
        requires calls { All (IsCallOf J.given.leaves J.given.jobs) calls.now }
        requires ready { IsReadyFor J.given self.now.linker.now (length calls.now) pass.old w.old }
        ensures goes_on { GoesOn (thread_draws calls.now) w.old w.new }
        ensures runs { RunsThread {J = J} J.given calls.now (pass_in pass.old w.old)
            (pass_in pass.new w.new) result }
    {
        let mut answers = Seq::new(w.alloc);
        let made = self.make_calls(w, rt, pass, calls, &mut answers);
        ThreadRun {
            answers,
            stop: made.err(),
        }
    }
}
