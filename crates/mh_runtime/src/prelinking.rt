ghost use Rattle.std.specs.Prelude.{◌≡◌, ◌<◌, ◌≤◌, length, IfOk, None};
ghost use Rattle.mh_plan.specs.Plan.{most_threads};
ghost use Rattle.mh_runtime.specs.Joining.{IsUnused};
ghost use Rattle.mh_runtime.specs.Passes.{most_sites, split_room};
ghost use Rattle.mh_runtime.specs.Prelinked.{IsPrelinked};
ghost use Rattle.mh_runtime.specs.Workers.{most_workers};

use crate::linker::Linker;
use crate::pass::Pass;
use crate::stops::{Stop, first_stop, stop_of};
use mh_attempt::{ConstantsOf, WorkError};
use mh_base::NoMemory;
use mh_condy::ConstTable;
use mh_jobs::Run;
use mh_outside::Gate;
use mh_plan::Plan;
use mh_prelink::{Linking, Numbers, SharesOut, share_out};
use std::sync::Wait;
use std::thread::Threads;

/// What the workers of a run share: the linker, the plan, and the gate that may hold a worker when
/// it records what it has linked. Workers have the numbers after those of the plan's threads.
#[derive(Drop)]
pub(crate) struct Prelinking<'s, 't, J: Run, G> {
    pub(crate) linker: &'s Linker<'t, J>,
    /// The table of the run's constants, over which the passes go.
    pub(crate) constants: &'s ConstTable<'t, ConstantsOf<J>>,
    pub(crate) plan: &'s Plan,
    pub(crate) gate: &'s G,
    /// How many workers there are, at most 16.
    pub(crate) workers: u32,
}

/// What workers leave together: a pass that has what all theirs have, and the stop to report.
#[derive(Drop)]
pub(crate) struct Prelinked<'s, 't, J: Run> {
    pub(crate) pass: Pass<'s, 't, J>,
    pub(crate) stop: Option<Stop>,
}

/// A worker links a site as a call of it would, and keeps its linkage.
impl<'s, 't, J: Run + Send + Sync, G: Gate + Sync> Linking for Prelinking<'s, 't, J, G> {
    ghost use Rattle.std.specs.Prelude.{length};
    ghost use Rattle.mh_runtime.specs.Workers.{HasRoomOf, KnowsSite, LinksSite};
    ghost use Rattle.std.proofs.Common.{arith};

    type Pass = Pass<'s, 't, J>;

    type Stop = WorkError;

    ghost step = { λ p old site stop new. LinksSite J.given old site stop new };

    ghost has = { λ p pass site. KnowsSite pass site };

    ghost room = { λ p pass sites. HasRoomOf J.given p.linker.now pass sites };

    ghost items = { λ p. length J.given.jobs };

    fn link<R: Wait>(
        &self,
        rt: &R,
        pass: &mut Pass<'s, 't, J>,
        item: u32,
    ) -> Result<(), WorkError> {
        self.linker.resolve(rt, pass, self.gate, item)?;
        Ok(())
    }

    ghost less = { λ s p n h. (
      h.0,
      record {
        serials = Prim.omega (arith, h.1.serials);
        forms = Prim.omega (arith, h.1.forms);
        holds = Prim.omega (arith, h.1.holds);
      },
      h.2,
    ) };
}

/// The passes of the workers are split off the first pass, and joined to it.
impl<'s, 't, J: Run + Send + Sync, G: Gate + Sync> SharesOut for Prelinking<'s, 't, J, G> {
    ghost use Rattle.std.specs.Prelude.{length};
    ghost use Rattle.mh_runtime.specs.Prelinked.{AreGatheredOf, AreSplitOff};

    type State = Prelinked<'s, 't, J>;

    ghost workers = { λ p. p.workers };

    ghost split_off = { λ p state passes. AreSplitOff J.given p.linker.now
        p.constants.now (length p.plan.now) p.workers passes state };

    ghost joined = { λ p before after state. AreGatheredOf J.given p.linker.now
        p.constants.now (length p.plan.now) p.workers before after state };

    fn workers(&self) -> usize {
        self.workers as usize
    }

    fn count(&self) -> u32 {
        self.linker.sites.sites() as u32
    }

    fn split(
        &self,
        state: &mut Prelinked<'s, 't, J>,
        number: usize,
    ) -> Result<Pass<'s, 't, J>, NoMemory> {
        let thread = self.plan.len() as u32 + number as u32;
        self.linker.split(&mut state.pass, thread)
    }

    fn join(
        &self,
        state: &mut Prelinked<'s, 't, J>,
        pass: Pass<'s, 't, J>,
        taken: Numbers,
    ) -> Result<(), NoMemory> {
        let _taken = taken;
        self.linker.join(&mut state.pass, pass)
    }

    fn join_stopped(
        &self,
        state: &mut Prelinked<'s, 't, J>,
        pass: Pass<'s, 't, J>,
        taken: Numbers,
        stop: WorkError,
    ) -> Result<(), NoMemory> {
        let _taken = taken;
        let thread = pass.links.thread();
        self.linker.join(&mut state.pass, pass)?;
        state.stop = first_stop(state.stop, stop_of(thread, Some(stop)));
        Ok(())
    }

    fn start(&self, state: &Prelinked<'s, 't, J>) {
        let _stop = &state.stop;
    }
}

/// Links all call sites by workers, and joins their passes to the first pass of the run.
pub(crate) fn link_sites<'s, 't, J: Run + Send + Sync, R: Threads + Wait + Sync, G: Gate + Sync>(
    rt: &R,
    prelinking: &Prelinking<'s, 't, J, G>,
    pass: Pass<'s, 't, J>,
) -> Result<Prelinked<'s, 't, J>, NoMemory>
    requires pass { IsUnused J.given prelinking.now.linker.now prelinking.now.constants.now pass }
    requires leaves { prelinking.now.linker.now.leaves.now ≡ J.given.leaves }
    requires threads { length prelinking.now.plan.now ≤ most_threads }
    requires workers { (0 < prelinking.now.workers) × (prelinking.now.workers ≤ most_workers) }
    requires sites { length J.given.jobs ≤ most_sites }
    requires constants { length J.given.constants ≤ split_room }
    ensures { IfOk result (IsPrelinked J.given prelinking.now.linker.now
        prelinking.now.constants.now (length prelinking.now.plan.now) prelinking.now.workers) }
{
    let mut state = Prelinked { pass, stop: None };
    share_out(rt, prelinking.linker.alloc, prelinking, &mut state)?;
    Ok(state)
}
