ghost use Rattle.std.specs.Prelude.{◌≡◌, ◌+◌, ◌<◌, ◌^◌, [], ◌∷◌, ◌++◌, length, slice_get, Some, OnErr, OnOk};
ghost use Rattle.mh_jobs.specs.Constants.{with_constants};
ghost use Rattle.mh_jobs.specs.Parts.{AreRead};

use crate::constants::{ConstJob, const_job};
use crate::unresolved::{Entry, Numbering, entry_in};
use mh_base::{NoMemory, Seq};
use std::alloc::Global;
use std::marker::Model;

/// The jobs of a run's dynamic constants, by their numbers from 0. Contracts see the list of them.
#[derive(Drop)]
pub struct ConstJobs {
    jobs: Seq<ConstJob>,
}

impl Model for ConstJobs {
    ghost use Rattle.std.specs.Prelude.{List};
    ghost use Rattle.mh_jobs.specs.declared.constants.ConstJob.{ConstJob as OneJob};
    ghost use Rattle.mh_jobs.specs.Constants.{AreNumbered};

    ghost Value = { List OneJob };

    ghost view = { λ j. j.jobs };

    ghost invariant = { λ j. AreNumbered j.jobs };
}

impl ConstJobs {
    /// No jobs.
    pub fn new(alloc: Global) -> ConstJobs
        ensures { result ≡ [] }
    {
        ConstJobs {
            jobs: Seq::new(alloc),
        }
    }

    /// The number of constants.
    pub fn len(&self) -> usize
        ensures { result ≡ length self.now }
    {
        self.jobs.len()
    }

    /// The job of the constant of a number.
    pub fn get(&self, number: u32) -> &ConstJob
        requires { number < length self.now }
        ensures job { slice_get self.now number ≡ Some result.now }
        ensures number { result.now.number ≡ number }
    {
        self.jobs.get(number as usize)
    }

    /// Puts the job of the next constant after the others. If memory runs out, the jobs are as they
    /// were.
    pub fn push(&mut self, job: ConstJob) -> Result<(), NoMemory>
        requires { job.number ≡ length self.old }
        ensures ok { OnOk result (self.new ≡ self.old ++ job ∷ []) }
        ensures err { OnErr result (self.new ≡ self.old) }
    {
        self.jobs.push(job)
    }
}

/// Puts the jobs of the dynamic constants of a class after the others, numbered on. What is read of
/// the static arguments of each bootstrap method is at hand.
#[tactic(auto, using(crate::proofs::NumberedOn::all_made))]
pub(crate) fn push_constants(
    alloc: Global,
    constants: &mut ConstJobs,
    from: &Numbering<'_, '_>,
    entries: &Seq<Entry>,
) -> Result<(), NoMemory>
    requires first { from.now.first ≡ length constants.old }
    requires few { from.now.first + length from.now.view.now.dynamics < 2 ^ 32 }
    requires read { AreRead from.now.leaves.now from.now.view.now from.now.first entries.now }
    ensures { OnOk result (constants.new ≡ with_constants from.now.leaves.now
        from.now.scripts.now constants.old from.now.view.now) }
{
    for d in 0..from.view.dynamics() {
        let dynamic = from.view.dynamic(d);
        let entry = entry_in(alloc, from, entries, dynamic.bootstrap)?;
        let job = const_job(alloc, from, from.first + u32::from(d), &dynamic, entry)?;
        constants.push(job)?;
    }
    Ok(())
}
