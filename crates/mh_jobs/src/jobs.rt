ghost use Rattle.std.specs.Prelude.{◌≡◌, ◌<◌, List, [], ◌∷◌, ◌++◌, length, slice_get, Some, IfOk, OnErr, OnOk};
ghost use Rattle.mh_leaf.specs.LeafTable.{LeafTable};
ghost use Rattle.mh_script.specs.declared.script.Script.{Script};
ghost use Rattle.mh_jobs.specs.Given.{AreJobsOf};
ghost use Rattle.mh_jobs.specs.Jobs.{HasMore, with_sites};
ghost use Rattle.mh_jobs.specs.Parts.{AreRead};

use crate::Job;
use crate::sites::{SiteRead, site_job};
use crate::types::{no_types, read_once};
use crate::unresolved::{Entry, Numbering, arguments_in};
use mh_base::{NoMemory, Seq};
use std::alloc::Global;
use std::marker::Model;

/// The jobs of a run's call sites, by their numbers from 0. Contracts see the list of them.
#[derive(Drop)]
pub struct Jobs {
    jobs: Seq<Job>,
}

impl Model for Jobs {
    ghost use Rattle.std.specs.Prelude.{List};
    ghost use Rattle.mh_jobs.specs.declared.job.Job.{Job as OneJob};
    ghost use Rattle.mh_jobs.specs.Jobs.{AreInPlace};

    ghost Value = { List OneJob };

    ghost view = { λ j. j.jobs };

    ghost invariant = { λ j. AreInPlace j.jobs };
}

/// The number of a call site after this many others.
fn next_number(count: usize) -> Result<u32, NoMemory>
    ensures { IfOk result (λ number. number ≡ count) }
{
    u32::try_from(count).or(Err(NoMemory))
}

impl Jobs {
    /// No jobs.
    #[tactic(auto, using(crate::proofs::OfClasses::none_are))]
    pub fn new(alloc: Global) -> Jobs
        ensures none { result ≡ [] }
        ensures are_jobs { (leaves : LeafTable) (scripts : List Script)
            → AreJobsOf leaves scripts result }
    {
        Jobs {
            jobs: Seq::new(alloc),
        }
    }

    /// The number of jobs.
    pub fn len(&self) -> usize
        ensures { result ≡ length self.now }
    {
        self.jobs.len()
    }

    /// The job of the call site of a number.
    pub fn get(&self, site: u32) -> &Job
        requires { site < length self.now }
        ensures job { slice_get self.now site ≡ Some result.now }
        ensures site { result.now.site ≡ site }
    {
        self.jobs.get(site as usize)
    }

    /// Puts the job of the next call site after the others. If memory runs out, the jobs are as
    /// they were.
    pub fn push(&mut self, job: Job) -> Result<(), NoMemory>
        requires { job.site ≡ length self.old }
        ensures ok { OnOk result (self.new ≡ self.old ++ job ∷ []) }
        ensures err { OnErr result (self.new ≡ self.old) }
    {
        self.jobs.push(job)
    }
}

/// Puts the jobs of the call sites of a class after the others, numbered on. Equal descriptors of
/// the class are read once. What is read of the static arguments of each bootstrap method is at
/// hand.
#[tactic(auto, using(crate::proofs::Numbering::all_made, crate::proofs::Numbering::no_more))]
pub(crate) fn push_sites(
    alloc: Global,
    jobs: &mut Jobs,
    from: &Numbering<'_, '_>,
    entries: &Seq<Entry>,
) -> Result<(), NoMemory>
    requires { AreRead from.now.leaves.now from.now.view.now from.now.first entries.now }
    ensures more { OnOk result (jobs.new ≡ with_sites from.now.leaves.now from.now.scripts.now
        from.now.first jobs.old from.now.view.now) }
    ensures before { HasMore jobs.old jobs.new }
{
    let mut types = no_types(alloc);
    for k in 0..from.view.sites() {
        let number = next_number(jobs.len())?;
        let site = from.view.site(k);
        let (others, ty) = read_once(alloc, from.leaves.classes(), types, site.descriptor.bytes())?;
        types = others;
        let arguments = arguments_in(alloc, from, entries, site.bootstrap)?;
        let read = SiteRead { ty, arguments };
        let job = site_job(alloc, from, number, &site, read)?;
        jobs.push(job)?;
    }
    Ok(())
}
