ghost use Rattle.std.specs.Prelude.{◌≡◌, ◌+◌, ◌<◌, ◌^◌, List, ◌∷◌, [], ◌++◌, length, IfOk, OnOk};
ghost use Rattle.mh_leaf.specs.LeafTable.{LeafTable};
ghost use Rattle.mh_classfile.specs.Class.{Class};
ghost use Rattle.mh_script.specs.declared.script.Script.{Script};
ghost use Rattle.mh_jobs.specs.Given.{AreJobsOf};
ghost use Rattle.mh_jobs.specs.Jobs.{HasMore};
ghost use Rattle.mh_jobs.specs.RunJobs.{jobs_of, no_jobs, with_class};

use crate::const_jobs::{ConstJobs, push_constants};
use crate::jobs::{Jobs, push_sites};
use crate::unresolved::{Numbering, entries_of};
use mh_base::NoMemory;
use mh_classfile::ClassView;
use mh_leaves::Leaves;
use mh_script::Scripts;
use std::alloc::Global;

/// The jobs of a run: those of its call sites, and those of its dynamic constants.
#[derive(Drop)]
pub struct RunJobs {
    pub sites: Jobs,
    pub constants: ConstJobs,
}

impl RunJobs {
    /// No jobs.
    pub fn new(alloc: Global) -> RunJobs
        ensures none { result ≡ no_jobs }
        ensures are_jobs { (leaves : LeafTable) (scripts : List Script)
            → AreJobsOf leaves scripts result.sites }
    {
        RunJobs {
            sites: Jobs::new(alloc),
            constants: ConstJobs::new(alloc),
        }
    }
}

/// The number of the first constant after `count` others, if it and `more` others have numbers.
fn first_number(count: usize, more: u16) -> Result<u32, NoMemory>
    ensures { IfOk result (λ first. (first ≡ count) × (first + more < 2 ^ 32)) }
{
    let first = u32::try_from(count).or(Err(NoMemory))?;
    match first.checked_add(u32::from(more)) {
        Some(_) => Ok(first),
        None => Err(NoMemory),
    }
}

/// Puts the jobs of the call sites and of the dynamic constants of one more class after the others,
/// each numbered on. Equal descriptors of the class are read once, and so are the static arguments
/// of each bootstrap method.
///
/// A call site or a constant that no `u32` can number counts as lack of memory. If memory runs out,
/// the jobs are those before, and some of the class's after them.
#[tactic(auto, using(crate::proofs::Numbering::more_classes))]
pub fn push_class(
    alloc: Global,
    jobs: &mut RunJobs,
    view: &ClassView<'_>,
    scripts: &Scripts,
    leaves: &Leaves,
) -> Result<(), NoMemory>
    ensures more { OnOk result
        (jobs.new ≡ with_class leaves.now scripts.now jobs.old view.now) }
    ensures before { HasMore jobs.old.sites jobs.new.sites }

    // The jobs of classes become those of the classes and this one.
    ensures run { (classes : List Class) → jobs.old ≡ jobs_of leaves.now scripts.now classes
        → OnOk result (jobs.new ≡ jobs_of leaves.now scripts.now (classes ++ view.now ∷ [])) }

    // Jobs of call sites stay such jobs.
    ensures are_jobs { AreJobsOf leaves.now scripts.now jobs.old.sites
        → OnOk result (AreJobsOf leaves.now scripts.now jobs.new.sites) }
{
    let first = first_number(jobs.constants.len(), view.dynamics())?;
    let from = Numbering {
        view,
        scripts,
        leaves,
        first,
    };
    let entries = entries_of(alloc, &from)?;
    push_sites(alloc, &mut jobs.sites, &from, &entries)?;
    push_constants(alloc, &mut jobs.constants, &from, &entries)
}
