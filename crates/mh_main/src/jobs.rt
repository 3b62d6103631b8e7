ghost use Rattle.std.specs.Prelude.{◌≡◌, ◌≤◌, ◌+◌, ◌-◌, List, ℕ, IfOk, IfErr, OnOk, length};
ghost use Rattle.mh_jobs.specs.RunJobs.{jobs_of};
ghost use Rattle.mh_outside.specs.Causes.{AreSame};
ghost use Rattle.mh_outside.specs.Kept.{KeepsInputs};
ghost use Rattle.mh_outside.specs.Reach.{ReadsOnce};
ghost use Rattle.mh_words.specs.Options.{said};
ghost use Rattle.mh_runtime.specs.Passes.{most_sites};
ghost use Rattle.mh_main.specs.Input.{class_limit};
ghost use Rattle.mh_main.specs.Classes.{MakesJobs, MakesAllJobs, HasJobs};
ghost use Rattle.mh_main.specs.Stops.{IsStopAmong, IsStopOf, ReachesClass, StopsClass, StopsClasses};

use crate::classes::{CLASS_LIMIT, class_of};
use crate::reading::read_input;
use crate::stop::Stop;
use mh_jobs::{RunJobs, push_class};
use mh_leaves::Leaves;
use mh_outside::Inputs;
use mh_runtime::MOST_SITES;
use mh_script::Scripts;
use std::alloc::Global;

/// The methods that class files can name.
#[derive(Clone, Copy)]
struct Methods<'p> {
    leaves: &'p Leaves,
    scripts: &'p Scripts,
}

// Reads a class file, and puts its jobs after the others.
#[tactic(auto, using(crate::proofs::ClassJobs::few_jobs))]
fn read_class<'a, I: Inputs>(
    alloc: Global,
    inputs: &mut I,
    name: &'a str,
    methods: &Methods<'_>,
    jobs: RunJobs,
) -> Result<RunJobs, Stop<'a>>
    requires { length jobs.sites ≤ most_sites }
    ensures keeps { KeepsInputs (I.contents inputs.old) (I.contents inputs.new)
        (I.faults inputs.old) (I.faults inputs.new) }
    ensures no_fault { OnOk result (AreSame (I.faults inputs.old) (I.faults inputs.new)) }
    ensures stop { IfErr result
        (λ stop. IsStopOf name.now (I.faults inputs.old) (I.faults inputs.new) stop) }
    ensures refuses { IfErr result
        (λ stop. StopsClass (most_sites - length jobs.sites)
        (I.contents inputs.old name.now) stop) }
    ensures ok { IfOk result
        (MakesJobs methods.now.leaves.now methods.now.scripts.now (most_sites - length jobs.sites)
        (I.contents inputs.old name.now) jobs) }
    ensures few { IfOk result (λ all. length all.sites ≤ most_sites) }
    ensures reads { ReadsOnce (class_limit + 1) 1 (I.reached inputs.old) (I.reached inputs.new)
        (I.starts inputs.old) (I.starts inputs.new) }
{
    let room = MOST_SITES - jobs.sites.len() as u32;
    let bytes = read_input(alloc, inputs, name, CLASS_LIMIT)?;
    let view = class_of(alloc, name, &bytes, room)?;
    let mut jobs = jobs;
    push_class(alloc, &mut jobs, &view, methods.scripts, methods.leaves)?;
    Ok(jobs)
}

// Reads class files in order, and puts their jobs after the others.
fn read_classes<'a, I: Inputs>(
    alloc: Global,
    inputs: &mut I,
    names: &[&'a str],
    methods: &Methods<'_>,
    jobs: RunJobs,
) -> Result<RunJobs, Stop<'a>>
    requires { length jobs.sites ≤ most_sites }
    ensures keeps { KeepsInputs (I.contents inputs.old) (I.contents inputs.new)
        (I.faults inputs.old) (I.faults inputs.new) }
    ensures no_fault { OnOk result (AreSame (I.faults inputs.old) (I.faults inputs.new)) }
    ensures stop { IfErr result
        (λ stop. IsStopAmong
        (ReachesClass (most_sites - length jobs.sites) (said names.now) (I.contents inputs.old))
        (I.faults inputs.old) (I.faults inputs.new) stop) }
    ensures refuses { IfErr result
        (λ stop. StopsClasses (most_sites - length jobs.sites) (said names.now)
        (I.contents inputs.old) stop) }
    ensures ok { IfOk result
        (MakesAllJobs methods.now.leaves.now methods.now.scripts.now
        (most_sites - length jobs.sites) (said names.now) (I.contents inputs.old) jobs) }
    ensures few { IfOk result (λ all. length all.sites ≤ most_sites) }
    ensures reads { ReadsOnce (class_limit + 1) (length (said names.now))
        (I.reached inputs.old) (I.reached inputs.new)
        (I.starts inputs.old) (I.starts inputs.new) }
{
    let Some((name, others)) = names.split_first() else {
        return Ok(jobs);
    };
    let jobs = read_class(alloc, inputs, *name, methods, jobs)?;
    read_classes(alloc, inputs, others, methods, jobs)
}

/// Reads class files in order, up to the first that stops it, and makes the jobs of their call
/// sites and of their dynamic constants.
pub fn read_jobs<'a, I: Inputs>(
    alloc: Global,
    inputs: &mut I,
    names: &[&'a str],
    leaves: &Leaves,
    scripts: &Scripts,
) -> Result<RunJobs, Stop<'a>>
    ensures keeps { KeepsInputs (I.contents inputs.old) (I.contents inputs.new)
        (I.faults inputs.old) (I.faults inputs.new) }
    ensures no_fault { OnOk result (AreSame (I.faults inputs.old) (I.faults inputs.new)) }
    ensures stop { IfErr result
        (λ stop. IsStopAmong (ReachesClass most_sites (said names.now) (I.contents inputs.old))
        (I.faults inputs.old) (I.faults inputs.new) stop) }
    ensures refuses { IfErr result
        (λ stop. StopsClasses most_sites (said names.now) (I.contents inputs.old) stop) }
    ensures ok { IfOk result
        (HasJobs leaves.now scripts.now (said names.now) (I.contents inputs.old)) }
    ensures few { IfOk result (λ jobs. length jobs.sites ≤ most_sites) }
    ensures reads { ReadsOnce (class_limit + 1) (length (said names.now))
        (I.reached inputs.old) (I.reached inputs.new)
        (I.starts inputs.old) (I.starts inputs.new) }
{
    let methods = Methods { leaves, scripts };
    read_classes(alloc, inputs, names, &methods, RunJobs::new(alloc))
}
