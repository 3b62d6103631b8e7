ghost use Rattle.std.specs.Prelude.{◌≡◌, ◌≤◌, ◌+◌, List, ℕ, Some, IfOk, IfErr, OnOk, length};
ghost use Rattle.mh_outside.specs.Causes.{AreSame};
ghost use Rattle.mh_outside.specs.Kept.{KeepsInputs};
ghost use Rattle.mh_outside.specs.Reach.{ReadsOnce};
ghost use Rattle.mh_outside.specs.Contents.{IsWhole};
ghost use Rattle.mh_leaves.specs.Manifest.{manifest, kind_word as manifest_word};
ghost use Rattle.mh_script.specs.Kinds.{kind_word as script_word};
ghost use Rattle.mh_script.specs.Scripts.{scripts};
ghost use Rattle.mh_plan.specs.Limits.{IsWithinLimits};
ghost use Rattle.mh_plan.specs.Calls.{AreCallsOf};
ghost use Rattle.mh_plan.specs.Plan.{plan, kind_word as plan_word};
ghost use Rattle.mh_words.specs.Words.{held_names, run};
ghost use Rattle.mh_runtime.specs.Workers.{most_workers};
ghost use Rattle.mh_main.specs.Runnable.{IsRunnable};
ghost use Rattle.mh_main.specs.Input.{HasMeaning, IfAccepted, named_input, program, leaves_limit};
ghost use Rattle.mh_main.specs.Input.{plan_limit};
ghost use Rattle.mh_main.specs.Reading.{ReadsInputs};
ghost use Rattle.mh_main.specs.Stops.{IsStopAmong, IsStopOf, ReachesInput, Refuses, StopsFile};
ghost use Rattle.mh_main.specs.Stops.{StopsText};

use crate::jobs::read_jobs;
use crate::stop::Stop;
use crate::{Output, Program};
use mh_jobs::{Jobs, RunJobs};
use mh_leaves::{Leaves, ManifestError, read_manifest};
use mh_outside::{Inputs, ReadWhole, read_whole};
use mh_plan::{Plan, PlanError, read_plan};
use mh_script::{ScriptError, Scripts};
use mh_words::Names;
use std::alloc::Global;

/// How many bytes a manifest may have, and how many the scripts.
const LEAVES_LIMIT: usize = 262_144;

/// How many bytes a plan may have.
const PLAN_LIMIT: usize = 1_048_576;

/// Reads an input of at most `limit` bytes whole, from its front, once: it asks for one byte past
/// the limit, and for none after it.
pub(crate) fn read_input<'a, I: Inputs>(
    alloc: Global,
    inputs: &mut I,
    name: &'a str,
    limit: usize,
) -> Result<Vec<u8>, Stop<'a>>
    ensures keeps { KeepsInputs (I.contents inputs.old) (I.contents inputs.new)
        (I.faults inputs.old) (I.faults inputs.new) }
    ensures no_fault { OnOk result (AreSame (I.faults inputs.old) (I.faults inputs.new)) }
    ensures stop { IfErr result
        (λ stop. IsStopOf name.now (I.faults inputs.old) (I.faults inputs.new) stop) }
    ensures unread { IfErr result (λ stop. StopsFile limit (I.contents inputs.old name.now) stop) }
    ensures file { IfOk result (λ bytes. IsWhole (I.contents inputs.old name.now) bytes.items) }
    ensures within { IfOk result (λ bytes. length bytes.items ≤ limit) }
    ensures reads { ReadsOnce (limit + 1) 1 (I.reached inputs.old) (I.reached inputs.new)
        (I.starts inputs.old) (I.starts inputs.new) }
{
    match read_whole(alloc, inputs, name, limit) {
        Ok(bytes) => Ok(bytes),
        Err(ReadWhole::NoMemory) => Err(Stop::NoMemory),
        Err(ReadWhole::ReadFault) => Err(Stop::ReadFault(name)),
        Err(ReadWhole::TooLong) => Err(Stop::TooLong(name)),
    }
}

#[tactic(auto, using(crate::proofs::Unread::unread_text))]
fn read_leaves<'a, I: Inputs>(
    alloc: Global,
    inputs: &mut I,
    name: &'a str,
) -> Result<Leaves, Stop<'a>>
    ensures keeps { KeepsInputs (I.contents inputs.old) (I.contents inputs.new)
        (I.faults inputs.old) (I.faults inputs.new) }
    ensures no_fault { OnOk result (AreSame (I.faults inputs.old) (I.faults inputs.new)) }
    ensures stop { IfErr result
        (λ stop. IsStopOf name.now (I.faults inputs.old) (I.faults inputs.new) stop) }
    ensures refuses { IfErr result
        (λ stop. StopsText leaves_limit manifest_word manifest
        (I.contents inputs.old name.now) stop) }
    ensures ok { IfOk result
        (λ leaves. HasMeaning leaves_limit manifest (I.contents inputs.old name.now) leaves) }
    ensures reads { ReadsOnce (leaves_limit + 1) 1 (I.reached inputs.old) (I.reached inputs.new)
        (I.starts inputs.old) (I.starts inputs.new) }
{
    let bytes = read_input(alloc, inputs, name, LEAVES_LIMIT)?;
    match read_manifest(alloc, &bytes) {
        Ok(leaves) => Ok(leaves),
        Err(ManifestError::NoMemory) => Err(Stop::NoMemory),
        Err(ManifestError::Fault(fault)) => Err(Stop::Fault(name, fault.line, fault.kind.word())),
    }
}

#[tactic(auto, using(crate::proofs::Unread::unread_text))]
fn read_scripts<'a, I: Inputs>(
    alloc: Global,
    inputs: &mut I,
    name: &'a str,
) -> Result<Scripts, Stop<'a>>
    ensures keeps { KeepsInputs (I.contents inputs.old) (I.contents inputs.new)
        (I.faults inputs.old) (I.faults inputs.new) }
    ensures no_fault { OnOk result (AreSame (I.faults inputs.old) (I.faults inputs.new)) }
    ensures stop { IfErr result
        (λ stop. IsStopOf name.now (I.faults inputs.old) (I.faults inputs.new) stop) }
    ensures refuses { IfErr result
        (λ stop. StopsText leaves_limit script_word scripts (I.contents inputs.old name.now) stop) }
    ensures ok { IfOk result
        (λ all. HasMeaning leaves_limit scripts (I.contents inputs.old name.now) all) }
    ensures reads { ReadsOnce (leaves_limit + 1) 1 (I.reached inputs.old) (I.reached inputs.new)
        (I.starts inputs.old) (I.starts inputs.new) }
{
    let bytes = read_input(alloc, inputs, name, LEAVES_LIMIT)?;
    match mh_script::read_scripts(alloc, &bytes) {
        Ok(scripts) => Ok(scripts),
        Err(ScriptError::NoMemory) => Err(Stop::NoMemory),
        Err(ScriptError::Fault(fault)) => Err(Stop::Fault(name, fault.line, fault.kind.word())),
    }
}

#[tactic(auto, using(crate::proofs::Unread::unread_text))]
fn read_calls<'a, I: Inputs>(
    alloc: Global,
    inputs: &mut I,
    name: &'a str,
    leaves: &Leaves,
    jobs: &Jobs,
) -> Result<Plan, Stop<'a>>
    ensures keeps { KeepsInputs (I.contents inputs.old) (I.contents inputs.new)
        (I.faults inputs.old) (I.faults inputs.new) }
    ensures no_fault { OnOk result (AreSame (I.faults inputs.old) (I.faults inputs.new)) }
    ensures stop { IfErr result
        (λ stop. IsStopOf name.now (I.faults inputs.old) (I.faults inputs.new) stop) }
    ensures refuses { IfErr result
        (λ stop. StopsText plan_limit plan_word (λ bytes. plan bytes leaves.now jobs.now)
        (I.contents inputs.old name.now) stop) }
    ensures ok { IfOk result
        (λ calls. HasMeaning plan_limit (λ bytes. plan bytes leaves.now jobs.now)
        (I.contents inputs.old name.now) calls) }
    ensures calls { IfOk result (AreCallsOf leaves.now jobs.now) }
    ensures limits { IfOk result IsWithinLimits }
    ensures reads { ReadsOnce (plan_limit + 1) 1 (I.reached inputs.old) (I.reached inputs.new)
        (I.starts inputs.old) (I.starts inputs.new) }
{
    let bytes = read_input(alloc, inputs, name, PLAN_LIMIT)?;
    match read_plan(alloc, &bytes, leaves, jobs) {
        Ok(plan) => Ok(plan),
        Err(PlanError::NoMemory) => Err(Stop::NoMemory),
        Err(PlanError::Fault(fault)) => Err(Stop::Fault(name, fault.line, fault.kind.word())),
    }
}

/// Reads the inputs of a run in the order manifest, scripts, class files, plan, up to the first
/// that stops it. This is to be written of the run.
pub fn read_program<'a, I: Inputs>(
    alloc: Global,
    inputs: &mut I,
    names: &Names<'a>,
    output: Output,
) -> Result<Program, Stop<'a>>
    requires { names.now.workers ≤ most_workers }
    ensures keeps { KeepsInputs (I.contents inputs.old) (I.contents inputs.new)
        (I.faults inputs.old) (I.faults inputs.new) }
    ensures no_fault { OnOk result (AreSame (I.faults inputs.old) (I.faults inputs.new)) }
    ensures stop { IfErr result
        (λ stop. IsStopAmong (ReachesInput (held_names names.now) (I.contents inputs.old))
        (I.faults inputs.old) (I.faults inputs.new) stop) }
    ensures refuses { IfErr result
        (λ stop. Refuses (named_input output (held_names names.now) (I.contents inputs.old)) stop) }
    ensures ok { IfOk result
        (λ p. IfAccepted (named_input output (held_names names.now) (I.contents inputs.old))
        (λ a. a ≡ program p)) }
    ensures runnable { IfOk result IsRunnable }
    ensures reads { ReadsInputs (Some (run (held_names names.now)))
        (I.reached inputs.old) (I.reached inputs.new)
        (I.starts inputs.old) (I.starts inputs.new) }
{
    let leaves = read_leaves(alloc, inputs, names.leaves)?;
    let scripts = read_scripts(alloc, inputs, names.scripts)?;
    let jobs = read_jobs(alloc, inputs, &names.classes, &leaves, &scripts)?;
    let RunJobs { sites, constants } = jobs;
    let plan = read_calls(alloc, inputs, names.plan, &leaves, &sites)?;
    Ok(Program {
        leaves,
        scripts,
        jobs: sites,
        constants,
        plan,
        workers: names.workers,
        output,
    })
}
