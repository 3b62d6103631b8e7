//! Runs of constants that are made without class files.

ghost use Rattle.std.specs.Prelude.{◌≡◌, [], length, map, IfOk, OnOk};
ghost use Rattle.mh_jobs.specs.declared.unresolved.Part.TheVariants.{Constant};
ghost use Rattle.mh_condy.specs.Runs.{AreResolvable};
ghost use Rattle.mh_sharing_tests.specs.Built.{AreOver, IsOver, are_below, run_of};

use crate::constants::broken::Broken;
use mh_base::{Frozen, NoMemory, Seq};
use mh_jobs::{ConstBootstrap, ConstJob, ConstJobs, Part, StaticArguments};
use mh_leaves::{Leaves, read_manifest};
use mh_script::{ScriptId, Scripts, read_scripts};
use mh_values::{Primitive, Ty};
use std::alloc::Global;

const SCRIPTS: &[u8] = b"\
    script made/Boot serial ()V\nlet n serial\nvalue n\nend\n\
    script made/Boot first ()V\nvalue a0\nend\n\
    script made/Boot second ()V\nvalue a1\nend\n\
    script made/Boot raise ()V\nraise java/lang/RuntimeException s:made\nend\n\
    script made/Boot text ()V\nvalue s:x\nend\n\
    script made/Boot even ()V\nlet n serial\nfailmod 2 1\nvalue n\nend\n";

/// Gives the serial of the attempt.
pub const SERIAL: u32 = 0;

/// Gives the first static argument.
pub const FIRST: u32 = 1;

/// Gives the second static argument.
pub const SECOND: u32 = 2;

/// Throws an exception that is no error.
pub const RAISE: u32 = 3;

/// Gives a text.
pub const TEXT: u32 = 4;

/// Gives the serial of the attempt if it is even, and throws otherwise.
pub const EVEN: u32 = 5;

const TOO_MANY: Broken = Broken::Fixture("more constants than there are numbers");

/// A constant of the type `long`: those whose values its script is given, and the script.
#[derive(Clone, Copy)]
pub struct Entry<'a> {
    pub names: &'a [u32],
    pub script: u32,
}

/// The constants of a run, and what they are resolved with.
#[derive(Drop)]
pub struct Built {
    pub jobs: ConstJobs,
    pub scripts: Scripts,
    pub leaves: Leaves,
}

/// The constants of these numbers, as static arguments.
fn parts_of(alloc: Global, names: &[u32]) -> Result<Seq<Part>, NoMemory>
    ensures { IfOk result (λ parts. parts ≡ map (λ d. Constant d) names.now) }
{
    let mut parts = Seq::new(alloc);
    for name in names {
        parts.push(Part::Constant(*name))?;
    }
    Ok(parts)
}

/// Whether all these numbers are below another one.
fn are_below(names: &[u32], below: u32) -> bool
    ensures { result ≡ are_below below names.now }
{
    for name in names {
        if *name >= below {
            return false;
        }
    }
    true
}

/// The job of a constant of a number, which stands over constants below another one.
fn job(
    alloc: Global,
    number: u32,
    below: u32,
    entry: Entry<'_>,
    scripts: &Scripts,
) -> Result<ConstJob, Broken>
    ensures { IfOk result (IsOver below (length scripts.now) number) }
{
    if !are_below(entry.names, below) || entry.script as usize >= scripts.len() {
        return Err(Broken::Fixture("a constant over one, or of a script, that is not there"));
    }
    let arguments = StaticArguments {
        parts: Frozen::of(alloc, parts_of(alloc, entry.names)?)?,
        thrown: None,
    };
    let call = ConstBootstrap {
        script: ScriptId(entry.script),
        name: Frozen::new(),
        ty: Ty::Prim(Primitive::J),
        arguments,
    };
    let names = Seq::from_vec(Vec::from_slice(alloc, entry.names)?);
    Ok(ConstJob {
        number,
        names: Frozen::of(alloc, names)?,
        call: Ok(call),
    })
}

/// No constants.
fn nothing(alloc: Global) -> Result<Built, Broken>
    ensures { IfOk result (λ built. built.jobs ≡ []) }
{
    Ok(Built {
        jobs: ConstJobs::new(alloc),
        scripts: read_scripts(alloc, SCRIPTS)?,
        leaves: read_manifest(alloc, b"")?,
    })
}

/// Adds a constant after the others, which stands over constants below a number.
fn add(alloc: Global, built: &mut Built, below: u32, entry: Entry<'_>) -> Result<(), Broken>
    requires { AreOver below built.old }
    ensures { OnOk result (AreOver below built.new) }
{
    let number = u32::try_from(built.jobs.len()).or(Err(TOO_MANY))?;
    let job = job(alloc, number, below, entry, &built.scripts)?;
    Ok(built.jobs.push(job)?)
}

/// All constants, of which there are to be this many.
fn all(built: Built, count: u32) -> Result<Built, Broken>
    requires { AreOver count built }
    ensures { IfOk result (λ built. AreResolvable (run_of built)) }
{
    if built.jobs.len() != count as usize {
        return Err(Broken::Fixture("another number of constants than there is to be"));
    }
    Ok(built)
}

/// The constants of a list.
pub fn of_entries(alloc: Global, entries: &[Entry<'_>]) -> Result<Built, Broken>
    ensures { IfOk result (λ built. AreResolvable (run_of built)) }
{
    let count = u32::try_from(entries.len()).or(Err(TOO_MANY))?;
    let mut built = nothing(alloc)?;
    for entry in entries {
        add(alloc, &mut built, count, *entry)?;
    }
    all(built, count)
}

/// The rung of a ladder before the next one: the last gives its serial, and each other one what the
/// next gives, which is its static argument twice.
fn rung(alloc: Global, built: &mut Built, next: u32, rungs: u32) -> Result<(), Broken>
    requires { AreOver rungs built.old }
    ensures { OnOk result (AreOver rungs built.new) }
{
    if next == rungs {
        let last = Entry {
            names: &[],
            script: SERIAL,
        };
        return add(alloc, built, rungs, last);
    }
    let entry = Entry {
        names: &[next, next],
        script: SECOND,
    };
    add(alloc, built, rungs, entry)
}

/// A ladder of this many rungs.
pub fn ladder(alloc: Global, rungs: u32) -> Result<Built, Broken>
    ensures { IfOk result (λ built. AreResolvable (run_of built)) }
{
    let mut built = nothing(alloc)?;
    for at in 0..rungs {
        rung(alloc, &mut built, at + 1, rungs)?;
    }
    all(built, rungs)
}

/// One constant over this many others.
pub fn wide(alloc: Global, others: u32) -> Result<Built, Broken>
    ensures { IfOk result (λ built. AreResolvable (run_of built)) }
{
    let count = others.checked_add(1).ok_or(TOO_MANY)?;
    let mut names = Vec::new(alloc);
    for name in 1..count {
        names.push(name)?;
    }
    let mut built = nothing(alloc)?;
    let first = Entry {
        names: names.as_slice(),
        script: FIRST,
    };
    add(alloc, &mut built, count, first)?;
    for _other in 1..count {
        let entry = Entry {
            names: &[],
            script: SERIAL,
        };
        add(alloc, &mut built, count, entry)?;
    }
    all(built, count)
}
