ghost use Rattle.std.specs.Prelude.{◌≡◌, ◌+◌, ◌<◌, ◌≤◌, ◌^◌, [], length, None, IfOk};
ghost use Rattle.mh_classfile.specs.Class.{number_of};
ghost use Rattle.mh_jobs.specs.Job.{constants_at};
ghost use Rattle.mh_jobs.specs.Parts.{AreRead, entry_of, named_constant, names_of, part_of, static_arguments};
ghost use Rattle.mh_jobs.specs.Told.{TellsResolved};

use crate::Argument;
use crate::argument::argument_of;
use crate::error::ResolutionError;
use crate::statics::{constant, count};
use mh_base::{Copied, Frozen, NoMemory, Seq};
use mh_classfile::{ClassView, Constant};
use mh_leaves::Leaves;
use mh_script::Scripts;
use mh_values::Exc;
use std::alloc::Global;

/// A static argument of a bootstrap method, before dynamic constants are resolved (JVMS SE 17,
/// 5.4.3.6).
#[derive(Debug, Drop)]
pub enum Part {
    Known(Argument),
    /// A dynamic constant, by its number in the run.
    Constant(u32),
}

/// The static arguments of a bootstrap method from left to right, up to the first that is refused
/// whatever the dynamic constants are, and what is thrown there.
#[derive(Debug, Drop)]
pub struct StaticArguments {
    pub parts: Frozen<Part>,
    pub thrown: Option<Exc>,
}

/// What is read of the static arguments of a bootstrap method.
#[derive(Drop)]
pub(crate) struct Entry {
    pub arguments: StaticArguments,
    /// The dynamic constants among them, also those after one that is refused.
    pub names: Frozen<u32>,
}

/// What the call sites and the dynamic constants of a class are resolved with.
#[derive(Clone, Copy)]
pub(crate) struct Numbering<'a, 'b> {
    pub view: &'a ClassView<'b>,
    pub scripts: &'a Scripts,
    pub leaves: &'a Leaves,
    /// How many dynamic constants the classes before it have.
    pub first: u32,
}

/// How many Dynamic entries of a class stand before an index.
fn number_of(view: &ClassView<'_>, index: u16) -> u16
    ensures is { result ≡ number_of view.now index }
    ensures few { result ≤ length view.now.dynamics }
{
    view.number_of(index)
}

/// The number in the run of the dynamic constant that a constant is.
fn named_constant(from: &Numbering<'_, '_>, constant: &Constant<'_>) -> Option<u32>
    requires { from.now.first + length from.now.view.now.dynamics < 2 ^ 32 }
    ensures { result ≡ named_constant from.now.view.now from.now.first constant.now }
{
    match constant {
        Constant::Dynamic(dynamic) => {
            Some(from.first + number_of(from.view, dynamic.index) as u32)
        }
        _ => None,
    }
}

/// A static argument by its constant.
fn part_of(
    alloc: Global,
    from: &Numbering<'_, '_>,
    constant: &Constant<'_>,
) -> Result<Part, ResolutionError>
    requires { from.now.first + length from.now.view.now.dynamics < 2 ^ 32 }
    ensures { TellsResolved result
        (part_of from.now.leaves.now from.now.view.now from.now.first constant.now) }
{
    if let Some(number) = named_constant(from, constant) {
        return Ok(Part::Constant(number));
    }
    let argument = argument_of(alloc, from.leaves, constant)?;
    Ok(Part::Known(argument))
}

/// The static arguments of a bootstrap method up to the first that is refused, and what is thrown
/// there.
#[tactic(auto, using(crate::proofs::Parted::parting))]
fn parts_of(
    alloc: Global,
    from: &Numbering<'_, '_>,
    bootstrap: u16,
) -> Result<(Seq<Part>, Option<Exc>), NoMemory>
    requires few { from.now.first + length from.now.view.now.dynamics < 2 ^ 32 }
    requires bootstrap { bootstrap < length from.now.view.now.bootstraps }
    ensures { IfOk result (λ both. record { parts = both.0; thrown = both.1 }
        ≡ static_arguments from.now.leaves.now from.now.view.now from.now.first
        (constants_at from.now.view.now bootstrap)) }
{
    let count = count(from.view, bootstrap);
    let mut parts = Seq::from_vec(Vec::with_capacity(alloc, usize::from(count))?);
    for k in 0..count {
        let constant = constant(from.view, bootstrap, k);
        match part_of(alloc, from, &constant) {
            Ok(part) => parts.push(part)?,
            Err(ResolutionError::NoMemory) => return Err(NoMemory),
            Err(ResolutionError::Thrown(exc)) => return Ok((parts, Some(exc))),
        }
    }
    Ok((parts, None))
}

/// The dynamic constants among the static arguments of a bootstrap method.
#[tactic(auto, using(crate::proofs::Parted::naming))]
fn names_of(alloc: Global, from: &Numbering<'_, '_>, bootstrap: u16) -> Result<Seq<u32>, NoMemory>
    requires few { from.now.first + length from.now.view.now.dynamics < 2 ^ 32 }
    requires bootstrap { bootstrap < length from.now.view.now.bootstraps }
    ensures { IfOk result (λ names. names ≡ names_of from.now.view.now from.now.first
        (constants_at from.now.view.now bootstrap)) }
{
    let mut names = Seq::new(alloc);
    for k in 0..count(from.view, bootstrap) {
        let constant = constant(from.view, bootstrap, k);
        if let Some(number) = named_constant(from, &constant) {
            names.push(number)?;
        }
    }
    Ok(names)
}

/// A list that no longer changes. It takes no memory if there are no items.
fn frozen<T: Drop>(alloc: Global, items: Seq<T>) -> Result<Frozen<T>, NoMemory>
    ensures { IfOk result (λ frozen. frozen ≡ items) }
{
    if items.is_empty() {
        return Ok(Frozen::new());
    }
    Frozen::of(alloc, items)
}

/// What is read of the static arguments of a bootstrap method.
fn entry_of(alloc: Global, from: &Numbering<'_, '_>, bootstrap: u16) -> Result<Entry, NoMemory>
    requires few { from.now.first + length from.now.view.now.dynamics < 2 ^ 32 }
    requires bootstrap { bootstrap < length from.now.view.now.bootstraps }
    ensures { IfOk result (λ entry. entry
        ≡ entry_of from.now.leaves.now from.now.view.now from.now.first
        (constants_at from.now.view.now bootstrap)) }
{
    let (parts, thrown) = parts_of(alloc, from, bootstrap)?;
    let names = names_of(alloc, from, bootstrap)?;
    Ok(Entry {
        arguments: StaticArguments {
            parts: frozen(alloc, parts)?,
            thrown,
        },
        names: frozen(alloc, names)?,
    })
}

/// What is read if there are no static arguments.
fn no_entry() -> Entry
    ensures { result ≡ record { arguments = record { parts = []; thrown = None }; names = [] } }
{
    Entry {
        arguments: StaticArguments {
            parts: Frozen::new(),
            thrown: None,
        },
        names: Frozen::new(),
    }
}

/// Static arguments that were read, which are not read again.
fn shared(alloc: Global, arguments: &StaticArguments) -> Result<StaticArguments, NoMemory>
    ensures { IfOk result (λ copy. copy ≡ arguments.now) }
{
    let thrown = match &arguments.thrown {
        Some(exc) => Some(exc.copy(alloc)?),
        None => None,
    };
    Ok(StaticArguments {
        parts: arguments.parts.copy()?,
        thrown,
    })
}

/// What is read of the static arguments of a bootstrap method; nothing, where it is not there.
pub(crate) fn entry_at(
    alloc: Global,
    from: &Numbering<'_, '_>,
    bootstrap: u16,
) -> Result<Entry, NoMemory>
    requires { from.now.first + length from.now.view.now.dynamics < 2 ^ 32 }
    ensures { IfOk result (λ entry. entry
        ≡ entry_of from.now.leaves.now from.now.view.now from.now.first
        (constants_at from.now.view.now bootstrap)) }
{
    if bootstrap >= from.view.bootstraps() {
        return Ok(no_entry());
    }
    entry_of(alloc, from, bootstrap)
}

/// What is read of the static arguments of each bootstrap method of a class, by its number.
#[tactic(auto, using(crate::proofs::Parted::one_more))]
pub(crate) fn entries_of(alloc: Global, from: &Numbering<'_, '_>) -> Result<Seq<Entry>, NoMemory>
    requires { from.now.first + length from.now.view.now.dynamics < 2 ^ 32 }
    ensures { IfOk result (AreRead from.now.leaves.now from.now.view.now from.now.first) }
{
    let mut entries = Seq::new(alloc);
    for bootstrap in 0..from.view.bootstraps() {
        let entry = entry_of(alloc, from, bootstrap)?;
        entries.push(entry)?;
    }
    Ok(entries)
}

/// The static arguments of a bootstrap method; none, where it is not there.
pub(crate) fn arguments_in(
    alloc: Global,
    from: &Numbering<'_, '_>,
    entries: &Seq<Entry>,
    bootstrap: u16,
) -> Result<StaticArguments, NoMemory>
    requires { AreRead from.now.leaves.now from.now.view.now from.now.first entries.now }
    ensures { IfOk result (λ arguments. arguments
        ≡ static_arguments from.now.leaves.now from.now.view.now from.now.first
        (constants_at from.now.view.now bootstrap)) }
{
    if bootstrap >= from.view.bootstraps() {
        return Ok(no_entry().arguments);
    }
    shared(alloc, &entries.get(bootstrap as usize).arguments)
}

/// What is read of the static arguments of a bootstrap method; nothing, where it is not there.
pub(crate) fn entry_in(
    alloc: Global,
    from: &Numbering<'_, '_>,
    entries: &Seq<Entry>,
    bootstrap: u16,
) -> Result<Entry, NoMemory>
    requires { AreRead from.now.leaves.now from.now.view.now from.now.first entries.now }
    ensures { IfOk result (λ entry. entry
        ≡ entry_of from.now.leaves.now from.now.view.now from.now.first
        (constants_at from.now.view.now bootstrap)) }
{
    if bootstrap >= from.view.bootstraps() {
        return Ok(no_entry());
    }
    let entry = entries.get(bootstrap as usize);
    Ok(Entry {
        arguments: shared(alloc, &entry.arguments)?,
        names: entry.names.copy()?,
    })
}
