//! Resolving a constant after those among its static arguments, each once.

ghost use Rattle.std.specs.Prelude.{◌≡◌, ◌<◌, ◌≤◌, ◌^◌, suc, length, Some, IfOk};
ghost use Rattle.mh_link.specs.Depth.{rank};
ghost use Rattle.mh_condy.specs.Given.{AreAsked, AreUnder, HasMade, IsPartAt};
ghost use Rattle.mh_condy.specs.Nodes.{node_in, unknown};
ghost use Rattle.mh_condy.specs.Resolving.{DrawsFew, GoesOnResolving, Resolves};

use crate::attempt::{Asked, Begun, called, uncalled, without_depth};
use crate::constant::Const;
use crate::finding::Finding;
use crate::pass::ConstPass;
use crate::run::ConstRun;
use crate::table::ConstTable;
use crate::value::ConstValue;
use mh_base::{Copied, NoMemory};
use mh_jobs::{Part, StaticArguments};
use mh_values::Exc;
use std::alloc::Global;
use std::sync::Wait;

/// The constant that a part is, if it is one.
fn constant_at(parts: &[Part], at: usize) -> Option<u32>
    requires { at < length parts.now }
    ensures { IsPartAt parts.now at result }
{
    match &parts[at] {
        Part::Constant(c) => Some(*c),
        Part::Known(_) => None,
    }
}

/// What is recorded of a constant that the pass has learnt, for an attempt that looks at it.
fn found<J: ConstRun>(pass: &ConstPass<'_, '_, J>, c: u32, node: &Const<'_, J>) -> Finding
    requires { node_in pass.now.known c ≡ Some node.now }
    ensures { result ≡ record { constant = c; serial = node.now.serial; value = node.now.value } }
{
    pass.told();
    node.finding()
}

/// Arguments end with a constant that is an error.
fn ended(alloc: Global, findings: Vec<Finding>, exc: &Exc) -> Result<Asked, NoMemory>
    ensures findings { IfOk result (λ asked. asked.findings.items ≡ findings.items) }
    ensures thrown { IfOk result (λ asked. asked.thrown ≡ Some exc.now) }
{
    Ok(Asked {
        findings,
        thrown: Some(exc.copy(alloc)?),
    })
}

/// No constant among arguments is an error: they end with what is thrown after them, if something
/// is.
fn given(
    alloc: Global,
    findings: Vec<Finding>,
    arguments: &StaticArguments,
) -> Result<Asked, NoMemory>
    ensures findings { IfOk result (λ asked. asked.findings.items ≡ findings.items) }
    ensures thrown { IfOk result (λ asked. asked.thrown ≡ arguments.now.thrown) }
{
    let thrown = match &arguments.thrown {
        Some(exc) => Some(exc.copy(alloc)?),
        None => None,
    };
    Ok(Asked { findings, thrown })
}

/// Resolves the constants among static arguments in order, up to the first that is an error. They
/// have ranks below `under`.
#[cycle(resolve)]
pub(crate) fn arguments<'s, 't, J: ConstRun, R: Wait>(
    table: &'s ConstTable<'t, J>,
    rt: &R,
    pass: &mut ConstPass<'s, 't, J>,
    under: u8,
    arguments: &StaticArguments,
) -> Result<Asked, NoMemory>
    requires pass { pass.old.table ≡ table.now }
    requires under { AreUnder J.run under arguments.now.parts }
    requires room { unknown (rank J.run) under pass.old.known ≤ pass.old.seat.room }
    ensures goes_on { GoesOnResolving pass.old pass.new }
    ensures asked { IfOk result (AreAsked J.run arguments.now pass.old pass.new) }
    ensures few { DrawsFew J.run under pass.old pass.new }
{
    pass.told();
    let parts = arguments.parts.as_slice();
    let mut findings = Vec::new(table.alloc);
    for at in 0..parts.len() {
        if let Some(c) = constant_at(parts, at) {
            let node = resolve(table, rt, pass, c)?;
            findings.push(found(pass, c, node))?;
            if let ConstValue::Error(exc) = node.value() {
                return ended(table.alloc, findings, exc);
            }
        }
    }
    given(table.alloc, findings, arguments)
}

/// What an attempt of a serial makes of a constant, after the constants that it looks at were
/// resolved.
#[cycle(resolve)]
fn attempt<'s, 't, J: ConstRun, R: Wait>(
    table: &'s ConstTable<'t, J>,
    rt: &R,
    pass: &mut ConstPass<'s, 't, J>,
    c: u32,
    serial: u64,
) -> Result<Const<'t, J>, NoMemory>
    requires pass { pass.old.table ≡ table.now }
    requires constant { c < length J.run.jobs }
    requires serial { serial < 2 ^ 63 }
    requires room { unknown (rank J.run) (rank J.run c) pass.old.known ≤ pass.old.seat.room }
    ensures goes_on { GoesOnResolving pass.old pass.new }
    ensures made { IfOk result (HasMade J.run c serial pass.old pass.new) }
    ensures few { DrawsFew J.run (rank J.run c) pass.old pass.new }
{
    table.told();
    pass.told();
    let begun = Begun {
        job: table.job(c),
        serial,
    };
    let depth = table.depth(c);
    if depth == 0 {
        return without_depth(table, begun);
    }
    match &begun.job.call {
        Err(exc) => uncalled(table, begun, exc),
        Ok(call) => {
            let asked = arguments(table, rt, pass, depth, &call.arguments)?;
            called(table, pass, begun, call, asked)
        }
    }
}

/// What is recorded of a constant, in the order of [`ConstTable::resolve_const`].
#[cycle(resolve)]
pub(crate) fn resolve<'s, 't, J: ConstRun, R: Wait>(
    table: &'s ConstTable<'t, J>,
    rt: &R,
    pass: &mut ConstPass<'s, 't, J>,
    c: u32,
) -> Result<&'s Const<'t, J>, NoMemory>
    requires pass { pass.old.table ≡ table.now }
    requires constant { c < length J.run.jobs }
    requires room { unknown (rank J.run) (suc (rank J.run c)) pass.old.known ≤ pass.old.seat.room }
    ensures resolves { Resolves J.run c pass.old pass.new result }
{
    table.told();
    pass.told();
    if let Some(node) = pass.find(c) {
        return Ok(node);
    }
    let serial = pass.begin(table, c)?;
    let made = attempt(table, rt, pass, c, serial)?;
    made.told();
    pass.record(rt, table.alloc, made)
}
