ghost use Rattle.std.specs.Prelude.{◌≡◌, ◌<◌, ◌^◌, [], length, slice_get, Some, None, Ok, Err, IfOk, IsSome};
ghost use Rattle.mh_link.specs.Constants.{too_deep};
ghost use Rattle.mh_link.specs.Depth.{depth};
ghost use Rattle.mh_condy.specs.Given.{IsUnasked, ResolvesTo, WasAsked, call_outcome};
ghost use Rattle.mh_condy.specs.Nodes.{found_in};
ghost use Rattle.mh_condy.specs.Runs.{HavePlaces};
ghost use Rattle.mh_condy.specs.Told.{Tells, Throws};

use crate::constant::Const;
use crate::ended::Attempt;
use crate::finding::Finding;
use crate::pass::ConstPass;
use crate::run::ConstRun;
use crate::table::ConstTable;
use crate::thrown::{Failure, thrown};
use crate::value::as_recorded;
use mh_base::{Copied, NoMemory};
use mh_jobs::{ConstBootstrap, ConstJob};
use mh_values::{ClassId, Exc, Value};
use std::alloc::Global;

/// What an attempt has found of the constants among its static arguments, and what is thrown in
/// place of an argument, if something is.
#[derive(Drop)]
pub struct Asked {
    pub findings: Vec<Finding>,
    pub thrown: Option<Exc>,
}

/// The attempt of a serial at the constant of a job.
#[derive(Clone, Copy)]
pub(crate) struct Begun<'t> {
    pub job: &'t ConstJob,
    pub serial: u64,
}

/// A constant without a depth: it reaches itself, or stands over too many others.
fn too_deep(alloc: Global) -> Failure
    ensures { Throws result too_deep }
{
    thrown(alloc, ClassId::STACK_OVERFLOW, b"constant depth")
}

/// What is recorded of an attempt that looks at no constant, since this is thrown before.
fn unasked<'t, J: ConstRun>(
    table: &ConstTable<'t, J>,
    begun: Begun<'t>,
    failure: Failure,
) -> Result<Const<'t, J>, NoMemory>
    requires { IsUnasked J.run begun.job.now begun.serial failure }
    ensures made { IfOk result (λ made. (made.job ≡ begun.entry.job.now)
        × (made.serial ≡ begun.entry.serial)) }
    ensures under { IfOk result (λ made. made.under ≡ []) }
{
    let value = as_recorded(table.alloc, table.leaves().classes(), Err(failure))?;
    let under = Vec::new(table.alloc);
    Ok(Const::new(begun.job, begun.serial, value, &under))
}

/// What is recorded of a constant without a depth.
pub(crate) fn without_depth<'t, J: ConstRun>(
    table: &ConstTable<'t, J>,
    begun: Begun<'t>,
) -> Result<Const<'t, J>, NoMemory>
    requires named { slice_get J.run.jobs begun.job.now.number ≡ Some begun.job.now }
    requires depth { depth J.run begun.job.now.number ≡ None }
    ensures made { IfOk result (λ made. (made.job ≡ begun.entry.job.now)
        × (made.serial ≡ begun.entry.serial)) }
    ensures under { IfOk result (λ made. made.under ≡ []) }
{
    unasked(table, begun, too_deep(table.alloc))
}

/// What is recorded of a constant for whose call an exception stands.
pub(crate) fn uncalled<'t, J: ConstRun>(
    table: &ConstTable<'t, J>,
    begun: Begun<'t>,
    exc: &Exc,
) -> Result<Const<'t, J>, NoMemory>
    requires named { slice_get J.run.jobs begun.job.now.number ≡ Some begun.job.now }
    requires depth { IsSome (depth J.run begun.job.now.number) }
    requires call { begun.job.now.call ≡ Err exc.now }
    ensures made { IfOk result (λ made. (made.job ≡ begun.entry.job.now)
        × (made.serial ≡ begun.entry.serial)) }
    ensures under { IfOk result (λ made. made.under ≡ []) }
{
    let thrown = exc.copy(table.alloc)?;
    unasked(table, begun, Failure::Thrown(thrown))
}

/// How an attempt ends whose call has these arguments, or throws in place of one.
fn end_of<J: ConstRun>(
    table: &ConstTable<'_, J>,
    pass: &ConstPass<'_, '_, J>,
    call: &ConstBootstrap,
    serial: u64,
    thrown: Option<Exc>,
) -> Result<Value, Failure>
    requires places { HavePlaces J.run call.now.arguments.parts }
    requires serial { serial < 2 ^ 63 }
    requires script { call.now.script.0 < length J.run.scripts }
    requires resolves { ResolvesTo (found_in pass.now.known) call.now.arguments thrown }
    ensures { Tells result (call_outcome J.run (found_in pass.now.known) call.now serial) }
{
    if let Some(exc) = thrown {
        return Err(Failure::Thrown(exc));
    }
    let attempt = Attempt {
        alloc: table.alloc,
        classes: table.leaves().classes(),
        pass,
        call,
        serial,
    };
    attempt.value_given(table.scripts())
}

/// What is recorded of a constant after the constants among its static arguments were resolved.
pub(crate) fn called<'t, J: ConstRun>(
    table: &ConstTable<'t, J>,
    pass: &ConstPass<'_, 't, J>,
    begun: Begun<'t>,
    call: &ConstBootstrap,
    asked: Asked,
) -> Result<Const<'t, J>, NoMemory>
    requires named { slice_get J.run.jobs begun.job.now.number ≡ Some begun.job.now }
    requires depth { IsSome (depth J.run begun.job.now.number) }
    requires call { begun.job.now.call ≡ Ok call.now }
    requires serial { begun.serial < 2 ^ 63 }
    requires asked { WasAsked pass.now.known call.now.arguments asked }
    ensures made { IfOk result (λ made. (made.job ≡ begun.entry.job.now)
        × (made.serial ≡ begun.entry.serial)) }
    ensures under { IfOk result (λ made. made.under ≡ asked.findings.items) }
{
    table.told();
    let Asked { findings, thrown } = asked;
    let end = end_of(table, pass, call, begun.serial, thrown);
    let value = as_recorded(table.alloc, table.leaves().classes(), end)?;
    Ok(Const::new(begun.job, begun.serial, value, &findings))
}
