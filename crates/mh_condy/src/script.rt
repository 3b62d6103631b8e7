//! The lines of the scripts that give constants their values: none makes a method handle.

ghost use Rattle.std.specs.Prelude.{◌≡◌};
ghost use Rattle.std.specs.List.{list_all};
ghost use Rattle.mh_script.specs.Limits.{AreRunnable, CanDivide};
ghost use Rattle.mh_link.specs.ConstScripts.{is_plain, is_plain_end, is_plain_step, no_handles};
ghost use Rattle.mh_condy.specs.Lines.{assigns, is_assigned, line_passes, lines_pass};
ghost use Rattle.mh_condy.specs.Told.{Tells, Throws};

use crate::thrown::{Failure, thrown};
use mh_script::{End, Script, Step};
use mh_values::ClassId;
use std::alloc::Global;

/// A script that makes a method handle gives no constant.
pub(crate) fn no_handles(alloc: Global) -> Failure
    ensures { Throws result no_handles }
{
    thrown(alloc, ClassId::UNSUPPORTED_OPERATION, b"handle")
}

/// Whether a line before the last one makes no method handle.
fn is_plain_step(step: &Step) -> bool
    ensures { result ≡ is_plain_step step.now }
{
    match step {
        Step::Let(..) => false,
        Step::Serial(_) | Step::FailMod { .. } => true,
    }
}

/// Whether no line of these makes a method handle.
fn are_plain(steps: &[Step]) -> bool
    ensures { result ≡ list_all is_plain_step steps.now }
{
    for step in steps {
        if !is_plain_step(step) {
            return false;
        }
    }
    true
}

/// Whether a last line returns no method handle.
fn is_plain_end(end: &End) -> bool
    ensures { result ≡ is_plain_end end.now }
{
    match end {
        End::Return(_) => false,
        End::Raise { .. } | End::Value(_) => true,
    }
}

/// Whether no line of a script makes a method handle or returns one.
pub(crate) fn is_plain(script: &Script) -> bool
    ensures { result ≡ is_plain script.now }
{
    are_plain(script.steps.as_slice()) && is_plain_end(&script.end)
}

/// A line before the last one, in the attempt of a serial: it throws or not.
fn line(alloc: Global, serial: u64, step: &Step) -> Result<(), Failure>
    requires { CanDivide step.now }
    ensures { Tells result (line_passes serial step.now) }
{
    match step {
        Step::Let(..) => Err(no_handles(alloc)),
        Step::Serial(_) => Ok(()),
        Step::FailMod { modulus, remainder } => {
            if serial % u64::from(*modulus) == u64::from(*remainder) {
                return Err(thrown(alloc, ClassId::RUNTIME_EXCEPTION, b"failmod"));
            }
            Ok(())
        }
    }
}

/// The lines before the last one, in the attempt of a serial, up to the first that throws.
pub(crate) fn lines(alloc: Global, serial: u64, steps: &[Step]) -> Result<(), Failure>
    requires { AreRunnable steps.now }
    ensures { Tells result (lines_pass serial steps.now) }
{
    for step in steps {
        line(alloc, serial, step)?;
    }
    Ok(())
}

/// Whether a line assigns the register of a name.
fn assigns(name: &[u8], step: &Step) -> bool
    ensures { result ≡ assigns name.now step.now }
{
    match step {
        Step::Serial(register) => register.as_slice() == name,
        Step::Let(..) | Step::FailMod { .. } => false,
    }
}

/// Whether some line of these does.
pub(crate) fn is_assigned(steps: &[Step], name: &[u8]) -> bool
    ensures { result ≡ is_assigned steps.now name.now }
{
    for step in steps {
        if assigns(name, step) {
            return true;
        }
    }
    false
}
