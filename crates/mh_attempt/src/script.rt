//! Running a script: its lines, one after the other, and the last one.

ghost use Rattle.std.specs.Prelude.{◌≤◌, ◌<◌, ◌^◌};
ghost use Rattle.mh_script.specs.declared.script.End.TheVariants as end;
ghost use Rattle.mh_script.specs.Limits.{CanDivide};
ghost use Rattle.mh_handle.specs.Works.{IsReady, GoesOn, leaves_of};
ghost use Rattle.mh_attempt.specs.Asked.{AsksOrThrows};
ghost use Rattle.mh_attempt.specs.AskedTypes.{AsksTypesOrThrows, end_types};
ghost use Rattle.mh_attempt.specs.Lines.{MakesNode, passes, raised};
ghost use Rattle.mh_link.specs.Linked.{ended};
ghost use Rattle.mh_link.specs.Operands.{Frame, handle_in};
ghost use Rattle.mh_attempt.specs.Recipes.{end_recipes};
ghost use Rattle.mh_attempt.specs.Registers.{AreHeldBy, Hold, HoldSome};
ghost use Rattle.mh_attempt.specs.Runs.{MayRun, ReplacesTypes, Runs, RunsStep, use_recipes, use_types};
ghost use Rattle.mh_attempt.specs.Told.{Tells};

use crate::lines::node;
use crate::names::class_of;
use crate::registers::{Held, Registers};
use crate::thrown::thrown;
use mh_handle::{Handle, HandleError, Work};
use mh_script::{End, Register, Step};
use mh_tree::{CheckError, mismatch};
use mh_values::{ClassId, Classes, Exc, ExcParts, Str, is_same_method_type};
use std::alloc::Global;
use std::sync::Wait;

/// Throws if the serial mod `modulus` equals `remainder`.
fn pass(alloc: Global, serial: u64, modulus: u32, remainder: u32) -> Result<(), CheckError>
    requires { 1 ≤ modulus }
    ensures { Tells result (passes serial modulus remainder) }
{
    if serial % u64::from(modulus) == u64::from(remainder) {
        return Err(thrown(alloc, ClassId::RUNTIME_EXCEPTION, b"failmod"));
    }
    Ok(())
}

/// An exception of a class, which must be at or below `Throwable`, with this message.
fn raised(alloc: Global, classes: &Classes, class: &[u8], message: &Str) -> Result<Exc, CheckError>
    ensures { Tells result (raised classes.now class.now message.now) }
{
    let class = class_of(alloc, classes, class)?;
    if !classes.subclass(class, ClassId::THROWABLE) {
        return Err(thrown(alloc, ClassId::ILLEGAL_ARGUMENT, b"raise"));
    }
    let message = message.copy()?;
    let parts = ExcParts {
        class,
        message,
        cause: None,
    };
    Ok(Exc::of(alloc, parts)?)
}

/// The handle of a register that no line uses any more. One that a line made is taken out.
fn last_handle<'t, R: Wait>(
    w: &mut Work<'_, 't>,
    rt: &R,
    registers: &mut Registers<'_, 't>,
    register: &Register,
) -> Result<Handle<'t>, HandleError>
    requires ready { IsReady w.old 1 }
    requires registers { HoldSome (leaves_of w.old) registers.old }
    requires kept { AreHeldBy w.old.seat.now registers.old }
    ensures goes_on { GoesOn 1 w.old w.new }
    ensures types { ReplacesTypes registers.old registers.new w.old w.new result }
    ensures node { (frame : Frame) → Hold (leaves_of w.old) registers.old frame
        → MakesNode (handle_in frame register.now) w.old w.new result }
    ensures asks { (frame : Frame) → Hold (leaves_of w.old) registers.old frame
        → AsksOrThrows (use_recipes (leaves_of w.old) register.now frame) w.old w.new result }
    ensures asked { (frame : Frame) → Hold (leaves_of w.old) registers.old frame
        → AsksTypesOrThrows (use_types (leaves_of w.old) register.now frame) w.old w.new result }
{
    match register {
        Register::Assigned(name) => Ok(registers.take_handle(name.as_slice())?),
        Register::SiteType | Register::SiteName | Register::Argument(_) => {
            let target = registers.handle(register)?;
            target.make(w, rt)
        }
    }
}

/// The last line `return H`: the handle of the register, whose type must be the site's.
fn return_handle<'t, R: Wait>(
    w: &mut Work<'_, 't>,
    rt: &R,
    registers: &mut Registers<'_, 't>,
    register: &Register,
) -> Result<Handle<'t>, HandleError>
    requires ready { IsReady w.old 1 }
    requires registers { HoldSome (leaves_of w.old) registers.old }
    requires kept { AreHeldBy w.old.seat.now registers.old }
    ensures goes_on { GoesOn 1 w.old w.new }
    ensures types { ReplacesTypes registers.old registers.new w.old w.new result }
    ensures node { (frame : Frame) → Hold (leaves_of w.old) registers.old frame
        → MakesNode (ended (leaves_of w.old) (end.Return register.now) frame) w.old w.new result }
    ensures asks { (frame : Frame) → Hold (leaves_of w.old) registers.old frame → AsksOrThrows
        (end_recipes (leaves_of w.old) (end.Return register.now) frame) w.old w.new result }
    ensures asked { (frame : Frame) → Hold (leaves_of w.old) registers.old frame → AsksTypesOrThrows
        (end_types (leaves_of w.old) (end.Return register.now) frame) w.old w.new result }
{
    let call = registers.call;
    let target = registers.handle(register)?;
    let (own, asked) = (target.ty(w.leaves), call.ty.get());
    if !is_same_method_type(own, asked) {
        return Err(HandleError::Refused(mismatch(w.alloc, own, asked, w.classes())?));
    }
    last_handle(w, rt, registers, register)
}

/// The last line. A handle that it returns is taken out of its register.
fn run_end<'t, R: Wait>(
    w: &mut Work<'_, 't>,
    rt: &R,
    registers: &mut Registers<'_, 't>,
    end: &End,
) -> Result<Handle<'t>, HandleError>
    requires ready { IsReady w.old 1 }
    requires registers { HoldSome (leaves_of w.old) registers.old }
    requires kept { AreHeldBy w.old.seat.now registers.old }
    ensures goes_on { GoesOn 1 w.old w.new }
    ensures types { ReplacesTypes registers.old registers.new w.old w.new result }
    ensures node { (frame : Frame) → Hold (leaves_of w.old) registers.old frame
        → MakesNode (ended (leaves_of w.old) end.now frame) w.old w.new result }
    ensures asks { (frame : Frame) → Hold (leaves_of w.old) registers.old frame → AsksOrThrows
        (end_recipes (leaves_of w.old) end.now frame) w.old w.new result }
    ensures asked { (frame : Frame) → Hold (leaves_of w.old) registers.old frame → AsksTypesOrThrows
        (end_types (leaves_of w.old) end.now frame) w.old w.new result }
{
    match end {
        End::Return(register) => return_handle(w, rt, registers, register),
        End::Raise { class, message } => {
            let exc = raised(w.alloc, w.classes(), class.as_slice(), message)?;
            Err(HandleError::Refused(exc))
        }
        End::Value(_) => {
            let exc = Exc::saying(w.alloc, ClassId::CLASS_CAST, b"value")?;
            Err(HandleError::Refused(exc))
        }
    }
}

/// Runs a line before the last one. The registers hold a handle that it makes. What the register
/// had before is given back once the line has used it.
fn run_line<'f, 't, R: Wait>(
    w: &mut Work<'_, 't>,
    rt: &R,
    registers: &mut Registers<'f, 't>,
    step: &'f Step,
) -> Result<(), HandleError>
    requires ready { IsReady w.old 4 }
    requires registers { HoldSome (leaves_of w.old) registers.old }
    requires kept { AreHeldBy w.old.seat.now registers.old }
    requires divides { CanDivide step.now }
    requires serial { registers.old.serial < 2 ^ 63 }
    ensures { RunsStep step.now registers.old registers.new w.old w.new result }
{
    match step {
        Step::Let(name, operation) => {
            let name = name.as_slice();
            registers.reserve()?;
            let handle = node(w, rt, registers, name, operation)?;
            registers.assign(w, name, Held::Handle(handle));
            Ok(())
        }
        Step::Serial(name) => {
            registers.reserve()?;
            let serial = registers.serial as i64;
            registers.assign(w, name.as_slice(), Held::Number(serial));
            Ok(())
        }
        Step::FailMod { modulus, remainder } => {
            pass(w.alloc, registers.serial, *modulus, *remainder)?;
            Ok(())
        }
    }
}

/// Runs the rest of a script, up to the first line that throws. In either case the registers hold
/// what the lines have assigned.
pub(crate) fn run_lines<'f, 't, R: Wait>(
    w: &mut Work<'_, 't>,
    rt: &R,
    registers: &mut Registers<'f, 't>,
    steps: &'f [Step],
    end: &End,
) -> Result<Handle<'t>, HandleError>
    requires { MayRun steps.now registers.old w.old }
    ensures { Runs steps.now end.now registers.old registers.new w.old w.new result }
{
    for step in steps {
        run_line(w, rt, registers, step)?;
    }
    run_end(w, rt, registers, end)
}
