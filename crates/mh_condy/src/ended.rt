//! How the script of a constant ends, and the value that it gives.

ghost use Rattle.std.specs.Prelude.{◌≡◌, ◌<◌, ◌^◌, List, length, Some, Ok};
ghost use Rattle.mh_values.specs.declared.value.Value.{Value as OneValue};
ghost use Rattle.mh_convert.specs.Conversion.{boxed};
ghost use Rattle.mh_script.specs.Limits.{CanRun};
ghost use Rattle.mh_jobs.specs.declared.job.Argument.{Argument as OneArgument};
ghost use Rattle.mh_link.specs.ConstScripts.{const_ended, const_ran, const_value, fitted, script_value, value_argument, value_held};
ghost use Rattle.mh_condy.specs.Frames.{AreGiven, frame_of, raised, scripted_value, start_of};
ghost use Rattle.mh_condy.specs.Lines.{argument_at};
ghost use Rattle.mh_condy.specs.Nodes.{found_in};
ghost use Rattle.mh_condy.specs.Runs.{FindsPart, HavePlaces};
ghost use Rattle.mh_condy.specs.Told.{Tells};

use crate::pass::ConstPass;
use crate::run::ConstRun;
use crate::script::{is_assigned, is_plain, lines, no_handles};
use crate::thrown::{Failure, class_of, no_argument, thrown, wrong_sort};
use crate::value::ConstValue;
use mh_base::Copied;
use mh_convert::fit;
use mh_jobs::{Argument, ConstBootstrap, Part};
use mh_script::{End, Register, Script, Scripts, ValueOperand};
use mh_values::{ClassId, Classes, Exc, ExcParts, Num, Str, Ty, Value};
use std::alloc::Global;

/// The attempt of a serial to get the value of a call, whose static arguments are all resolved: the
/// constants among them are what the pass has learnt.
#[derive(Drop)]
pub(crate) struct Attempt<'a, 's, 't, J: ConstRun> {
    pub alloc: Global,
    pub classes: &'a Classes,
    pub pass: &'a ConstPass<'s, 't, J>,
    pub call: &'a ConstBootstrap,
    pub serial: u64,
}

/// A static argument, which must be a value.
fn value_of(alloc: Global, argument: &Argument) -> Result<Value, Failure>
    ensures { Tells result (value_argument argument.now) }
{
    match argument {
        Argument::Value(value) => Ok(value.copy(alloc)?),
        Argument::MethodType(_) | Argument::Class(_) | Argument::Leaf(_) => Err(wrong_sort(alloc)),
    }
}

/// The part at a place, if there is one.
fn part_at(parts: &[Part], at: usize) -> Option<&Part>
    ensures { FindsPart parts.now at result }
{
    if at < parts.len() {
        Some(&parts[at])
    } else {
        None
    }
}

/// An exception of a class, which must be at or below `Throwable`, with this message.
fn raised(alloc: Global, classes: &Classes, class: &[u8], message: &Str) -> Result<Exc, Failure>
    ensures { Tells result (raised classes.now class.now message.now) }
{
    let class = class_of(alloc, classes, class)?;
    if !classes.subclass(class, ClassId::THROWABLE) {
        return Err(thrown(alloc, ClassId::ILLEGAL_ARGUMENT, b"raise"));
    }
    let message = message.copy()?;
    let parts = ExcParts {
        class,
        message,
        cause: None,
    };
    Ok(Exc::of(alloc, parts)?)
}

/// A number that was made one of a primitive type, in its box again.
fn boxed(value: Value) -> Value
    ensures { result ≡ boxed value }
{
    match value {
        Value::Prim(number) => Value::Boxed(number),
        _ => value,
    }
}

/// A value as one of the constant's type.
fn fitted(alloc: Global, classes: &Classes, ty: Ty, value: Value) -> Result<Value, Failure>
    ensures { Tells result (fitted classes.now ty value) }
{
    match fit(value, ty, classes) {
        Ok(value) => Ok(boxed(value)),
        Err(exc) => Err(thrown(alloc, exc.class(), b"constant")),
    }
}

impl<'a, 's, 't, J: ConstRun> Attempt<'a, 's, 't, J> {
    /// The value of a constant among the static arguments.
    fn constant(&self, c: u32) -> Result<Value, Failure>
        requires { c < length J.run.jobs }
        ensures { (value : OneValue)
            → found_in self.now.pass.now.known c ≡ Some (Ok value) → Tells result (Ok value) }
    {
        match self.pass.seen(c) {
            Some(node) => match node.value() {
                ConstValue::Value(value) => Ok(value.copy(self.alloc)?),
                ConstValue::Error(exc) => Err(Failure::Thrown(exc.copy(self.alloc)?)),
            },
            None => Err(no_argument(self.alloc)),
        }
    }

    /// The static argument of a number, which must be a value.
    fn argument(&self, number: u64) -> Result<Value, Failure>
        requires { HavePlaces J.run self.now.call.now.arguments.parts }
        ensures { (arguments : List OneArgument) → AreGiven self.now arguments
            → Tells result (argument_at arguments number) }
    {
        match part_at(self.call.arguments.parts.as_slice(), number as usize) {
            Some(Part::Known(argument)) => value_of(self.alloc, argument),
            Some(Part::Constant(c)) => self.constant(*c),
            None => Err(no_argument(self.alloc)),
        }
    }

    /// What a register holds after the lines of a script.
    fn held(&self, script: &Script, register: &Register) -> Result<Value, Failure>
        requires places { HavePlaces J.run self.now.call.now.arguments.parts }
        requires serial { self.now.serial < 2 ^ 63 }
        ensures { (arguments : List OneArgument) → AreGiven self.now arguments
            → Tells result (value_held (frame_of self.now script.now arguments) register.now) }
    {
        match register {
            Register::SiteType => Err(wrong_sort(self.alloc)),
            Register::SiteName => Ok(Value::Text(self.call.name.copy()?)),
            Register::Argument(number) => self.argument(*number),
            Register::Assigned(name) => {
                if !is_assigned(script.steps.as_slice(), name.as_slice()) {
                    return Err(no_argument(self.alloc));
                }
                Ok(Value::Boxed(Num::J(self.serial as i64)))
            }
        }
    }

    /// The value of an operand after the lines of a script.
    fn value(&self, script: &Script, operand: &ValueOperand) -> Result<Value, Failure>
        requires places { HavePlaces J.run self.now.call.now.arguments.parts }
        requires serial { self.now.serial < 2 ^ 63 }
        ensures { (arguments : List OneArgument) → AreGiven self.now arguments
            → Tells result (const_value (frame_of self.now script.now arguments) operand.now) }
    {
        match operand {
            ValueOperand::Literal(value) => Ok(value.copy(self.alloc)?),
            ValueOperand::Register(register) => self.held(script, register),
        }
    }

    /// The last line of a script.
    fn run_end(&self, script: &Script) -> Result<Value, Failure>
        requires places { HavePlaces J.run self.now.call.now.arguments.parts }
        requires serial { self.now.serial < 2 ^ 63 }
        ensures { (arguments : List OneArgument) → AreGiven self.now arguments
            → Tells result (const_ended self.now.classes.now script.now.end
            (frame_of self.now script.now arguments)) }
    {
        match &script.end {
            End::Return(_) => Err(no_handles(self.alloc)),
            End::Raise { class, message } => {
                let exc = raised(self.alloc, self.classes, class.as_slice(), message)?;
                Err(Failure::Thrown(exc))
            }
            End::Value(operand) => self.value(script, operand),
        }
    }

    /// The value that the lines of a script give.
    fn run_lines(&self, script: &Script) -> Result<Value, Failure>
        requires places { HavePlaces J.run self.now.call.now.arguments.parts }
        requires serial { self.now.serial < 2 ^ 63 }
        requires runs { CanRun script.now }
        ensures { (arguments : List OneArgument) → AreGiven self.now arguments
            → Tells result (const_ran self.now.classes.now script.now.steps script.now.end
            (start_of self.now arguments)) }
    {
        match lines(self.alloc, self.serial, script.steps.as_slice()) {
            Ok(()) => self.run_end(script),
            Err(failure) => Err(failure),
        }
    }

    /// The value that a script gives as one of the constant's type. A script that makes a method
    /// handle throws before any line runs.
    fn run_script(&self, script: &Script) -> Result<Value, Failure>
        requires places { HavePlaces J.run self.now.call.now.arguments.parts }
        requires serial { self.now.serial < 2 ^ 63 }
        requires runs { CanRun script.now }
        ensures { (arguments : List OneArgument) → AreGiven self.now arguments
            → Tells result (scripted_value self.now script.now arguments) }
    {
        if !is_plain(script) {
            return Err(no_handles(self.alloc));
        }
        let value = self.run_lines(script)?;
        fitted(self.alloc, self.classes, self.call.ty, value)
    }

    /// The value that the script of the call gives.
    pub fn value_given(&self, scripts: &Scripts) -> Result<Value, Failure>
        requires places { HavePlaces J.run self.now.call.now.arguments.parts }
        requires serial { self.now.serial < 2 ^ 63 }
        requires script { self.now.call.now.script.0 < length scripts.now }
        ensures { (arguments : List OneArgument) → AreGiven self.now arguments
            → Tells result (script_value self.now.classes.now scripts.now self.now.call.now
            self.now.serial arguments) }
    {
        self.run_script(scripts.get(self.call.script))
    }
}
