//! The registers of a script while it runs.

ghost use Rattle.std.specs.Prelude.{◌≡◌, [], ◌++◌, IfOk, OnOk, codes, option_map, position};
ghost use Rattle.mh_values.specs.Class.{class_cast_class};
ghost use Rattle.mh_values.specs.Exception.{saying};
ghost use Rattle.mh_intern.specs.Exchanges.{Exchanges};
ghost use Rattle.mh_intern.specs.Views.{SeatView};
ghost use Rattle.mh_leaf.specs.LeafTable.{LeafTable};
ghost use Rattle.mh_handle.specs.declared.work.Work.{Work};
ghost use Rattle.mh_handle.specs.Stands.{Stands};
ghost use Rattle.mh_handle.specs.Works.{HoldsTypes, IsUnchanged};
ghost use Rattle.mh_script.specs.declared.operand.Register.TheVariants as register;
ghost use Rattle.mh_link.specs.Made.{leaf_among, node_of_use};
ghost use Rattle.mh_link.specs.Operands as operands;
ghost use Rattle.mh_link.specs.Operands.{Frame, content, content_of, no_argument, as_handle, as_value, as_method_type, as_class, handle_in, value_in, type_in, method_type_in};
ghost use Rattle.mh_attempt.specs.Registers.{AreHeldBy, HasRoomForName, Hold, HoldOthers, HoldSame, HoldsContent, IsContent, IsFoundIn, IsHeldIn, IsKeptIn, IsLeafWithin, IsTaken, StandsFor, assigned_to, class_in, held_under, holds_in, holds_of, is_named, node_held, node_made};
ghost use Rattle.mh_attempt.specs.Runs.{ReplacesTypes};
ghost use Rattle.mh_attempt.specs.Told.{Tells, TellsBy, Throws};

use crate::handle::HandleOperand;
use crate::literal::value_of;
use crate::names::{method_type_of_text, type_of_text};
use crate::thrown::thrown;
use mh_base::{Copied, NoMemory, Shared};
use mh_handle::{Handle, Work};
use mh_jobs::{Argument, BootstrapCall};
use mh_script::{MethodTypeOperand, Register, TypeOperand, ValueOperand};
use mh_tree::CheckError;
use mh_values::{ClassId, Classes, MethodTy, Num, Ty, Value};
use std::alloc::Global;
use std::mem;

/// What a line assigned to a register: a method handle, or a boxed long.
#[derive(Drop)]
pub(crate) enum Held<'t> {
    Handle(Handle<'t>),
    Number(i64),
}

impl<'t> Held<'t> {
    /// Gives up a handle and releases the types that it holds.
    pub fn give_back(self, w: &mut Work<'_, 't>)
        requires of_types { w.old.seat.now.table ≡ w.old.types.now }
        requires held { HoldsTypes w.old (holds_of self) }
        ensures unchanged { IsUnchanged w.old w.new }
        ensures types { Exchanges [] (holds_of self.entry) [] w.old.seat.now w.new.seat.now }
    {
        match self {
            Held::Handle(handle) => handle.give_back(w),
            Held::Number(_) => {}
        }
    }
}

/// A register that lines have assigned, and what it holds.
#[derive(Drop)]
pub(crate) struct Assignment<'f, 't> {
    pub name: &'f [u8],
    pub held: Held<'t>,
}

/// The registers of a script while it runs: the call that it answers, the serial of the attempt,
/// and what its lines have assigned, with one assignment for each name.
#[derive(Drop)]
pub(crate) struct Registers<'f, 't> {
    pub alloc: Global,
    pub call: &'f BootstrapCall,
    pub serial: u64,
    pub assigned: Vec<Assignment<'f, 't>>,
}

/// What a register holds.
#[derive(Drop)]
pub(crate) enum Content<'a, 'f, 't> {
    Handle(HandleOperand<'a, 't>),
    Value(Value),
    MethodType(&'f Shared<MethodTy>),
    Class(Ty),
}

// What lines have assigned under a name.
fn held_under<'a, 't>(assigned: &'a [Assignment<'_, 't>], name: &[u8]) -> Option<&'a Held<'t>>
    ensures { option_map (λ h. h.now) result ≡ held_under name.now assigned.now }
{
    for assignment in assigned {
        if assignment.name == name {
            return Some(&assignment.held);
        }
    }
    None
}

// The index of the assignment of a name.
fn place_of(assigned: &[Assignment<'_, '_>], name: &[u8]) -> Option<usize>
    ensures { result ≡ position (is_named name.now) assigned.now }
{
    assigned
        .iter()
        .position(|assignment| assignment.name == name)
}

// What a line assigned as what a register holds.
fn content_held<'a, 'f, 't>(held: &'a Held<'t>) -> Content<'a, 'f, 't>
    ensures holds { (leaves : LeafTable) (meant : operands.Content)
        → HoldsContent leaves held.now meant → IsContent leaves result meant }
    ensures makes { node_held result ≡ [] }
    ensures kept { (seat : SeatView) → IsKeptIn seat held.now → IsFoundIn seat result }
{
    match held {
        Held::Handle(handle) => Content::Handle(HandleOperand::Held(handle)),
        Held::Number(number) => Content::Value(Value::Boxed(Num::J(*number))),
    }
}

// A static argument as what a register holds.
fn content_of<'a, 'f, 't>(
    alloc: Global,
    argument: &'f Argument,
) -> Result<Content<'a, 'f, 't>, NoMemory>
    ensures holds { (leaves : LeafTable) → IsLeafWithin leaves argument.now
        → IfOk result (λ found. IsContent leaves found (content_of argument.now)) }
    ensures makes { IfOk result (λ found. node_held found ≡ leaf_among (Some argument.now)) }
    ensures kept { (seat : SeatView) → IfOk result (IsFoundIn seat) }
{
    Ok(match argument {
        Argument::Value(value) => Content::Value(value.copy(alloc)?),
        Argument::MethodType(ty) => Content::MethodType(ty),
        Argument::Class(ty) => Content::Class(*ty),
        Argument::Leaf(leaf) => Content::Handle(HandleOperand::Leaf(*leaf)),
    })
}

/// The error of a static argument that is missing.
pub(crate) fn no_argument(alloc: Global) -> CheckError
    ensures { Throws result no_argument }
{
    thrown(alloc, ClassId::WRONG_METHOD_TYPE, b"arguments")
}

/// The error of a static argument of another sort.
pub(crate) fn wrong_sort(alloc: Global) -> CheckError
    ensures { Throws result (saying class_cast_class (codes "arguments")) }
{
    thrown(alloc, ClassId::CLASS_CAST, b"arguments")
}

// The content, which must be a method handle.
fn as_handle<'a, 't>(
    alloc: Global,
    held: Content<'a, '_, 't>,
) -> Result<HandleOperand<'a, 't>, CheckError>
    ensures holds { (leaves : LeafTable) (meant : operands.Content)
        → IsContent leaves held.entry meant
        → TellsBy (StandsFor leaves) result (as_handle meant) }
    ensures makes { IfOk result (λ operand. node_made operand ≡ node_held held.entry) }
    ensures kept { (seat : SeatView) → IsFoundIn seat held.entry → IfOk result (IsHeldIn seat) }
{
    match held {
        Content::Handle(operand) => Ok(operand),
        Content::Value(_) | Content::MethodType(_) | Content::Class(_) => Err(wrong_sort(alloc)),
    }
}

// The content, which must be a value.
fn as_value(alloc: Global, held: Content<'_, '_, '_>) -> Result<Value, CheckError>
    ensures { (leaves : LeafTable) (meant : operands.Content) → IsContent leaves held.entry meant
        → Tells result (as_value meant) }
{
    match held {
        Content::Value(value) => Ok(value),
        Content::Handle(_) | Content::MethodType(_) | Content::Class(_) => Err(wrong_sort(alloc)),
    }
}

// The content, which must be a method type.
fn as_method_type(alloc: Global, held: Content<'_, '_, '_>) -> Result<Shared<MethodTy>, CheckError>
    ensures { (leaves : LeafTable) (meant : operands.Content) → IsContent leaves held.entry meant
        → Tells result (as_method_type meant) }
{
    match held {
        Content::MethodType(ty) => Ok(ty.share()?),
        Content::Handle(_) | Content::Value(_) | Content::Class(_) => Err(wrong_sort(alloc)),
    }
}

// The content, which must be a class.
fn as_class(alloc: Global, held: Content<'_, '_, '_>) -> Result<Ty, CheckError>
    ensures { (leaves : LeafTable) (meant : operands.Content) → IsContent leaves held.entry meant
        → Tells result (as_class meant) }
{
    match held {
        Content::Class(ty) => Ok(ty),
        Content::Handle(_) | Content::Value(_) | Content::MethodType(_) => Err(wrong_sort(alloc)),
    }
}

/// The registers for which a script takes memory at first: less than a kilobyte.
const FIRST_REGISTERS: usize = 9;

impl<'f, 't> Registers<'f, 't> {
    /// The registers of a script before its first line.
    pub fn new(alloc: Global, call: &'f BootstrapCall, serial: u64) -> Registers<'f, 't>
        ensures call { result.call.now ≡ call.now }
        ensures serial { result.serial ≡ serial }
        ensures assigned { result.assigned.items ≡ [] }
    {
        Registers {
            alloc,
            call,
            serial,
            assigned: Vec::new(alloc),
        }
    }

    /// Makes room for an assignment. If memory runs out, nothing changes.
    pub fn reserve(&mut self) -> Result<(), NoMemory>
        ensures same { HoldSame self.old self.new }
        ensures room { OnOk result (HasRoomForName self.new) }
    {
        let more = if self.assigned.is_empty() {
            FIRST_REGISTERS
        } else {
            1
        };
        self.assigned.reserve(more)?;
        Ok(())
    }

    // Assigns a register, and answers what it held before, if anything.
    fn exchange(&mut self, name: &'f [u8], held: Held<'t>) -> Option<Held<'t>>
        requires { HasRoomForName self.old }
        ensures before { result ≡ held_under name.now self.old.assigned.items }
        ensures call { self.new.call ≡ self.old.call }
        ensures serial { self.new.serial ≡ self.old.serial }
        ensures assigned { self.new.assigned.items
            ≡ assigned_to name.entry held.entry self.old.assigned.items }
    {
        match place_of(self.assigned.as_slice(), name) {
            Some(place) => Some(mem::replace(&mut self.assigned[place].held, held)),
            None => {
                self.assigned.push_reserved(Assignment { name, held });
                None
            }
        }
    }

    /// Assigns a register and releases what it held before. There must be room for it.
    pub fn assign(&mut self, w: &mut Work<'_, 't>, name: &'f [u8], held: Held<'t>)
        requires room { HasRoomForName self.old }
        requires of_types { w.old.seat.now.table ≡ w.old.types.now }
        requires kept { HoldsTypes w.old (holds_in self.old.assigned.items ++ holds_of held) }
        ensures call { self.new.call ≡ self.old.call }
        ensures serial { self.new.serial ≡ self.old.serial }
        ensures assigned { self.new.assigned.items
            ≡ assigned_to name.entry held.entry self.old.assigned.items }
        ensures unchanged { IsUnchanged w.old w.new }
        ensures types { Exchanges [] (holds_in self.old.assigned.items ++ holds_of held.entry)
            (holds_in self.new.assigned.items) w.old.seat.now w.new.seat.now }
    {
        if let Some(before) = self.exchange(name, held) {
            before.give_back(w);
        }
    }

    // Takes out what lines have assigned under a name. A number stands there instead.
    fn take(&mut self, name: &[u8]) -> Option<Held<'t>>
        ensures before { result ≡ held_under name.now self.old.assigned.items }
        ensures call { self.new.call ≡ self.old.call }
        ensures serial { self.new.serial ≡ self.old.serial }
        ensures assigned { IsTaken name.entry result self.old.assigned.items
            self.new.assigned.items }
        ensures room { HasRoomForName self.old → HasRoomForName self.new }
    {
        match place_of(self.assigned.as_slice(), name) {
            Some(place) => Some(mem::replace(&mut self.assigned[place].held, Held::Number(0))),
            None => None,
        }
    }

    /// Takes the method handle out of a register that a line assigned, so that it need not be
    /// copied. Throws if the register holds nothing or something else.
    pub fn take_handle(&mut self, name: &[u8]) -> Result<Handle<'t>, CheckError>
        ensures stands { (leaves : LeafTable) (frame : Frame) → Hold leaves self.old frame
            → TellsBy (Stands leaves) result (handle_in frame (register.Assigned name.now)) }
        ensures types { (w : Work) → AreHeldBy w.seat.now self.old
            → ReplacesTypes self.old self.new w w result }
        ensures others { HoldOthers name.now self.old self.new }
        ensures room { HasRoomForName self.old → HasRoomForName self.new }
    {
        match self.take(name) {
            Some(Held::Handle(handle)) => Ok(handle),
            Some(Held::Number(_)) => Err(wrong_sort(self.alloc)),
            None => Err(no_argument(self.alloc)),
        }
    }

    /// Gives up the handles that registers hold, and releases the types that these hold.
    pub fn give_back(mut self, w: &mut Work<'_, 't>)
        requires of_types { w.old.seat.now.table ≡ w.old.types.now }
        requires kept { AreHeldBy w.old.seat.now self }
        ensures unchanged { IsUnchanged w.old w.new }
        ensures types { Exchanges [] (holds_in self.entry.assigned.items) []
            w.old.seat.now w.new.seat.now }
    {
        while let Some(assignment) = self.assigned.pop() {
            assignment.held.give_back(w);
        }
    }

    // What the register of a static argument holds.
    fn argument(&self, number: u64) -> Result<Content<'_, 'f, 't>, CheckError>
        ensures holds { (leaves : LeafTable) (frame : Frame) → Hold leaves self.now frame
            → TellsBy (IsContent leaves) result (content frame (register.Argument number)) }
        ensures makes { (leaves : LeafTable) (frame : Frame) → Hold leaves self.now frame
            → IfOk result
            (λ found. node_held found ≡ node_of_use frame (register.Argument number)) }
        ensures kept { (seat : SeatView) → IfOk result (IsFoundIn seat) }
    {
        match self.call.arguments.as_slice().get(number as usize) {
            Some(argument) => {
                let held = content_of(self.alloc, argument)?;
                Ok(held)
            }
            None => Err(no_argument(self.alloc)),
        }
    }

    // What a register that a line assigned holds.
    fn assigned(&self, name: &[u8]) -> Result<Content<'_, 'f, 't>, CheckError>
        ensures holds { (leaves : LeafTable) (frame : Frame) → Hold leaves self.now frame
            → TellsBy (IsContent leaves) result (content frame (register.Assigned name.now)) }
        ensures makes { IfOk result (λ found. node_held found ≡ []) }
        ensures kept { (seat : SeatView) → AreHeldBy seat self.now → IfOk result (IsFoundIn seat) }
    {
        match held_under(self.assigned.as_slice(), name) {
            Some(held) => Ok(content_held(held)),
            None => Err(no_argument(self.alloc)),
        }
    }

    // What a register holds. In a script that was read, only the register of a static argument may
    // hold nothing.
    fn content(&self, register: &Register) -> Result<Content<'_, 'f, 't>, CheckError>
        ensures holds { (leaves : LeafTable) (frame : Frame) → Hold leaves self.now frame
            → TellsBy (IsContent leaves) result (content frame register.now) }
        ensures makes { (leaves : LeafTable) (frame : Frame) → Hold leaves self.now frame
            → IfOk result (λ found. node_held found ≡ node_of_use frame register.now) }
        ensures kept { (seat : SeatView) → AreHeldBy seat self.now → IfOk result (IsFoundIn seat) }
    {
        match register {
            Register::SiteType => Ok(Content::MethodType(&self.call.ty)),
            Register::SiteName => Ok(Content::Value(Value::Text(self.call.name.copy()?))),
            Register::Argument(number) => self.argument(*number),
            Register::Assigned(name) => self.assigned(name.as_slice()),
        }
    }

    /// The method handle of a register. Throws if the register holds nothing or something else.
    pub fn handle(&self, register: &Register) -> Result<HandleOperand<'_, 't>, CheckError>
        ensures stands { (leaves : LeafTable) (frame : Frame) → Hold leaves self.now frame
            → TellsBy (StandsFor leaves) result (handle_in frame register.now) }
        ensures makes { (leaves : LeafTable) (frame : Frame) → Hold leaves self.now frame
            → IfOk result (λ operand. node_made operand ≡ node_of_use frame register.now) }
        ensures kept { (seat : SeatView) → AreHeldBy seat self.now → IfOk result (IsHeldIn seat) }
    {
        let held = self.content(register)?;
        as_handle(self.alloc, held)
    }

    /// The method handle of a register that a line assigned.
    pub fn assigned_handle(&self, name: &[u8]) -> Result<HandleOperand<'_, 't>, CheckError>
        ensures stands { (leaves : LeafTable) (frame : Frame) → Hold leaves self.now frame
            → TellsBy (StandsFor leaves) result (handle_in frame (register.Assigned name.now)) }
        ensures makes { IfOk result (λ operand. node_made operand ≡ []) }
        ensures kept { (seat : SeatView) → AreHeldBy seat self.now → IfOk result (IsHeldIn seat) }
    {
        let held = self.assigned(name)?;
        as_handle(self.alloc, held)
    }

    /// The value of an operand.
    pub fn value(&self, operand: &ValueOperand) -> Result<Value, CheckError>
        ensures { (leaves : LeafTable) (frame : Frame) → Hold leaves self.now frame
            → Tells result (value_in frame operand.now) }
    {
        match operand {
            ValueOperand::Literal(value) => Ok(value_of(self.alloc, value)?),
            ValueOperand::Register(register) => {
                let held = self.content(register)?;
                as_value(self.alloc, held)
            }
        }
    }

    // The class that a register holds.
    fn class(&self, register: &Register) -> Result<Ty, CheckError>
        ensures { (leaves : LeafTable) (frame : Frame) → Hold leaves self.now frame
            → Tells result (class_in frame register.now) }
    {
        let held = self.content(register)?;
        as_class(self.alloc, held)
    }

    /// The type of an operand, or `None` for void.
    pub fn ty(&self, classes: &Classes, operand: &TypeOperand) -> Result<Option<Ty>, CheckError>
        ensures { (leaves : LeafTable) (frame : Frame) → Hold leaves self.now frame
            → Tells result (type_in classes.now frame operand.now) }
    {
        match operand {
            TypeOperand::Void => Ok(None),
            TypeOperand::Descriptor(text) => {
                let ty = type_of_text(self.alloc, classes, text.as_slice())?;
                Ok(Some(ty))
            }
            TypeOperand::Register(register) => {
                let ty = self.class(register)?;
                Ok(Some(ty))
            }
        }
    }

    /// The method type of an operand.
    pub fn method_type(
        &self,
        classes: &Classes,
        operand: &MethodTypeOperand,
    ) -> Result<Shared<MethodTy>, CheckError>
        ensures { (leaves : LeafTable) (frame : Frame) → Hold leaves self.now frame
            → Tells result (method_type_in classes.now frame operand.now) }
    {
        match operand {
            MethodTypeOperand::Descriptor(text) => {
                method_type_of_text(self.alloc, classes, text.as_slice())
            }
            MethodTypeOperand::Register(register) => {
                let held = self.content(register)?;
                as_method_type(self.alloc, held)
            }
        }
    }
}
