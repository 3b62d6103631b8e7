//! What branches are made from: their handles, with their weight, their key, and their parts.

ghost use Rattle.std.specs.Prelude.{◌≡◌, ◌≤◌, ◌+◌, ◌++◌, length, IfOk};
ghost use Rattle.mh_handle.specs.Parts.{AddsHandle};
ghost use Rattle.mh_handle.specs.Stands.{IsShaped};
ghost use Rattle.mh_handle.specs.Works.{HoldsTypes, IsUnchanged};
ghost use Rattle.mh_branch.specs.Growths.{AddsHandler, AddsHandles, AreCatchParts, AreGuardParts};
ghost use Rattle.mh_branch.specs.Growths.{TradesParts, catch_key, guard_key};

use mh_base::NoMemory;
use mh_edit::Key;
use mh_form::{Field, shape};
use mh_handle::{Handle, Parts, Work};
use mh_values::{ClassId, MethodTy};
use std::alloc::Global;

/// The handles of a guard: a test, the target if it returns true, and the fallback if it does not.
#[derive(Drop)]
pub struct Branches<'t> {
    pub test: Handle<'t>,
    pub target: Handle<'t>,
    pub fallback: Handle<'t>,
}

impl<'t> Branches<'t> {
    /// What a guard of these handles weighs. None of them holds more types than it weighs.
    pub(crate) fn weight(&self) -> u32
        ensures weight { result ≡ 1 + self.now.test.weight + self.now.target.weight
            + self.now.fallback.weight }
        ensures shaped { IsShaped self.now.test × IsShaped self.now.target
            × IsShaped self.now.fallback }
    {
        let (_test, _target, _fallback) = (self.test.ty(), self.target.ty(), self.fallback.ty());
        1 + self.test.weight() + self.target.weight() + self.fallback.weight()
    }
}

/// The handles of a catch: a target, and a handler of its exceptions.
#[derive(Drop)]
pub struct Caught<'t> {
    pub target: Handle<'t>,
    pub class: ClassId,
    pub handler: Handle<'t>,
}

impl<'t> Caught<'t> {
    /// What a catch of these handles weighs. None of them holds more types than it weighs.
    pub(crate) fn weight(&self) -> u32
        ensures weight { result ≡ 1 + self.now.target.weight + self.now.handler.weight }
        ensures shaped { IsShaped self.now.target × IsShaped self.now.handler }
    {
        let (_target, _handler) = (self.target.ty(), self.handler.ty());
        1 + self.target.weight() + self.handler.weight()
    }
}

/// The key of a guard of this type.
pub(crate) fn guard_key<'t>(
    alloc: Global,
    ty: &MethodTy,
    test: &Handle<'t>,
) -> Result<Key, NoMemory>
    requires few { length test.now.ty.params ≤ 254 }
    ensures { IfOk result (λ key. key ≡ guard_key ty.now test.now.ty) }
{
    let tested = test.ty().params.len() as u8;
    Ok(Key::GuardRoot {
        shape: shape(alloc, ty)?,
        test: tested,
    })
}

/// The key of a catch of this type.
pub(crate) fn catch_key<'t>(
    alloc: Global,
    ty: &MethodTy,
    handler: &Handle<'t>,
) -> Result<Key, NoMemory>
    requires some { 1 ≤ length handler.now.ty.params }
    requires few { length handler.now.ty.params ≤ 255 }
    ensures { IfOk result (λ key. key ≡ catch_key ty.now handler.now.ty) }
{
    let handled = (handler.ty().params.len() - 1) as u8;
    Ok(Key::CatchRoot {
        shape: shape(alloc, ty)?,
        handler: handled,
    })
}

/// Adds one more part. If memory runs out, all are given back.
pub fn with_part<'t>(
    w: &mut Work<'_, 't>,
    parts: Parts<'t>,
    part: Handle<'t>,
) -> Result<Parts<'t>, NoMemory>
    requires of_types { w.old.seat.now.table ≡ w.old.types.now }
    requires held { HoldsTypes w.old (parts.held ++ part.held) }
    ensures unchanged { IsUnchanged w.old w.new }
    ensures adds { IfOk result (AddsHandle part.entry parts.entry) }
    ensures types { TradesParts (parts.entry.held ++ part.entry.held) w.old w.new result }
{
    let mut parts = parts;
    match parts.push(w, part) {
        Ok(()) => Ok(parts),
        Err(NoMemory) => {
            parts.give_back(w);
            Err(NoMemory)
        }
    }
}

/// Adds two more parts. If memory runs out, all are given back.
fn with_two<'t>(
    w: &mut Work<'_, 't>,
    parts: Parts<'t>,
    first: Handle<'t>,
    second: Handle<'t>,
) -> Result<Parts<'t>, NoMemory>
    requires of_types { w.old.seat.now.table ≡ w.old.types.now }
    requires held { HoldsTypes w.old (parts.held ++ first.held ++ second.held) }
    ensures unchanged { IsUnchanged w.old w.new }
    ensures adds { IfOk result (AddsHandles first.entry second.entry parts.entry) }
    ensures types { TradesParts (parts.entry.held ++ first.entry.held ++ second.entry.held)
        w.old w.new result }
{
    match with_part(w, parts, first) {
        Ok(parts) => with_part(w, parts, second),
        Err(NoMemory) => {
            second.give_back(w);
            Err(NoMemory)
        }
    }
}

/// Adds a class of exceptions, and a part after it. If memory runs out, all are given back.
fn with_handler<'t>(
    w: &mut Work<'_, 't>,
    parts: Parts<'t>,
    class: ClassId,
    handler: Handle<'t>,
) -> Result<Parts<'t>, NoMemory>
    requires of_types { w.old.seat.now.table ≡ w.old.types.now }
    requires held { HoldsTypes w.old (parts.held ++ handler.held) }
    ensures unchanged { IsUnchanged w.old w.new }
    ensures adds { IfOk result (AddsHandler class handler.entry parts.entry) }
    ensures types { TradesParts (parts.entry.held ++ handler.entry.held) w.old w.new result }
{
    let mut parts = parts;
    match parts.push_field(Field::Class(class)) {
        Ok(()) => with_part(w, parts, handler),
        Err(NoMemory) => {
            parts.give_back(w);
            handler.give_back(w);
            Err(NoMemory)
        }
    }
}

/// The parts of a guard: the test, the target and the fallback.
pub(crate) fn guard_parts<'t>(
    w: &mut Work<'_, 't>,
    branches: Branches<'t>,
) -> Result<Parts<'t>, NoMemory>
    requires of_types { w.old.seat.now.table ≡ w.old.types.now }
    requires held { HoldsTypes w.old
        (branches.test.held ++ branches.target.held ++ branches.fallback.held) }
    ensures unchanged { IsUnchanged w.old w.new }
    ensures parts { IfOk result
        (AreGuardParts branches.entry.test branches.entry.target branches.entry.fallback) }
    ensures types { TradesParts (branches.entry.test.held ++ branches.entry.target.held
        ++ branches.entry.fallback.held) w.old w.new result }
{
    let Branches {
        test,
        target,
        fallback,
    } = branches;
    let none = Parts::new(w.alloc);
    match with_part(w, none, test) {
        Ok(parts) => with_two(w, parts, target, fallback),
        Err(NoMemory) => {
            target.give_back(w);
            fallback.give_back(w);
            Err(NoMemory)
        }
    }
}

/// The parts of a catch: the target and the handler, with the class of exceptions between them.
pub(crate) fn catch_parts<'t>(
    w: &mut Work<'_, 't>,
    caught: Caught<'t>,
) -> Result<Parts<'t>, NoMemory>
    requires of_types { w.old.seat.now.table ≡ w.old.types.now }
    requires held { HoldsTypes w.old (caught.target.held ++ caught.handler.held) }
    ensures unchanged { IsUnchanged w.old w.new }
    ensures parts { IfOk result
        (AreCatchParts caught.entry.target caught.entry.class caught.entry.handler) }
    ensures types { TradesParts (caught.entry.target.held ++ caught.entry.handler.held)
        w.old w.new result }
{
    let Caught {
        target,
        class,
        handler,
    } = caught;
    let none = Parts::new(w.alloc);
    match with_part(w, none, target) {
        Ok(parts) => with_handler(w, parts, class, handler),
        Err(NoMemory) => {
            handler.give_back(w);
            Err(NoMemory)
        }
    }
}
