ghost use Rattle.std.specs.Prelude.{◌≡◌, ◌++◌, ◌∷◌, [], IfOk, OnOk, map};
ghost use Rattle.mh_leaf.specs.LeafTable.{LeafTable};
ghost use Rattle.mh_form.specs.Run.{sense};

use crate::{Basic, BasicRet, Field, Fields, FormBody, Name, Shape, Slot};
use mh_base::{Copied, NoMemory};
use std::alloc::Global;
use std::sync::Arc;

/// A copy of a field, which stands for the same. A part is shared, and so are
/// pieces, so their copies take no memory.
pub fn copy_field<'t>(alloc: Global, field: &Field<'t>) -> Result<Field<'t>, NoMemory>
    ensures { (table : LeafTable) → IfOk result (λ copy. sense table copy ≡ sense table field.now) }
{
    match field {
        Field::Val(slot) => Ok(Field::Val(slot.copy(alloc)?)),
        Field::Leaf(leaf) => Ok(Field::Leaf(*leaf)),
        Field::Part(part) => Ok(Field::Part(Arc::try_clone(part)?)),
        Field::Class(class) => Ok(Field::Class(*class)),
        Field::Conv(conv) => Ok(Field::Conv(*conv)),
        Field::Ret(conv) => Ok(Field::Ret(*conv)),
        Field::Explicit(conv) => Ok(Field::Explicit(*conv)),
        Field::ExplicitRet(conv) => Ok(Field::ExplicitRet(*conv)),
        Field::Comp(comp) => Ok(Field::Comp(*comp)),
        Field::Joined(pieces) => Ok(Field::Joined(pieces.copy(alloc)?)),
    }
}

/// Copies of fields, in their order, with room for one more.
pub fn copy_fields<'t>(alloc: Global, fields: &[Field<'t>]) -> Result<Fields<'t>, NoMemory>
    ensures { (table : LeafTable) → IfOk result
        (λ copies. map (sense table) copies.items ≡ map (sense table) fields.now) }
{
    let mut copies = Vec::with_capacity(alloc, fields.len() + 1)?;
    for field in fields {
        push_copy(alloc, &mut copies, field)?;
    }
    Ok(copies)
}

// Puts a copy of a field at the end. A field of each kind is written where it is copied.
#[inline(always)]
fn push_copy<'t>(alloc: Global, copies: &mut Fields<'t>, field: &Field<'t>) -> Result<(), NoMemory>
    ensures { (table : LeafTable) → OnOk result (map (sense table) copies.new.items
        ≡ map (sense table) copies.old.items ++ sense table field.now ∷ []) }
{
    copies.reserve(1)?;
    match field {
        Field::Leaf(leaf) => {
            copies.push_reserved(Field::Leaf(*leaf));
            Ok(())
        }
        Field::Part(part) => {
            let part = Arc::try_clone(part)?;
            copies.push_reserved(Field::Part(part));
            Ok(())
        }
        _ => {
            let copy = copy_field(alloc, field)?;
            copies.push_reserved(copy);
            Ok(())
        }
    }
}

impl Copied for Basic {
    fn copy(&self, _alloc: Global) -> Result<Basic, NoMemory> {
        Ok(*self)
    }
}

impl Copied for BasicRet {
    fn copy(&self, _alloc: Global) -> Result<BasicRet, NoMemory> {
        Ok(*self)
    }
}

impl Copied for Shape {
    fn copy(&self, _alloc: Global) -> Result<Shape, NoMemory> {
        Ok(Shape {
            params: self.params.copy()?,
            ret: self.ret,
        })
    }
}

impl Copied for Slot {
    #[inline(always)]
    fn copy(&self, alloc: Global) -> Result<Slot, NoMemory> {
        Ok(match self {
            Slot::I(number) => Slot::I(*number),
            Slot::J(number) => Slot::J(*number),
            Slot::L(value) => Slot::L(value.copy(alloc)?),
        })
    }
}

impl Copied for Name {
    fn copy(&self, _alloc: Global) -> Result<Name, NoMemory> {
        Ok(match self {
            Name::Get(field) => Name::Get(*field),
            Name::Call(leaf, args) => Name::Call(*leaf, args.copy()?),
            Name::Link(part, args) => Name::Link(*part, args.copy()?),
            Name::Select(test, part, other, args) => {
                Name::Select(*test, *part, *other, args.copy()?)
            }
            Name::Guarded(part, class, handler, args, kept) => {
                Name::Guarded(*part, *class, *handler, args.copy()?, *kept)
            }
            Name::Finally(part, cleanup, args, kept, ret) => {
                Name::Finally(*part, *cleanup, args.copy()?, *kept, *ret)
            }
            Name::Switch(slot, first, count, args) => {
                Name::Switch(*slot, *first, *count, args.copy()?)
            }
            Name::Loop(first, args, counts, ret) => {
                Name::Loop(*first, args.copy()?, *counts, *ret)
            }
            Name::Conv(conv, slot) => Name::Conv(*conv, *slot),
            Name::Cast(conv, slot) => Name::Cast(*conv, *slot),
            Name::Ret(conv, slot) => Name::Ret(*conv, *slot),
            Name::MakeArray(comp, args) => Name::MakeArray(*comp, args.copy()?),
            Name::CheckArray(slot, count) => Name::CheckArray(*slot, *count),
            Name::Elem(slot, item) => Name::Elem(*slot, *item),
            Name::Join(pieces, args) => Name::Join(*pieces, args.copy()?),
            Name::Raise(slot) => Name::Raise(*slot),
        })
    }
}

impl Copied for FormBody {
    fn copy(&self, _alloc: Global) -> Result<FormBody, NoMemory> {
        Ok(FormBody {
            params: self.params.copy()?,
            fields: self.fields,
            names: self.names.copy()?,
            out: self.out,
        })
    }
}
