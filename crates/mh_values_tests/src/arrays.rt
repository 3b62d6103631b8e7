ghost use Rattle.std.specs.Prelude.{◌≡◌, ◌∷◌, [], IfOk};
ghost use Rattle.mh_values.specs.declared.types.Comp.TheVariants as comp;
ghost use Rattle.mh_values.specs.declared.types.Primitive.TheVariants as primitive;
ghost use Rattle.mh_values.specs.declared.value.Cell.TheVariants as cell;
ghost use Rattle.mh_values.specs.declared.value.Num.TheVariants as num;
ghost use Rattle.mh_values.specs.declared.value.Value.TheVariants as value;
ghost use Rattle.mh_form.specs.declared.slot.Slot.TheVariants as slot;

use crate::bodies::{gives, naming, one_place, text};
use mh_base::{Frozen, NoMemory, Seq};
use mh_form::{Field, Name, Slot};
use mh_values::{Cell, ClassId, Comp, Num, Primitive, Value};
use std::alloc::Global;
use std::test::Fail;

/// An array of two ints.
fn ints(alloc: Global, first: i32, second: i32) -> Result<Slot, NoMemory>
    ensures { IfOk result (λ array. array ≡ slot.L (value.Array (comp.Prim primitive.I)
        (cell.Prim (num.I first) ∷ cell.Prim (num.I second) ∷ []))) }
{
    let items = vec![in alloc; Cell::Prim(Num::I(first)), Cell::Prim(Num::I(second))]?;
    let cells = Frozen::of(alloc, Seq::from_vec(items))?;
    Ok(Slot::L(Value::Array(Comp::Prim(Primitive::I), cells)))
}

#[test]
fn makes_arrays(rt: HostRuntime) -> Result<(), Fail> {
    let name = Name::MakeArray(0, one_place(rt.alloc(), 0)?);
    let ints = Field::Comp(Comp::Prim(Primitive::I));
    let body = naming(rt.alloc(), name, 1)?;
    let gave = gives(rt.alloc(), &body, ints, Slot::I(7))?;
    assert_eq!(rt; text(&gave), "a:I[i:7]");
    Ok(())
}

#[test]
fn refuses_arrays_of_other_lengths(rt: HostRuntime) -> Result<(), Fail> {
    let array = ints(rt.alloc(), 5, 6)?;
    let field = Field::Val(Slot::I(0));
    let body = naming(rt.alloc(), Name::CheckArray(0, 1), 1)?;
    let gave = gives(rt.alloc(), &body, field, array)?;
    assert_eq!(rt; text(&gave), "java/lang/IllegalArgumentException s:spread");
    Ok(())
}

#[test]
fn takes_items(rt: HostRuntime) -> Result<(), Fail> {
    let array = ints(rt.alloc(), 5, 6)?;
    let field = Field::Val(Slot::I(0));
    let body = naming(rt.alloc(), Name::Elem(0, 1), 1)?;
    let gave = gives(rt.alloc(), &body, field, array)?;
    assert_eq!(rt; text(&gave), "i:6");
    Ok(())
}
