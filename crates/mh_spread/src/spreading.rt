ghost use Rattle.std.specs.Prelude.{◌≡◌, ◌≤◌, length, IfOk};
ghost use Rattle.mh_values.specs.Classes.{AreClasses};
ghost use Rattle.mh_tree.specs.Check.{TellsRow};
ghost use Rattle.mh_tree.specs.Tree.{Tree};
ghost use Rattle.mh_tree.specs.Tree as tree;
ghost use Rattle.mh_tree.specs.Use.{items_used_as, spread_use_row, taking_items};
ghost use Rattle.mh_handle.specs.Obeys.{Obeys};
ghost use Rattle.mh_handle.specs.Works.{GoesOn, HoldsTypes, IsReady, StandsIn};
ghost use Rattle.mh_handle.specs.Works.{TradesTypes, classes_of};
ghost use Rattle.mh_spread.specs.Spreading.{TellsUse, TellsSpreading, MakesSpread, spread_types};

use mh_astype::as_type;
use mh_base::{NoMemory, Seq};
use mh_edit::Key;
use mh_form::basic_of;
use mh_handle::{Growth, Handle, HandleError, Parts, Work};
use mh_tree::{CheckError, check_astype, check_spread};
use mh_values::{ClassId, Classes, Comp, Exc, MethodTy, Ty, is_same_method_type};
use std::alloc::Global;
use std::sync::Wait;

/// A spread: the component of the array, the type that the handle is converted to, which takes the
/// array's items, and the type of the new handle.
pub(crate) struct Spreading {
    pub component: Comp,
    pub asked: MethodTy,
    pub own: MethodTy,
}

// A type with items of an array in place of its last parameters.
fn taking_items(
    alloc: Global,
    own: &MethodTy,
    component: Comp,
    count: usize,
) -> Result<MethodTy, NoMemory>
    requires { count ≤ length own.now.params }
    ensures { IfOk result (λ ty. ty ≡ taking_items own.now component count) }
{
    let kept = own.params.len() - count;
    let mut params = Vec::from_slice(alloc, &own.params.as_slice()[..kept])?;
    for _ in 0..count {
        params.push(component.item_type())?;
    }
    Ok(MethodTy {
        params: Seq::from_vec(params),
        ret: own.ret,
    })
}

// The weight of a tree after its conversion to a type.
fn check_use(
    alloc: Global,
    own: &MethodTy,
    weight: u32,
    asked: &MethodTy,
    classes: &Classes,
) -> Result<u32, CheckError>
    requires { weight ≤ 256 }
    ensures { TellsUse classes.now own.now weight asked.now result }
{
    if is_same_method_type(own, asked) {
        return Ok(weight);
    }
    check_astype(alloc, own, weight, asked, classes)?;
    Ok(1 + weight)
}

// What a spread is, or why it is refused.
fn check_spreading(
    alloc: Global,
    target: &MethodTy,
    weight: u32,
    array: Option<Ty>,
    count: u8,
    classes: &Classes,
) -> Result<Spreading, CheckError>
    requires { weight ≤ 256 }
    ensures { TellsSpreading classes.now target.now weight array count result }
{
    let items = usize::from(count);
    let Some(Ty::Array(component)) = array else {
        return Err(CheckError::Refused(Exc::saying(alloc, ClassId::ILLEGAL_ARGUMENT, b"spread")?));
    };
    if items > target.params.len() {
        return Err(CheckError::Refused(Exc::saying(alloc, ClassId::ILLEGAL_ARGUMENT, b"spread")?));
    }
    let asked = taking_items(alloc, target, component, items)?;
    let used = check_use(alloc, target, weight, &asked, classes)?;
    let own = check_spread(alloc, &asked, used, array, count, classes)?;
    Ok(Spreading {
        component,
        asked,
        own,
    })
}

/// The type of a spread of a tree: the tree is converted to the type that takes the array's items,
/// and then spread. Refused if the type is no array, if there are fewer parameters than items, or
/// if the items cannot be converted.
pub fn check_spread_use(
    alloc: Global,
    target: &MethodTy,
    weight: u32,
    array: Option<Ty>,
    count: u8,
    classes: &Classes,
) -> Result<MethodTy, CheckError>
    requires { weight ≤ 256 }
    ensures { TellsRow result (spread_use_row classes.now target.now weight array count) }
{
    let spreading = match check_spreading(alloc, target, weight, array, count, classes) {
        Ok(spreading) => spreading,
        Err(error) => return Err(error),
    };
    let Spreading {
        component: _component,
        asked: _asked,
        own,
    } = spreading;
    Ok(own)
}

/// What a spread of a handle is, or why it is refused.
fn spreading_of<'t>(
    w: &Work<'_, 't>,
    target: &Handle<'t>,
    array: Option<Ty>,
    count: u8,
) -> Result<Spreading, CheckError>
    ensures are { AreClasses (classes_of w.now) }
    ensures tells { TellsSpreading (classes_of w.now) target.now.ty target.now.weight array count
        result }
{
    check_spreading(
        w.alloc,
        target.ty(),
        target.weight(),
        array,
        count,
        w.classes(),
    )
}

/// A handle that takes an array in place of the last `count` arguments of `target`, and passes the
/// items to it (`MethodHandle.asSpreader`, SE 17). If `target` takes other types, the items are
/// converted as by `as_type`. A call throws if the array does not have `count` items. Refused if
/// the type is no array, if `target` has fewer parameters, or if the items cannot be converted.
pub fn spread<'t, R: Wait>(
    w: &mut Work<'_, 't>,
    rt: &R,
    target: Handle<'t>,
    array: Option<Ty>,
    count: u8,
) -> Result<Handle<'t>, HandleError>
    requires ready { IsReady w.old 2 }
    requires held { HoldsTypes w.old target.held }
    ensures goes_on { GoesOn 2 w.old w.new }
    ensures obeys { Obeys (spread_use_row (classes_of w.old)
        target.entry.ty target.entry.weight array count) result }
    ensures makes { (a : Tree) → StandsIn w.old target.entry a
        → MakesSpread target.entry.ty array count a w.old w.new result }
    ensures types { TradesTypes
        (spread_types (classes_of w.old) target.entry.ty target.entry.weight array count)
        target.entry.held w.old w.new result }
    ensures sides { IfOk result (λ h. h.sides ≡ target.entry.sides) }
    ensures stands { (a : Tree) → StandsIn w.old target.entry a
        → IfOk result (λ h. StandsIn w.old h
        (tree.Spread (items_used_as target.entry.ty array count a) array count)) }
{
    let spreading = match spreading_of(w, &target, array, count) {
        Ok(spreading) => spreading,
        Err(error) => return target.refuse(w, error),
    };
    let Spreading {
        component,
        asked,
        own,
    } = spreading;
    let used = as_type(w, rt, target, &asked)?;
    // Its form has the shape of its type, so the key fits.
    let _ty = used.ty();
    let by = Growth {
        ty: own,
        weight: 1 + used.weight(),
        key: Key::Spread {
            count,
            basic: basic_of(component.item_type()),
        },
        parts: Parts::new(w.alloc),
    };
    used.grown(w, rt, by)
}
