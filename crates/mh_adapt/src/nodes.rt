//! What an adapter adds to a handle, found from the handle.

ghost use Rattle.std.specs.Prelude.{◌≡◌, IfOk, map, option_to_list};
ghost use Rattle.mh_convert.specs.Conversion.{fit};
ghost use Rattle.mh_form.specs.Erasure.{basic_of};
ghost use Rattle.mh_handle.specs.Stands.{IsShaped};
ghost use Rattle.mh_handle.specs.Works.{classes_of};
ghost use Rattle.mh_adapt.specs.Parts.{AddsNode, adapter_fields, adapter_key, bound_fields};

use mh_base::{Copied, NoMemory, Seq};
use mh_convert::fit;
use mh_edit::Key;
use mh_form::{Basics, Field, erase, shape};
use mh_handle::{Growth, Handle, Parts, Work};
use mh_tree::Adapter;
use mh_values::{Classes, MethodTy, Ty, Tys, Value};
use std::alloc::Global;

// The basic types of types.
fn basics_of(alloc: Global, types: &Tys) -> Result<Basics, NoMemory>
    ensures { IfOk result (λ basics. basics ≡ map basic_of types.now) }
{
    let ty = MethodTy {
        params: types.copy()?,
        ret: None,
    };
    Ok(shape(alloc, &ty)?.params)
}

/// The key of an adapter.
fn adapter_key(alloc: Global, adapter: &Adapter<'_>) -> Result<Key, NoMemory>
    ensures { IfOk result (λ key. key ≡ adapter_key adapter.now) }
{
    match adapter {
        Adapter::Bind { position, .. } => Ok(Key::Bind { pos: *position }),
        Adapter::Drop { position, types } => Ok(Key::Add {
            pos: *position,
            basics: basics_of(alloc, types)?,
        }),
        Adapter::Permute { asked, order } => Ok(Key::Permute {
            basics: shape(alloc, asked)?.params,
            reorder: Seq::from_vec(Vec::from_slice(alloc, order)?),
        }),
    }
}

/// The field of a bound value, converted to the parameter's type: `None` if it does not fit.
fn bound_field<'t>(value: Value, ty: Ty, classes: &Classes) -> Option<Field<'t>>
    ensures { option_to_list result ≡ bound_fields (fit classes.now value ty) }
{
    match fit(value, ty, classes) {
        Ok(fitting) => Some(Field::Val(erase(fitting))),
        Err(_) => None,
    }
}

/// The field of an adapter of a target of this type.
fn adapter_field<'t>(
    adapter: Adapter<'_>,
    target: &MethodTy,
    classes: &Classes,
) -> Option<Field<'t>>
    ensures { option_to_list result ≡ adapter_fields classes.now adapter.entry target.now }
{
    let Adapter::Bind { position, value } = adapter else {
        return None;
    };
    match target.params.as_slice().get(usize::from(position)) {
        Some(ty) => bound_field(value, *ty, classes),
        None => None,
    }
}

/// What an adapter of this type adds to `target`, with its key and fields.
pub(crate) fn adapter_growth<'t>(
    w: &Work<'_, 't>,
    target: &Handle<'t>,
    adapter: Adapter<'_>,
    ty: MethodTy,
) -> Result<Growth<'t>, NoMemory>
    ensures shaped { IsShaped target.now }
    ensures ty { IfOk result (λ by. by.ty ≡ ty) }
    ensures adds { IfOk result (AddsNode target.now (adapter_key adapter.entry)
        (adapter_fields (classes_of w.now) adapter.entry target.now.ty)) }
{
    let own = target.ty();
    let key = adapter_key(w.alloc, &adapter)?;
    let field = adapter_field(adapter, own, w.classes());
    Ok(Growth {
        ty,
        weight: 1 + target.weight(),
        key,
        parts: Parts::of_field(w.alloc, field),
    })
}
