//! What is in a field, if it is of the kind that is asked for.

ghost use Rattle.std.specs.Prelude.{◌≡◌, slice_get};
ghost use Rattle.std.specs.Option.{option_copied, option_map};
ghost use Rattle.mh_values.specs.Computation.{is_caught};
ghost use Rattle.mh_form.specs.Slots.{called, converted, joined_slots, made_array, ret_converted};
ghost use Rattle.mh_form.specs.Run.{class_of, comp_of, conv_of, field_of, joined_of, leaf_of, ret_of, senses_in, slot_of};

use crate::convert::{Converting, Returning};
use crate::{Bound, Field, Slot};
use mh_convert::Rules;
use mh_leaves::Leaves;
use mh_pieces::Pieces;
use mh_values::{ClassId, Comp, LeafId};

/// The field of a number, if there is one.
#[inline(always)]
fn field_at<'a, 't>(bound: &'a Bound<'t>, field: u32) -> Option<&'a Field<'t>>
    ensures { option_copied result ≡ slice_get bound.now.fields.items field }
{
    bound.fields.as_slice().get(field as usize)
}

#[inline(always)]
pub(crate) fn slot_in<'a>(bound: &'a Bound<'_>, leaves: &Leaves, field: u32) -> Option<&'a Slot>
    ensures { option_copied result
        ≡ field_of slot_of (senses_in leaves.now bound.now) field }
{
    match field_at(bound, field)? {
        Field::Val(found) => Some(found),
        _ => None,
    }
}

#[inline(always)]
pub(crate) fn leaf_in(bound: &Bound<'_>, leaves: &Leaves, field: u32) -> Option<LeafId>
    ensures { option_map (called leaves.now) result
        ≡ field_of leaf_of (senses_in leaves.now bound.now) field }
{
    match field_at(bound, field)? {
        Field::Leaf(found) => Some(*found),
        _ => None,
    }
}

pub(crate) fn class_in(bound: &Bound<'_>, leaves: &Leaves, field: u32) -> Option<ClassId>
    ensures { option_map (is_caught leaves.now.classes) result
        ≡ field_of class_of (senses_in leaves.now bound.now) field }
{
    match field_at(bound, field)? {
        Field::Class(found) => Some(*found),
        _ => None,
    }
}

#[inline(always)]
pub(crate) fn conv_in(bound: &Bound<'_>, leaves: &Leaves, field: u32) -> Option<Converting>
    ensures { option_map (λ by. converted by.rules leaves.now.classes by.conv) result
        ≡ field_of conv_of (senses_in leaves.now bound.now) field }
{
    match field_at(bound, field)? {
        Field::Conv(found) => Some(Converting {
            rules: Rules::AsType,
            conv: *found,
        }),
        Field::Explicit(found) => Some(Converting {
            rules: Rules::Explicit,
            conv: *found,
        }),
        _ => None,
    }
}

#[inline(always)]
pub(crate) fn ret_in(bound: &Bound<'_>, leaves: &Leaves, field: u32) -> Option<Returning>
    ensures { option_map (λ by. ret_converted by.rules leaves.now.classes by.conv) result
        ≡ field_of ret_of (senses_in leaves.now bound.now) field }
{
    match field_at(bound, field)? {
        Field::Ret(found) => Some(Returning {
            rules: Rules::AsType,
            conv: *found,
        }),
        Field::ExplicitRet(found) => Some(Returning {
            rules: Rules::Explicit,
            conv: *found,
        }),
        _ => None,
    }
}

pub(crate) fn comp_in(bound: &Bound<'_>, leaves: &Leaves, field: u32) -> Option<Comp>
    ensures { option_map (made_array leaves.now.classes) result
        ≡ field_of comp_of (senses_in leaves.now bound.now) field }
{
    match field_at(bound, field)? {
        Field::Comp(found) => Some(*found),
        _ => None,
    }
}

#[inline(always)]
pub(crate) fn pieces_in<'a>(bound: &'a Bound<'_>, leaves: &Leaves, field: u32) -> Option<&'a Pieces>
    ensures { option_map (joined_slots leaves.now.classes) (option_copied result)
        ≡ field_of joined_of (senses_in leaves.now bound.now) field }
{
    match field_at(bound, field)? {
        Field::Joined(found) => Some(found),
        _ => None,
    }
}
