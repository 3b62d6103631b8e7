//! Types, values, exceptions and outcomes, and what is said of them in text.
#![tactic(auto)]

mod builtin;
mod calls;
mod class;
mod classes;
mod copy;
mod descriptor;
mod exception;
mod known;
mod primitives;
mod registry;
mod same;
mod types;
mod typing;
mod value;

pub use calls::LeafCall;
pub use class::{Class, ClassId};
pub use classes::{Classes, DeclareError, MOST_CLASSES};
pub use descriptor::{
    BadAt, DescriptorError, descriptor_text, field_descriptor_text, read_descriptor, read_type,
    read_types, types_text,
};
pub use same::{
    are_same_types, begins_with_types, is_same_method_type, is_same_return, is_same_type,
};
pub use types::{Comp, MethodTy, Primitive, Ty, Tys};
pub use typing::{
    MOST_SLOTS, all_slots, are_items_of, are_typed, has_type, is_component_below, is_item_of,
    is_type_below, slots,
};
pub use value::{
    Cause, Cell, Cells, Exc, ExcParts, Items, LeafId, MOST_CHARACTERS, MOST_ITEMS, Num, Outcome,
    Str, Value,
};
