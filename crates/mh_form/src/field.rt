use crate::{FormBody, Slot};
use mh_convert::{Conv, RetConv};
use mh_pieces::Pieces;
use mh_values::{ClassId, Comp, LeafId};
use std::alloc::Global;
use std::sync::Arc;

/// What a form finds in a field. Handles of one form differ only in their fields.
#[derive(Drop)]
#[cycle(bound)]
pub enum Field<'t> {
    /// A slot: a bound or constant value.
    Val(Slot),
    /// A leaf to call.
    Leaf(LeafId),
    /// A body with fields of its own: that of a filter, a combiner, a test, a branch or a handler.
    Part(Arc<Bound<'t>, Global>),
    /// The class of the exceptions that are handled.
    Class(ClassId),
    /// The conversion of an argument, as `asType` converts.
    Conv(Conv),
    /// The conversion of a result, as `asType` converts.
    Ret(RetConv),
    /// The explicit conversion of an argument.
    Explicit(Conv),
    /// The explicit conversion of a result.
    ExplicitRet(RetConv),
    /// The component type of an array.
    Comp(Comp),
    /// The pieces of a concatenation.
    Joined(Pieces),
}

/// The fields of a form, by their number.
pub type Fields<'t> = Vec<Field<'t>>;

/// A form's body with the fields that it runs on.
#[derive(Drop)]
#[cycle(bound)]
pub struct Bound<'t> {
    pub body: &'t FormBody,
    pub fields: Fields<'t>,
}
