ghost use Rattle.std.specs.Prelude.{◌≡◌, ◌-◌, ◌^◌, ◌&&◌, min, IsTrue};
ghost use Rattle.mh_values.specs.Class.{is_subclass, string_class};
ghost use Rattle.mh_values.specs.HasType.{is_component_below, is_item_of, are_items_of, is_array_of, has_class, has_primitive, has_component, has_type, have_types, HaveTypes, is_type_below};
ghost use Rattle.mh_values.specs.Slots.{slots_of, slots_of_all};
ghost use Rattle.mh_values.specs.ValueLimits.{is_short_text};

use crate::{
    Cell, ClassId, Classes, Comp, MOST_CHARACTERS, MOST_ITEMS, MethodTy, Primitive, Str, Ty, Value,
};

/// The most slots that the parameters of a method handle take: one of the 255 of a method (JVMS
/// SE 17, 4.3.3) is the handle's own.
pub const MOST_SLOTS: u64 = 254;

impl Ty {
    /// The slots that a parameter of the type takes: a `long` takes two.
    pub fn slots(self) -> u32
        ensures { result ≡ slots_of self }
    {
        match self {
            Ty::Prim(Primitive::J) => 2,
            _ => 1,
        }
    }
}

/// The slots of all these parameters (JVMS SE 17, 4.3.3).
pub fn all_slots(types: &[Ty]) -> u64
    ensures { result ≡ slots_of_all types.now }
{
    let mut all = 0u64;
    for parameter in types {
        all += u64::from(parameter.slots());
    }
    all
}

/// The slots of a method type's parameters, at most 2^32 - 1.
pub fn slots(ty: &MethodTy) -> u32
    ensures { result ≡ min (slots_of_all ty.now.params) (2 ^ 32 - 1) }
{
    let mut all: u32 = 0;
    for parameter in ty.params.as_slice() {
        all = all.saturating_add(parameter.slots());
    }
    all
}

/// Whether each array of the one component is an array of the other.
pub fn is_component_below(from: Comp, to: Comp, classes: &Classes) -> bool
    ensures { result ≡ is_component_below classes.now from to }
{
    match (from, to) {
        (Comp::Prim(from), Comp::Prim(to)) => from == to,
        (Comp::Class(from), Comp::Class(to)) => classes.subclass(from, to),
        _ => false,
    }
}

/// Whether each value of the one type has the other, as `MethodHandle.asType` takes for granted of
/// references: the types are equal, or a class is below a class. It is also so if an array is an
/// `Object`, or if the components of two arrays are classes and one is below the other.
pub fn is_type_below(from: Ty, to: Ty, classes: &Classes) -> bool
    ensures { result ≡ is_type_below classes.now from to }
{
    match (from, to) {
        (Ty::Prim(from), Ty::Prim(to)) => from == to,
        (Ty::Class(from), Ty::Class(to)) => classes.subclass(from, to),
        (Ty::Array(_), Ty::Class(to)) => to == ClassId::OBJECT,
        (Ty::Array(from), Ty::Array(to)) => is_component_below(from, to, classes),
        _ => false,
    }
}

/// Whether a text is of the class, and not too long for a value.
fn is_text_of(text: &Str, class: ClassId, classes: &Classes) -> bool
    ensures { result ≡ is_subclass classes.now string_class class && is_short_text text.now }
{
    classes.subclass(ClassId::STRING, class) && text.len() <= MOST_CHARACTERS
}

/// Whether an array of the component may have the item.
pub fn is_item_of(component: Comp, item: &Cell, classes: &Classes) -> bool
    ensures { result ≡ is_item_of classes.now component item.now }
{
    match component {
        Comp::Prim(primitive) => match item {
            Cell::Prim(number) => number.primitive() == primitive,
            _ => false,
        },
        Comp::Class(class) => match item {
            Cell::Prim(_) => false,
            Cell::Boxed(number) => classes.subclass(number.primitive().wrapper(), class),
            Cell::Text(text) => is_text_of(text, class, classes),
            Cell::Object(own, _) => classes.subclass(*own, class),
            Cell::Thrown(exc) => classes.subclass(exc.class(), class),
            Cell::Null => true,
        },
    }
}

/// Whether an array of the component may have each of these items.
pub fn are_items_of(component: Comp, items: &[Cell], classes: &Classes) -> bool
    ensures { result ≡ are_items_of classes.now component items.now }
{
    items
        .iter()
        .all(|item| is_item_of(component, item, classes))
}

/// Whether an array of the component may have these items: none of them is of another type, and
/// they are not too many.
fn is_array_of(component: Comp, items: &[Cell], classes: &Classes) -> bool
    ensures { result ≡ is_array_of classes.now component items.now }
{
    items.len() <= MOST_ITEMS && are_items_of(component, items, classes)
}

fn has_primitive(v: &Value, primitive: Primitive) -> bool
    ensures { result ≡ has_primitive v.now primitive }
{
    match v {
        Value::Prim(number) => number.primitive() == primitive,
        _ => false,
    }
}

fn has_class(v: &Value, class: ClassId, classes: &Classes) -> bool
    ensures { result ≡ has_class classes.now v.now class }
{
    match v {
        Value::Prim(_) => false,
        Value::Boxed(number) => classes.subclass(number.primitive().wrapper(), class),
        Value::Text(text) => is_text_of(text, class, classes),
        Value::Object(own, _) => classes.subclass(*own, class),
        Value::Thrown(exc) => classes.subclass(exc.class(), class),
        Value::Array(own, items) => {
            class == ClassId::OBJECT && is_array_of(*own, items.as_slice(), classes)
        }
        Value::Null => true,
    }
}

fn has_component(v: &Value, component: Comp, classes: &Classes) -> bool
    ensures { result ≡ has_component classes.now v.now component }
{
    match v {
        Value::Array(own, items) => {
            is_component_below(*own, component, classes)
                && is_array_of(*own, items.as_slice(), classes)
        }
        Value::Null => true,
        _ => false,
    }
}

/// Whether a value has a type. A number has its primitive type, and any other value each class at
/// or above its own. An array also has the arrays of such classes, and null has each reference
/// type. A text of more than [`MOST_CHARACTERS`] has no type, nor has an array of more than
/// [`MOST_ITEMS`].
pub fn has_type(v: &Value, ty: Ty, classes: &Classes) -> bool
    ensures { result ≡ has_type classes.now v.now ty }
{
    match ty {
        Ty::Prim(primitive) => has_primitive(v, primitive),
        Ty::Class(class) => has_class(v, class, classes),
        Ty::Array(component) => has_component(v, component, classes),
    }
}

fn have_types(values: &[Value], types: &[Ty], classes: &Classes) -> bool
    ensures { result ≡ have_types classes.now values.now types.now }
{
    let [value, values @ ..] = values else {
        return match types {
            [] => true,
            [_, ..] => false,
        };
    };
    let [ty, types @ ..] = types else {
        return false;
    };
    has_type(value, *ty, classes) && have_types(values, types, classes)
}

/// Whether values have these types, one for each: the arguments of a call and the parameters of its
/// type, for example.
#[tactic(auto, using(crate::proofs::HavingTypes::found_typed, crate::proofs::HavingTypes::typed_found))]
pub fn are_typed(values: &[Value], types: &[Ty], classes: &Classes) -> bool
    ensures yes { IsTrue result → HaveTypes classes.now values.now types.now }
    ensures no { HaveTypes classes.now values.now types.now → IsTrue result }
{
    have_types(values, types, classes)
}
