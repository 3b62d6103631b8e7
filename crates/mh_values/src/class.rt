use mh_base::Seq;

/// A class, by its number in the list of classes that gave it.
#[derive(Clone, Copy, Debug, PartialEq, Eq)]
pub struct ClassId(pub u32);

/// A class: its name in internal form, as `java/lang/Object`, and its superclass; only
/// `java/lang/Object` has none.
#[derive(Debug, Drop)]
pub struct Class {
    pub name: Seq<u8>,
    pub superclass: Option<ClassId>,
}
