use mh_class_bytes::Text;

/// What a method handle constant refers to (JVMS SE 17, 4.4.8).
#[derive(Debug, Drop)]
pub struct HandleRef<'b> {
    /// The kind of reference, from 1 to 9.
    pub kind: u8,
    /// The class, in internal form.
    pub owner: Text<'b>,
    pub name: Text<'b>,
    pub descriptor: Text<'b>,
}

/// A name with the descriptor that goes with it (4.4.6).
#[derive(Drop)]
pub struct Named<'b> {
    pub name: Text<'b>,
    pub descriptor: Text<'b>,
}

/// A constant that is computed: a Dynamic entry (4.4.10).
#[derive(Debug, Drop)]
pub struct DynamicView<'b> {
    /// The index of the entry.
    pub index: u16,
    /// The number of its bootstrap method.
    pub bootstrap: u16,
    pub name: Text<'b>,
    /// The descriptor of its type, which is not looked at.
    pub descriptor: Text<'b>,
}

/// A constant of the pool (4.4). The numbers of a Float and a Double are passed over.
#[derive(Debug, Drop)]
pub enum Constant<'b> {
    Integer(i32),
    Long(i64),
    Float,
    Double,
    /// The name of a class, in internal form, or an array descriptor.
    Class(Text<'b>),
    Str(Text<'b>),
    Handle(HandleRef<'b>),
    /// A method descriptor.
    MethodType(Text<'b>),
    Dynamic(DynamicView<'b>),
    /// An entry that is no constant, as a Utf8 or a Methodref.
    Other,
}

/// A call site: an `invokedynamic` instruction (6.5).
#[derive(Debug, Drop)]
pub struct SiteView<'b> {
    /// The name of the method that it stands in.
    pub method: Text<'b>,
    pub method_descriptor: Text<'b>,
    /// Its place, counted from the first byte of the method's code.
    pub pc: u32,
    /// The number of its bootstrap method.
    pub bootstrap: u16,
    /// The name that is called, and the call's method descriptor.
    pub name: Text<'b>,
    pub descriptor: Text<'b>,
}
