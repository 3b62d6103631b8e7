/// Reads a field of an object, the first of the kinds (JVMS SE 17, 4.4.8 and table 5.4.3.5-A).
pub const GET_FIELD: u8 = 1;

/// Writes a static field, the last of the kinds that refer to a field.
pub const PUT_STATIC: u8 = 4;

/// Calls a method of an object.
pub const INVOKE_VIRTUAL: u8 = 5;

/// Calls a static method.
pub const INVOKE_STATIC: u8 = 6;

/// Makes an object and calls its constructor.
pub const NEW_INVOKE_SPECIAL: u8 = 8;

/// Calls a method of an interface, the last of the kinds.
pub const INVOKE_INTERFACE: u8 = 9;
