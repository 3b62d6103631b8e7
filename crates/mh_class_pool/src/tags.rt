/// A text (JVMS SE 17, 4.4.7).
pub const UTF8: u8 = 1;

/// An `int` (4.4.4).
pub const INTEGER: u8 = 3;

/// A `float` (4.4.4).
pub const FLOAT: u8 = 4;

/// A `long` (4.4.5).
pub const LONG: u8 = 5;

/// A `double` (4.4.5).
pub const DOUBLE: u8 = 6;

/// A class or an interface (4.4.1).
pub const CLASS: u8 = 7;

/// A constant of class `String` (4.4.3).
pub const STRING: u8 = 8;

/// A field (4.4.2).
pub const FIELDREF: u8 = 9;

/// A method of a class (4.4.2).
pub const METHODREF: u8 = 10;

/// A method of an interface (4.4.2).
pub const INTERFACE_METHODREF: u8 = 11;

/// A name and a descriptor (4.4.6).
pub const NAME_AND_TYPE: u8 = 12;

/// A method handle (4.4.8).
pub const METHOD_HANDLE: u8 = 15;

/// A method type (4.4.9).
pub const METHOD_TYPE: u8 = 16;

/// A constant that is computed (4.4.10).
pub const DYNAMIC: u8 = 17;

/// A call site that is computed (4.4.10).
pub const INVOKE_DYNAMIC: u8 = 18;

/// A module (4.4.11).
pub const MODULE: u8 = 19;

/// A package (4.4.12).
pub const PACKAGE: u8 = 20;
