/// What was asked for was written.
pub const DONE: u8 = 0;

/// An input was refused, or a call site that is not there was asked for.
pub const REFUSED: u8 = 1;

/// The words were refused.
pub const USAGE_WANTED: u8 = 2;

/// No memory was left.
pub const NO_MEMORY: u8 = 3;

/// No number was left for a form.
pub const FORMS_FULL: u8 = 4;

/// No slot was left for a type.
pub const TYPES_FULL: u8 = 5;

/// An input could not be read.
pub const UNREAD: u8 = 6;

/// The text could not be written.
pub const WRITE_FAILED: u8 = 7;
