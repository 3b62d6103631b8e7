/// `nop`: does nothing, the first of the opcodes.
pub const NOP: u8 = 0;

/// `dconst_1`: pushes the double 1.0.
pub const DCONST_1: u8 = 15;

/// `bipush`: pushes a byte.
pub const BIPUSH: u8 = 16;

/// `sipush`: pushes a short.
pub const SIPUSH: u8 = 17;

/// `ldc`: pushes a constant of the pool, named by one byte.
pub const LDC: u8 = 18;

/// `ldc_w`: pushes a constant of the pool, named by two bytes.
pub const LDC_W: u8 = 19;

/// `ldc2_w`: pushes a long or a double of the pool.
pub const LDC2_W: u8 = 20;

/// `iload`: loads an int from a local variable.
pub const ILOAD: u8 = 21;

/// `aload`: loads a reference from a local variable.
pub const ALOAD: u8 = 25;

/// `iload_0`: loads an int from local variable 0.
pub const ILOAD_0: u8 = 26;

/// `saload`: loads a short from an array.
pub const SALOAD: u8 = 53;

/// `istore`: stores an int into a local variable.
pub const ISTORE: u8 = 54;

/// `astore`: stores a reference into a local variable.
pub const ASTORE: u8 = 58;

/// `istore_0`: stores an int into local variable 0.
pub const ISTORE_0: u8 = 59;

/// `lxor`: exclusive or of two longs.
pub const LXOR: u8 = 131;

/// `iinc`: adds a number to a local variable.
pub const IINC: u8 = 132;

/// `i2l`: converts an int to a long.
pub const I2L: u8 = 133;

/// `dcmpg`: compares two doubles.
pub const DCMPG: u8 = 152;

/// `ifeq`: branches at zero.
pub const IFEQ: u8 = 153;

/// `jsr`: jumps to a subroutine.
pub const JSR: u8 = 168;

/// `ret`: returns from a subroutine.
pub const RET: u8 = 169;

/// `tableswitch`: jumps by a table of a range of numbers.
pub const TABLESWITCH: u8 = 170;

/// `lookupswitch`: jumps by pairs of a number and a place.
pub const LOOKUPSWITCH: u8 = 171;

/// `ireturn`: returns an int.
pub const IRETURN: u8 = 172;

/// `return`: returns nothing.
pub const RETURN: u8 = 177;

/// `getstatic`: reads a static field.
pub const GETSTATIC: u8 = 178;

/// `invokestatic`: calls a static method.
pub const INVOKESTATIC: u8 = 184;

/// `invokeinterface`: calls a method of an interface.
pub const INVOKEINTERFACE: u8 = 185;

/// `invokedynamic`: calls a call site.
pub const INVOKEDYNAMIC: u8 = 186;

/// `new`: makes an object.
pub const NEW: u8 = 187;

/// `newarray`: makes an array of a primitive type.
pub const NEWARRAY: u8 = 188;

/// `anewarray`: makes an array of references.
pub const ANEWARRAY: u8 = 189;

/// `arraylength`: the length of an array.
pub const ARRAYLENGTH: u8 = 190;

/// `athrow`: throws.
pub const ATHROW: u8 = 191;

/// `checkcast`: checks that an object is of a type.
pub const CHECKCAST: u8 = 192;

/// `instanceof`: whether an object is of a type.
pub const INSTANCEOF: u8 = 193;

/// `monitorenter`: enters a monitor.
pub const MONITORENTER: u8 = 194;

/// `monitorexit`: leaves a monitor.
pub const MONITOREXIT: u8 = 195;

/// `wide`: widens the index of the instruction after it.
pub const WIDE: u8 = 196;

/// `multianewarray`: makes an array of several dimensions.
pub const MULTIANEWARRAY: u8 = 197;

/// `ifnull`: branches at null.
pub const IFNULL: u8 = 198;

/// `ifnonnull`: branches if not null.
pub const IFNONNULL: u8 = 199;

/// `goto_w`: jumps by four bytes.
pub const GOTO_W: u8 = 200;

/// `jsr_w`: jumps to a subroutine by four bytes, the last of the opcodes.
pub const JSR_W: u8 = 201;
