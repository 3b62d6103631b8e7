use crate::ClassId;

/// The built-in classes that rules name, by their numbers.
impl ClassId {
    pub const OBJECT: ClassId = ClassId(0);

    pub const INTEGER: ClassId = ClassId(2);

    pub const LONG: ClassId = ClassId(3);

    pub const BYTE: ClassId = ClassId(4);

    pub const SHORT: ClassId = ClassId(5);

    pub const BOOLEAN: ClassId = ClassId(6);

    pub const CHARACTER: ClassId = ClassId(7);

    pub const STRING: ClassId = ClassId(8);

    pub const THROWABLE: ClassId = ClassId(9);

    pub const EXCEPTION: ClassId = ClassId(10);

    pub const RUNTIME_EXCEPTION: ClassId = ClassId(11);

    pub const ERROR: ClassId = ClassId(12);

    pub const BOOTSTRAP_METHOD_ERROR: ClassId = ClassId(14);

    pub const NO_CLASS_DEF_FOUND: ClassId = ClassId(15);

    pub const NO_SUCH_METHOD: ClassId = ClassId(17);

    pub const INTERNAL_ERROR: ClassId = ClassId(19);

    pub const WRONG_METHOD_TYPE: ClassId = ClassId(20);

    pub const CLASS_CAST: ClassId = ClassId(21);

    pub const NULL_POINTER: ClassId = ClassId(22);

    pub const ILLEGAL_ARGUMENT: ClassId = ClassId(23);

    pub const ARITHMETIC: ClassId = ClassId(24);

    pub const UNSUPPORTED_OPERATION: ClassId = ClassId(25);

    pub const STRING_CONCAT: ClassId = ClassId(26);

    pub const STACK_OVERFLOW: ClassId = ClassId(27);
}
