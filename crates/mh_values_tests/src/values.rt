ghost use Rattle.std.specs.Prelude.{◌<◌, length, OnOk};

use crate::bodies::text;
use mh_base::NoMemory;
use mh_values::{
    ClassId, Classes, DeclareError, DescriptorError, Ty, read_descriptor, read_type, read_types,
};
use std::alloc::Global;
use std::test::Fail;

/// The built-in classes by their numbers, each with the name of its superclass.
static PARENTS: [(&str, &str); 28] = [
    ("java/lang/Object", ""),
    ("java/lang/Number", "java/lang/Object"),
    ("java/lang/Integer", "java/lang/Number"),
    ("java/lang/Long", "java/lang/Number"),
    ("java/lang/Byte", "java/lang/Number"),
    ("java/lang/Short", "java/lang/Number"),
    ("java/lang/Boolean", "java/lang/Object"),
    ("java/lang/Character", "java/lang/Object"),
    ("java/lang/String", "java/lang/Object"),
    ("java/lang/Throwable", "java/lang/Object"),
    ("java/lang/Exception", "java/lang/Throwable"),
    ("java/lang/RuntimeException", "java/lang/Exception"),
    ("java/lang/Error", "java/lang/Throwable"),
    ("java/lang/LinkageError", "java/lang/Error"),
    ("java/lang/BootstrapMethodError", "java/lang/LinkageError"),
    ("java/lang/NoClassDefFoundError", "java/lang/LinkageError"),
    (
        "java/lang/IncompatibleClassChangeError",
        "java/lang/LinkageError",
    ),
    (
        "java/lang/NoSuchMethodError",
        "java/lang/IncompatibleClassChangeError",
    ),
    ("java/lang/VirtualMachineError", "java/lang/Error"),
    ("java/lang/InternalError", "java/lang/VirtualMachineError"),
    (
        "java/lang/invoke/WrongMethodTypeException",
        "java/lang/RuntimeException",
    ),
    ("java/lang/ClassCastException", "java/lang/RuntimeException"),
    (
        "java/lang/NullPointerException",
        "java/lang/RuntimeException",
    ),
    (
        "java/lang/IllegalArgumentException",
        "java/lang/RuntimeException",
    ),
    (
        "java/lang/ArithmeticException",
        "java/lang/RuntimeException",
    ),
    (
        "java/lang/UnsupportedOperationException",
        "java/lang/RuntimeException",
    ),
    (
        "java/lang/invoke/StringConcatException",
        "java/lang/Exception",
    ),
    (
        "java/lang/StackOverflowError",
        "java/lang/VirtualMachineError",
    ),
];

/// The first name that is not that of the class of its number, below its superclass.
fn first_wrong<'t>(classes: &Classes, rows: &[(&'t str, &'t str)]) -> Option<&'t str> {
    for (number, (name, parent)) in rows.iter().copied().enumerate() {
        let Some(class) = classes.find(name.as_bytes()) else {
            return Some(name);
        };
        if class.0 as usize != number
            || classes.name(class) != name.as_bytes()
            || classes.superclass(class) != classes.find(parent.as_bytes())
        {
            return Some(name);
        }
    }
    None
}

#[test]
fn built_in_classes_stand_below_their_superclasses(rt: HostRuntime) -> Result<(), Fail> {
    let classes = Classes::builtin(rt.alloc())?;
    assert_eq!(rt; first_wrong(&classes, &PARENTS), None);
    assert_eq!(rt; classes.len(), 28);
    Ok(())
}

/// The classes that have a constant, and their names.
static CONSTANTS: [(ClassId, &str); 21] = [
    (ClassId::OBJECT, "java/lang/Object"),
    (ClassId::INTEGER, "java/lang/Integer"),
    (ClassId::LONG, "java/lang/Long"),
    (ClassId::BOOLEAN, "java/lang/Boolean"),
    (ClassId::STRING, "java/lang/String"),
    (ClassId::THROWABLE, "java/lang/Throwable"),
    (ClassId::EXCEPTION, "java/lang/Exception"),
    (ClassId::RUNTIME_EXCEPTION, "java/lang/RuntimeException"),
    (ClassId::ERROR, "java/lang/Error"),
    (
        ClassId::BOOTSTRAP_METHOD_ERROR,
        "java/lang/BootstrapMethodError",
    ),
    (
        ClassId::NO_CLASS_DEF_FOUND,
        "java/lang/NoClassDefFoundError",
    ),
    (ClassId::NO_SUCH_METHOD, "java/lang/NoSuchMethodError"),
    (ClassId::INTERNAL_ERROR, "java/lang/InternalError"),
    (
        ClassId::WRONG_METHOD_TYPE,
        "java/lang/invoke/WrongMethodTypeException",
    ),
    (ClassId::CLASS_CAST, "java/lang/ClassCastException"),
    (ClassId::NULL_POINTER, "java/lang/NullPointerException"),
    (
        ClassId::ILLEGAL_ARGUMENT,
        "java/lang/IllegalArgumentException",
    ),
    (ClassId::ARITHMETIC, "java/lang/ArithmeticException"),
    (
        ClassId::UNSUPPORTED_OPERATION,
        "java/lang/UnsupportedOperationException",
    ),
    (
        ClassId::STRING_CONCAT,
        "java/lang/invoke/StringConcatException",
    ),
    (ClassId::STACK_OVERFLOW, "java/lang/StackOverflowError"),
];

#[test]
fn constants_name_their_classes(rt: HostRuntime) -> Result<(), Fail> {
    let classes = Classes::builtin(rt.alloc())?;
    for (class, name) in CONSTANTS.iter().copied() {
        assert_eq!(rt; text(classes.name(class)), name);
    }
    Ok(())
}

/// Declares this many classes with names of two bytes.
fn declare_many(classes: &mut Classes, count: u16) -> Result<(), DeclareError>
    requires { 0 < length classes.old }
    ensures { OnOk result (0 < length classes.new) }
{
    for number in 0..count {
        classes.declare(&number.to_be_bytes(), ClassId::OBJECT)?;
    }
    Ok(())
}

#[test]
fn at_most_1024_classes_are_declared(rt: HostRuntime) -> Result<(), Fail> {
    let mut classes = Classes::builtin(rt.alloc())?;
    declare_many(&mut classes, 1024)?;
    let more = classes.declare(b"one more", ClassId::OBJECT);
    let again = classes.declare(&[3, 255], ClassId::OBJECT);
    assert_eq!(rt; more, Err(DeclareError::TooMany));
    assert_eq!(rt; again, Err(DeclareError::Twice));
    assert_eq!(rt; classes.len(), 1052);
    Ok(())
}

/// What is wrong with a method descriptor, among the built-in classes.
fn refusal(alloc: Global, text: &str) -> Result<Option<DescriptorError>, NoMemory> {
    let classes = Classes::builtin(alloc)?;
    Ok(read_descriptor(alloc, text.as_bytes(), &classes).err())
}

/// Method descriptors, and what is wrong with each.
static REFUSALS: [(&str, Option<DescriptorError>); 9] = [
    ("(I[[J)V", Some(DescriptorError::Unsupported { at: 2 })),
    (
        "(Lno/Such;)V",
        Some(DescriptorError::NoClass { at: 2, len: 7 }),
    ),
    ("(I", Some(DescriptorError::Bad { at: 2 })),
    ("(V)V", Some(DescriptorError::Bad { at: 1 })),
    ("(D)V", Some(DescriptorError::Unsupported { at: 1 })),
    ("([[B)V", Some(DescriptorError::Unsupported { at: 1 })),
    (
        "(BLno/Such;)V",
        Some(DescriptorError::NoClass { at: 3, len: 7 }),
    ),
    ("(BC[S)S", None),
    ("(Z[Ljava/lang/String;)J", None),
];

#[test]
fn descriptors_are_refused_at_their_places(rt: HostRuntime) -> Result<(), Fail> {
    for (text, want) in REFUSALS.iter().copied() {
        assert_eq!(rt; refusal(rt.alloc(), text)?, want, "{text}");
    }
    Ok(())
}

const OBJECT: Ty = Ty::Class(ClassId::OBJECT);

/// As how many types a text is read, or why it is refused.
fn count_types(alloc: Global, text: &[u8], classes: &Classes) -> Result<usize, DescriptorError> {
    read_types(alloc, text, classes).map(|types| types.len())
}

#[test]
fn types_are_read_one_by_one(rt: HostRuntime) -> Result<(), Fail> {
    let classes = Classes::builtin(rt.alloc())?;
    let void = Err(DescriptorError::Bad { at: 0 });
    let unknown = Err(DescriptorError::NoClass { at: 3, len: 1 });
    assert_eq!(rt; read_type(b"Ljava/lang/Object;", &classes), Ok(OBJECT));
    assert_eq!(rt; read_type(b"V", &classes), void);
    assert_eq!(rt; count_types(rt.alloc(), b"I[ZJ", &classes), Ok(3));
    assert_eq!(rt; count_types(rt.alloc(), b"J[Lx;", &classes), unknown);
    Ok(())
}
