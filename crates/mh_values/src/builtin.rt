ghost use Rattle.std.specs.Prelude.{◌≡◌, ◌<◌, ◌^◌, [], ◌∷◌, ◌++◌, length, IfOk, OnOk, IsTrue};
ghost use Rattle.mh_values.specs.Builtin.{class_of_row, classes_of_rows, may_follow, may_follow_each};
ghost use Rattle.mh_values.specs.Class.{builtin_classes};
ghost use Rattle.mh_values.specs.Classes.{AreOrdered};

use crate::ClassId;
use crate::registry::Registry;
use mh_base::NoMemory;
use std::alloc::Global;

/// The classes that are built in, by their numbers from 0, each with the number of its superclass
/// (package `java.lang`).
const BUILTIN: [(&str, Option<u32>); 28] = [
    ("java/lang/Object", None),
    ("java/lang/Number", Some(0)),
    ("java/lang/Integer", Some(1)),
    ("java/lang/Long", Some(1)),
    ("java/lang/Byte", Some(1)),
    ("java/lang/Short", Some(1)),
    ("java/lang/Boolean", Some(0)),
    ("java/lang/Character", Some(0)),
    ("java/lang/String", Some(0)),
    ("java/lang/Throwable", Some(0)),
    ("java/lang/Exception", Some(9)),
    ("java/lang/RuntimeException", Some(10)),
    ("java/lang/Error", Some(9)),
    ("java/lang/LinkageError", Some(12)),
    ("java/lang/BootstrapMethodError", Some(13)),
    ("java/lang/NoClassDefFoundError", Some(13)),
    ("java/lang/IncompatibleClassChangeError", Some(13)),
    ("java/lang/NoSuchMethodError", Some(16)),
    ("java/lang/VirtualMachineError", Some(12)),
    ("java/lang/InternalError", Some(18)),
    ("java/lang/invoke/WrongMethodTypeException", Some(11)),
    ("java/lang/ClassCastException", Some(11)),
    ("java/lang/NullPointerException", Some(11)),
    ("java/lang/IllegalArgumentException", Some(11)),
    ("java/lang/ArithmeticException", Some(11)),
    ("java/lang/UnsupportedOperationException", Some(11)),
    ("java/lang/invoke/StringConcatException", Some(10)),
    ("java/lang/StackOverflowError", Some(18)),
];

/// Puts the class of a row after the others.
fn add_row(registry: &mut Registry, name: &str, superclass: Option<u32>) -> Result<(), NoMemory>
    requires new { IsTrue (may_follow registry.old (class_of_row name.now superclass)) }
    requires few { length registry.old < 2 ^ 32 }
    ensures ok { OnOk result (registry.new
        ≡ registry.old ++ class_of_row name.now superclass ∷ []) }
    ensures ordered { OnOk result (AreOrdered registry.new) }
{
    let superclass = match superclass {
        None => None,
        Some(number) => Some(ClassId(number)),
    };
    registry.add(name.as_bytes(), superclass)
}

/// The classes of rows, by the numbers of the rows.
fn registered(alloc: Global, rows: &[(&str, Option<u32>)]) -> Result<Registry, NoMemory>
    requires new { IsTrue (may_follow_each [] (classes_of_rows rows.now)) }
    requires few { length rows.now < 2 ^ 32 }
    ensures ok { IfOk result (λ registry. registry ≡ classes_of_rows rows.now) }
    ensures ordered { IfOk result AreOrdered }
{
    let mut registry = Registry::new(alloc);
    for (name, superclass) in rows {
        add_row(&mut registry, *name, *superclass)?;
    }
    Ok(registry)
}

/// The built-in classes alone.
pub(crate) fn builtin_registry(alloc: Global) -> Result<Registry, NoMemory>
    ensures ok { IfOk result (λ registry. registry ≡ builtin_classes) }
    ensures ordered { IfOk result AreOrdered }
{
    registered(alloc, &BUILTIN)
}
