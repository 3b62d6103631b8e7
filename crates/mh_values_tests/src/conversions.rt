use mh_convert::{fit, misfit};
use mh_values::{ClassId, Classes, Num, Ty, Value};
use std::test::Fail;

const OBJECT: Ty = Ty::Class(ClassId::OBJECT);

/// Whether an int does not fit a class. What is bound is boxed, so no input has one to bind.
fn is_misfit(classes: &Classes) -> bool {
    let seven = Value::Prim(Num::I(7));
    let refused = misfit(&seven, OBJECT, classes).is_some();
    match fit(seven, OBJECT, classes) {
        Ok(_) => false,
        Err(exc) => refused && exc.class() == ClassId::CLASS_CAST,
    }
}

#[test]
fn an_int_does_not_fit_a_class(rt: HostRuntime) -> Result<(), Fail> {
    let classes = Classes::builtin(rt.alloc())?;
    assert!(rt; is_misfit(&classes));
    Ok(())
}
