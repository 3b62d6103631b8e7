use mh_base::Frozen;
use mh_leaf::{Kind, kind_does};
use mh_values::{ClassId, Num, Outcome, Value};
use std::test::Fail;

/// Whether ClassCastException was thrown.
fn is_cast(outcome: &Option<Outcome>) -> bool {
    match outcome {
        Some(Outcome::Throw(exc)) => exc.class() == ClassId::CLASS_CAST,
        _ => false,
    }
}

/// No leaf of these kinds takes an object, so no input has one.
#[test]
fn an_object_is_no_text(rt: HostRuntime) -> Result<(), Fail> {
    let args = [
        Value::Text(Frozen::new()),
        Value::Object(ClassId::OBJECT, 0),
    ];
    let object = [Value::Object(ClassId::OBJECT, 0)];
    let joined = kind_does(rt.alloc(), Kind::Concat, &args, 0)?;
    let measured = kind_does(rt.alloc(), Kind::Length, &object, 0)?;
    assert!(rt; is_cast(&joined) && is_cast(&measured));
    Ok(())
}

/// More leaf calls than any tree of an input makes.
#[test]
fn the_number_of_calls_wraps_as_an_int(rt: HostRuntime) -> Result<(), Fail> {
    let outcome = kind_does(rt.alloc(), Kind::Tick, &[], u32::MAX - 1)?;
    assert!(rt;
        matches!(
            outcome,
            Some(Outcome::Return(Some(Value::Prim(Num::I(-2)))))
        )
    );
    Ok(())
}
