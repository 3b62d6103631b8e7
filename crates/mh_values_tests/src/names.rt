use crate::bodies::{gives, naming, text};
use mh_convert::{Conv, RetConv};
use mh_form::{Field, Name, Slot};
use mh_values::{ClassId, Exc, Num, Primitive, Ty, Value};
use std::test::Fail;

const INT: Ty = Ty::Prim(Primitive::I);

const OBJECT: Ty = Ty::Class(ClassId::OBJECT);

const INTEGER: Ty = Ty::Class(ClassId::INTEGER);

const BOXING: Conv = Conv {
    from: INT,
    to: INTEGER,
};

const CASTING: Conv = Conv {
    from: OBJECT,
    to: INTEGER,
};

#[test]
fn gets(rt: HostRuntime) -> Result<(), Fail> {
    let field = Field::Val(Slot::J(5));
    let body = naming(rt.alloc(), Name::Get(0), 1)?;
    let gave = gives(rt.alloc(), &body, field, Slot::I(0))?;
    assert_eq!(rt; text(&gave), "j:5");
    Ok(())
}

#[test]
fn boxes(rt: HostRuntime) -> Result<(), Fail> {
    let field = Field::Conv(BOXING);
    let body = naming(rt.alloc(), Name::Conv(0, 0), 1)?;
    let gave = gives(rt.alloc(), &body, field, Slot::I(7))?;
    assert_eq!(rt; text(&gave), "I:7");
    Ok(())
}

#[test]
fn casts(rt: HostRuntime) -> Result<(), Fail> {
    let field = Field::Conv(CASTING);
    let boxed = Slot::L(Value::Boxed(Num::I(7)));
    let body = naming(rt.alloc(), Name::Cast(0, 0), 1)?;
    let gave = gives(rt.alloc(), &body, field, boxed)?;
    assert_eq!(rt; text(&gave), "I:7");
    Ok(())
}

#[test]
fn keeps_results(rt: HostRuntime) -> Result<(), Fail> {
    let field = Field::Ret(RetConv::Keep);
    let body = naming(rt.alloc(), Name::Ret(0, Some(0)), 1)?;
    let gave = gives(rt.alloc(), &body, field, Slot::J(5))?;
    assert_eq!(rt; text(&gave), "j:5");
    Ok(())
}

#[test]
fn raises(rt: HostRuntime) -> Result<(), Fail> {
    let exc = Exc::saying(rt.alloc(), ClassId::ARITHMETIC, b"/ by zero")?;
    let thrown = Slot::L(Value::Thrown(exc));
    let field = Field::Val(Slot::I(0));
    let body = naming(rt.alloc(), Name::Raise(0), 1)?;
    let gave = gives(rt.alloc(), &body, field, thrown)?;
    assert_eq!(rt;
        text(&gave),
        "java/lang/ArithmeticException s:/\\sby\\szero"
    );
    Ok(())
}
