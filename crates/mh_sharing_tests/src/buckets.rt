use crate::types::{INT, method};
use mh_intern::{InternError, TypeTable};
use mh_values::{ClassId, Comp, Primitive, Ty};
use std::alloc::Global;
use std::sync::Wait;
use std::test::Fail;

const BOOLEAN: Ty = Ty::Prim(Primitive::Z);

const LONG: Ty = Ty::Prim(Primitive::J);

const OBJECT: Ty = Ty::Class(ClassId::OBJECT);

const STRING: Ty = Ty::Class(ClassId::STRING);

const LAST_CLASS: Ty = Ty::Class(ClassId(4294967295));

// A method type, and the bucket that was worked out by hand from the codes of its types.
struct Row {
    name: &'static str,
    params: &'static [Ty],
    ret: Option<Ty>,
    bucket: u32,
}

const ROWS: [Row; 19] = [
    Row {
        name: "()V",
        params: &[],
        ret: None,
        bucket: 7,
    },
    Row {
        name: "()Z",
        params: &[],
        ret: Some(BOOLEAN),
        bucket: 1,
    },
    Row {
        name: "()I",
        params: &[],
        ret: Some(INT),
        bucket: 5,
    },
    Row {
        name: "()J",
        params: &[],
        ret: Some(LONG),
        bucket: 6,
    },
    Row {
        name: "()Object",
        params: &[],
        ret: Some(OBJECT),
        bucket: 8,
    },
    Row {
        name: "()class 28",
        params: &[],
        ret: Some(Ty::Class(ClassId(28))),
        bucket: 0,
    },
    Row {
        name: "()class 1000",
        params: &[],
        ret: Some(Ty::Class(ClassId(1000))),
        bucket: 24,
    },
    Row {
        name: "()last class",
        params: &[],
        ret: Some(LAST_CLASS),
        bucket: 6,
    },
    Row {
        name: "()[I",
        params: &[],
        ret: Some(Ty::Array(Comp::Prim(Primitive::I))),
        bucket: 19,
    },
    Row {
        name: "()[last class",
        params: &[],
        ret: Some(Ty::Array(Comp::Class(ClassId(4294967295)))),
        bucket: 21,
    },
    Row {
        name: "(I)V",
        params: &[INT],
        ret: None,
        bucket: 30,
    },
    Row {
        name: "(II)V",
        params: &[INT, INT],
        ret: None,
        bucket: 39,
    },
    Row {
        name: "(IIII)V",
        params: &[INT, INT, INT, INT],
        ret: None,
        bucket: 7,
    },
    Row {
        name: "(J)J",
        params: &[LONG],
        ret: Some(LONG),
        bucket: 0,
    },
    Row {
        name: "(Z)Z",
        params: &[BOOLEAN],
        ret: Some(BOOLEAN),
        bucket: 32,
    },
    Row {
        name: "(String)V",
        params: &[STRING],
        ret: None,
        bucket: 49,
    },
    Row {
        name: "([Object)I",
        params: &[Ty::Array(Comp::Class(ClassId::OBJECT))],
        ret: Some(INT),
        bucket: 52,
    },
    Row {
        name: "(IJ)I",
        params: &[INT, LONG],
        ret: Some(INT),
        bucket: 38,
    },
    Row {
        name: "(JI)I",
        params: &[LONG, INT],
        ret: Some(INT),
        bucket: 4,
    },
];

/// The slot that a new table gives the type.
fn first_slot<R: Wait>(rt: &R, alloc: Global, row: &Row) -> Result<u32, InternError> {
    let (table, mut seat) = TypeTable::new(alloc)?;
    let held = table.intern(rt, alloc, &mut seat, method(alloc, row.params, row.ret)?)?;
    Ok(held.slot())
}

#[test]
fn a_type_gets_the_first_slot_of_its_bucket(rt: HostRuntime) -> Result<(), Fail> {
    let alloc = rt.alloc();
    for row in &ROWS {
        let slot = first_slot(&rt, alloc, row)?;
        assert_eq!(rt; (row.name, slot), (row.name, 32 * row.bucket));
    }
    Ok(())
}
