use mh_class_bytes::Cursor;
use mh_class_pool::{
    ClassError, ClassFault, ClassKind, Entry, Kind, Pool, check_name, check_pool, read_pool, u1,
};
use std::test::*;

/// A byte that stands before the pool, and a pool of the count 9: the texts `C`, `f` and `()V`,
/// class `C`, a name and type, a method, and a Long.
const POOL: &[u8] = b"\0\
    \x01\0\x01C\x01\0\x01f\x01\0\x03()V\x07\0\x01\x0C\0\x02\0\x03\x0A\0\x04\0\x05\
    \x05\0\0\0\0\0\0\0\x07";

/// Whether the entries of [`POOL`] are these.
fn has_entries(pool: &Pool<'_>) -> bool {
    pool.len() == 9
        && matches!(pool.get(6), Some((23, Entry::Methodref(4, 5))))
        && matches!(pool.get(7), Some((28, Entry::Long(0, 7))))
        && pool.get(8).is_none()
        && pool.is_text(3, b"()V")
}

/// Whether class `C` is one by its index, and its name is none.
fn has_class(pool: &Pool<'_>) -> bool {
    check_name(pool, Kind::Class, 4, 0).is_ok()
        && matches!(
            check_name(pool, Kind::Class, 1, 5),
            Err(ClassFault {
                at: 5,
                kind: ClassKind::WrongKind
            })
        )
}

#[test]
fn a_pool(rt: HostRuntime) -> Result<(), Fail> {
    let mut cursor = Cursor::new(POOL);
    let _before = u1(&mut cursor, ClassKind::Truncated)?;
    let pool = read_pool(rt.alloc(), 9, &mut cursor)?;
    check_pool(rt.alloc(), &pool)?;
    assert!(rt; has_entries(&pool), "{} entries", pool.len());
    assert!(rt;
        has_class(&pool),
        "{:?}",
        check_name(&pool, Kind::Class, 4, 0)
    );
    Ok(())
}

#[test]
fn pools_cut_short(rt: HostRuntime) -> Result<(), Fail> {
    for len in 1..POOL.len() {
        if let Some(bytes) = POOL.get(..len) {
            let mut cursor = Cursor::new(bytes);
            let _before = u1(&mut cursor, ClassKind::Truncated)?;
            let error = read_pool(rt.alloc(), 9, &mut cursor).err();
            let is_cut = matches!(error, Some(ClassError::Fault(_)));
            assert!(rt; is_cut, "{len} bytes: {error:?}");
        }
    }
    Ok(())
}
