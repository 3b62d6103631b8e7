use mh_leaves::How::{Any, Static, Virtual};
use mh_leaves::Missing::{NoClass, NoMethod};
use mh_leaves::{How, Missing, read_manifest};
use mh_values::LeafId;
use std::test::Fail;

/// The owner, name and descriptor of a leaf, how it is called, and what is found.
type Row = (
    &'static str,
    &'static str,
    &'static str,
    How,
    Result<LeafId, Missing>,
);

static FOUND: [Row; 8] = [
    ("a", "f", "(II)I", Any, Ok(LeafId(0))),
    ("a", "f", "(II)I", Static, Ok(LeafId(0))),
    ("a", "f", "(I)I", Virtual, Ok(LeafId(1))),
    ("a", "f", "(I)I", Static, Err(NoMethod)),
    ("a", "f", "(La;I)I", Virtual, Err(NoMethod)),
    ("a", "g", "(II)I", Any, Err(NoMethod)),
    ("java/lang/Object", "f", "(II)I", Any, Err(NoMethod)),
    ("b", "f", "(II)I", Any, Err(NoClass)),
];

#[test]
fn leaves_are_found_by_their_texts(rt: HostRuntime) -> Result<(), Fail> {
    let manifest = b"class a java/lang/Object\nstatic a f (II)I iadd\nvirtual a f (I)I tick\n";
    let leaves = read_manifest(rt.alloc(), manifest)?;
    for row in FOUND.iter().copied() {
        let (owner, name, descriptor, how, want) = row;
        let found = leaves.find(
            owner.as_bytes(),
            name.as_bytes(),
            descriptor.as_bytes(),
            how,
        );
        assert_eq!(rt; found, want, "{owner}.{name}:{descriptor} {how:?}");
    }
    Ok(())
}
