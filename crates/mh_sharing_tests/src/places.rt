ghost use Rattle.std.specs.Prelude.{◌≡◌, ◌++◌, ◌∷◌, [], OnOk};

use mh_base::NoMemory;
use mh_setonce::Places;
use std::test::Fail;

/// Adds an item, with memory taken for it.
fn put(places: &mut Places, hash: u32) -> Result<(), NoMemory>
    ensures { OnOk result (places.new.hashes ≡ places.old.hashes ++ hash ∷ []) }
{
    places.reserve()?;
    places.add(hash);
    Ok(())
}

#[test]
fn the_latest_place_of_a_hash_comes_first(rt: HostRuntime) -> Result<(), Fail> {
    let mut places = Places::new(rt.alloc());
    assert_eq!(rt; places.latest(5), None);
    put(&mut places, 5)?;
    put(&mut places, 13)?;
    put(&mut places, 5)?;
    assert_eq!(rt; places.latest(5), Some(2));
    assert_eq!(rt; places.earlier(2), Some(0));
    assert_eq!(rt; places.earlier(0), None);
    assert_eq!(rt; places.latest(21), None);
    Ok(())
}

#[test]
fn places_stay_found_as_the_buckets_grow(rt: HostRuntime) -> Result<(), Fail> {
    let mut places = Places::new(rt.alloc());
    for hash in 0..100 {
        put(&mut places, hash)?;
    }
    let copy = places.copy()?;
    assert_eq!(rt; places.latest(7), Some(7));
    assert_eq!(rt; copy.latest(99), Some(99));
    assert_eq!(rt; (copy.len(), copy.latest(100)), (100, None));
    Ok(())
}
