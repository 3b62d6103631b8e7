use mh_base::NoMemory;
use mh_edit::{Key, apply, key_fits};
use mh_form::{Basic, FormBody};
use std::alloc::Global;
use std::test::Fail;

/// The body of the form that a key makes of nothing, if the key fits.
fn rooted(alloc: Global, key: &Key) -> Result<Option<FormBody>, NoMemory> {
    let nothing = FormBody::nothing(alloc);
    if !key_fits(&nothing, key) {
        return Ok(None);
    }
    Ok(Some(apply(alloc, &nothing, key)?))
}

#[test]
fn a_key_fits_the_body_that_has_what_it_takes(rt: HostRuntime) -> Result<(), Fail> {
    let identity = Key::IdentityRoot { basic: Basic::I };
    let Some(body) = rooted(rt.alloc(), &identity)? else {
        return Err("the identity's root does not fit".into());
    };
    assert!(rt; key_fits(&body, &Key::Bind { pos: 0 }));
    assert!(rt; !key_fits(&body, &Key::Bind { pos: 1 }));
    assert!(rt; !key_fits(&body, &identity));
    assert!(rt; rooted(rt.alloc(), &Key::Bind { pos: 0 })?.is_none());
    Ok(())
}
