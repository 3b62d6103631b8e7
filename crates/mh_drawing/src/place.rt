ghost use Rattle.std.specs.Prelude.{◌≡◌, ◌++◌, ◌<◌, length, slice_get, IfOk, OnOk, Some};
ghost use Rattle.mh_listing.specs.Listing.{printed};
ghost use Rattle.mh_drawing.specs.Places.{place_of, places_of};

use crate::label::push;
use mh_base::{NoMemory, Seq};
use mh_class_bytes::Text;
use mh_classfile::{ClassView, SiteView};
use mh_texts::{show_name, show_text};
use std::alloc::Global;

/// The place of a call site, in texts as they are printed: the class file, the method that has it
/// with its descriptor, and the site's name and type.
#[derive(Drop)]
pub struct Place {
    pub class: Seq<u8>,
    pub method: Seq<u8>,
    pub ty: Seq<u8>,
}

fn push_text(alloc: Global, line: &mut Vec<u8>, text: &Text<'_>) -> Result<(), NoMemory>
    ensures { OnOk result (line.new.items ≡ line.old.items ++ printed text.now) }
{
    let chars = text.shown(alloc)?;
    let shown = show_text(alloc, &chars)?;
    push(line, &shown)
}

// Two texts with a byte between them.
fn joined(
    alloc: Global,
    one: &Text<'_>,
    between: &[u8],
    other: &Text<'_>,
) -> Result<Seq<u8>, NoMemory>
    ensures { IfOk result
        (λ all. all ≡ printed one.now ++ between.now ++ printed other.now) }
{
    let mut line = Vec::new(alloc);
    push_text(alloc, &mut line, one)?;
    push(&mut line, between)?;
    push_text(alloc, &mut line, other)?;
    Ok(Seq::from_vec(line))
}

fn place_of(alloc: Global, name: &str, site: &SiteView<'_>) -> Result<Place, NoMemory>
    ensures { IfOk result (λ place. place ≡ place_of name.now site.now) }
{
    Ok(Place {
        class: Seq::from_vec(show_name(alloc, name.as_bytes())?),
        method: joined(alloc, &site.method, b":", &site.method_descriptor)?,
        ty: joined(alloc, &site.name, b" ", &site.descriptor)?,
    })
}

/// Puts the places of a class's call sites after the others. The class is that of the named file.
pub fn push_places(
    alloc: Global,
    places: &mut Seq<Place>,
    name: &str,
    view: &ClassView<'_>,
) -> Result<(), NoMemory>
    ensures { OnOk result (places.new ≡ places.old ++ places_of name.now view.now.sites) }
{
    for k in 0..view.sites() {
        let site = view.site(k);
        places.push(place_of(alloc, name, &site)?)?;
    }
    Ok(())
}
