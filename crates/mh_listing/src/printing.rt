ghost use Rattle.std.specs.Prelude.{◌≡◌, ◌<◌, ◌≤◌, ◌+◌, ◌^◌, ◌++◌, length, slice_get, OnOk, option_copied};
ghost use Rattle.std.specs.Fmt.{decimal};
ghost use Rattle.mh_listing.specs.Listing.{printed, handle_text, bootstrap_text, place_text, call_text, site_line, lines_from, count_line};

use itoa::Buffer;
use mh_base::NoMemory;
use mh_class_bytes::Text;
use mh_classfile::{ClassView, HandleRef, SiteView};
use mh_texts::show_text;
use std::alloc::Global;

// A text of a class file as it is printed.
fn push_text(alloc: Global, line: &mut Vec<u8>, text: &Text<'_>) -> Result<(), NoMemory>
    ensures { OnOk result (line.new.items ≡ line.old.items ++ printed text.now) }
{
    let chars = text.shown(alloc)?;
    let shown = show_text(alloc, &chars)?;
    line.extend_from_slice(&shown)?;
    Ok(())
}

fn push_number(line: &mut Vec<u8>, number: u32) -> Result<(), NoMemory>
    ensures { OnOk result (line.new.items ≡ line.old.items ++ decimal number) }
{
    let mut buffer = Buffer::new();
    line.extend_from_slice(buffer.format(number).as_bytes())?;
    Ok(())
}

// A method handle: its kind, and `OWNER.NAME:DESC`.
fn push_handle(alloc: Global, line: &mut Vec<u8>, handle: &HandleRef<'_>) -> Result<(), NoMemory>
    ensures { OnOk result (line.new.items ≡ line.old.items ++ handle_text handle.now) }
{
    push_number(line, handle.kind as u32)?;
    line.extend_from_slice(b" ")?;
    push_text(alloc, line, &handle.owner)?;
    line.extend_from_slice(b".")?;
    push_text(alloc, line, &handle.name)?;
    line.extend_from_slice(b":")?;
    push_text(alloc, line, &handle.descriptor)
}

// The bootstrap method of a site.
fn push_bootstrap(
    alloc: Global,
    line: &mut Vec<u8>,
    view: &ClassView<'_>,
    number: u16,
) -> Result<(), NoMemory>
    ensures { OnOk result
        (line.new.items ≡ line.old.items ++ bootstrap_text (slice_get view.now.bootstraps number)) }
{
    if number < view.bootstraps() {
        push_handle(alloc, line, &view.bootstrap(number))
    } else {
        Ok(())
    }
}

// The place of a site: `site K METHOD:DESC PC`.
fn push_place(
    alloc: Global,
    text: &mut Vec<u8>,
    number: u32,
    site: &SiteView<'_>,
) -> Result<(), NoMemory>
    ensures { OnOk result (text.new.items ≡ text.old.items ++ place_text number site.now) }
{
    text.extend_from_slice(b"site ")?;
    push_number(text, number)?;
    text.extend_from_slice(b" ")?;
    push_text(alloc, text, &site.method)?;
    text.extend_from_slice(b":")?;
    push_text(alloc, text, &site.method_descriptor)?;
    text.extend_from_slice(b" ")?;
    push_number(text, site.pc)
}

// What a site calls: `SITENAME TYPE`.
fn push_call(alloc: Global, text: &mut Vec<u8>, site: &SiteView<'_>) -> Result<(), NoMemory>
    ensures { OnOk result (text.new.items ≡ text.old.items ++ call_text site.now) }
{
    push_text(alloc, text, &site.name)?;
    text.extend_from_slice(b" ")?;
    push_text(alloc, text, &site.descriptor)
}

fn push_site(
    alloc: Global,
    text: &mut Vec<u8>,
    number: u32,
    view: &ClassView<'_>,
    site: &SiteView<'_>,
) -> Result<(), NoMemory>
    ensures { OnOk result (text.new.items ≡ text.old.items ++ site_line number view.now site.now) }
{
    push_place(alloc, text, number, site)?;
    text.extend_from_slice(b" ")?;
    push_bootstrap(alloc, text, view, site.bootstrap)?;
    text.extend_from_slice(b" ")?;
    push_call(alloc, text, site)?;
    text.extend_from_slice(b"\n")?;
    Ok(())
}

/// Puts a line for each call site of a class at the end of a text: `site K METHOD:DESC PC KIND
/// OWNER.NAME:DESC SITENAME TYPE`. K is counted from `first`; KIND and what follows it are the
/// site's bootstrap method handle.
pub fn push_sites(
    alloc: Global,
    text: &mut Vec<u8>,
    first: u32,
    view: &ClassView<'_>,
) -> Result<(), NoMemory>
    requires { first + length view.now.sites < 2 ^ 32 }
    ensures { OnOk result
        (text.new.items ≡ text.old.items ++ lines_from first view.now view.now.sites) }
{
    for k in 0..view.sites() {
        let site = view.site(k);
        push_site(alloc, text, first + k, view, &site)?;
    }
    Ok(())
}

/// Puts the last line of a listing at the end of a text: `sites N`.
pub fn push_count(text: &mut Vec<u8>, count: u32) -> Result<(), NoMemory>
    ensures { OnOk result (text.new.items ≡ text.old.items ++ count_line count) }
{
    text.extend_from_slice(b"sites ")?;
    push_number(text, count)?;
    text.extend_from_slice(b"\n")?;
    Ok(())
}
