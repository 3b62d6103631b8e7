//! Class files of one call site.

ghost use Rattle.std.specs.Prelude.{OnOk, IfOk};
ghost use Rattle.mh_class_tests.specs.LinkedFiles.{Extends};

use std::alloc::{AllocError, Global};

/// Constants of a pool after the first 19, and how many they are: the last of them, if there is
/// one, is the static argument.
#[derive(Clone, Copy)]
pub(crate) struct Constants(pub(crate) &'static [u8], pub(crate) u8);

/// No static argument.
pub(crate) const NONE: Constants = Constants(b"", 0);

/// A call site, its bootstrap method, whose descriptor is `()V`, and a static argument.
#[derive(Clone, Copy)]
pub(crate) struct Site {
    /// The kind of the bootstrap method's handle.
    pub(crate) kind: u8,
    pub(crate) owner: &'static str,
    pub(crate) method: &'static str,
    pub(crate) name: &'static [u8],
    pub(crate) ty: &'static str,
    pub(crate) argument: Constants,
}

/// The site `f ()V` that the script `made/Boot.link` links.
pub(crate) const LINKED: Site = Site {
    kind: 6,
    owner: "made/Boot",
    method: "link",
    name: b"f",
    ty: "()V",
    argument: NONE,
};

/// Magic and versions.
const HEAD: &[u8] = b"\xCA\xFE\xBA\xBE\0\0\0=";

/// The first eight constants: the class `made/Main`, its superclass and names.
const NAMES: &[u8] = b"\x01\0\x09made/Main\x07\0\x01\x01\0\x10java/lang/Object\x07\0\x03\
    \x01\0\x03run\x01\0\x03()V\x01\0\x04Code\x01\0\x10BootstrapMethods";

/// The class, and the method `run()V` with the call site.
const MEMBERS: &[u8] = b"\0\x21\0\x02\0\x04\0\0\0\0\0\x01\0\x09\0\x05\0\x06\0\x01\
    \0\x07\0\0\0\x12\0\x02\0\0\0\0\0\x06\xBA\0\x13\0\0\xB1\0\0\0\0";

/// A `Utf8` of these bytes.
fn push_utf8(file: &mut Vec<u8>, text: &[u8]) -> Result<(), AllocError>
    ensures { OnOk result (Extends file.old.items file.new.items) }
{
    file.push(1)?;
    file.extend_from_slice(&(text.len() as u64).to_be_bytes()[6..])?;
    file.extend_from_slice(text)
}

/// The constants from the ninth on, up to the bootstrap method's handle.
fn push_handle(file: &mut Vec<u8>, site: Site) -> Result<(), AllocError>
    ensures { OnOk result (Extends file.old.items file.new.items) }
{
    push_utf8(file, site.owner.as_bytes())?;
    file.extend_from_slice(b"\x07\0\x09")?;
    push_utf8(file, site.method.as_bytes())?;
    push_utf8(file, b"()V")?;
    file.extend_from_slice(b"\x0C\0\x0B\0\x0C\x0A\0\x0A\0\x0D\x0F")?;
    file.push(site.kind)?;
    file.extend_from_slice(b"\0\x0E")
}

/// The constants after it: what the site calls, and its static argument.
fn push_site(file: &mut Vec<u8>, site: Site) -> Result<(), AllocError>
    ensures { OnOk result (Extends file.old.items file.new.items) }
{
    push_utf8(file, site.name)?;
    push_utf8(file, site.ty.as_bytes())?;
    file.extend_from_slice(b"\x0C\0\x10\0\x11\x12\0\0\0\x12")?;
    file.extend_from_slice(site.argument.0)
}

/// The attribute `BootstrapMethods`, of one method.
fn push_bootstrap(file: &mut Vec<u8>, count: u8) -> Result<(), AllocError>
    ensures { OnOk result (Extends file.old.items file.new.items) }
{
    file.extend_from_slice(b"\0\x01\0\x08\0\0\0")?;
    if count == 0 {
        return file.extend_from_slice(b"\x06\0\x01\0\x0F\0\0");
    }
    file.extend_from_slice(b"\x08\0\x01\0\x0F\0\x01\0")?;
    file.push(count.wrapping_add(19))?;
    Ok(())
}

/// The class `made/Main` with one call site: magic and versions, and what stands after them.
pub(crate) fn class_file(alloc: Global, site: Site) -> Result<Vec<u8>, AllocError>
    ensures { IfOk result (λ file. Extends HEAD.now file.items) }
{
    let mut file = Vec::new(alloc);
    file.extend_from_slice(HEAD)?;
    file.push(0)?;
    file.push(site.argument.1.wrapping_add(20))?;
    file.extend_from_slice(NAMES)?;
    push_handle(&mut file, site)?;
    push_site(&mut file, site)?;
    file.extend_from_slice(MEMBERS)?;
    push_bootstrap(&mut file, site.argument.1)?;
    Ok(file)
}
