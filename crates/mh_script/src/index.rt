ghost use Rattle.std.specs.Prelude.{◌≡◌, ◌&&◌, if◌then◌else◌, ℕ, List, IfOk, Some, None};
ghost use Rattle.std.specs.Str.{bytes_eq};
ghost use Rattle.mh_base.specs.TextMaps.{at_text, WritesText};
ghost use Rattle.mh_script.specs.Index.{named_at, owned_at, FindsOneMore, FindsFirst, KnowsOneMore};

use mh_base::NoMemory;
use mh_leaves::Reference;
use std::alloc::Global;
use std::collections::BTreeMap;

/// Numbers by descriptors.
type ByDescriptor = BTreeMap<Vec<u8>, u32>;

/// Numbers by names and descriptors.
type ByName = BTreeMap<Vec<u8>, ByDescriptor>;

/// Numbers by owners, names and descriptors.
pub(crate) type ByOwner = BTreeMap<Vec<u8>, ByName>;

// The number of a name and a descriptor.
fn named(names: &ByName, name: &[u8], descriptor: &[u8]) -> Option<u32>
    ensures { result ≡ named_at names.now name.now descriptor.now }
{
    names.get(name)?.get(descriptor).copied()
}

/// The number of an owner, a name and a descriptor. It takes no memory.
pub(crate) fn owned(owners: &ByOwner, texts: Reference<'_>) -> Option<u32>
    ensures { result ≡ owned_at owners.now texts.entry.owner.now texts.entry.name.now
        texts.entry.descriptor.now }
{
    named(owners.get(texts.owner)?, texts.name, texts.descriptor)
}

// Takes out the entry of a name.
fn take_name(alloc: Global, names: &mut ByName, name: &[u8]) -> ByDescriptor
    ensures rest { WritesText names.old names.new name.now None }
    ensures taken { (d : List ℕ) → at_text result d ≡ named_at names.old name.now d }
{
    match names.remove(name) {
        Some(descriptors) => descriptors,
        None => BTreeMap::new(alloc),
    }
}

// Takes out the entry of an owner.
fn take_owner(alloc: Global, owners: &mut ByOwner, owner: &[u8]) -> ByName
    ensures rest { WritesText owners.old owners.new owner.now None }
    ensures taken { (n d : List ℕ) → named_at result n d ≡ owned_at owners.old owner.now n d }
{
    match owners.remove(owner) {
        Some(names) => names,
        None => BTreeMap::new(alloc),
    }
}

// Gives a descriptor its number.
fn with_descriptor(
    alloc: Global,
    mut descriptors: ByDescriptor,
    descriptor: &[u8],
    number: u32,
) -> Result<ByDescriptor, NoMemory>
    ensures { IfOk result (λ new. (d : List ℕ) → at_text new d
        ≡ (if bytes_eq descriptor.now d then Some number else at_text descriptors d)) }
{
    descriptors.insert(Vec::from_slice(alloc, descriptor)?, number)?;
    Ok(descriptors)
}

// Gives a name and a descriptor their number.
fn with_name(
    alloc: Global,
    mut names: ByName,
    name: &[u8],
    descriptor: &[u8],
    number: u32,
) -> Result<ByName, NoMemory>
    ensures { IfOk result (λ new. (n d : List ℕ) → named_at new n d
        ≡ (if bytes_eq name.now n && bytes_eq descriptor.now d then Some number
        else named_at names n d)) }
{
    let descriptors = take_name(alloc, &mut names, name);
    let descriptors = with_descriptor(alloc, descriptors, descriptor, number)?;
    names.insert(Vec::from_slice(alloc, name)?, descriptors)?;
    Ok(names)
}

// Gives an owner, a name and a descriptor their number.
fn with_owner(
    alloc: Global,
    mut owners: ByOwner,
    texts: Reference<'_>,
    number: u32,
) -> Result<ByOwner, NoMemory>
    ensures found { IfOk result (λ new. FindsOneMore owners new texts.entry.owner.now
        texts.entry.name.now texts.entry.descriptor.now number) }
    ensures owners { IfOk result (λ new. KnowsOneMore owners new texts.entry.owner.now) }
{
    let names = take_owner(alloc, &mut owners, texts.owner);
    let names = with_name(alloc, names, texts.name, texts.descriptor, number)?;
    owners.insert(Vec::from_slice(alloc, texts.owner)?, names)?;
    Ok(owners)
}

/// Gives an owner, a name and a descriptor their number, unless they have one.
pub(crate) fn with_number(
    alloc: Global,
    owners: ByOwner,
    texts: Reference<'_>,
    number: u32,
) -> Result<ByOwner, NoMemory>
    ensures found { IfOk result (λ new. FindsFirst owners new texts.entry.owner.now
        texts.entry.name.now texts.entry.descriptor.now number) }
    ensures owners { IfOk result (λ new. KnowsOneMore owners new texts.entry.owner.now) }
{
    if owned(&owners, texts).is_some() {
        return Ok(owners);
    }
    Ok(with_owner(alloc, owners, texts, number)?)
}
