ghost use Rattle.std.specs.Prelude.{◌≡◌, Ok, IfOk, IfErr, Some, true, false, replicate};
ghost use Rattle.mh_class_bytes.specs.Format.{Judges};
ghost use Rattle.mh_class_pool.specs.Answers.{Yields};
ghost use Rattle.mh_class_pool.specs.Entries.{slot};
ghost use Rattle.mh_class_pool.specs.declared.fault.ClassError.TheVariants.{NoMemory};
ghost use Rattle.mh_class_pool.specs.declared.entry.Entry.TheVariants.{Utf8};
ghost use Rattle.mh_class_pool.specs.References.{names, names_or_none, referred, good_member, good_name, good_handle, own_references};
ghost use Rattle.mh_class_pool.specs.References.{is_descriptor, good_method_name, good_descriptor, good_slot, good_references, AreDescriptors};

use crate::entry::{Entry, Kind};
use crate::fault::{ClassError, ClassFault, ClassKind};
use crate::pool::Pool;
use crate::reference_kinds;
use mh_values::descriptor_text;
use std::alloc::Global;

fn fault(at: usize, kind: ClassKind) -> Result<(), ClassFault>
    ensures { result ≡ Err (record { at = at; kind = kind }) }
{
    Err(ClassFault { at, kind })
}

/// That an index names an entry of the kind; the fault stands at `at`.
pub fn check_name(pool: &Pool<'_>, kind: Kind, index: u16, at: usize) -> Result<(), ClassFault>
    ensures { Judges (λ x. x) result (names pool.now kind index at) }
{
    match pool.get(index as usize) {
        None => fault(at, ClassKind::BadIndex),
        Some((_, entry)) => {
            if entry.is_kind(kind) {
                Ok(())
            } else {
                fault(at, ClassKind::WrongKind)
            }
        }
    }
}

/// That an index is 0 or names an entry of the kind.
pub fn check_name_or_none(
    pool: &Pool<'_>,
    kind: Kind,
    index: u16,
    at: usize,
) -> Result<(), ClassFault>
    ensures { Judges (λ x. x) result (names_or_none pool.now kind index at) }
{
    if index == 0 {
        Ok(())
    } else {
        check_name(pool, kind, index, at)
    }
}

fn referred(kind: u8) -> Kind
    ensures { result ≡ referred kind }
{
    match kind {
        0..=reference_kinds::PUT_STATIC => Kind::Fieldref,
        reference_kinds::INVOKE_VIRTUAL | reference_kinds::NEW_INVOKE_SPECIAL => Kind::Methodref,
        reference_kinds::INVOKE_INTERFACE => Kind::InterfaceMethodref,
        _ => Kind::AnyMethodref,
    }
}

fn check_member(pool: &Pool<'_>, at: usize, class: u16, name: u16) -> Result<(), ClassFault>
    ensures { Judges (λ x. x) result (good_member pool.now at class name) }
{
    check_name(pool, Kind::Class, class, at)?;
    check_name(pool, Kind::NameAndType, name, at)
}

fn check_texts(pool: &Pool<'_>, at: usize, name: u16, descriptor: u16) -> Result<(), ClassFault>
    ensures { Judges (λ x. x) result (good_name pool.now at name descriptor) }
{
    check_name(pool, Kind::Utf8, name, at)?;
    check_name(pool, Kind::Utf8, descriptor, at)
}

fn check_handle(pool: &Pool<'_>, at: usize, kind: u8, reference: u16) -> Result<(), ClassFault>
    ensures { Judges (λ x. x) result (good_handle pool.now at kind reference) }
{
    if kind < reference_kinds::GET_FIELD || kind > reference_kinds::INVOKE_INTERFACE {
        return fault(at, ClassKind::WrongKind);
    }
    check_name(pool, referred(kind), reference, at)
}

#[tactic(auto, unfolding(crate::specs::References::own_references))]
fn check_own(pool: &Pool<'_>, at: usize, entry: &Entry<'_>) -> Result<(), ClassFault>
    ensures { Judges (λ x. x) result (own_references pool.now at entry.now) }
{
    match entry {
        Entry::Class(name)
        | Entry::Str(name)
        | Entry::MethodType(name)
        | Entry::Module(name)
        | Entry::Package(name) => check_name(pool, Kind::Utf8, *name, at),
        Entry::Fieldref(class, name)
        | Entry::Methodref(class, name)
        | Entry::InterfaceMethodref(class, name) => check_member(pool, at, *class, *name),
        Entry::NameAndType(name, descriptor) => check_texts(pool, at, *name, *descriptor),
        Entry::MethodHandle(kind, reference) => check_handle(pool, at, *kind, *reference),
        Entry::Dynamic(_, name) | Entry::InvokeDynamic(_, name) => {
            check_name(pool, Kind::NameAndType, *name, at)
        }
        _ => Ok(()),
    }
}

fn check_text(at: usize, text: &[u8]) -> Result<(), ClassFault>
    ensures { Judges (λ x. x) result (is_descriptor (Some (at, Utf8 text.now))) }
{
    match descriptor_text(text) {
        Ok(()) => Ok(()),
        Err(_) => fault(at, ClassKind::BadDescriptor),
    }
}

fn check_slot(pool: &Pool<'_>, index: usize) -> Result<(), ClassFault>
    ensures { Judges (λ x. x) result (is_descriptor (slot pool.now index)) }
{
    match pool.get(index) {
        Some((at, Entry::Utf8(text))) => check_text(at, text.bytes()),
        _ => Ok(()),
    }
}

/// That the text at an index is a method descriptor. A text that was found to be one is marked, and
/// not looked at again, so that the work stays linear however many entries name it.
fn check_descriptor(pool: &Pool<'_>, marked: &mut Vec<bool>, index: u16) -> Result<(), ClassFault>
    requires { AreDescriptors pool.now marked.old.items }
    ensures finds { Judges (λ x. x) result (is_descriptor (slot pool.now index)) }
    ensures marked { AreDescriptors pool.now marked.new.items }
{
    let index = index as usize;
    if index < marked.len() && marked[index] {
        return Ok(());
    }
    check_slot(pool, index)?;
    if index < marked.len() {
        marked[index] = true;
    }
    Ok(())
}

/// That a name and type is one of a method.
#[tactic(auto, unfolding(crate::specs::References::good_method_name))]
fn check_method_name(pool: &Pool<'_>, marked: &mut Vec<bool>, index: u16) -> Result<(), ClassFault>
    requires { AreDescriptors pool.now marked.old.items }
    ensures finds { Judges (λ x. x) result (good_method_name pool.now (slot pool.now index)) }
    ensures marked { AreDescriptors pool.now marked.new.items }
{
    match pool.get(index as usize) {
        Some((at, Entry::NameAndType(name, descriptor))) => {
            check_texts(pool, at, name, descriptor)?;
            check_descriptor(pool, marked, descriptor)
        }
        _ => Ok(()),
    }
}

#[tactic(auto, unfolding(crate::specs::References::good_descriptor))]
fn check_entry_descriptor(
    pool: &Pool<'_>,
    marked: &mut Vec<bool>,
    entry: &Entry<'_>,
) -> Result<(), ClassFault>
    requires { AreDescriptors pool.now marked.old.items }
    ensures finds { Judges (λ x. x) result (good_descriptor pool.now entry.now) }
    ensures marked { AreDescriptors pool.now marked.new.items }
{
    match entry {
        Entry::MethodType(name) => check_descriptor(pool, marked, *name),
        Entry::Methodref(_, name)
        | Entry::InterfaceMethodref(_, name)
        | Entry::InvokeDynamic(_, name) => check_method_name(pool, marked, *name),
        _ => Ok(()),
    }
}

#[tactic(auto, unfolding(crate::specs::References::good_slot))]
fn check_index(pool: &Pool<'_>, marked: &mut Vec<bool>, index: usize) -> Result<(), ClassFault>
    requires { AreDescriptors pool.now marked.old.items }
    ensures finds { Judges (λ x. x) result (good_slot pool.now (slot pool.now index)) }
    ensures marked { AreDescriptors pool.now marked.new.items }
{
    match pool.get(index) {
        None => Ok(()),
        Some((at, entry)) => {
            check_own(pool, at, &entry)?;
            check_entry_descriptor(pool, marked, &entry)
        }
    }
}

/// Marks for this many texts; none was found to be a method descriptor so far.
fn unmarked(alloc: Global, len: usize) -> Result<Vec<bool>, ClassError>
    ensures items { IfOk result (λ v. v.items ≡ replicate len false) }
    ensures err { IfErr result (λ e. e ≡ NoMemory) }
{
    let mut marked = Vec::new(alloc);
    for _ in 0..len {
        marked.push(false)?;
    }
    Ok(marked)
}

/// The references of every entry, in order of index.
pub fn check_pool(alloc: Global, pool: &Pool<'_>) -> Result<(), ClassError>
    ensures { Yields (λ x. x) result (good_references pool.now) }
{
    let mut marked = unmarked(alloc, pool.len())?;
    for index in 0..pool.len() {
        check_index(pool, &mut marked, index)?;
    }
    Ok(())
}
