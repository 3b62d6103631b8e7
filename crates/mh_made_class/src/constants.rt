ghost use Rattle.std.specs.Prelude.{◌≡◌, ◌<◌, ◌^◌, ◌++◌, length, OnOk};
ghost use Rattle.std.specs.List.{flat_map};
ghost use Rattle.mh_class_pool.specs.declared.entry.Entry.TheVariants.{Utf8, Integer, Long, Class, Str, Methodref, NameAndType, MethodHandle, InvokeDynamic};
ghost use Rattle.mh_class_pool.specs.ReferenceKinds.{REF_invokeStatic};
ghost use Rattle.mh_made_class.specs.Sites.{IsShortAscii, IsMakeableArgument};
ghost use Rattle.mh_made_class.specs.Layout.{placed_arguments};
ghost use Rattle.mh_made_class.specs.Constants.{entry_bytes, class_entries, member_entries, bootstrap_entries, common_entries, argument_entries, handle_entries, call_entries, site_entries};

use crate::layout::{Placed, PlacedArg, place_arguments};
use crate::numbers::{push_u2, push_u4};
use crate::site::MadeArg;
use mh_base::NoMemory;
use mh_class_pool::{reference_kinds, tags};
use mh_classfile::attribute_names::{BOOTSTRAP_METHODS, CODE};
use mh_values::Str;
use std::alloc::Global;

/// The type of each bootstrap method.
const BOOTSTRAP_TYPE: &[u8] =
    b"(Ljava/lang/invoke/MethodHandles$Lookup;Ljava/lang/String;Ljava/lang/invoke/MethodType;)Ljava/lang/invoke/CallSite;";

/// A text of ASCII bytes.
#[tactic(auto, unfolding(crate::specs::Constants::entry_bytes))]
fn push_word(file: &mut Vec<u8>, word: &[u8]) -> Result<(), NoMemory>
    requires { length word.now < 2 ^ 16 }
    ensures { OnOk result (file.new.items ≡ file.old.items ++ entry_bytes (Utf8 word.now)) }
{
    file.push(tags::UTF8)?;
    push_u2(file, word.len())?;
    file.extend_from_slice(word)?;
    Ok(())
}

/// The bytes of a text, which are its characters.
fn push_chars(file: &mut Vec<u8>, text: &[char]) -> Result<(), NoMemory>
    requires { IsShortAscii text.now }
    ensures { OnOk result (file.new.items ≡ file.old.items ++ text.now) }
{
    for c in text {
        file.push(*c as u8)?;
    }
    Ok(())
}

#[tactic(auto, unfolding(crate::specs::Constants::entry_bytes))]
fn push_text(file: &mut Vec<u8>, text: &Str) -> Result<(), NoMemory>
    requires { IsShortAscii text.now }
    ensures { OnOk result (file.new.items ≡ file.old.items ++ entry_bytes (Utf8 text.now)) }
{
    file.push(tags::UTF8)?;
    push_u2(file, text.len())?;
    push_chars(file, text.as_slice())
}

#[tactic(auto, unfolding(crate::specs::Constants::entry_bytes))]
fn push_class(file: &mut Vec<u8>, name: usize) -> Result<(), NoMemory>
    requires { name < 2 ^ 16 }
    ensures { OnOk result (file.new.items ≡ file.old.items ++ entry_bytes (Class name)) }
{
    file.push(tags::CLASS)?;
    push_u2(file, name)
}

#[tactic(auto, unfolding(crate::specs::Constants::entry_bytes))]
fn push_string(file: &mut Vec<u8>, text: usize) -> Result<(), NoMemory>
    requires { text < 2 ^ 16 }
    ensures { OnOk result (file.new.items ≡ file.old.items ++ entry_bytes (Str text)) }
{
    file.push(tags::STRING)?;
    push_u2(file, text)
}

#[tactic(auto, unfolding(crate::specs::Constants::entry_bytes))]
fn push_integer(file: &mut Vec<u8>, bits: u32) -> Result<(), NoMemory>
    ensures { OnOk result (file.new.items ≡ file.old.items ++ entry_bytes (Integer bits)) }
{
    file.push(tags::INTEGER)?;
    push_u4(file, bits as usize)
}

#[tactic(auto, unfolding(crate::specs::Constants::entry_bytes))]
fn push_long(file: &mut Vec<u8>, high: u32, low: u32) -> Result<(), NoMemory>
    ensures { OnOk result (file.new.items ≡ file.old.items ++ entry_bytes (Long high low)) }
{
    file.push(tags::LONG)?;
    push_u4(file, high as usize)?;
    push_u4(file, low as usize)
}

#[tactic(auto, unfolding(crate::specs::Constants::entry_bytes))]
fn push_method(file: &mut Vec<u8>, class: usize, name: usize) -> Result<(), NoMemory>
    requires class { class < 2 ^ 16 }
    requires name { name < 2 ^ 16 }
    ensures { OnOk result
        (file.new.items ≡ file.old.items ++ entry_bytes (Methodref class name)) }
{
    file.push(tags::METHODREF)?;
    push_u2(file, class)?;
    push_u2(file, name)
}

#[tactic(auto, unfolding(crate::specs::Constants::entry_bytes))]
fn push_name(file: &mut Vec<u8>, name: usize, descriptor: usize) -> Result<(), NoMemory>
    requires name { name < 2 ^ 16 }
    requires descriptor { descriptor < 2 ^ 16 }
    ensures { OnOk result
        (file.new.items ≡ file.old.items ++ entry_bytes (NameAndType name descriptor)) }
{
    file.push(tags::NAME_AND_TYPE)?;
    push_u2(file, name)?;
    push_u2(file, descriptor)
}

#[tactic(auto, unfolding(crate::specs::Constants::entry_bytes))]
fn push_handle(file: &mut Vec<u8>, method: usize) -> Result<(), NoMemory>
    requires { method < 2 ^ 16 }
    ensures { OnOk result (file.new.items
        ≡ file.old.items ++ entry_bytes (MethodHandle REF_invokeStatic method)) }
{
    file.push(tags::METHOD_HANDLE)?;
    file.push(reference_kinds::INVOKE_STATIC)?;
    push_u2(file, method)
}

#[tactic(auto, unfolding(crate::specs::Constants::entry_bytes))]
fn push_dynamic(file: &mut Vec<u8>, bootstrap: usize, name: usize) -> Result<(), NoMemory>
    requires bootstrap { bootstrap < 2 ^ 16 }
    requires name { name < 2 ^ 16 }
    ensures { OnOk result
        (file.new.items ≡ file.old.items ++ entry_bytes (InvokeDynamic bootstrap name)) }
{
    file.push(tags::INVOKE_DYNAMIC)?;
    push_u2(file, bootstrap)?;
    push_u2(file, name)
}

/// The class and its superclass.
fn push_classes(file: &mut Vec<u8>) -> Result<(), NoMemory>
    ensures { OnOk result
        (file.new.items ≡ file.old.items ++ flat_map entry_bytes class_entries) }
{
    push_word(file, b"made/Main")?;
    push_class(file, 1)?;
    push_word(file, b"java/lang/Object")?;
    push_class(file, 3)
}

/// The name and the descriptor of the method, and the names of two attributes.
fn push_members(file: &mut Vec<u8>) -> Result<(), NoMemory>
    ensures { OnOk result
        (file.new.items ≡ file.old.items ++ flat_map entry_bytes member_entries) }
{
    push_word(file, b"run")?;
    push_word(file, b"()V")?;
    push_word(file, CODE)?;
    push_word(file, BOOTSTRAP_METHODS)
}

/// The class and the type of the bootstrap methods, and the name of each call site.
fn push_bootstrap_names(file: &mut Vec<u8>) -> Result<(), NoMemory>
    ensures { OnOk result
        (file.new.items ≡ file.old.items ++ flat_map entry_bytes bootstrap_entries) }
{
    push_word(file, b"made/Boot")?;
    push_class(file, 9)?;
    push_word(file, BOOTSTRAP_TYPE)?;
    push_word(file, b"f")
}

/// The entries that each made class has.
pub(crate) fn push_common(file: &mut Vec<u8>) -> Result<(), NoMemory>
    ensures { OnOk result
        (file.new.items ≡ file.old.items ++ flat_map entry_bytes common_entries) }
{
    push_classes(file)?;
    push_members(file)?;
    push_bootstrap_names(file)
}

/// The entries of a static argument.
fn push_argument(file: &mut Vec<u8>, placed: &PlacedArg<'_>) -> Result<(), NoMemory>
    ensures { OnOk result
        (file.new.items ≡ file.old.items ++ flat_map entry_bytes (argument_entries placed.now)) }
{
    match placed.arg {
        MadeArg::Integer(number) => push_integer(file, number.cast_unsigned()),
        MadeArg::Long(number) => {
            let bits = number.cast_unsigned();
            push_long(
                file,
                (bits / 0x1_0000_0000) as u32,
                (bits % 0x1_0000_0000) as u32,
            )
        }
        MadeArg::Str(text) => {
            push_text(file, text)?;
            push_string(file, placed.first)
        }
    }
}

/// The entries of the bootstrap method of a call site.
fn push_site_handle(file: &mut Vec<u8>, placed: &Placed<'_>) -> Result<(), NoMemory>
    ensures { OnOk result
        (file.new.items ≡ file.old.items ++ flat_map entry_bytes (handle_entries placed.now)) }
{
    let first = placed.first;
    push_text(file, &placed.site.script)?;
    push_name(file, first, 11)?;
    push_method(file, 10, first + 1)?;
    push_handle(file, first + 2)
}

/// The entries of the call of a call site.
fn push_site_call(file: &mut Vec<u8>, placed: &Placed<'_>) -> Result<(), NoMemory>
    ensures { OnOk result
        (file.new.items ≡ file.old.items ++ flat_map entry_bytes (call_entries placed.now)) }
{
    let first = placed.first;
    push_text(file, &placed.site.ty)?;
    push_name(file, 12, first + 4)?;
    push_dynamic(file, placed.number, first + 5)
}

/// The entries of the static arguments of a call site.
fn push_site_arguments(
    alloc: Global,
    file: &mut Vec<u8>,
    placed: &Placed<'_>,
) -> Result<(), NoMemory>
    ensures { OnOk result
        (file.new.items ≡ file.old.items
        ++ flat_map entry_bytes (flat_map argument_entries (placed_arguments placed.now))) }
{
    let args = placed.site.args.as_slice();
    for argument in &place_arguments(alloc, placed.first + 7, args)? {
        push_argument(file, argument)?;
    }
    Ok(())
}

/// The entries of a call site.
pub(crate) fn push_site(
    alloc: Global,
    file: &mut Vec<u8>,
    placed: &Placed<'_>,
) -> Result<(), NoMemory>
    ensures { OnOk result
        (file.new.items ≡ file.old.items ++ flat_map entry_bytes (site_entries placed.now)) }
{
    push_site_handle(file, placed)?;
    push_site_call(file, placed)?;
    push_site_arguments(alloc, file, placed)
}
