ghost use Rattle.std.specs.Prelude.{◌≡◌, ◌<◌, ◌≤◌, ◌+◌, ◌*◌, ◌^◌, ◌++◌, length, IfOk, OnOk};
ghost use Rattle.std.specs.List.{flat_map};
ghost use Rattle.mh_made_class.specs.Layout.{placed_arguments};
ghost use Rattle.mh_made_class.specs.Constants.{u2};
ghost use Rattle.mh_made_class.specs.Parts.{attribute, instruction, code, contents_of, code_contents, method_front, methods, argument_index, bootstrap, bootstraps, class_attributes};

use crate::layout::{Placed, PlacedArg, place_arguments};
use crate::numbers::{push_u2, push_u4};
use crate::site::MadeArg;
use mh_base::NoMemory;
use mh_classfile::opcodes::{INVOKEDYNAMIC, RETURN};
use std::alloc::Global;

/// The most slots of the operand stack that the code uses.
const MAX_STACK: usize = 2;

/// The method is public and static (JVMS SE 17, 4.6).
const METHOD_FLAGS: usize = 0x0009;

/// Puts an attribute at the end of a file: the index of its name, the length of its contents, and
/// these.
#[tactic(auto, unfolding(crate::specs::Parts::attribute))]
fn push_attribute(file: &mut Vec<u8>, name: usize, contents: &[u8]) -> Result<(), NoMemory>
    requires name { name < 2 ^ 16 }
    requires contents { length contents.now < 2 ^ 32 }
    ensures { OnOk result (file.new.items ≡ file.old.items ++ attribute name contents.now) }
{
    push_u2(file, name)?;
    push_u4(file, contents.len())?;
    file.extend_from_slice(contents)?;
    Ok(())
}

/// The instruction of a call site.
fn push_instruction(bytes: &mut Vec<u8>, placed: &Placed<'_>) -> Result<(), NoMemory>
    ensures is { OnOk result (bytes.new.items ≡ bytes.old.items ++ instruction placed.now) }
    ensures len { OnOk result (length bytes.new.items ≡ length bytes.old.items + 5) }
{
    bytes.push(INVOKEDYNAMIC)?;
    push_u2(bytes, placed.first + 6)?;
    push_u2(bytes, 0)
}

/// The code: the instruction of each call site, and return.
#[tactic(auto, unfolding(crate::specs::Parts::code))]
fn write_code(alloc: Global, sites: &[Placed<'_>]) -> Result<Vec<u8>, NoMemory>
    ensures is { IfOk result (λ bytes. bytes.items ≡ code sites.now) }
    ensures len { IfOk result (λ bytes. length bytes.items ≡ 5 * length sites.now + 1) }
{
    let mut bytes = Vec::new(alloc);
    for placed in sites {
        push_instruction(&mut bytes, placed)?;
    }
    bytes.push(RETURN)?;
    Ok(bytes)
}

/// The contents of a `Code` attribute with this code.
fn push_code_contents(bytes: &mut Vec<u8>, code: &[u8]) -> Result<(), NoMemory>
    requires { length code.now < 2 ^ 32 }
    ensures is { OnOk result (bytes.new.items ≡ bytes.old.items ++ contents_of code.now) }
    ensures len { OnOk result
        (length bytes.new.items ≡ length bytes.old.items + length code.now + 12) }
{
    push_u2(bytes, MAX_STACK)?;
    push_u2(bytes, 0)?;
    push_u4(bytes, code.len())?;
    bytes.extend_from_slice(code)?;
    push_u2(bytes, 0)?;
    push_u2(bytes, 0)
}

/// The contents of the `Code` attribute.
#[tactic(auto, unfolding(crate::specs::Parts::code_contents))]
fn write_code_contents(alloc: Global, sites: &[Placed<'_>]) -> Result<Vec<u8>, NoMemory>
    requires { 7 * length sites.now < 2 ^ 16 }
    ensures is { IfOk result (λ bytes. bytes.items ≡ code_contents sites.now) }
    ensures few { IfOk result (λ bytes. length bytes.items < 2 ^ 32) }
{
    let code = write_code(alloc, sites)?;
    let mut bytes = Vec::new(alloc);
    push_code_contents(&mut bytes, &code)?;
    Ok(bytes)
}

/// That there is one method, its flags, its name and its descriptor, and one attribute.
fn push_method_front(file: &mut Vec<u8>) -> Result<(), NoMemory>
    ensures { OnOk result (file.new.items ≡ file.old.items ++ method_front) }
{
    push_u2(file, 1)?;
    push_u2(file, METHOD_FLAGS)?;
    push_u2(file, 5)?;
    push_u2(file, 6)?;
    push_u2(file, 1)
}

/// The one method, with its code.
#[tactic(auto, unfolding(crate::specs::Parts::methods))]
pub(crate) fn push_methods(
    alloc: Global,
    file: &mut Vec<u8>,
    sites: &[Placed<'_>],
) -> Result<(), NoMemory>
    requires { 7 * length sites.now < 2 ^ 16 }
    ensures { OnOk result (file.new.items ≡ file.old.items ++ methods sites.now) }
{
    push_method_front(file)?;
    let contents = write_code_contents(alloc, sites)?;
    push_attribute(file, 7, &contents)
}

/// The index of a static argument.
fn argument_index(placed: &PlacedArg<'_>) -> usize
    ensures index { result ≡ argument_index placed.now }
    ensures fits { result < 2 ^ 16 }
{
    match placed.arg {
        MadeArg::Str(_) => placed.first + 1,
        MadeArg::Integer(_) | MadeArg::Long(_) => placed.first,
    }
}

/// The indexes of the static arguments of a call site.
fn push_argument_indexes(
    alloc: Global,
    bytes: &mut Vec<u8>,
    placed: &Placed<'_>,
) -> Result<(), NoMemory>
    ensures is { OnOk result
        (bytes.new.items ≡ bytes.old.items
        ++ flat_map (λ a. u2 (argument_index a)) (placed_arguments placed.now)) }
    ensures few { OnOk result (length bytes.new.items < length bytes.old.items + 2 ^ 17) }
{
    let args = placed.site.args.as_slice();
    for argument in &place_arguments(alloc, placed.first + 7, args)? {
        push_u2(bytes, argument_index(argument))?;
    }
    Ok(())
}

/// A bootstrap method: its handle, and its static arguments.
fn push_bootstrap(alloc: Global, bytes: &mut Vec<u8>, placed: &Placed<'_>) -> Result<(), NoMemory>
    ensures is { OnOk result (bytes.new.items ≡ bytes.old.items ++ bootstrap placed.now) }
    ensures few { OnOk result (length bytes.new.items ≤ length bytes.old.items + 2 ^ 17 + 4) }
{
    push_u2(bytes, placed.first + 3)?;
    push_u2(bytes, placed.site.args.len())?;
    push_argument_indexes(alloc, bytes, placed)
}

/// The contents of the `BootstrapMethods` attribute.
#[tactic(auto, unfolding(crate::specs::Parts::bootstraps))]
fn write_bootstraps(alloc: Global, sites: &[Placed<'_>]) -> Result<Vec<u8>, NoMemory>
    requires { 7 * length sites.now < 2 ^ 16 }
    ensures is { IfOk result (λ bytes. bytes.items ≡ bootstraps sites.now) }
    ensures few { IfOk result (λ bytes. length bytes.items < 2 ^ 32) }
{
    let mut bytes = Vec::new(alloc);
    push_u2(&mut bytes, sites.len())?;
    for placed in sites {
        push_bootstrap(alloc, &mut bytes, placed)?;
    }
    Ok(bytes)
}

/// The one attribute of the class, which has the bootstrap methods.
#[tactic(auto, unfolding(crate::specs::Parts::class_attributes))]
pub(crate) fn push_class_attributes(
    alloc: Global,
    file: &mut Vec<u8>,
    sites: &[Placed<'_>],
) -> Result<(), NoMemory>
    requires { 7 * length sites.now < 2 ^ 16 }
    ensures { OnOk result (file.new.items ≡ file.old.items ++ class_attributes sites.now) }
{
    push_u2(file, 1)?;
    let contents = write_bootstraps(alloc, sites)?;
    push_attribute(file, 8, &contents)
}
