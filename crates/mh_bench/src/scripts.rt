//! Files of scripts, which are made and read.

ghost use Rattle.std.specs.Prelude.{◌≡◌, ◌++◌, IfOk, OnOk};
ghost use Rattle.std.specs.String.{string_bytes};
ghost use Rattle.mh_bench.specs.Scripts.{file_text, owner, script_count, script_text};

use mh_base::NoMemory;
use mh_script::{ScriptError, read_scripts};
use std::alloc::Global;

/// What is measured: the making and the reading of a file of this many scripts.
#[derive(Clone, Copy)]
pub(crate) enum Row {
    /// Their owners have short names.
    Plain,
    /// Their owners have long names that differ at the end alone.
    Alike,
}

/// What stands before the number in an owner's name.
fn owner(row: Row) -> &'static str
    ensures { result.now ≡ owner row }
{
    match row {
        Row::Plain => "a",
        Row::Alike => {
            "a/long/package/name/that/all/owners/of/the/scripts/share/up/to/its/end/as/in/Generated"
        }
    }
}

/// Adds a script.
fn push_script(file: &mut String, owner: &str, number: u32) -> Result<(), NoMemory>
    ensures { OnOk result (string_bytes file.new
        ≡ string_bytes file.old ++ script_text owner.now number) }
{
    let alloc = *file.allocator();
    let script = format!(in alloc;
        "script {owner}{number} f ()V\nlet a leaf b/C.d:(I)I\nreturn a\nend\n"
    )?;
    file.push_str(script.as_str())?;
    Ok(())
}

/// A file of this many scripts, each with an owner of its own.
fn file_of(alloc: Global, owner: &str, count: u32) -> Result<String, NoMemory>
    ensures { IfOk result (λ file. string_bytes file ≡ file_text owner.now count) }
{
    let mut file = String::new(alloc);
    for number in 0..count {
        push_script(&mut file, owner, number)?;
    }
    Ok(file)
}

/// How many scripts were read: 0 if the file has a fault.
fn count_of(alloc: Global, file: &[u8]) -> Result<u64, NoMemory>
    ensures { IfOk result (λ count. count ≡ script_count file.now) }
{
    match read_scripts(alloc, file) {
        Ok(scripts) => Ok(scripts.len() as u64),
        Err(ScriptError::NoMemory) => Err(NoMemory),
        Err(ScriptError::Fault(_)) => Ok(0),
    }
}

/// Makes and reads a file of this many scripts, and counts those that were read.
pub(crate) fn measured(alloc: Global, row: Row, turns: u32) -> Result<u64, NoMemory>
    ensures { IfOk result (λ count. count ≡ script_count (file_text (owner row) turns)) }
{
    let file = file_of(alloc, owner(row), turns)?;
    count_of(alloc, file.as_bytes())
}
