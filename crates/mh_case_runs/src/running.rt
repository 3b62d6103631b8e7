use crate::made::class_of;
use mh_base::NoMemory;
use mh_case_text::{Case, CaseFile, Contents};
use mh_main::top;
use mh_outside::{MemoryInputs, MemorySink, OpenGate};
use std::alloc::{AllocError, Global};
use std::collections::BTreeMap;
use std::sync::Wait;
use std::thread::Threads;

/// A case that was run: what it must give and what it gave, or nothing if one of its classes cannot
/// be made.
#[derive(Drop)]
pub(crate) struct Ran {
    pub name: String,
    pub gave: Option<(Gave, Gave)>,
}

/// The status and the text of a run.
#[derive(Drop)]
pub(crate) struct Gave {
    pub status: u8,
    pub text: Vec<u8>,
}

/// The bytes of a file; nothing if it is a class that cannot be made.
fn bytes_of(alloc: Global, contents: Contents) -> Result<Option<Vec<u8>>, NoMemory> {
    match contents {
        Contents::Bytes(bytes) => Ok(Some(bytes)),
        Contents::Sites(sites) => class_of(alloc, &sites),
    }
}

/// The files by their names; nothing if one is a class that cannot be made.
fn files_of(
    alloc: Global,
    listed: Vec<CaseFile>,
) -> Result<Option<BTreeMap<String, Vec<u8>>>, NoMemory> {
    let mut files = BTreeMap::new(alloc);
    for file in listed {
        let CaseFile { name, contents } = file;
        let Some(bytes) = bytes_of(alloc, contents)? else {
            return Ok(None);
        };
        files.insert(name, bytes)?;
    }
    Ok(Some(files))
}

/// The same words, borrowed.
fn borrowed(alloc: Global, words: &[String]) -> Result<Vec<&str>, AllocError> {
    let mut texts = Vec::new(alloc);
    for word in words {
        texts.push(word.as_str())?;
    }
    Ok(texts)
}

/// Runs a case in memory.
pub(crate) fn run_case<R: Threads + Wait + Sync>(
    rt: &R,
    alloc: Global,
    case: Case,
) -> Result<Ran, NoMemory> {
    let Case {
        name,
        words,
        files,
        reads,
        writes,
        status,
        text,
    } = case;
    let Some(files) = files_of(alloc, files)? else {
        return Ok(Ran { name, gave: None });
    };
    let mut inputs = MemoryInputs::new(files, reads);
    let mut sink = MemorySink {
        bytes: Vec::new(alloc),
        fail: writes,
        calls: 0,
        faults: 0,
    };
    let texts = borrowed(alloc, &words)?;
    let answer = top(rt, alloc, &texts, &mut inputs, &mut sink, &OpenGate);
    let wanted = Gave { status, text };
    let found = Gave {
        status: answer.status,
        text: sink.bytes,
    };
    Ok(Ran {
        name,
        gave: Some((wanted, found)),
    })
}
