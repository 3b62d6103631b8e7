use mh_main::status::{DONE, NO_MEMORY, WRITE_FAILED};
use mh_main::top;
use mh_outside::{MemoryInputs, MemorySink, OpenGate};
use std::alloc::{AllocError, Global};
use std::collections::BTreeMap;
use std::sync::Wait;
use std::test::Fail;
use std::thread::Threads;

const LEAVES: &str = "class demo/Host java/lang/Object\nstatic demo/Host add (II)I iadd\n";

const PLAN: &str = "thread\nexact leaf:demo/Host.add:(II)I (II)I i:1 i:2\n";

const TEXT: &str = "thread 0\nreturns i:3 calls 0\nattempts 0 forms 1 types 0\n";

const WORDS: [&str; 8] = [
    "--mode",
    "run",
    "--leaves",
    "leaves.txt",
    "--scripts",
    "scripts.txt",
    "--plan",
    "plan.txt",
];

fn add_file(
    alloc: Global,
    files: &mut BTreeMap<String, Vec<u8>>,
    name: &str,
    text: &str,
) -> Result<(), AllocError> {
    let name = String::from_str(alloc, name)?;
    let bytes = Vec::from_slice(alloc, text.as_bytes())?;
    match files.insert(name, bytes) {
        Ok(_) => Ok(()),
        Err(_) => Err(AllocError),
    }
}

/// A manifest, no scripts and a plan.
fn inputs(alloc: Global) -> Result<MemoryInputs, AllocError> {
    let mut files = BTreeMap::new(alloc);
    add_file(alloc, &mut files, "leaves.txt", LEAVES)?;
    add_file(alloc, &mut files, "scripts.txt", "")?;
    add_file(alloc, &mut files, "plan.txt", PLAN)?;
    Ok(MemoryInputs::new(files, Vec::new(alloc)))
}

/// The program's status and its sink after a run.
fn run<R: Threads + Wait + Sync>(rt: &R, alloc: Global) -> Result<(u8, MemorySink), AllocError> {
    let mut inputs = inputs(alloc)?;
    let mut sink = MemorySink {
        bytes: Vec::new(alloc),
        fail: Vec::new(alloc),
        calls: 0,
        faults: 0,
    };
    let answer = top(rt, alloc, &WORDS, &mut inputs, &mut sink, &OpenGate);
    Ok((answer.status, sink))
}

/// Whether a run is whole. If an allocation fails, it ends for lack of memory with nothing written,
/// or the sink, which keeps its bytes in memory, has failed.
fn is_whole_or_nothing(status: u8, sink: &MemorySink) -> bool {
    match status {
        DONE => sink.bytes.as_slice() == TEXT.as_bytes(),
        NO_MEMORY => sink.bytes.is_empty(),
        WRITE_FAILED => sink.faults != 0,
        _ => false,
    }
}

#[test]
fn a_run_is_whole_or_writes_nothing(rt: HostRuntime) -> Result<(), Fail> {
    let (status, sink) = run(&rt, rt.alloc())?;
    let is_right = is_whole_or_nothing(status, &sink);
    let (faults, text) = (sink.faults, str::from_utf8(&sink.bytes).unwrap_or("?"));
    assert!(rt; is_right, "status {status}, {faults} failed writes: {text}");
    Ok(())
}
