mod failing;
mod narrow;

use mh_class_tests::files::{demo, made_site};
use mh_main::top;
use mh_outside::{MemoryInputs, OpenGate, Sink};
use std::alloc::{AllocError, Global};
use std::collections::BTreeMap;
use std::sync::Wait;
use std::thread::Threads;

/// The words of a run of [`INPUTS`].
const WORDS: [&str; 10] = [
    "--mode",
    "run",
    "--leaves",
    "leaves.txt",
    "--scripts",
    "scripts.txt",
    "--plan",
    "plan.txt",
    "made.class",
    "demo.class",
];

/// The inputs of a run, in the order in which they are read.
const INPUTS: [&str; 5] = [
    "leaves.txt",
    "scripts.txt",
    "made.class",
    "demo.class",
    "plan.txt",
];

const LEAVES: &str = "class demo/Host java/lang/Object\nstatic demo/Host add (II)I iadd\n";

/// The script that the call site of `made.class` names. The first one of `demo.class` is a
/// concatenation, which needs none.
const SCRIPTS: &str = "\
    script made/Boot link (Ljava/lang/invoke/MethodHandles$Lookup;Ljava/lang/String;Ljava/lang/invok\
    e/MethodType;)Ljava/lang/invoke/CallSite;\nlet h leaf demo/Host.add:(II)I\nreturn h\nend\n";

const PLAN: &str =
    "thread\nindy 0 i:1 i:2\nindy 1 i:1\nthread\nexact leaf:demo/Host.add:(II)I (II)I i:3 i:4\n";

/// What a run of the inputs writes.
const TEXT: &str = "\
    site 0 serial 1 linked (II)I\n\
    site 1 serial 2 linked (I)Ljava/lang/String;\n\
    site 2 none\n\
    thread 0\n\
    returns i:3 calls 0\n\
    returns s:x=1 calls -\n\
    thread 1\n\
    returns i:7 calls 0\n\
    attempts 2 forms 2 types 2\n";

/// The bytes of an input.
fn bytes_of(name: &str) -> &'static [u8] {
    match name {
        "leaves.txt" => LEAVES.as_bytes(),
        "scripts.txt" => SCRIPTS.as_bytes(),
        "made.class" => made_site(),
        "demo.class" => demo(),
        _ => PLAN.as_bytes(),
    }
}

/// Puts a file among the others.
fn add_file(
    alloc: Global,
    files: &mut BTreeMap<String, Vec<u8>>,
    name: &str,
    bytes: Vec<u8>,
) -> Result<(), AllocError> {
    let name = String::from_str(alloc, name)?;
    match files.insert(name, bytes) {
        Ok(_) => Ok(()),
        Err(_) => Err(AllocError),
    }
}

/// The status of a run over these files. The reads of these numbers fail.
fn run<'a, R: Threads + Wait + Sync, S: Sink>(
    rt: &R,
    alloc: Global,
    files: BTreeMap<String, Vec<u8>>,
    fail: Vec<u64>,
    sink: &mut S,
) -> u8 {
    let mut inputs = MemoryInputs::new(files, fail);
    top(rt, alloc, &WORDS, &mut inputs, sink, &OpenGate).status
}
