use super::narrow::NarrowSink;
use super::{INPUTS, TEXT, add_file, bytes_of, run};
use mh_main::status::{DONE, REFUSED, UNREAD, WRITE_FAILED};
use std::alloc::{AllocError, Global};
use std::collections::BTreeMap;
use std::sync::Wait;
use std::test::Fail;
use std::thread::Threads;

/// What a run writes, a few bytes at a time.
struct Text {
    name: &'static str,
    /// The inputs from this one on are not there.
    absent: usize,
    /// What stands after the plan.
    line: &'static str,
    status: u8,
    text: &'static str,
    /// In how many writes.
    writes: u64,
}

static TEXTS: [Text; 3] = [
    Text {
        name: "a report",
        absent: 5,
        line: "",
        status: DONE,
        text: TEXT,
        writes: 28,
    },
    Text {
        name: "a refusal",
        absent: 5,
        line: "other\n",
        status: REFUSED,
        text: "refused plan.txt line 6 BadLine\n",
        writes: 9,
    },
    Text {
        name: "an input that cannot be read",
        absent: 3,
        line: "",
        status: UNREAD,
        text: "cannot read demo.class\n",
        writes: 5,
    },
];

/// The inputs of such a run.
fn text_files(alloc: Global, row: &Text) -> Result<BTreeMap<String, Vec<u8>>, AllocError> {
    let mut files = BTreeMap::new(alloc);
    for name in INPUTS.iter().take(row.absent) {
        let bytes = Vec::from_slice(alloc, bytes_of(name))?;
        add_file(alloc, &mut files, name, bytes)?;
    }
    if let Some(plan) = files.get_mut("plan.txt") {
        plan.extend_from_slice(row.line.as_bytes())?;
    }
    Ok(files)
}

/// The status of such a run if a write fails, and what it wrote.
fn written<R: Threads + Wait + Sync>(
    rt: &R,
    alloc: Global,
    row: &Text,
    write: u64,
) -> Result<(u8, Vec<u8>), AllocError> {
    let mut sink = NarrowSink::new(alloc, write);
    let files = text_files(alloc, row)?;
    let status = run(rt, alloc, files, Vec::new(alloc), &mut sink);
    Ok((status, sink.bytes))
}

/// Whether a run ends with the status of a failed write, and has written a front part.
fn breaks_off(row: &Text, status: u8, bytes: &[u8]) -> bool {
    let text = row.text.as_bytes();
    status == WRITE_FAILED && bytes.len() < text.len() && text.starts_with(bytes)
}

/// What was written, as a text; `?` if it is none.
fn text_of(bytes: &[u8]) -> &str {
    str::from_utf8(bytes).unwrap_or("?")
}

#[test]
fn each_write_fails(rt: HostRuntime) -> Result<(), Fail> {
    for row in &TEXTS {
        for write in 0..row.writes {
            let (status, bytes) = written(&rt, rt.alloc(), row, write)?;
            assert!(rt;
                breaks_off(row, status, &bytes),
                "{}, write {write}: status {status}, {}",
                row.name,
                text_of(&bytes)
            );
        }
        let (status, bytes) = written(&rt, rt.alloc(), row, row.writes)?;
        assert_eq!(rt;
            (status, text_of(&bytes)),
            (row.status, row.text),
            "{}",
            row.name
        );
    }
    Ok(())
}
