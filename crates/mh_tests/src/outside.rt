use mh_outside::{
    Gate, HonestInputs, HonestSink, Inputs, MemoryInputs, MemorySink, ReadWhole, Sink, TestGate,
    WriterSink, read_whole, real_inputs, real_sink, write_whole,
};
use std::alloc::Global;
use std::collections::BTreeMap;
use std::fs::OpenOptions;
use std::rt::Files;
use std::sync::atomic::{AtomicU64, Ordering};
use std::test::Fail;
use std::thread::Threads;
use std::{fs, thread};

/// A file of five bytes.
fn five_bytes(alloc: Global) -> Result<MemoryInputs, Fail> {
    let mut files = BTreeMap::new(alloc);
    let name = String::from_str(alloc, "five")?;
    let bytes = Vec::from_slice(alloc, b"bytes")?;
    files.insert(name, bytes)?;
    Ok(MemoryInputs::new(files, Vec::new(alloc)))
}

/// How many bytes of the file are read with a limit, and up to which place they were asked for.
fn read_len(alloc: Global, limit: usize) -> Result<(Result<usize, ReadWhole>, u64), Fail> {
    let mut inputs = five_bytes(alloc)?;
    let len = read_whole(alloc, &mut inputs, "five", limit).map(|v| v.len());
    Ok((len, inputs.reached))
}

#[test]
fn reads_up_to_the_limit(rt: HostRuntime) -> Result<(), Fail> {
    for (limit, want) in [
        (5, (Ok(5), 6)),
        (4, (Err(ReadWhole::TooLong), 5)),
        (usize::MAX, (Ok(5), 16_389)),
    ] {
        assert_eq!(rt; read_len(rt.alloc(), limit)?, want, "limit {limit}");
    }
    Ok(())
}

#[test]
fn a_failed_write_leaves_a_front_part(rt: HostRuntime) -> Result<(), Fail> {
    let alloc = rt.alloc();
    let mut sink = MemorySink {
        bytes: Vec::new(alloc),
        fail: Vec::from_slice(alloc, &[1])?,
        calls: 0,
        faults: 0,
    };
    let first = write_whole(&mut sink, b"first").is_ok();
    let second = write_whole(&mut sink, b"second").is_ok();
    assert_eq!(rt; (first, second, sink.faults), (true, false, 1));
    assert_eq!(rt; str::from_utf8(&sink.bytes).unwrap_or("?"), "first");
    Ok(())
}

#[test]
fn honest_files_that_are_not_listed_have_no_bytes(rt: HostRuntime) {
    let mut inputs = HonestInputs {
        files: BTreeMap::new(rt.alloc()),
    };
    let len = read_whole(rt.alloc(), &mut inputs, "none", 4).map(|v| v.len());
    assert_eq!(rt; len, Ok(0));
    assert!(rt; write_whole(&mut HonestSink, b"taken").is_ok());
}

#[test]
fn real_files_fail_where_they_are_not_there(rt: HostRuntime) {
    let mut inputs = real_inputs(rt.alloc(), &rt);
    let mut buf = [0u8; 8];
    let is_read = inputs.read("no such file", 0, &mut buf).is_ok();
    assert_eq!(rt; (is_read, inputs.faults), (false, 1));
}

/// How many bytes of a real file are read with a limit, and how many reads failed.
fn real_len<R: Files>(
    rt: &R,
    alloc: Global,
    name: &str,
    limit: usize,
) -> (Result<usize, ReadWhole>, u64) {
    let mut inputs = real_inputs(alloc, rt);
    let len = read_whole(alloc, &mut inputs, name, limit).map(|v| v.len());
    (len, inputs.faults)
}

#[test]
fn real_files_are_read_up_to_the_limit(rt: HostRuntime) -> Result<(), Fail> {
    fs::write(&rt, "five", b"bytes")?;
    for (name, limit, want) in [
        ("five", 5, (Ok(5), 0)),
        ("five", 4, (Err(ReadWhole::TooLong), 0)),
        ("/dev/null", 4, (Ok(0), 0)),
        ("/dev/zero", 40_000, (Err(ReadWhole::TooLong), 0)),
        (".", 4, (Err(ReadWhole::ReadFault), 1)),
    ] {
        let found = real_len(&rt, rt.alloc(), name, limit);
        assert_eq!(rt; found, want, "{name} with limit {limit}");
    }
    Ok(())
}

#[test]
fn a_real_file_of_several_pieces_is_read_again_from_its_front(rt: HostRuntime) -> Result<(), Fail> {
    let alloc = rt.alloc();
    let mut bytes = Vec::new(alloc);
    for at in 0..40_000u32 {
        bytes.push((at % 251) as u8)?;
    }
    fs::write(&rt, "pieces", &bytes)?;
    fs::write(&rt, "others", b"others")?;
    let mut inputs = real_inputs(alloc, &rt);
    let first = read_whole(alloc, &mut inputs, "pieces", 40_000)?;
    let other = read_whole(alloc, &mut inputs, "others", 40_000)?;
    let second = read_whole(alloc, &mut inputs, "others", 40_000)?;
    let third = read_whole(alloc, &mut inputs, "pieces", 40_000)?;
    assert_eq!(rt; (first.len(), third.len()), (bytes.len(), bytes.len()));
    assert!(rt; first.as_slice() == bytes.as_slice() && third.as_slice() == bytes.as_slice());
    assert_eq!(rt; str::from_utf8(&other).unwrap_or("?"), "others");
    assert_eq!(rt; str::from_utf8(&second).unwrap_or("?"), "others");
    assert_eq!(rt; inputs.faults, 0);
    Ok(())
}

#[test]
fn a_real_file_is_read_from_the_middle(rt: HostRuntime) -> Result<(), Fail> {
    fs::write(&rt, "middle", b"0123456789")?;
    let mut inputs = real_inputs(rt.alloc(), &rt);
    let mut buf = [0u8; 3];
    let count = inputs.read("middle", 4, &mut buf)?;
    assert_eq!(rt; (count, buf), (3, [b'4', b'5', b'6']));
    Ok(())
}

#[test]
fn a_full_device_takes_nothing(rt: HostRuntime) -> Result<(), Fail> {
    let file = OpenOptions::new().write(true).open(&rt, "/dev/full")?;
    let mut sink = WriterSink::new(file);
    let is_written = write_whole(&mut sink, b"text").is_ok();
    assert_eq!(rt; (is_written, sink.faults), (false, 1));
    Ok(())
}

#[test]
fn real_output_takes_a_piece(rt: HostRuntime) {
    let mut sink = real_sink(&rt);
    let taken = sink.write(b"taken\n").ok();
    assert!(rt; matches!(taken, Some(1..=6)), "{taken:?}");
    assert_eq!(rt; sink.faults, 0);
}

/// After how many others a thread records that goes through a gate.
fn recorded_after(gate: &TestGate, count: &AtomicU64, thread: u32) -> u64 {
    gate.before_record(thread, 0);
    let others = count.fetch_add(1, Ordering::SeqCst);
    gate.after_record(thread, 0);
    others
}

/// The same of threads 0 and 1, which run concurrently.
fn both_recorded_after<R: Threads>(rt: &R, gate: &TestGate) -> (u64, u64) {
    let count = AtomicU64::new(0);
    thread::join(
        rt,
        || recorded_after(gate, &count, 0),
        || recorded_after(gate, &count, 1),
    )
}

#[test]
fn a_test_gate_lets_thread_1_record_before_thread_0(rt: HostRuntime) {
    let gate = TestGate::default();
    assert_eq!(rt; both_recorded_after(&rt, &gate), (1, 0));
    assert!(rt; !gate.gave_up());
}

#[test]
fn a_test_gate_lets_other_threads_pass(rt: HostRuntime) {
    let gate = TestGate::default();
    let count = AtomicU64::new(0);
    assert_eq!(rt; recorded_after(&gate, &count, 2), 0);
    assert!(rt; !gate.gave_up());
}
