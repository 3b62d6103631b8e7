ghost use Rattle.std.specs.Prelude.{◌≡◌, ◌≤◌, ◌<◌, [], Some, OnOk, OnErr, IfOk, length, take};
ghost use Rattle.std.specs.Io.KnownBytes.{Appends, Keeps};
ghost use Rattle.mh_outside.specs.Causes.{Rose};

use mh_outside::{Failed, Sink};
use std::alloc::Global;

/// The most bytes that a call takes.
const WIDTH: usize = 7;

/// A text in memory to which each call adds a few bytes. One call fails.
#[derive(Drop)]
pub struct NarrowSink {
    pub bytes: Vec<u8>,
    /// The number of the call that is to fail, from 0.
    fail: u64,
    calls: u64,
    faults: u64,
}

impl NarrowSink {
    /// A sink that has taken nothing.
    pub fn new(alloc: Global, fail: u64) -> NarrowSink
        ensures { result.bytes.items ≡ [] }
    {
        NarrowSink {
            bytes: Vec::new(alloc),
            fail,
            calls: 0,
            faults: 0,
        }
    }
}

impl Sink for NarrowSink {
    ghost taken = { λ s. Some s.bytes.items };

    ghost faults = { λ s. s.faults };

    fn write(&mut self, bytes: &[u8]) -> Result<usize, Failed>
        ensures later { self.old.faults ≤ self.new.faults }
        ensures cause { OnErr result (Rose self.old.faults self.new.faults) }
        ensures no_fault { OnOk result (self.new.faults ≡ self.old.faults) }
        ensures count { IfOk result (λ n. n ≤ length bytes.now) }
        ensures some { IfOk result (λ n. 0 < length bytes.now → 0 < n) }
        ensures appended { IfOk result (λ n. Appends (Some self.old.bytes.items)
            (Some self.new.bytes.items) (take n bytes.now)) }
        ensures kept { OnErr result
            (Keeps (Some self.old.bytes.items) (Some self.new.bytes.items)) }
    {
        let call = self.calls;
        self.calls = call.saturating_add(1);
        let count = bytes.len().min(WIDTH);
        if call != self.fail && self.bytes.extend_from_slice(&bytes[..count]).is_ok() {
            return Ok(count);
        }
        self.faults = self.faults.saturating_add(1);
        Err(Failed)
    }
}
