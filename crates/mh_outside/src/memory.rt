ghost use Rattle.std.specs.Prelude.{◌≡◌, ◌≤◌, ◌<◌, ◌||◌, ◌+◌, ◌-◌, ◌^◌, ◌++◌, min, max, Some, IsTrue, IsErr, OnOk, OnErr, IfOk, is_err, is_none, length};
ghost use Rattle.std.specs.BTreeMap.{get_by_text};
ghost use Rattle.mh_outside.specs.Contents.{HasRead, file_or_absent};
ghost use Rattle.mh_outside.specs.Causes.{Rose};
ghost use Rattle.mh_outside.specs.Memory.{CountsCall, is_listed};

use crate::copies::copy_from;
use crate::{Failed, Inputs, Sink};
use std::collections::BTreeMap;

/// Files in memory. A name that is not listed has no file. The listed calls fail.
#[derive(Drop)]
pub struct MemoryInputs {
    pub files: BTreeMap<String, Vec<u8>>,
    /// The numbers of the calls that are to fail, from 0.
    pub fail: Vec<u64>,
    /// How many calls were made.
    pub calls: u64,
    /// How many calls failed; it is the count for every name.
    pub faults: u64,
    /// How many bytes from the front of a file a call has asked for, at most, over all names.
    pub reached: u64,
    /// How many calls have read a file from its front.
    pub starts: u64,
}

impl MemoryInputs {
    /// Files before the first call, and the numbers of the calls that are to fail.
    pub fn new(files: BTreeMap<String, Vec<u8>>, fail: Vec<u64>) -> MemoryInputs
        ensures { result
            ≡ record {
              files = files;
              fail = fail;
              calls = 0;
              faults = 0;
              reached = 0;
              starts = 0;
            } }
    {
        MemoryInputs {
            files,
            fail,
            calls: 0,
            faults: 0,
            reached: 0,
            starts: 0,
        }
    }
}

impl Inputs for MemoryInputs {
    ghost contents = { λ s n. file_or_absent (get_by_text s.files n) };

    ghost faults = { λ s _. s.faults };

    ghost reached = { λ s _. s.reached };

    ghost starts = { λ s. s.starts };

    fn read(&mut self, name: &str, at: u64, buf: &mut [u8]) -> Result<usize, Failed>
        // Only the listed calls fail, and those for a name that has no file.
        ensures fails { is_err result ≡ (is_listed self.old.fail.items self.old.calls
            || is_none (get_by_text self.old.files name.now)) }
        ensures calls { CountsCall self.old.calls self.new.calls
            self.old.fail.items self.new.fail.items }
        ensures started { at ≡ 0 → self.new.starts ≡ min (self.old.starts + 1) (2 ^ 64 - 1) }
        ensures furthest { self.new.reached
            ≡ max self.old.reached (min (at + length buf.new) (2 ^ 64 - 1)) }

        // What each impl promises.
        ensures contents { self.new.files ≡ self.old.files }
        ensures later { self.old.faults ≤ self.new.faults }
        ensures cause { OnErr result (Rose self.old.faults self.new.faults) }
        ensures no_fault { OnOk result (self.new.faults ≡ self.old.faults) }
        ensures reached { self.new.reached ≤ max self.old.reached (at + length buf.new) }
        ensures starts { self.new.starts ≤ self.old.starts + 1 }
        ensures goes_on { 0 < at → self.new.starts ≤ self.old.starts }
        ensures count { IfOk result (λ n. n ≤ length buf.new) }
        ensures bytes { IfOk result
            (λ n. HasRead (file_or_absent (get_by_text self.old.files name.now)) at n buf.new) }
    {
        let call = self.calls;
        self.calls = call.saturating_add(1);
        self.reached = self.reached.max(at.saturating_add(buf.len() as u64));
        if at == 0 {
            self.starts = self.starts.saturating_add(1);
        }
        if !self.fail.contains(&call)
            && let Some(bytes) = self.files.get(name)
        {
            return Ok(copy_from(bytes, at, buf));
        }
        self.faults = self.faults.saturating_add(1);
        Err(Failed)
    }
}

/// A text in memory. The listed calls fail, and those that find no memory for the text.
#[derive(Drop)]
pub struct MemorySink {
    pub bytes: Vec<u8>,
    /// The numbers of the calls that are to fail, from 0.
    pub fail: Vec<u64>,
    /// How many calls were made.
    pub calls: u64,
    /// How many calls failed.
    pub faults: u64,
}

impl Sink for MemorySink {
    ghost taken = { λ s. Some s.bytes.items };

    ghost faults = { λ s. s.faults };

    fn write(&mut self, bytes: &[u8]) -> Result<usize, Failed>
        // The listed calls fail. Another one fails only without memory for the text, and a call
        // that does not fail takes the whole piece.
        ensures fails { IsTrue (is_listed self.old.fail.items self.old.calls) → IsErr result }
        ensures whole { IfOk result (λ n. n ≡ length bytes.now) }
        ensures calls { CountsCall self.old.calls self.new.calls
            self.old.fail.items self.new.fail.items }

        // What each impl promises.
        ensures later { self.old.faults ≤ self.new.faults }
        ensures cause { OnErr result (Rose self.old.faults self.new.faults) }
        ensures no_fault { OnOk result (self.new.faults ≡ self.old.faults) }
        ensures appended { OnOk result (self.new.bytes.items ≡ self.old.bytes.items ++ bytes.now) }
        ensures kept { OnErr result (self.new.bytes.items ≡ self.old.bytes.items) }
    {
        let call = self.calls;
        self.calls = call.saturating_add(1);
        if !self.fail.contains(&call) && self.bytes.extend_from_slice(bytes).is_ok() {
            return Ok(bytes.len());
        }
        self.faults = self.faults.saturating_add(1);
        Err(Failed)
    }
}
