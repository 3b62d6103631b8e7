ghost use Rattle.std.specs.Prelude.{None};
ghost use Rattle.std.specs.BTreeMap.{get_by_text};
ghost use Rattle.mh_outside.specs.Contents.{file_or_empty};

use crate::copies::copy_from;
use crate::{Failed, Inputs, Sink};
use std::collections::BTreeMap;

/// Files in memory that can always be read. A name that is not listed is a file without bytes.
#[derive(Drop)]
pub struct HonestInputs {
    pub files: BTreeMap<String, Vec<u8>>,
}

impl Inputs for HonestInputs {
    ghost contents = { λ s n. file_or_empty (get_by_text s.files n) };

    ghost faults = { λ _ _. 0 };

    ghost reached = { λ _ _. 0 };

    ghost starts = { λ _. 0 };

    fn read(&mut self, name: &str, at: u64, buf: &mut [u8]) -> Result<usize, Failed> {
        match self.files.get(name) {
            Some(bytes) => Ok(copy_from(bytes, at, buf)),
            None => Ok(0),
        }
    }
}

/// A sink that never fails. It keeps nothing, so contracts do not see what it took. To keep bytes
/// takes memory, and without memory a write would have to fail.
#[derive(Clone, Copy, Debug, Default)]
pub struct HonestSink;

impl Sink for HonestSink {
    ghost taken = { λ _. None };

    ghost faults = { λ _. 0 };

    fn write(&mut self, bytes: &[u8]) -> Result<usize, Failed> {
        Ok(bytes.len())
    }
}
