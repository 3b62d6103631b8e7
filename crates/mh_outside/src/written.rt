ghost use Rattle.std.specs.Prelude.{◌≡◌};

use crate::{Failed, Sink};
use std::io::Write;

/// A writer as a sink. Contracts see what it holds if they see what the writer holds.
#[derive(Drop)]
pub struct WriterSink<W> {
    writer: W,
    /// How many writes failed.
    pub faults: u64,
}

impl<W: Write> WriterSink<W> {
    /// A writer before its first write.
    pub fn new(writer: W) -> Self
        ensures fresh { result.faults ≡ 0 }
        ensures writer { result.writer ≡ writer }
    {
        WriterSink { writer, faults: 0 }
    }
}

impl<W: Write> Sink for WriterSink<W> {
    ghost taken = { λ s. W.contents s.writer };

    ghost faults = { λ s. s.faults };

    fn write(&mut self, bytes: &[u8]) -> Result<usize, Failed> {
        if bytes.is_empty() {
            return Ok(0);
        }
        if let Ok(count) = self.writer.write(bytes)
            && count > 0
        {
            return Ok(count);
        }
        self.faults = self.faults.saturating_add(1);
        Err(Failed)
    }
}
