ghost use Rattle.std.specs.Prelude.{◌≡◌, ◌++◌, IfOk, OnOk};
ghost use Rattle.std.specs.List.{flat_map};

use mh_base::NoMemory;
use std::alloc::Global;
use std::marker::Model;

/// A report in parts, which are written one after the other. So a long report stands in memory
/// once. Contracts see the whole text.
#[derive(Drop)]
pub struct Report {
    parts: Vec<Vec<u8>>,
}

impl Model for Report {
    ghost use Rattle.std.specs.Prelude.{List, ℕ};
    ghost use Rattle.std.specs.List.{flat_map};

    ghost Value = { List ℕ };

    ghost view = { λ r. flat_map (λ part. part.items) r.parts.items };
}

impl Report {
    /// A report of one part.
    pub fn of(alloc: Global, text: Vec<u8>) -> Result<Report, NoMemory>
        ensures { IfOk result (λ report. report ≡ text.items) }
    {
        let mut parts = Vec::with_capacity(alloc, 1)?;
        parts.push(text)?;
        Ok(Report { parts })
    }

    /// Puts a part at the end.
    pub(crate) fn push(&mut self, part: Vec<u8>) -> Result<(), NoMemory>
        ensures { OnOk result (self.new ≡ self.old ++ part.items) }
    {
        self.parts.push(part)?;
        Ok(())
    }

    /// The parts, in the order in which they are written.
    pub fn parts(&self) -> &[Vec<u8>]
        ensures { flat_map (λ part. part.items) result.now ≡ self.now }
    {
        &self.parts
    }
}
