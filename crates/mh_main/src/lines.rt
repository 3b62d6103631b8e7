ghost use Rattle.std.specs.Prelude.{◌≡◌, ◌≤◌, OnOk, OnErr};
ghost use Rattle.std.specs.List.{flat_map};
ghost use Rattle.std.specs.Io.KnownBytes.{Appends};
ghost use Rattle.mh_outside.specs.Causes.{Rose, AppendsPart};

use mh_outside::{Failed, Sink, write_whole};

/// The line for refused words.
pub const USAGE: &str =
    "usage: mh --mode run --leaves F --scripts F --plan F [--prelink N] [CLASS]... or --mode sites [CLASS]... or --mode gen --number N\n";

/// The line for a program whose calls need more forms than there are.
pub const FORMS: &str = "forms full\n";

/// The line for a program with more types of a bucket than it has slots.
pub const TYPES: &str = "types full\n";

/// Writes the pieces of a line, one after the other. It takes no memory.
pub fn write_pieces<S: Sink>(sink: &mut S, pieces: &[&[u8]]) -> Result<(), Failed>
    ensures later { S.faults sink.old ≤ S.faults sink.new }
    ensures cause { OnErr result (Rose (S.faults sink.old) (S.faults sink.new)) }
    ensures no_fault { OnOk result (S.faults sink.new ≡ S.faults sink.old) }
    ensures all { OnOk result
        (Appends (S.taken sink.old) (S.taken sink.new) (flat_map (λ p. p.now) pieces.now)) }
    ensures part { OnErr result
        (AppendsPart (S.taken sink.old) (S.taken sink.new) (flat_map (λ p. p.now) pieces.now)) }
{
    for at in 0..pieces.len() {
        write_whole(sink, pieces[at])?;
    }
    Ok(())
}

/// Writes the parts of a report, one after the other. It takes no memory.
pub fn write_parts<S: Sink>(sink: &mut S, parts: &[Vec<u8>]) -> Result<(), Failed>
    ensures later { S.faults sink.old ≤ S.faults sink.new }
    ensures cause { OnErr result (Rose (S.faults sink.old) (S.faults sink.new)) }
    ensures no_fault { OnOk result (S.faults sink.new ≡ S.faults sink.old) }
    ensures all { OnOk result
        (Appends (S.taken sink.old) (S.taken sink.new) (flat_map (λ p. p.items) parts.now)) }
    ensures part { OnErr result
        (AppendsPart (S.taken sink.old) (S.taken sink.new) (flat_map (λ p. p.items) parts.now)) }
{
    for at in 0..parts.len() {
        write_whole(sink, &parts[at])?;
    }
    Ok(())
}
