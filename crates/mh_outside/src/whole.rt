ghost use Rattle.std.specs.Prelude.{◌≡◌, ◌≤◌, ◌<◌, ◌+◌, ◌-◌, List, ℕ, OnOk, OnErr, IfOk, IsErrOf, length};
ghost use Rattle.std.specs.Io.KnownBytes.{Appends};
ghost use Rattle.mh_outside.specs.Contents.{IsFront, IsWhole, MayBeLonger, KeepsFront, EndsAt};
ghost use Rattle.mh_outside.specs.Causes.{Rose, AreSame, AppendsPart};
ghost use Rattle.mh_outside.specs.Kept.{KeepsInputs};
ghost use Rattle.mh_outside.specs.Reach.{ReachesTo, ReadsOnce};
ghost use Rattle.mh_outside.specs.declared.whole.ReadWhole.TheVariants.{NoMemory};

use crate::{Failed, Inputs, Sink};
use std::alloc::{AllocError, Global};
use std::error::Error;
use std::fmt;

/// Why a file was not read whole.
#[derive(Clone, Copy, Debug, PartialEq, Eq)]
pub enum ReadWhole {
    NoMemory,
    /// A read failed.
    ReadFault,
    /// The file is longer than the limit.
    TooLong,
}

impl fmt::Display for ReadWhole {
    fn fmt<W: fmt::Write>(&self, f: &mut fmt::Formatter<W>) -> fmt::Result {
        f.write_str(match self {
            ReadWhole::NoMemory => "no memory is left",
            ReadWhole::ReadFault => "a read failed",
            ReadWhole::TooLong => "the file is too long",
        })
    }
}

impl Error for ReadWhole {}

impl From<AllocError> for ReadWhole {
    ghost from_gives = { λ _ e. e ≡ NoMemory };

    fn from(_: AllocError) -> Self {
        ReadWhole::NoMemory
    }
}

/// How many bytes are asked for at a time.
const PIECE: usize = 16384;

// Reads one piece of a file after those that were read, and says how long it was.
fn read_piece<I: Inputs>(
    inputs: &mut I,
    name: &str,
    bytes: &mut Vec<u8>,
    room: usize,
) -> Result<usize, ReadWhole>
    requires { 0 < room }
    ensures keeps { KeepsInputs (I.contents inputs.old) (I.contents inputs.new)
        (I.faults inputs.old) (I.faults inputs.new) }
    ensures no_fault { OnOk result (AreSame (I.faults inputs.old) (I.faults inputs.new)) }
    ensures longer { IfOk result (λ n. length bytes.new.items ≡ length bytes.old.items + n) }
    ensures front { OnOk result
        (KeepsFront (I.contents inputs.old name.now) bytes.old.items bytes.new.items) }
    ensures end { IfOk result (λ n. n ≡ 0
        → EndsAt (I.contents inputs.old name.now) bytes.old.items bytes.new.items) }
    ensures fault { IsErrOf result ReadWhole.ReadFault
        → Rose (I.faults inputs.old name.now) (I.faults inputs.new name.now) }
    ensures memory { IsErrOf result ReadWhole.NoMemory
        → AreSame (I.faults inputs.old) (I.faults inputs.new) }
    ensures reached { ReachesTo (length bytes.old.items + room)
        (I.reached inputs.old) (I.reached inputs.new) }
    ensures starts { I.starts inputs.new ≤ I.starts inputs.old + 1 }
    ensures goes_on { 0 < length bytes.old.items → I.starts inputs.new ≤ I.starts inputs.old }
    ensures short { IsErrOf result ReadWhole.TooLong → ⊥ }
{
    let mut piece = [0u8; PIECE];
    let room = room.min(PIECE);
    match inputs.read(name, bytes.len() as u64, &mut piece[..room]) {
        Ok(count) => {
            bytes.extend_from_slice(&piece[..count])?;
            Ok(count)
        }
        Err(Failed) => Err(ReadWhole::ReadFault),
    }
}

/// Reads a file to its end. The answer is `TooLong` once a byte past the limit was taken, and
/// `ReadFault` at the first read that fails. It asks for one byte past the limit and for no more.
/// It begins at the front once, so that a pipe can be read.
pub fn read_whole<I: Inputs>(
    alloc: Global,
    inputs: &mut I,
    name: &str,
    limit: usize,
) -> Result<Vec<u8>, ReadWhole>
    ensures keeps { KeepsInputs (I.contents inputs.old) (I.contents inputs.new)
        (I.faults inputs.old) (I.faults inputs.new) }

    ensures file { IfOk result (λ v. IsWhole (I.contents inputs.old name.now) v.items) }
    ensures within { IfOk result (λ v. length v.items ≤ limit) }
    ensures no_fault { OnOk result (AreSame (I.faults inputs.old) (I.faults inputs.new)) }

    ensures fault { IsErrOf result ReadWhole.ReadFault
        → Rose (I.faults inputs.old name.now) (I.faults inputs.new name.now) }

    // A read that failed is never answered as lack of memory.
    ensures memory { IsErrOf result ReadWhole.NoMemory
        → AreSame (I.faults inputs.old) (I.faults inputs.new) }

    ensures reads { ReadsOnce (limit + 1) 1 (I.reached inputs.old) (I.reached inputs.new)
        (I.starts inputs.old) (I.starts inputs.new) }

    // If a file is within the limit, `file` excludes that it is longer; so TooLong is exact.
    ensures too_long { IsErrOf result ReadWhole.TooLong
        → MayBeLonger (I.contents inputs.old name.now) limit }
    ensures too_long_still { IsErrOf result ReadWhole.TooLong
        → AreSame (I.faults inputs.old) (I.faults inputs.new) }
{
    let mut bytes = Vec::new(alloc);
    while bytes.len() <= limit {
        let room = (limit - bytes.len()).saturating_add(1);
        if read_piece(inputs, name, &mut bytes, room)? == 0 {
            return Ok(bytes);
        }
    }
    Err(ReadWhole::TooLong)
}

/// Writes all the bytes, as many at a time as the sink takes. It takes no memory.
pub fn write_whole<S: Sink>(sink: &mut S, bytes: &[u8]) -> Result<(), Failed>
    ensures later { S.faults sink.old ≤ S.faults sink.new }
    ensures cause { OnErr result (Rose (S.faults sink.old) (S.faults sink.new)) }
    ensures no_fault { OnOk result (S.faults sink.new ≡ S.faults sink.old) }
    ensures all { OnOk result (Appends (S.taken sink.old) (S.taken sink.new) bytes.now) }
    ensures part { OnErr result (AppendsPart (S.taken sink.old) (S.taken sink.new) bytes.now) }
{
    let mut at = 0;
    while at < bytes.len() {
        at += sink.write(&bytes[at..])?;
    }
    Ok(())
}
