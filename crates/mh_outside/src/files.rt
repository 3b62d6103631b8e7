ghost use Rattle.std.specs.Prelude.{◌≡◌, ◌≤◌, length, IfOk, string_bytes};
ghost use Rattle.std.specs.Option.{ForSome};
ghost use Rattle.mh_outside.specs.Contents.{HasRead, StandsAt};

use crate::{Failed, Inputs, Opens};
use std::alloc::Global;
use std::io;
use std::io::Read;

// A file that is read piece by piece: its name, and the place after what was read of it.
#[derive(Drop)]
struct Opened<F: Drop> {
    name: String,
    file: F,
    at: u64,
}

/// Files that are opened by their names. A file that is read from its front is opened once, and is
/// read on from the end of the last piece. Contracts do not see how far they are read.
#[derive(Drop)]
pub struct OpenedInputs<O: Opens + Drop> {
    opener: O,
    alloc: Global,
    opened: Option<Opened<O::File>>,
    /// How many calls failed; it is the count for every name.
    pub faults: u64,
    ghost stands: { ForSome opened (λ last. StandsAt (O.contents opener (string_bytes last.name)) last.at
        (O.File.remaining last.file)) },
}

// The file of a name at a place: the one that was read last, if it is at that place; otherwise it
// is opened.
fn file_at<O: Opens>(
    opener: &O,
    last: Option<Opened<O::File>>,
    name: &str,
    at: u64,
) -> io::Result<O::File>
    requires { ForSome last (λ last. StandsAt (O.contents opener.now (string_bytes last.name))
        last.at (O.File.remaining last.file)) }
    ensures { IfOk result
        (λ file. StandsAt (O.contents opener.now name.now) at (O.File.remaining file)) }
{
    if let Some(last) = last
        && last.name.as_str() == name
        && last.at == at
    {
        return Ok(last.file);
    }
    opener.open_at(name, at)
}

impl<O: Opens + Drop> OpenedInputs<O> {
    /// The files that are opened so; none is open yet. The allocator is for the name of the file
    /// that is open.
    pub fn new(alloc: Global, opener: O) -> Self
        ensures { result.faults ≡ 0 }
    {
        OpenedInputs {
            opener,
            alloc,
            opened: None,
            faults: 0,
        }
    }

    // Keeps a file that is at a place. Without memory for the name it is opened again for the next
    // piece.
    fn keep(&mut self, name: &str, at: u64, file: O::File)
        requires { StandsAt (O.contents self.old.opener name.now) at (O.File.remaining file) }
        ensures still { self.new.faults ≡ self.old.faults }
        ensures opener { self.new.opener ≡ self.old.opener }
    {
        if let Ok(name) = String::from_str(self.alloc, name) {
            self.opened = Some(Opened { name, file, at });
        }
    }

    fn read_at(&mut self, name: &str, at: u64, buf: &mut [u8]) -> io::Result<usize>
        ensures count { IfOk result (λ n. n ≤ length buf.new) }
        ensures bytes { IfOk result
            (λ n. HasRead (O.contents self.old.opener name.now) at n buf.new) }
        ensures still { self.new.faults ≡ self.old.faults }
        ensures opener { self.new.opener ≡ self.old.opener }
    {
        let last = self.opened.take();
        let mut file = file_at(&self.opener, last, name, at)?;
        let count = file.read(buf)?;
        if let Some(end) = at.checked_add(count as u64) {
            self.keep(name, end, file);
        }
        Ok(count)
    }
}

impl<O: Opens + Drop> Inputs for OpenedInputs<O> {
    ghost contents = { λ s. O.contents s.opener };

    ghost faults = { λ s _. s.faults };

    ghost reached = { λ _ _. 0 };

    ghost starts = { λ _. 0 };

    fn read(&mut self, name: &str, at: u64, buf: &mut [u8]) -> Result<usize, Failed> {
        match self.read_at(name, at, buf) {
            Ok(count) => Ok(count),
            Err(_) => {
                self.faults = self.faults.saturating_add(1);
                Err(Failed)
            }
        }
    }
}
