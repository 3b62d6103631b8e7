ghost use Rattle.std.specs.Prelude.{◌≡◌, None, IfOk, IfSome};
ghost use Rattle.mh_outside.specs.Contents.{unknown};

use crate::{OpenedInputs, Opens, WriterSink};
use std::alloc::Global;
use std::io::{Printer, Seek, SeekFrom};
use std::rt::Files;
use std::{fs, io};

/// The files of the system. Contracts do not see what they hold: this is the trusted edge.
#[derive(Drop)]
pub struct RealFiles<'r, R> {
    rt: &'r R,
}

// A file at its front, moved to a place. At place 0 it is left as it is, so that a file that cannot
// be moved can be read.
fn moved<F: Seek + Drop>(mut file: F, at: u64) -> io::Result<F>
    ensures { IfSome (F.stream_position file) (λ front. front ≡ 0
        → IfOk result (λ moved. IfSome (F.stream_position moved) (λ place. place ≡ at))) }
{
    if at > 0 {
        file.seek(SeekFrom::Start(at))?;
    }
    Ok(file)
}

impl<'r, R: Files> Opens for RealFiles<'r, R> {
    type File = R::File;

    ghost contents = { λ _ _. unknown };

    fn open_at(&self, name: &str, at: u64) -> io::Result<R::File> {
        moved(fs::open(self.rt, name)?, at)
    }
}

/// Files of the system as the inputs of a run.
pub type RealInputs<'r, R> = OpenedInputs<RealFiles<'r, R>>;

/// Standard output as the sink of a run. Contracts do not see what it took.
pub type RealSink<'r, R> = WriterSink<Printer<'r, R>>;

/// The files that the runtime gives.
pub fn real_inputs<'r, R: Files>(alloc: Global, rt: &'r R) -> RealInputs<'r, R>
    ensures { result.faults ≡ 0 }
{
    OpenedInputs::new(alloc, RealFiles { rt })
}

/// The standard output of the runtime.
pub fn real_sink<'r, R: Print>(rt: &'r R) -> RealSink<'r, R>
    ensures { result.faults ≡ 0 }
{
    WriterSink::new(io::writer(rt))
}
