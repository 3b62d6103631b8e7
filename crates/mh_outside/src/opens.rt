ghost use Rattle.std.specs.Prelude.{List, ℕ, IfOk};
ghost use Rattle.mh_outside.specs.Contents.{Contents, StandsAt};

use std::io;

/// What opens files by their names.
pub trait Opens {
    /// A file that is open.
    type File: io::Read + Drop;

    /// What contracts see of the file of a name.
    ghost contents: { Self → List ℕ → Contents };

    /// Opens the file of a name at a place: reads give the bytes from there on. At place 0 it is
    /// not moved, so that a pipe can be opened too.
    fn open_at(&self, name: &str, at: u64) -> io::Result<Self::File>
        ensures { IfOk result
            (λ file. StandsAt (contents self.now name.now) at (Self.File.remaining file)) };
}
