ghost use Rattle.std.specs.Prelude.{◌≡◌, ◌≤◌, ◌<◌, ◌+◌, List, ℕ, OnOk, OnErr, IfOk, length};
ghost use Rattle.mh_outside.specs.Contents.{Contents, HasRead};
ghost use Rattle.mh_outside.specs.Causes.{Rose, AreSame};
ghost use Rattle.mh_outside.specs.Reach.{ReachesTo};

use std::error::Error;
use std::fmt;

/// The outside did not do what it was asked.
#[derive(Clone, Copy, Debug, PartialEq, Eq)]
pub struct Failed;

impl fmt::Display for Failed {
    fn fmt<W: fmt::Write>(&self, f: &mut fmt::Formatter<W>) -> fmt::Result {
        f.write_str("the outside failed")
    }
}

impl Error for Failed {}

/// Where files are read. What contracts see of a file never changes, and a count of faults never
/// falls. A count stays at 2^64 - 1 once it has reached it.
pub trait Inputs {
    /// What contracts see of the file of a name.
    ghost contents: { Self → List ℕ → Contents };

    /// How often the calls for a name have failed.
    ghost faults: { Self → List ℕ → ℕ };

    /// How many bytes from the front of a file the calls for its name have asked for, at most: the
    /// end of the buffer that reached furthest.
    ghost reached: { Self → List ℕ → ℕ };

    /// How many calls have read a file from its front. A pipe gives its bytes to the first of them.
    ghost starts: { Self → ℕ };

    /// Reads bytes of the file from the place `at` on, into the front of the buffer, and says how
    /// many. It is none only if the buffer is empty or the file ends at `at` or before. A name that
    /// cannot be opened is a fault.
    fn read(&mut self, name: &str, at: u64, buf: &mut [u8]) -> Result<usize, Failed>
        ensures contents { (n : List ℕ) → contents self.new n ≡ contents self.old n }
        ensures later { (n : List ℕ) → faults self.old n ≤ faults self.new n }
        ensures cause { OnErr result (Rose (faults self.old name.now) (faults self.new name.now)) }
        ensures no_fault { OnOk result (AreSame (faults self.old) (faults self.new)) }
        ensures reached { ReachesTo (at + length buf.new) (reached self.old) (reached self.new) }
        ensures starts { starts self.new ≤ starts self.old + 1 }
        ensures goes_on { 0 < at → starts self.new ≤ starts self.old }
        ensures count { IfOk result (λ n. n ≤ length buf.new) }
        ensures bytes { IfOk result (λ n. HasRead (contents self.old name.now) at n buf.new) };
}
