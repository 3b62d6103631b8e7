ghost use Rattle.std.specs.Prelude.{◌≡◌, ◌≤◌, ◌<◌, List, ℕ, OnOk, OnErr, IfOk, length, take, Option};
ghost use Rattle.std.specs.Io.KnownBytes.{Appends, Keeps};
ghost use Rattle.mh_outside.specs.Causes.{Rose};

use crate::Failed;

/// Where text goes.
pub trait Sink {
    /// The bytes taken so far, if contracts see them.
    ghost taken: { Self → Option (List ℕ) };

    /// How often a write has failed.
    ghost faults: { Self → ℕ };

    /// Takes bytes from the front of the piece, and says how many: at least one of a piece that is
    /// not empty. Taking none of such a piece is a fault.
    fn write(&mut self, bytes: &[u8]) -> Result<usize, Failed>
        ensures later { faults self.old ≤ faults self.new }
        ensures cause { OnErr result (Rose (faults self.old) (faults self.new)) }
        ensures no_fault { OnOk result (faults self.new ≡ faults self.old) }
        ensures count { IfOk result (λ n. n ≤ length bytes.now) }
        ensures some { IfOk result (λ n. 0 < length bytes.now → 0 < n) }
        ensures appended { IfOk result
            (λ n. Appends (taken self.old) (taken self.new) (take n bytes.now)) }
        ensures kept { OnErr result (Keeps (taken self.old) (taken self.new)) };
}
