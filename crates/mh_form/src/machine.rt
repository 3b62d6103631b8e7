ghost use Rattle.std.specs.Prelude.{◌≡◌, []};
ghost use Rattle.std.specs.declared.alloc.Global.{Global};

use crate::Calls;
use crate::stack::Stack;
use mh_base::Seq;
use std::alloc::Global;
use std::marker::Model;

/// What a thread keeps from call to call, so that a call takes no memory: the vectors of the
/// slots, of the arguments of leaves, and of the leaf calls. Contracts see the leaf calls of the
/// last run, which stay until the next one begins.
///
/// A run begins with no slots and no leaf calls, whatever was left, even if the last one found no
/// memory. Once a run has ended, the machine keeps room for at most 4,096 slots. Once the next has
/// begun, it keeps room for at most 1,024 leaf calls. A vector with more room is given back.
#[derive(Drop)]
pub struct Machine {
    pub(crate) stack: Stack,
}

impl Model for Machine {
    ghost use Rattle.std.specs.Prelude.{List};
    ghost use Rattle.mh_values.specs.declared.calls.LeafCall.{LeafCall};

    ghost Value = { List LeafCall };

    ghost view = { λ m. m.stack.calls };
}

impl Machine {
    /// A machine that has run nothing. It takes no memory.
    pub fn new(alloc: Global) -> Machine
        ensures { result ≡ [] }
    {
        Machine {
            stack: Stack::on(alloc, Seq::new(alloc)),
        }
    }

    /// The allocator of the machine; there is one.
    pub fn alloc(&self) -> Global
        ensures { (other : Global) → result ≡ other }
    {
        self.stack.alloc()
    }

    /// The leaf calls of the last run, in the order in which they were made.
    pub fn calls(&self) -> &Calls
        ensures { result.now ≡ self.now }
    {
        self.stack.calls()
    }

    /// Takes the leaf calls of the last run, with their memory.
    pub fn take_calls(&mut self) -> Calls
        ensures given { result ≡ self.old }
        ensures left { self.new ≡ [] }
    {
        let none = Calls::new(self.alloc());
        self.stack.exchange_calls(none)
    }

    /// Drops the leaf calls of the last run.
    pub fn clear(&mut self)
        ensures { self.new ≡ [] }
    {
        self.stack.clear();
    }
}
