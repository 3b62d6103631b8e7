//! Several holds at once.

ghost use Rattle.std.specs.Prelude.{◌≡◌, ◌≤◌, [], OnOk, OnErr, IfOk, length};
ghost use Rattle.mh_intern.specs.Exchanges.{AreHeld, Exchanges, came_of_all};

use crate::held::HeldType;
use crate::seat::TypeSeat;
use crate::table::TypeTable;
use mh_base::NoMemory;
use std::alloc::Global;

impl TypeTable {
    /// One hold less of each of these types. It takes no memory and does not wait.
    pub fn release_all(&self, seat: &mut TypeSeat, held: Vec<HeldType>)
        requires seat { seat.old.table ≡ self.now }
        requires held { AreHeld seat.old held.items }
        ensures { Exchanges [] held.items [] seat.old seat.new }
    {
        for hold in held {
            self.release(seat, hold);
        }
    }

    /// One hold more of each of these types, which takes one room for each. If memory runs out, no
    /// hold is taken. It does not wait.
    pub fn dup_all(
        &self,
        alloc: Global,
        seat: &mut TypeSeat,
        held: &[HeldType],
    ) -> Result<Vec<HeldType>, NoMemory>
        requires seat { seat.old.table ≡ self.now }
        requires held { AreHeld seat.old held.now }
        requires room { length held.now ≤ seat.old.room }
        ensures same { IfOk result (λ copies. copies.items ≡ held.now) }
        ensures exchanges { Exchanges [] [] (came_of_all result) seat.old seat.new }
    {
        let mut copies = Vec::with_capacity(alloc, held.len())?;
        for hold in held {
            match self.dup(alloc, seat, hold) {
                Ok(copy) => copies.push_reserved(copy),
                Err(NoMemory) => {
                    self.release_all(seat, copies);
                    return Err(NoMemory);
                }
            }
        }
        Ok(copies)
    }
}
