ghost use Rattle.std.specs.Prelude.{◌≡◌, [], ◌∷◌};
ghost use Rattle.mh_intern.specs.Trades.{Trades, HoldsAll};

use mh_intern::{HeldType, TypeSeat, TypeTable};

/// Lets two holds go, as a call that gives back a handle of two types.
pub fn release_both(table: &TypeTable, seat: &mut TypeSeat, one: HeldType, two: HeldType)
    requires seat { seat.old.table ≡ table.now }
    requires tables { (one.table ≡ table.now.holders) × (two.table ≡ table.now.holders) }
    requires holds { HoldsAll seat.old.holds (one.entry ∷ two.entry ∷ []) }
    ensures table { seat.new.table ≡ seat.old.table }
    ensures traded { Trades seat.old.holds (one.entry ∷ two.entry ∷ []) [] seat.new.holds }
{
    table.release(seat, two);
    table.release(seat, one);
}
