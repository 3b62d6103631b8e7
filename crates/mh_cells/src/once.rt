// What is learnt of one cell.
ghost use Rattle.std.specs.Prelude.{◌≡◌};
ghost use Rattle.mh_cells.specs.Learning.{AreOfOne, HasBoth};

use crate::learnt::Learnt;

/// A copy. It takes no memory.
pub(crate) fn again<'t, V>(learnt: &mut Option<Learnt<'t, V>>) -> Option<Learnt<'t, V>>
    ensures same { learnt.new ≡ learnt.old }
    ensures copy { result ≡ learnt.old }
{
    match learnt {
        Some(one) => Some(one.again()),
        None => None,
    }
}

/// Learns what another one has learnt of the same cell.
pub(crate) fn join<'t, V>(learnt: &mut Option<Learnt<'t, V>>, other: Option<Learnt<'t, V>>)
    requires { AreOfOne learnt.old other }
    ensures { HasBoth learnt.old other.entry learnt.new }
{
    let Some(theirs) = other else {
        return;
    };
    match learnt {
        Some(mine) => mine.agrees(theirs),
        None => *learnt = Some(theirs),
    }
}
