ghost use Rattle.std.specs.Prelude.{◌≡◌, ℕ, [], length, IfOk};
ghost use lib.ListN.{get_elem?};
ghost use mathlib.Core.Option.{some};
ghost use Rattle.mh_intern.specs.Buckets.{buckets};
ghost use Rattle.mh_intern.specs.Kinds.{dealt};
ghost use Rattle.mh_intern.specs.Claims.{KeeperSlot, HasKeeper};
ghost use Rattle.mh_intern.specs.Steps.{IsOfHolders};

use crate::bucket::BUCKETS;
use crate::holders;
use crate::holding::Entry;
use crate::kinds::{Place, Steps};
use mh_base::NoMemory;
use std::alloc::Global;
use std::collections::LinkedList;

/// A seat of the table of holders that keeps one bucket, and the list that its view has.
#[derive(Drop)]
pub struct Keeper {
    pub(crate) seat: Place,
    pub(crate) entries: Vec<Entry>,
}

// What a seat of the table of claims knows: a seat of the table of holders whose keepers these are,
// and which buckets it has claimed. No value of it is made.
pub struct Claimer {
    pub like: Option<Place>,
    pub claims: LinkedList<u32>,
}

/// A keeper for each bucket, from the first seat, which is left with none.
pub(crate) fn deal_keepers(
    alloc: Global,
    steps: &Steps,
    first: &mut Place,
) -> Result<Vec<Option<Keeper>>, NoMemory>
    requires table { IsOfHolders first.old.table_id steps.now.table_id }
    requires first { first.old.me ≡ (dealt 0, []) }
    ensures same { first.new.table_id ≡ first.old.table_id }
    ensures first { IfOk result (λ v. first.new.me ≡ (dealt buckets, [])) }
    ensures many { IfOk result (λ v. length v.items ≡ buckets) }
    ensures keepers { IfOk result (λ v. (b : ℕ) (x : KeeperSlot) → get_elem? v.items b ≡ some x
        → HasKeeper steps.now.table_id b x) }
{
    let mut keepers = Vec::with_capacity(alloc, BUCKETS as usize)?;
    for bucket in 0..BUCKETS {
        let _ = bucket;
        let seat = holders::split_keeper(steps, first);
        let keeper = Keeper {
            seat,
            entries: Vec::new(alloc),
        };
        keepers.push(Some(keeper))?;
    }
    Ok(keepers)
}
