// The table of claims: a word and a slot for each bucket. The keeper of a bucket is in its slot, or
// with the seat that claims the bucket.
ghost use Rattle.std.specs.Prelude.{◌≡◌, ℕ, ◌<◌, [], ◌∷◌, length, MatchOption, Some, None, IfOk};
ghost use lib.ListN.{get_elem?};
ghost use mathlib.Core.Option.{some};
ghost use Rattle.mh_seats.specs.Steps.{Moves, Begins};
ghost use Rattle.mh_intern.specs.Buckets.{buckets};
ghost use Rattle.mh_intern.specs.Keep.{IsKeeper};
ghost use Rattle.mh_intern.specs.Claims.{KeeperSlot, Claimed, HasKeeper, named, IsIdle, HasClaimed, Names, takes_bucket, gives_bucket, unclaimed, claims_joined, spent_claimer, CMe};
ghost use Rattle.mh_intern.specs.Steps.{IsOfClaims, IsTableOfClaims};

use crate::bucket::BUCKETS;
use crate::keeper::{Claimer, Keeper};
use crate::kinds::Place;
use atomic_table::{Join, Play, Seat, Shared, Split, Table, TableRule};
use mh_base::NoMemory;
use std::alloc::Global;
use std::snapshot::Snapshot;
use std::sync::Wait;
use std::thread;

/// The rule of the table of claims.
pub(crate) struct Rule;

/// The table of holders whose keepers these are, by one of its seats.
pub(crate) type Named = Snapshot<Place>;

/// The table of claims: a word for each bucket, 1 if it is claimed, and its keeper.
pub(crate) type Claims = Table<Option<Keeper>, Claimer, Named, Rule, Global>;

/// The steps of a table of claims.
pub(crate) type Steps = Shared<Option<Keeper>, Claimer, Named, Rule>;

/// A seat of a table of claims.
pub(crate) type ClaimSeat = Seat<Option<Keeper>, Claimer>;

impl TableRule<Option<Keeper>, Claimer, Named> for Rule {
    ghost holds = { λ k s. Claimed k.value.table_id s };

    ghost first = { λ k. record { like = Some k.value; claims = [] } };
}

/// A compare and exchange that claims a bucket, if nobody has claimed it.
pub(crate) struct Taking;

impl Play<Option<Keeper>, Claimer> for Taking {
    ghost then = { takes_bucket };
}

/// A store that gives a bucket back.
pub(crate) struct PuttingBack;

impl Play<Option<Keeper>, Claimer> for PuttingBack {
    ghost then = { gives_bucket };
}

/// A split: a new seat names the same table of holders, and claims nothing.
pub(crate) struct Splitting;

impl Split<Claimer> for Splitting {
    ghost left = { λ v. v };

    ghost right = { unclaimed };
}

/// A join: one seat has the claims of two.
pub(crate) struct Joining;

impl Join<Claimer> for Joining {
    ghost both = { claims_joined };

    ghost spent = { spent_claimer };
}

/// A table over the keepers of all buckets, of the table of holders that a seat is of.
pub(crate) fn new_claims(
    alloc: Global,
    keepers: Vec<Option<Keeper>>,
    like: &Place,
) -> Result<(Claims, ClaimSeat), NoMemory>
    requires many { length keepers.items ≡ buckets }
    requires keepers { (b : ℕ) (x : KeeperSlot) → get_elem? keepers.items b ≡ some x
        → HasKeeper like.now.table_id b x }
    ensures table { IfOk result (λ t. IsTableOfClaims t.0.shared.table_id) }
    ensures seat { IfOk result (λ t. (t.1.table_id ≡ t.0.shared.table_id) × IsIdle t.1.me) }
    ensures named { IfOk result (λ t. named t.1.me.0 ≡ Some like.now.table_id) }
{
    match Claims::new(alloc, &[0; BUCKETS as usize], keepers, &Snapshot::of(like)) {
        Ok(made) => Ok(made),
        Err(_) => Err(NoMemory),
    }
}

/// The bucket's keeper, if nobody has claimed the bucket.
fn take(steps: &Steps, seat: &mut ClaimSeat, bucket: u32) -> Option<Keeper>
    requires seat { IsOfClaims seat.old.table_id steps.now.table_id }
    requires idle { IsIdle seat.old.me }
    requires bucket { bucket < buckets }
    ensures same { Names seat.old seat.new }
    ensures taken { MatchOption result (seat.new.me ≡ seat.old.me)
        (λ k. HasClaimed bucket seat.new.me) }
    ensures keeper { MatchOption result (seat.new.me ≡ seat.old.me)
        (λ k. (t : _) → named seat.old.me.0 ≡ Some t → IsKeeper t bucket k) }
{
    if steps.compare_exchange::<Taking>(seat, bucket as usize, 0, 1) == 0 {
        steps.exchange(seat, bucket as usize, None)
    } else {
        None
    }
}

/// The bucket's keeper, once nobody else has claimed the bucket. It waits for that.
pub(crate) fn claim<R: Wait>(rt: &R, steps: &Steps, seat: &mut ClaimSeat, bucket: u32) -> Keeper
    requires seat { IsOfClaims seat.old.table_id steps.now.table_id }
    requires idle { IsIdle seat.old.me }
    requires bucket { bucket < buckets }
    ensures same { Names seat.old seat.new }
    ensures claimed { HasClaimed bucket seat.new.me }
    ensures keeper { (t : _) → named seat.old.me.0 ≡ Some t → IsKeeper t bucket result }
{
    for _ in rt.forever() {
        if let Some(keeper) = take(steps, seat, bucket) {
            return keeper;
        }
        thread::yield_now();
    }
    unreachable!()
}

/// Puts the keeper into its slot again, and then frees the bucket.
pub(crate) fn put_back(steps: &Steps, seat: &mut ClaimSeat, bucket: u32, keeper: Keeper)
    requires seat { IsOfClaims seat.old.table_id steps.now.table_id }
    requires claimed { HasClaimed bucket seat.old.me }
    requires bucket { bucket < buckets }
    requires keeper { IsKeeper keeper.seat.table_id bucket keeper }
    requires named { named seat.old.me.0 ≡ Some keeper.seat.table_id }
    ensures same { Names seat.old seat.new }
    ensures idle { IsIdle seat.new.me }
{
    steps.exchange(seat, bucket as usize, Some(keeper));
    steps.store::<PuttingBack>(seat, bucket as usize, 0);
}

/// A new seat, which has claimed nothing.
pub(crate) fn split(steps: &Steps, seat: &mut ClaimSeat) -> ClaimSeat
    requires seat { IsOfClaims seat.old.table_id steps.now.table_id }
    ensures left { Moves (λ v. v) seat.old seat.new }
    ensures right { Begins (unclaimed seat.old.me.0) seat.old.table_id result }
{
    steps.split_seat::<Splitting>(seat)
}

/// The seat has the claims of both.
pub(crate) fn join(steps: &Steps, seat: &mut ClaimSeat, other: ClaimSeat)
    requires seat { IsOfClaims seat.old.table_id steps.now.table_id }
    requires other { (other.table_id ≡ steps.now.table_id) × (other.me.1 ≡ []) }
    ensures { Moves (λ v. claims_joined v other.me.0) seat.old seat.new }
{
    steps.join_seat::<Joining>(seat, other);
}
