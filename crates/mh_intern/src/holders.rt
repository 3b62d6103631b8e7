// The table of holders: each kind of step, over a bare seat. No step takes memory or waits.
ghost use Rattle.std.specs.Prelude.{◌≡◌, ◌+◌, ◌<◌, ◌≤◌, [], ◌∷◌, length, IfOk, All, count_by, nat_lt};
ghost use Rattle.std.specs.Mem.Slots.{slots_items, slots_len};
ghost use Rattle.std.specs.Mem.Slots as mem;
ghost use Rattle.mh_values.specs.declared.types.MethodTy.{MethodTy};
ghost use Rattle.mh_seats.specs.Steps.{Moves, Begins};
ghost use Rattle.mh_intern.specs.Buckets.{bucket_of, bucket_at, slots};
ghost use Rattle.mh_intern.specs.Held.{on_type, has, weight, asks, uses, IsFull};
ghost use Rattle.mh_seats.specs.Room.{limit, times};
ghost use Rattle.mh_intern.specs.Lists.{Places, Agrees};
ghost use Rattle.mh_intern.specs.Kinds.{caller, joined_views, first, without_first, first_keeper, less_room, after_request, request, after_reply, reply, full_bucket, refusal, held_more, held_less, kept_more, kept_asked, kept_less, counted_more, after_raise};
ghost use Rattle.mh_intern.specs.Plays.{WasRead};
ghost use Rattle.mh_intern.specs.Steps.{IsOfHolders, MayAsk, IsTableOfHolders};

use crate::bucket::SLOTS;
use crate::holding::Entry;
use crate::kinds::{
    Asking, Counting, Duplicating, Holders, Joining, Keeping, Leaving, Looking, Operand, Part,
    Place, Raising, Reading, Refusing, Releasing, Replying, Requesting, SplittingKeeper,
    SplittingRoom, Steps, Wanted,
};
use atomic_table::Closed;
use mh_values::MethodTy;
use std::alloc::{AllocError, Global};

/// A table whose words are zero, and its first seat.
pub(crate) fn new_holders(alloc: Global) -> Result<(Holders, Place), AllocError>
    ensures table { IfOk result (λ t. IsTableOfHolders t.0.shared.table_id) }
    ensures seat { IfOk result (λ t. Begins first t.0.shared.table_id t.1) }
{
    Holders::of_words(alloc, &[0; SLOTS], &())
}

/// How many slots of a closed table are held.
pub(crate) fn slots_in_use(closed: Closed<(), Global>) -> u32
    requires words { (slots_len closed.words ≡ slots) × mem.IsFull closed.words }
    requires slots { slots_len closed.slots ≡ 0 }
    ensures { result ≡ count_by (λ n. nat_lt 0 n) (slots_items closed.words) }
{
    let mut count = 0;
    for i in 0..SLOTS {
        count += u32::from(closed.word(i) > 0);
    }
    closed.free();
    count
}

/// A new caller with a part of a caller's room.
pub(crate) fn split_room<P: Part>(steps: &Steps, seat: &mut Place, room: u64) -> Place
    requires seat { IsOfHolders seat.old.table_id steps.now.table_id }
    requires room { room < seat.old.me.0.room }
    requires pick { P.room ≡ room }
    ensures left { Moves (less_room room) seat.old seat.new }
    ensures right { Begins (caller [] room [] []) seat.old.table_id result }
{
    steps.split_seat::<SplittingRoom<P>>(seat)
}

/// The seat, with all that the two had.
pub(crate) fn join(steps: &Steps, seat: &mut Place, other: Place)
    requires seat { IsOfHolders seat.old.table_id steps.now.table_id }
    requires other { (other.table_id ≡ steps.now.table_id) × (other.me.1 ≡ []) }
    ensures { Moves (λ v. joined_views v other.me.0) seat.old seat.new }
{
    steps.join_seat::<Joining>(seat, other);
}

/// What the rule says of a seat. Nothing changes.
pub(crate) fn look(steps: &Steps, seat: &mut Place)
    requires seat { IsOfHolders seat.old.table_id steps.now.table_id }
    ensures same { Moves (λ v. v) seat.old seat.new }
    ensures agrees { Agrees seat.old.me.0.holds }
    ensures full { All IsFull seat.old.me.0.full }
    ensures most { weight seat.old.me.0 ≤ limit }
    ensures asked { weight seat.old.me.0 ≡ limit
        → (t : MethodTy) → 0 < uses t seat.old.me.0 → 0 < asks t seat.old.me.0 }
{
    steps.load::<Looking>(seat, 0);
}

/// A caller has one hold more of what it holds.
pub(crate) fn raise_held<O: Operand>(steps: &Steps, seat: &mut Place, hold: &Entry)
    requires seat { IsOfHolders seat.old.table_id steps.now.table_id }
    requires pick { O.hold ≡ hold.now }
    requires slot { hold.now.slot < slots }
    requires room { 1 ≤ seat.old.me.0.room }
    requires held { 0 < has hold.now.slot hold.now.ty seat.old.me.0.holds }
    ensures { Moves (held_more hold.now) seat.old seat.new }
{
    steps.fetch_add::<Duplicating<O>>(seat, hold.slot as usize, 1);
}

/// A caller has one hold less.
pub(crate) fn lower<O: Operand>(steps: &Steps, seat: &mut Place, hold: &Entry)
    requires seat { IsOfHolders seat.old.table_id steps.now.table_id }
    requires pick { O.hold ≡ hold.now }
    requires slot { hold.now.slot < slots }
    requires held { 0 < has hold.now.slot hold.now.ty seat.old.me.0.holds }
    ensures { Moves (held_less hold.now) seat.old seat.new }
{
    steps.fetch_sub::<Releasing<O>>(seat, hold.slot as usize, 1);
}

/// A caller keeps one hold more of what it holds. The words stay.
pub(crate) fn keep_more<O: Operand>(steps: &Steps, seat: &mut Place, hold: &Entry)
    requires seat { IsOfHolders seat.old.table_id steps.now.table_id }
    requires pick { O.hold ≡ hold.now }
    requires slot { hold.now.slot < slots }
    requires held { 0 < has hold.now.slot hold.now.ty seat.old.me.0.holds }
    ensures { Moves (kept_more hold.now) seat.old seat.new }
{
    steps.load::<Keeping<O>>(seat, hold.slot as usize);
}

/// A caller has asked for a type that it holds, and keeps one hold more. The words stay.
pub(crate) fn keep_asked<O: Operand>(steps: &Steps, seat: &mut Place, hold: &Entry)
    requires seat { IsOfHolders seat.old.table_id steps.now.table_id }
    requires pick { O.hold ≡ hold.now }
    requires slot { hold.now.slot < slots }
    requires held { 0 < has hold.now.slot hold.now.ty seat.old.me.0.holds }
    ensures { Moves (kept_asked hold.now) seat.old seat.new }
{
    steps.load::<Asking<O>>(seat, hold.slot as usize);
}

/// A caller keeps one hold less of what it holds. The words stay.
pub(crate) fn keep_less<O: Operand>(steps: &Steps, seat: &mut Place, hold: &Entry)
    requires seat { IsOfHolders seat.old.table_id steps.now.table_id }
    requires pick { O.hold ≡ hold.now }
    requires slot { hold.now.slot < slots }
    requires held { 0 < has hold.now.slot hold.now.ty seat.old.me.0.holds }
    ensures { Moves (kept_less hold.now) seat.old seat.new }
{
    steps.load::<Leaving<O>>(seat, hold.slot as usize);
}

/// So many holds more of a caller are counted, of what it holds.
pub(crate) fn count_more<O: Operand>(steps: &Steps, seat: &mut Place, hold: &Entry, count: u64)
    requires seat { IsOfHolders seat.old.table_id steps.now.table_id }
    requires pick { (O.hold ≡ hold.now) × (O.count ≡ count) }
    requires slot { hold.now.slot < slots }
    requires room { count ≤ seat.old.me.0.room }
    requires held { 0 < has hold.now.slot hold.now.ty seat.old.me.0.holds }
    ensures { Moves (counted_more count hold.now) seat.old seat.new }
{
    steps.fetch_add::<Counting<O>>(seat, hold.slot as usize, count);
}

/// A request of a caller for a type, which takes one room with it.
pub(crate) fn request<W: Wanted>(steps: &Steps, seat: &mut Place, ty: &MethodTy) -> Place
    requires seat { IsOfHolders seat.old.table_id steps.now.table_id }
    requires pick { W.wanted ≡ ty.now }
    requires room { MayAsk seat.old.me.0.room seat.old.me.0.holds }
    ensures left { Moves (after_request ty.now) seat.old seat.new }
    ensures right { Begins (request ty.now) seat.old.table_id result }
{
    steps.split_seat::<Requesting<W>>(seat)
}

/// A keeper of the first seat's first bucket.
pub(crate) fn split_keeper(steps: &Steps, seat: &mut Place) -> Place
    requires seat { IsOfHolders seat.old.table_id steps.now.table_id }
    requires kept { 0 < length seat.old.me.0.keeps }
    requires fresh { (seat.old.me.0.entries ≡ []) × (seat.old.me.0.zeros ≡ []) }
    ensures left { Moves without_first seat.old seat.new }
    ensures right { Begins (first_keeper seat.old.me.0) seat.old.table_id result }
{
    steps.split_seat::<SplittingKeeper>(seat)
}

/// How many holds of a slot there are, which its keeper notes.
pub(crate) fn read(steps: &Steps, seat: &mut Place, slot: u32) -> u64
    requires seat { IsOfHolders seat.old.table_id steps.now.table_id }
    requires slot { (slot < slots) × (0 < times (bucket_at slot) seat.old.me.0.keeps) }
    ensures same { (seat.new.table_id ≡ seat.old.table_id) × (seat.new.me.1 ≡ seat.old.me.1) }
    ensures found { WasRead slot result seat.old.me.0 seat.new.me.0 }
{
    steps.load::<Reading>(seat, slot as usize)
}

/// A keeper has a hold of a type that its list has.
pub(crate) fn raise_listed<O: Operand>(
    steps: &Steps,
    seat: &mut Place,
    hold: &Entry,
    entries: &[Entry],
)
    requires seat { IsOfHolders seat.old.table_id steps.now.table_id }
    requires pick { (O.hold ≡ hold.now) × (O.entries ≡ entries.now) }
    requires slot { hold.now.slot < slots }
    requires kept { 0 < times (bucket_at hold.now.slot) seat.old.me.0.keeps }
    requires room { 1 ≤ seat.old.me.0.room }
    requires list { entries.now ≡ seat.old.me.0.entries }
    requires entry { 0 < has hold.now.slot hold.now.ty seat.old.me.0.entries }
    ensures { Moves (after_raise hold.now entries.now) seat.old seat.new }
{
    steps.fetch_add::<Raising<O>>(seat, hold.slot as usize, 1);
}

/// A keeper has a hold of a type that its list had no entry of, in a slot that it read as zero.
pub(crate) fn raise_new<O: Operand>(
    steps: &Steps,
    seat: &mut Place,
    hold: &Entry,
    entries: &[Entry],
)
    requires seat { IsOfHolders seat.old.table_id steps.now.table_id }
    requires pick { (O.hold ≡ hold.now) × (O.entries ≡ entries.now) }
    requires slot { hold.now.slot < slots }
    requires kept { 0 < times (bucket_at hold.now.slot) seat.old.me.0.keeps }
    requires room { 1 ≤ seat.old.me.0.room }
    requires bucket { bucket_of hold.now.ty ≡ bucket_at hold.now.slot }
    requires wanted { seat.old.me.0.wanted ≡ hold.now.ty ∷ [] }
    requires zero { 0 < times hold.now.slot seat.old.me.0.zeros }
    requires absent { on_type hold.now.ty seat.old.me.0.entries ≡ 0 }
    requires entries { Places hold.now seat.old.me.0.entries entries.now }
    ensures { Moves (after_raise hold.now entries.now) seat.old seat.new }
{
    steps.fetch_add::<Raising<O>>(seat, hold.slot as usize, 1);
}

/// The reply of a keeper, with the hold that it was asked for.
pub(crate) fn reply(steps: &Steps, seat: &mut Place) -> Place
    requires seat { IsOfHolders seat.old.table_id steps.now.table_id }
    requires quiet { seat.old.me.0.asked ≡ [] }
    ensures left { Moves after_reply seat.old seat.new }
    ensures right { Begins (reply seat.old.me.0) seat.old.table_id result }
{
    steps.split_seat::<Replying>(seat)
}

/// The reply of a keeper whose bucket is full, with the room of the request.
pub(crate) fn refuse(steps: &Steps, seat: &mut Place) -> Place
    requires seat { IsOfHolders seat.old.table_id steps.now.table_id }
    requires quiet { seat.old.me.0.asked ≡ [] }
    requires full { IsFull (full_bucket seat.old.me.0) }
    ensures left { Moves after_reply seat.old seat.new }
    ensures right { Begins (refusal seat.old.me.0) seat.old.table_id result }
{
    steps.split_seat::<Refusing>(seat)
}
