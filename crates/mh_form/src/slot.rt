use mh_base::Seq;
use mh_values::Value;

/// A value whose type is erased: each number except a `long` is the int that it is, and a `boolean`
/// is 0 or 1.
#[derive(Drop)]
pub enum Slot {
    I(i32),
    J(i64),
    L(Value),
}

/// A list of slots, as the arguments of a form.
pub type Slots = Seq<Slot>;
