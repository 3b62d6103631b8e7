ghost use Rattle.std.specs.Prelude.{◌≡◌, IfOk, IsSome, Some, option_map, option_copied};
ghost use Rattle.std.specs.Int.{cast_signed, w32};
ghost use Rattle.mh_leaf.specs.declared.leaf.Leaf.{Leaf as Called};
ghost use Rattle.mh_leaf.specs.Outcome.{kind_on, leaf_outcome, lacks_receiver, divided, int, long, boolean, returned, is_same_int};

use crate::arguments::{
    first_value, one_boolean, one_value, picked_value, two_ints, two_longs, two_values,
};
use crate::text::{joined, measured};
use crate::{Kind, Leaf};
use mh_base::{Copied, NoMemory};
use mh_values::{ClassId, Exc, Num, Outcome, Value};
use std::alloc::Global;

fn int(number: i32) -> Outcome
    ensures { result ≡ int number }
{
    Outcome::Return(Some(Value::Prim(Num::I(number))))
}

fn long(number: i64) -> Outcome
    ensures { result ≡ long number }
{
    Outcome::Return(Some(Value::Prim(Num::J(number))))
}

fn boolean(holds: bool) -> Outcome
    ensures { result ≡ boolean holds }
{
    Outcome::Return(Some(Value::Prim(Num::Z(holds))))
}

/// `idiv`: the quotient of two ints.
fn divided(alloc: Global, a: i32, b: i32) -> Result<Outcome, NoMemory>
    ensures { IfOk result (λ outcome. outcome ≡ divided a b) }
{
    if b == 0 {
        return Ok(Outcome::Throw(Exc::saying(alloc, ClassId::ARITHMETIC, b"/ by zero")?));
    }
    Ok(int(a.wrapping_div(b)))
}

/// Whether two ints are equal.
fn is_same_int(a: i32, b: i32) -> bool
    ensures { result ≡ is_same_int a b }
{
    a == b
}

/// The signed number with the bits of a count.
fn signed(n: u32) -> i32
    ensures { result ≡ cast_signed w32 n }
{
    n.cast_signed()
}

/// A value as a result, if there is one.
fn returned(alloc: Global, value: Option<&Value>) -> Result<Option<Outcome>, NoMemory>
    ensures { IfOk result (λ outcome. outcome ≡ option_map returned (option_copied value.entry)) }
{
    match value {
        None => Ok(None),
        Some(value) => Ok(Some(Outcome::Return(Some(value.copy(alloc)?)))),
    }
}

/// `iadd`.
#[tactic(auto, using(std::proofs::lemmas::Int::wraps))]
fn sum(args: &[Value]) -> Option<Outcome>
    ensures { result ≡ kind_on Kind.Iadd args.now 0 }
{
    let (a, b) = two_ints(args)?;
    Some(int(a.wrapping_add(b)))
}

/// `isub`.
#[tactic(auto, using(std::proofs::lemmas::Int::wraps))]
fn difference(args: &[Value]) -> Option<Outcome>
    ensures { result ≡ kind_on Kind.Isub args.now 0 }
{
    let (a, b) = two_ints(args)?;
    Some(int(a.wrapping_sub(b)))
}

/// `imul`.
#[tactic(auto, using(std::proofs::lemmas::Int::wraps))]
fn product(args: &[Value]) -> Option<Outcome>
    ensures { result ≡ kind_on Kind.Imul args.now 0 }
{
    let (a, b) = two_ints(args)?;
    Some(int(a.wrapping_mul(b)))
}

/// `idiv`.
fn quotient(alloc: Global, args: &[Value]) -> Result<Option<Outcome>, NoMemory>
    ensures { IfOk result (λ outcome. outcome ≡ kind_on Kind.Idiv args.now 0) }
{
    let Some((a, b)) = two_ints(args) else {
        return Ok(None);
    };
    Ok(Some(divided(alloc, a, b)?))
}

/// `ladd`.
#[tactic(auto, using(std::proofs::lemmas::Int::wraps))]
fn long_sum(args: &[Value]) -> Option<Outcome>
    ensures { result ≡ kind_on Kind.Ladd args.now 0 }
{
    let (a, b) = two_longs(args)?;
    Some(long(a.wrapping_add(b)))
}

/// `ieq`.
fn equal(args: &[Value]) -> Option<Outcome>
    ensures { result ≡ kind_on Kind.Ieq args.now 0 }
{
    let (a, b) = two_ints(args)?;
    Some(boolean(is_same_int(a, b)))
}

/// `ilt`.
fn less(args: &[Value]) -> Option<Outcome>
    ensures { result ≡ kind_on Kind.Ilt args.now 0 }
{
    let (a, b) = two_ints(args)?;
    Some(boolean(a < b))
}

/// `not`.
fn negated(args: &[Value]) -> Option<Outcome>
    ensures { result ≡ kind_on Kind.Not args.now 0 }
{
    let b = one_boolean(args)?;
    Some(boolean(!b))
}

/// `concat`.
fn concatenated(alloc: Global, args: &[Value]) -> Result<Option<Outcome>, NoMemory>
    ensures { IfOk result (λ outcome. outcome ≡ kind_on Kind.Concat args.now 0) }
{
    let Some((first, second)) = two_values(args) else {
        return Ok(None);
    };
    Ok(Some(joined(alloc, first, second)?))
}

/// `length`.
fn length(args: &[Value]) -> Option<Outcome>
    ensures { result ≡ kind_on Kind.Length args.now 0 }
{
    measured(one_value(args)?)
}

/// What a leaf of a kind does with these arguments, after `n` earlier leaf calls of the invocation;
/// `None` if a leaf of the kind cannot have them.
pub fn kind_does(
    alloc: Global,
    kind: Kind,
    args: &[Value],
    n: u32,
) -> Result<Option<Outcome>, NoMemory>
    ensures { IfOk result (λ outcome. outcome ≡ kind_on kind args.now n) }
{
    match kind {
        Kind::Iadd => Ok(sum(args)),
        Kind::Isub => Ok(difference(args)),
        Kind::Imul => Ok(product(args)),
        Kind::Idiv => quotient(alloc, args),
        Kind::Ladd => Ok(long_sum(args)),
        Kind::Ieq => Ok(equal(args)),
        Kind::Ilt => Ok(less(args)),
        Kind::Not => Ok(negated(args)),
        Kind::Concat => concatenated(alloc, args),
        Kind::Length => Ok(length(args)),
        Kind::Same => returned(alloc, one_value(args)),
        Kind::First => returned(alloc, first_value(args)),
        Kind::Pick => returned(alloc, picked_value(args)),
        Kind::Tick => Ok(Some(int(signed(n)))),
        Kind::Note => Ok(Some(Outcome::Return(None))),
        Kind::Throw(class) => Ok(Some(Outcome::Throw(Exc::bare(class)))),
    }
}

/// Whether a leaf, virtual or not, is called on null as its receiver, so that it does not run.
pub fn lacks_receiver(is_virtual: bool, args: &[Value]) -> bool
    ensures { (leaf : Called) → leaf.is_virtual ≡ is_virtual →
        result ≡ lacks_receiver leaf args.now }
{
    match args {
        [Value::Null, ..] => is_virtual,
        _ => false,
    }
}

/// What a leaf does with these arguments, after `n` earlier leaf calls of the invocation. A virtual
/// leaf whose receiver is null throws `NullPointerException` and makes no leaf call.
pub fn leaf_does(alloc: Global, leaf: &Leaf, args: &[Value], n: u32) -> Result<Outcome, NoMemory>
    requires { IsSome (leaf_outcome leaf.now args.now n) }
    ensures { IfOk result (λ outcome. leaf_outcome leaf.now args.now n ≡ Some outcome) }
{
    if lacks_receiver(leaf.is_virtual, args) {
        return Ok(Outcome::Throw(Exc::bare(ClassId::NULL_POINTER)));
    }
    let Some(outcome) = kind_does(alloc, leaf.kind, args, n)? else {
        unreachable!()
    };
    Ok(outcome)
}
