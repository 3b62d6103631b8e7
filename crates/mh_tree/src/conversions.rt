ghost use Rattle.std.specs.Prelude.{◌≡◌};
ghost use Rattle.mh_tree.specs.Check.{TellsRow};
ghost use Rattle.mh_tree.specs.Rows.{can_all, can_be_used_as, word_of};
ghost use Rattle.mh_tree.specs.Rows.{convert_row, astype_row, explicit_row};

use crate::CheckError;
use crate::limits::limited;
use crate::message::mismatch;
use mh_base::Copied;
use mh_convert::Rules;
use mh_values::{Classes, MethodTy, Ty};
use std::alloc::Global;

/// Whether each of these types can be converted by the rules to the type at the same place of the
/// other list.
fn can_all(rules: Rules, from: &[Ty], to: &[Ty], classes: &Classes) -> bool
    ensures { result ≡ can_all rules classes.now from.now to.now }
{
    if from.len() != to.len() {
        return false;
    }
    for i in 0..from.len() {
        if rules.conversion(from[i], to[i], classes).is_none() {
            return false;
        }
    }
    true
}

/// Whether the rules can convert a method type to another. Each new parameter must convert to the
/// old one at its place, and the old result to the new one.
fn can_be_used_as(rules: Rules, own: &MethodTy, asked: &MethodTy, classes: &Classes) -> bool
    ensures { result ≡ can_be_used_as rules classes.now own.now asked.now }
{
    can_all(
        rules,
        asked.params.as_slice(),
        own.params.as_slice(),
        classes,
    ) && rules.ret_conversion(own.ret, asked.ret, classes).is_some()
}

/// The word of a conversion by the rules.
fn word(rules: Rules) -> &'static [u8]
    ensures { result.now ≡ word_of rules }
{
    match rules {
        Rules::AsType => b"astype",
        Rules::Explicit => b"explicit",
    }
}

/// The type of a tree converted by the rules to another type: the one that is asked for. Refused
/// with a `WrongMethodTypeException` if an argument or the result cannot be converted, or if the
/// numbers of parameters differ.
pub fn check_convert(
    alloc: Global,
    rules: Rules,
    target: &MethodTy,
    target_weight: u32,
    ty: &MethodTy,
    classes: &Classes,
) -> Result<MethodTy, CheckError>
    ensures { TellsRow result (convert_row rules classes.now target.now target_weight ty.now) }
{
    if !can_be_used_as(rules, target, ty, classes) {
        return Err(CheckError::Refused(mismatch(alloc, target, ty, classes)?));
    }
    limited(
        alloc,
        word(rules),
        1 + u64::from(target_weight),
        ty.copy(alloc)?,
    )
}

/// The type of a tree converted to another type (`MethodHandle.asType`, SE 17).
pub fn check_astype(
    alloc: Global,
    target: &MethodTy,
    target_weight: u32,
    ty: &MethodTy,
    classes: &Classes,
) -> Result<MethodTy, CheckError>
    ensures { TellsRow result (astype_row classes.now target.now target_weight ty.now) }
{
    check_convert(alloc, Rules::AsType, target, target_weight, ty, classes)
}

/// The type of a tree converted explicitly to another type (`MethodHandles.explicitCastArguments`,
/// SE 17).
pub fn check_explicit(
    alloc: Global,
    target: &MethodTy,
    target_weight: u32,
    ty: &MethodTy,
    classes: &Classes,
) -> Result<MethodTy, CheckError>
    ensures { TellsRow result (explicit_row classes.now target.now target_weight ty.now) }
{
    check_convert(alloc, Rules::Explicit, target, target_weight, ty, classes)
}
