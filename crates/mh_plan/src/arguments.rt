ghost use Rattle.std.specs.Prelude.{◌≡◌, map, IfOk};
ghost use Rattle.mh_plan.specs.Plan.{argument_of, arguments_of};

use mh_base::{NoMemory, Seq};
use mh_texts::{LiteralError, read_literal};
use mh_values::{Classes, Items, Ty, Value, has_type};
use std::alloc::Global;

// The value of a token, if it has the type.
fn read_argument(
    alloc: Global,
    classes: &Classes,
    token: &[u8],
    ty: Ty,
) -> Result<Option<Value>, NoMemory>
    ensures { IfOk result (λ value. value ≡ argument_of classes.now token.now ty) }
{
    match read_literal(alloc, token, classes) {
        Ok(value) => Ok(if has_type(&value, ty, classes) {
            Some(value)
        } else {
            None
        }),
        Err(LiteralError::NoMemory) => Err(NoMemory),
        Err(LiteralError::Bad) => Ok(None),
    }
}

/// The values of tokens, if they have the types, one for each.
pub(crate) fn read_arguments(
    alloc: Global,
    classes: &Classes,
    tokens: &[&[u8]],
    types: &[Ty],
) -> Result<Option<Items>, NoMemory>
    ensures { IfOk result
        (λ values. values ≡ arguments_of classes.now (map (λ t. t.now) tokens.now) types.now) }
{
    if tokens.len() != types.len() {
        return Ok(None);
    }
    let mut values = Seq::new(alloc);
    for i in 0..tokens.len() {
        let Some(value) = read_argument(alloc, classes, tokens[i], types[i])? else {
            return Ok(None);
        };
        values.push(value)?;
    }
    Ok(Some(values))
}
