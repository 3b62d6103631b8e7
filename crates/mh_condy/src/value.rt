ghost use Rattle.std.specs.Prelude.{◌≡◌, IfOk};
ghost use Rattle.mh_values.specs.declared.value.Value.{Value as OneValue};
ghost use Rattle.mh_jobs.specs.Thrown.{OrThrown, caused, recorded};
ghost use Rattle.mh_link.specs.Constants.{as_recorded};
ghost use Rattle.mh_condy.specs.Recorded.{outcome_of};
ghost use Rattle.mh_condy.specs.Told.{Tells};

use crate::thrown::Failure;
use mh_base::{Frozen, NoMemory, Seq};
use mh_values::{Cause, ClassId, Classes, Exc, ExcParts, Value};
use std::alloc::Global;

/// What is recorded of a dynamic constant (JVMS SE 17, 5.4.3.6).
#[derive(Debug, Drop)]
pub enum ConstValue {
    /// The value, a number in its box.
    Value(Value),
    /// The error that all get who ask for the constant.
    Error(Exc),
}

/// An exception as the cause of a `BootstrapMethodError`.
fn caused(alloc: Global, exc: &Exc) -> Result<Exc, NoMemory>
    ensures { IfOk result (λ error. error ≡ caused exc.now) }
{
    let message = Seq::from_vec(Vec::from_slice(alloc, exc.message())?);
    let cause = Cause {
        class: exc.class(),
        message: Frozen::of(alloc, message)?,
    };
    let parts = ExcParts {
        class: ClassId::BOOTSTRAP_METHOD_ERROR,
        message: Frozen::new(),
        cause: Some(cause),
    };
    Exc::of(alloc, parts)
}

/// What is recorded of an exception: itself if it is an `Error`, otherwise a `BootstrapMethodError`
/// with the exception as its cause.
fn recorded(alloc: Global, classes: &Classes, exc: Exc) -> Result<Exc, NoMemory>
    ensures { IfOk result (λ error. error ≡ recorded classes.now exc) }
{
    if classes.subclass(exc.class(), ClassId::ERROR) {
        Ok(exc)
    } else {
        caused(alloc, &exc)
    }
}

/// What is recorded of the end of an attempt.
pub(crate) fn as_recorded(
    alloc: Global,
    classes: &Classes,
    end: Result<Value, Failure>,
) -> Result<ConstValue, NoMemory>
    ensures { (outcome : OrThrown OneValue) → Tells end outcome
        → IfOk result (λ value. outcome_of value ≡ as_recorded classes.now outcome) }
{
    match end {
        Ok(value) => Ok(ConstValue::Value(value)),
        Err(Failure::Thrown(exc)) => {
            let error = recorded(alloc, classes, exc)?;
            Ok(ConstValue::Error(error))
        }
        Err(Failure::NoMemory) => Err(NoMemory),
    }
}
