ghost use Rattle.std.specs.Prelude.{◌≡◌};
ghost use Rattle.mh_condy.specs.Recorded.{outcome_of};

use crate::value::ConstValue;
use std::marker::Model;
use std::snapshot::Snapshot;

/// A constant that an attempt has looked at: what was recorded of it. Contracts see its number, its
/// serial, and its value or error.
#[derive(Drop)]
pub struct Finding {
    constant: u32,
    serial: u64,
    // It has no bytes.
    value: Snapshot<ConstValue>,
}

impl Model for Finding {
    ghost use Rattle.mh_condy.specs.Recorded.{FindingView, outcome_of};

    ghost Value = { FindingView };

    ghost view = { λ f. record { constant = f.constant; serial = f.serial; value = outcome_of f.value.value } };
}

impl Finding {
    /// What was recorded of a constant.
    pub(crate) fn new(constant: u32, serial: u64, value: &ConstValue) -> Finding
        ensures { result ≡ record
            { constant = constant; serial = serial; value = outcome_of value.now } }
    {
        Finding {
            constant,
            serial,
            value: Snapshot::of(value),
        }
    }
}
