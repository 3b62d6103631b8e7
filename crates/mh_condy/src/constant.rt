ghost use Rattle.std.specs.Prelude.{◌≡◌, ◌≤◌, slice_get, Some};
ghost use Rattle.mh_condy.specs.Recorded.{IsConst, outcome_of};

use crate::finding::Finding;
use crate::run::ConstRun;
use crate::value::ConstValue;
use mh_jobs::ConstJob;
use mh_setonce::Keyed;
use std::marker::{Model, PhantomData};
use std::snapshot::Snapshot;

/// What an attempt has made of a dynamic constant of the run that `J` names. Contracts see the job
/// of the constant, the serial of the attempt, the value or error, and what the attempt has found
/// of the constants that it looked at itself.
#[derive(Drop)]
pub struct Const<'t, J: ConstRun> {
    job: &'t ConstJob,
    serial: u64,
    value: ConstValue,
    // It has no bytes.
    under: Snapshot<Vec<Finding>>,
    of: PhantomData<J>,
}

impl<'t, J: ConstRun> Model for Const<'t, J> {
    ghost use Rattle.mh_condy.specs.Recorded.{ConstView, IsConst, outcome_of};

    ghost Value = { ConstView };

    ghost view = { λ c. record {
      job = c.job.now;
      serial = c.serial;
      value = outcome_of c.value;
      under = c.under.value.items;
    } };

    ghost invariant = { λ c. IsConst J.run (record {
      job = c.job.now;
      serial = c.serial;
      value = outcome_of c.value;
      under = c.under.value.items;
    }) };
}

impl<'t, J: ConstRun> Const<'t, J> {
    /// What an attempt has made of a job's constant, after it looked at these.
    pub(crate) fn new(
        job: &'t ConstJob,
        serial: u64,
        value: ConstValue,
        under: &Vec<Finding>,
    ) -> Const<'t, J>
        requires { IsConst J.run (record {
          job = job.now;
          serial = serial;
          value = outcome_of value;
          under = under.now.items;
        }) }
        ensures { result ≡ record {
          job = job.now;
          serial = serial;
          value = outcome_of value;
          under = under.now.items;
        } }
    {
        Const {
            job,
            serial,
            value,
            under: Snapshot::of(under),
            of: PhantomData,
        }
    }

    /// The job of the constant.
    pub fn job(&self) -> &'t ConstJob
        ensures job { result.now ≡ self.now.job }
        ensures named { slice_get J.run.jobs self.now.job.number ≡ Some self.now.job }
    {
        self.job
    }

    /// The number of the constant in the run.
    pub fn number(&self) -> u32
        ensures { result ≡ self.now.job.number }
    {
        self.job.number
    }

    /// The serial of the attempt.
    pub fn serial(&self) -> u64
        ensures { result ≡ self.now.serial }
    {
        self.serial
    }

    /// The value, or the error.
    pub fn value(&self) -> &ConstValue
        ensures { outcome_of result.now ≡ self.now.value }
    {
        &self.value
    }

    /// Shows, for proofs, what was recorded: what the script of the job gives in an attempt of this
    /// serial, where constants are what the attempt has found of them. It does nothing when it
    /// runs.
    pub fn told(&self)
        ensures { IsConst J.run self.now }
    {
        let _job = self.job;
    }

    /// What was recorded, for an attempt that looks at it.
    pub(crate) fn finding(&self) -> Finding
        ensures { result ≡ record
            { constant = self.now.job.number; serial = self.now.serial; value = self.now.value } }
    {
        Finding::new(self.job.number, self.serial, &self.value)
    }
}

/// A cell has one constant.
impl<'t, J: ConstRun> Keyed for Const<'t, J> {
    type Key = u32;

    ghost use Rattle.std.specs.Prelude.{◌≡◌, Some, slice_get};

    ghost key_of = { λ c. c.job.number };

    ghost hash_of = { λ number. number };

    ghost row_size = { 1 };

    ghost keeps = { λ c number. slice_get J.run.jobs number ≡ Some c.job };

    fn has_key(&self, key: &u32) -> bool {
        self.job.number == *key
    }

    fn same_key(&self, other: &Const<'t, J>) -> bool {
        self.job.number == other.job.number
    }

    fn hash(&self) -> u32 {
        self.job.number
    }

    fn hash_key(key: &u32) -> u32
        ensures { result ≡ key.now }
    {
        *key
    }

    fn row_len() -> usize
        ensures size { result ≡ 1 }
        ensures some { 1 ≤ result }
    {
        1
    }

    fn kept(&self) {
        let _job = self.job;
    }
}
