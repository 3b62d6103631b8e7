//! What an attempt records at a call site, and the calls of the site.

ghost use Rattle.std.specs.Prelude.{◌≡◌, ◌≤◌, [], slice_get, Some, IfOk};
ghost use Rattle.mh_values.specs.HasType.{HaveTypes};
ghost use Rattle.mh_handle.specs.Answers.{IsAnswer};
ghost use Rattle.mh_intern.specs.Exchanges.{Exchanges};
ghost use Rattle.mh_handle.specs.Works.{HoldsTypes, IsUnchanged};
ghost use Rattle.mh_jobs.specs.Jobs.{params_at};
ghost use Rattle.mh_link.specs.Linked.{held_by, site_call};
ghost use Rattle.mh_link.specs.Sites.{linked_at};
ghost use Rattle.mh_attempt.specs.Linkage.{HasTypes, IsLinkage, IsLinkedBy, HasFound, held_in, own_given, site_keys};

use mh_base::{Copied, NoMemory};
use mh_condy::Finding;
use mh_form::Machine;
use mh_handle::{Answer, Handle, Work};
use mh_jobs::{Job, Run};
use mh_leaves::Leaves;
use mh_setonce::Keyed;
use mh_values::{Exc, Items};
use std::alloc::Global;
use std::marker::{Model, PhantomData};
use std::snapshot::Snapshot;

/// What is linked at a call site: the target of all its calls, or the error that all of them throw
/// (JVMS SE 17, 5.4.3.6).
#[derive(Drop)]
pub enum Linked<'t> {
    Target(Handle<'t>),
    Error(Exc),
}

/// What an attempt links at a call site of the run that `J` names: the meaning of the site's script
/// in the attempt with that serial, where dynamic constants are what the attempt has found of them.
/// Contracts see the job of the site, the serial, the holds, and what the attempt has found.
#[derive(Drop)]
pub struct Linkage<'t, J: Run> {
    job: &'t Job,
    serial: u64,
    linked: Linked<'t>,
    // It has no bytes.
    under: Snapshot<Vec<Finding>>,
    of: PhantomData<J>,
}

impl<'t, J: Run> Model for Linkage<'t, J> {
    ghost use Rattle.mh_attempt.specs.Linkage.{IsLinkage, LinkageView, held_in};

    ghost Value = { LinkageView };

    ghost view = { λ l. record {
      job = l.job.now;
      serial = l.serial;
      held = held_in l.linked;
      under = l.under.value.items;
    } };

    ghost invariant = { λ l. IsLinkage J.given l.job.now l.serial l.under.value.items l.linked };
}

impl<'t, J: Run> Linkage<'t, J> {
    /// What was linked for a job, by an attempt that has found this of the constants.
    pub(crate) fn new(
        job: &'t Job,
        serial: u64,
        linked: Linked<'t>,
        under: &Vec<Finding>,
    ) -> Linkage<'t, J>
        requires { IsLinkage J.given job.now serial under.now.items linked }
        ensures job { (result.job ≡ job.now) × (result.serial ≡ serial) }
        ensures held { result.held ≡ held_in linked.entry }
        ensures under { result.under ≡ under.now.items }
    {
        Linkage {
            job,
            serial,
            linked,
            under: Snapshot::of(under),
            of: PhantomData,
        }
    }

    /// The job of the call site.
    pub fn job(&self) -> &'t Job
        ensures job { result.now ≡ self.now.job }
        ensures named { slice_get J.given.jobs self.now.job.site ≡ Some self.now.job }
    {
        self.job
    }

    /// The number of the call site in the run.
    pub fn site(&self) -> u32
        ensures { result ≡ self.now.job.site }
    {
        self.job.site
    }

    /// The serial of the attempt.
    pub fn serial(&self) -> u64
        ensures { result ≡ self.now.serial }
    {
        self.serial
    }

    /// The target, or the error.
    pub fn linked(&self) -> &Linked<'t>
        ensures { IsLinkedBy J.given.leaves result.now
            (linked_at (own_given self.now J.given) self.now.job.site self.now.serial) }
    {
        &self.linked
    }

    /// Calls the site on arguments of its type. It calls the target, or throws the error before any
    /// form runs.
    pub fn call(&self, alloc: Global, leaves: &Leaves, args: &Items) -> Result<Answer, NoMemory>
        requires leaves { leaves.now ≡ J.given.leaves }
        requires typed { HaveTypes J.given.leaves.classes args.now
            (params_at J.given.jobs self.now.job.site) }
        ensures { IfOk result (IsAnswer (site_call J.given.leaves
            (linked_at (own_given self.now J.given) self.now.job.site self.now.serial) args.now)
            (site_keys (own_given self.now J.given) self.now.job.site self.now.serial)) }
    {
        self.call_with(&mut Machine::new(alloc), leaves, args)
    }

    /// Calls the site as `call` does, in a machine that is kept from call to call. The answer takes
    /// the leaf calls out of the machine.
    pub fn call_with(
        &self,
        machine: &mut Machine,
        leaves: &Leaves,
        args: &Items,
    ) -> Result<Answer, NoMemory>
        requires leaves { leaves.now ≡ J.given.leaves }
        requires typed { HaveTypes J.given.leaves.classes args.now
            (params_at J.given.jobs self.now.job.site) }
        ensures { IfOk result (IsAnswer (site_call J.given.leaves
            (linked_at (own_given self.now J.given) self.now.job.site self.now.serial) args.now)
            (site_keys (own_given self.now J.given) self.now.job.site self.now.serial)) }
    {
        match &self.linked {
            Linked::Target(target) => target.invoke_with(machine, leaves, args, 0),
            Linked::Error(exc) => Ok(Answer::thrown(machine.alloc(), exc.copy(machine.alloc())?)),
        }
    }

    /// Shows, for proofs, which types the linkage holds: those that its target holds. It does
    /// nothing when it runs.
    pub fn types_held(&self)
        ensures { HasTypes self.now.held (held_by J.given.leaves
            (linked_at (own_given self.now J.given) self.now.job.site self.now.serial)) }
    {
        let _linked = &self.linked;
    }

    /// Shows, for proofs, that the attempt has found something of each constant that the call looks
    /// at. It does nothing when it runs.
    pub fn told(&self)
        ensures { HasFound self.now }
    {
        let _job = self.job;
    }

    /// Gives up the linkage and releases the types that its target holds. It takes no memory.
    pub fn give_back(self, w: &mut Work<'_, 't>)
        requires of_types { w.old.seat.now.table ≡ w.old.types.now }
        requires held { HoldsTypes w.old self.held }
        ensures unchanged { IsUnchanged w.old w.new }
        ensures types { Exchanges [] self.entry.held [] w.old.seat.now w.new.seat.now }
    {
        let Linkage {
            job: _,
            serial: _,
            linked,
            under: _under,
            of: _,
        } = self;
        if let Linked::Target(target) = linked {
            target.give_back(w);
        }
    }
}

/// A chain has one linkage for each site.
impl<'t, J: Run> Keyed for Linkage<'t, J> {
    type Key = u32;

    ghost use Rattle.std.specs.Prelude.{◌≡◌, Some, slice_get};

    ghost key_of = { λ l. l.job.site };

    ghost hash_of = { λ site. site };

    ghost row_size = { 1 };

    ghost keeps = { λ l site. slice_get J.given.jobs site ≡ Some l.job };

    fn has_key(&self, key: &u32) -> bool {
        self.job.site == *key
    }

    fn same_key(&self, other: &Linkage<'t, J>) -> bool {
        self.job.site == other.job.site
    }

    fn hash(&self) -> u32 {
        self.job.site
    }

    fn hash_key(key: &u32) -> u32
        ensures { result ≡ key.now }
    {
        *key
    }

    fn row_len() -> usize
        ensures size { result ≡ 1 }
        ensures some { 1 ≤ result }
    {
        1
    }

    fn kept(&self) {
        let _job = self.job;
    }
}
