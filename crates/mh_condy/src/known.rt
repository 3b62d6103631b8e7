ghost use Rattle.std.specs.Prelude.{◌≡◌, ◌<◌, length, replicate, IfOk, None, Some};
ghost use Rattle.mh_condy.specs.Known.{FindsNode, LearnsOne, PutsNode};
ghost use Rattle.mh_condy.specs.Nodes.{IsKnown, Keeps, node_in};
ghost use Rattle.mh_condy.specs.Recorded.{ConstView, IsConst};

use crate::constant::Const;
use crate::run::ConstRun;
use mh_base::NoMemory;
use mh_cells::{Cells, Known};
use mh_setonce::Put;
use std::alloc::Global;
use std::marker::Model;
use std::sync::Wait;

/// What a pass has learnt of the constants of its table. Contracts see the cells of the constants,
/// and what was learnt of each.
#[derive(Drop)]
pub struct KnownConsts<'s, 't, J: ConstRun> {
    known: Known<'s, Const<'t, J>>,
}

impl<'s, 't, J: ConstRun> Model for KnownConsts<'s, 't, J> {
    ghost use Rattle.std.specs.Prelude.{◌≡◌, length};
    ghost use Rattle.mh_cells.specs.Values.{KnownView};
    ghost use Rattle.mh_condy.specs.Nodes.{IsKnown};
    ghost use Rattle.mh_condy.specs.Recorded.{ConstView};

    ghost Value = { KnownView ConstView };

    ghost view = { λ k. k.known };

    ghost invariant = { λ k. (length k.known.cells ≡ length J.run.jobs)
        × IsKnown J.run k.known.values };
}

// Shows, for proofs, what is recorded of a constant that was learnt. It does nothing when it runs.
fn told_at<J: ConstRun>(known: &Known<'_, Const<'_, J>>, c: u32)
    requires { c < length known.now.cells }
    ensures { (node : ConstView) → node_in known.now.values c ≡ Some node
        → (node.job.number ≡ c) × IsConst J.run node }
{
    if let Some(node) = known.seen(c) {
        node.told();
    }
}

impl<'s, 't, J: ConstRun> KnownConsts<'s, 't, J> {
    /// Nothing is learnt of any constant yet.
    pub(crate) fn new(
        alloc: Global,
        cells: &'s Cells<Const<'t, J>>,
    ) -> Result<KnownConsts<'s, 't, J>, NoMemory>
        requires { length cells.now ≡ length J.run.jobs }
        ensures cells { IfOk result (λ known. known.cells ≡ cells.entry.now) }
        ensures values { IfOk result
            (λ known. known.values ≡ replicate (length J.run.jobs) None) }
    {
        Ok(KnownConsts {
            known: Known::new(alloc, cells)?,
        })
    }

    /// A copy, for another pass.
    pub(crate) fn copy(&mut self, alloc: Global) -> Result<KnownConsts<'s, 't, J>, NoMemory>
        ensures same { self.new ≡ self.old }
        ensures copy { IfOk result (λ copy. copy ≡ self.old) }
    {
        Ok(KnownConsts {
            known: self.known.copy(alloc)?,
        })
    }

    /// How many constants there are.
    pub(crate) fn len(&self) -> usize
        ensures constants { result ≡ length J.run.jobs }
        ensures values { length self.now.values ≡ length J.run.jobs }
    {
        self.known.len()
    }

    /// Shows, for proofs, what is known. It does nothing when it runs.
    pub(crate) fn told(&self)
        ensures { IsKnown J.run self.now.values }
    {
        let _known = &self.known;
    }

    /// What is recorded of a constant, if it was learnt. It takes no memory.
    pub(crate) fn seen(&self, c: u32) -> Option<&'s Const<'t, J>>
        requires { c < length J.run.jobs }
        ensures { FindsNode self.now.values c result }
    {
        self.known.seen(c)
    }

    /// What is recorded of a constant, if it was learnt or its cell shows it now. It takes no
    /// memory.
    pub(crate) fn find(&mut self, c: u32) -> Option<&'s Const<'t, J>>
        requires { c < length J.run.jobs }
        ensures cells { self.new.cells ≡ self.old.cells }
        ensures learns { LearnsOne c self.old.values self.new.values }
        ensures found { FindsNode self.new.values c result }
    {
        let found = self.known.find(c);
        let _count = self.known.len();
        told_at(&self.known, c);
        found
    }

    /// Puts what an attempt has made into the cell of its constant, unless something stands there.
    /// It is handed back then, and if memory runs out.
    pub(crate) fn put<R: Wait>(
        &mut self,
        rt: &R,
        alloc: Global,
        made: Const<'t, J>,
    ) -> Result<Put<'s, Const<'t, J>>, Const<'t, J>>
        ensures cells { self.new.cells ≡ self.old.cells }
        ensures learns { LearnsOne made.entry.job.number self.old.values self.new.values }
        ensures put { PutsNode self.new.values made.entry result }
    {
        let c = made.number();
        let put = self.known.put(rt, alloc, c, made);
        let _count = self.known.len();
        told_at(&self.known, c);
        put
    }

    /// Learns what another pass of the same table has learnt. It takes no memory.
    pub(crate) fn join(&mut self, other: KnownConsts<'s, 't, J>)
        requires { other.cells ≡ self.old.cells }
        ensures cells { self.new.cells ≡ self.old.cells }
        ensures mine { Keeps self.old.values self.new.values }
        ensures theirs { Keeps other.entry.values self.new.values }
    {
        let KnownConsts { known } = other;
        self.known.join(known);
        let _count = self.known.len();
    }
}
