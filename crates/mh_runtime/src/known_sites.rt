ghost use Rattle.std.specs.Prelude.{◌≡◌, ◌<◌, length, replicate, IfOk, None};
ghost use Rattle.mh_cells.specs.Values.{JoinedOnly, Keeps};
ghost use Rattle.mh_runtime.specs.Passes.{FindsLinkage, FindsValue, HasSerials, PutsLinkage, PutsValue, linked_by};

use crate::site_linker::SiteLinker;
use mh_attempt::Linkage;
use mh_base::NoMemory;
use mh_cells::Known;
use mh_jobs::Run;
use mh_setonce::Put;
use std::alloc::Global;
use std::marker::Model;
use std::sync::Wait;

/// What a pass has learnt of its linker: the linkages of call sites.
#[derive(Drop)]
pub(crate) struct KnownSites<'s, 't, J: Run> {
    known: Known<'s, Linkage<'t, J>>,
}

impl<'s, 't, J: Run> Model for KnownSites<'s, 't, J> {
    ghost use Rattle.std.specs.Prelude.{◌≡◌, length};
    ghost use Rattle.mh_cells.specs.Values.{KnownView};
    ghost use Rattle.mh_attempt.specs.Linkage.{LinkageView};

    ghost Value = { KnownView LinkageView };

    ghost view = { λ k. k.known };

    ghost invariant = { λ k. length k.known.cells ≡ length J.given.jobs };
}

impl<'s, 't, J: Run> KnownSites<'s, 't, J> {
    /// Of no site a linkage is learnt yet.
    pub(crate) fn new(
        alloc: Global,
        linker: &'s SiteLinker<'t, J>,
    ) -> Result<KnownSites<'s, 't, J>, NoMemory>
        ensures cells { IfOk result (λ known. known.cells ≡ linker.entry.now.cells) }
        ensures linked { IfOk result
            (λ known. linked_by known ≡ replicate (length J.given.jobs) None) }
        ensures values { IfOk result
            (λ known. known.values ≡ replicate (length J.given.jobs) None) }
    {
        Ok(KnownSites {
            known: Known::new(alloc, linker.cells())?,
        })
    }

    /// A copy of the linkages, for another pass.
    pub(crate) fn copy(&mut self, alloc: Global) -> Result<KnownSites<'s, 't, J>, NoMemory>
        ensures same { self.new ≡ self.old }
        ensures copy { IfOk result (λ copy. copy ≡ self.old) }
    {
        Ok(KnownSites {
            known: self.known.copy(alloc)?,
        })
    }

    /// How many sites there are.
    pub(crate) fn len(&self) -> usize
        ensures sites { result ≡ length J.given.jobs }
        ensures count { length (linked_by self.now) ≡ length J.given.jobs }
    {
        self.known.len()
    }

    /// The linkage of a site that was learnt. It takes no memory.
    pub(crate) fn seen(&self, site: u32) -> Option<&'s Linkage<'t, J>>
        requires { site < length J.given.jobs }
        ensures found { FindsLinkage (linked_by self.now) site result }
        ensures value { FindsValue self.now.values site result }
    {
        self.known.seen(site)
    }

    /// The linkage of a site, if it was learnt or its cell shows one now. It takes no memory.
    pub(crate) fn find(&mut self, site: u32) -> Option<&'s Linkage<'t, J>>
        requires { site < length J.given.jobs }
        ensures cells { self.new.cells ≡ self.old.cells }
        ensures linked { HasSerials (linked_by self.old) (linked_by self.new) }
        ensures found { FindsLinkage (linked_by self.new) site result }
        ensures values { Keeps self.old.values self.new.values }
        ensures value { FindsValue self.new.values site result }
    {
        self.known.find(site)
    }

    /// Puts a linkage into the cell of its site, unless one stands there. It is handed back then,
    /// and if memory runs out.
    pub(crate) fn put<R: Wait>(
        &mut self,
        rt: &R,
        alloc: Global,
        linkage: Linkage<'t, J>,
    ) -> Result<Put<'s, Linkage<'t, J>>, Linkage<'t, J>>
        ensures cells { self.new.cells ≡ self.old.cells }
        ensures linked { HasSerials (linked_by self.old) (linked_by self.new) }
        ensures put { PutsLinkage (linked_by self.new) linkage.entry result }
        ensures values { Keeps self.old.values self.new.values }
        ensures value { PutsValue self.new.values linkage.entry.job.site result }
    {
        let site = linkage.job().site;
        self.known.put(rt, alloc, site, linkage)
    }

    /// Learns what another pass of the same linker has learnt. It takes no memory.
    pub(crate) fn join(&mut self, other: KnownSites<'s, 't, J>)
        requires { other.cells ≡ self.old.cells }
        ensures cells { self.new.cells ≡ self.old.cells }
        ensures mine { HasSerials (linked_by self.old) (linked_by self.new) }
        ensures theirs { HasSerials (linked_by other.entry) (linked_by self.new) }
        ensures my_values { Keeps self.old.values self.new.values }
        ensures their_values { Keeps other.entry.values self.new.values }
        ensures only { JoinedOnly self.old.values other.entry.values self.new.values }
    {
        let KnownSites { known } = other;
        self.known.join(known);
    }
}
