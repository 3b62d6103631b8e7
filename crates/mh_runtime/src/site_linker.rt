ghost use Rattle.std.specs.Prelude.{◌≡◌, ◌<◌, ◌≤◌, length, IfOk, None, OnOk};
ghost use Rattle.mh_handle.specs.Works.{GoesOn};
ghost use Rattle.mh_jobs.specs.Given.{AreJobs};
ghost use Rattle.mh_report.specs.Results.{serial_at};
ghost use Rattle.mh_runtime.specs.Asking.{call_draws};
ghost use Rattle.mh_runtime.specs.Linkers.{IsReadyFor, Resolves, pass_in};
ghost use Rattle.mh_runtime.specs.Attempts.{HasRoomForConstants};
ghost use Rattle.mh_runtime.specs.Passes.{NameConstants, most_sites};

use crate::site_pass::SitePass;
use mh_attempt::{Linkage, WorkError};
use mh_base::NoMemory;
use mh_cells::Cells;
use mh_handle::Work;
use mh_jobs::{Jobs, Run};
use mh_outside::Gate;
use mh_script::Scripts;
use mh_tickets::Tickets;
use std::alloc::Global;
use std::marker::Model;
use std::sync::Wait;

/// The call sites of a run, for threads that share them. Each site has a cell: what is put there
/// first is the linkage of the site, an error too (JVMS SE 17, 5.4.3.6). Contracts see the cells,
/// and the counter of the attempts' serials.
#[derive(Drop)]
pub struct SiteLinker<'t, J: Run> {
    jobs: &'t Jobs,
    scripts: &'t Scripts,
    serials: &'t Tickets,
    cells: Cells<Linkage<'t, J>>,
}

impl<'t, J: Run> Model for SiteLinker<'t, J> {
    ghost use Rattle.mh_runtime.specs.Passes.{IsLinker, LinkerView};

    ghost Value = { LinkerView };

    ghost view = { λ l. record { cells = l.cells; serials = l.serials.now } };

    ghost invariant = { λ l. IsLinker J.given l.jobs.now l.scripts.now
        (record { cells = l.cells; serials = l.serials.now }) };
}

impl<'t, J: Run> SiteLinker<'t, J> {
    /// A linker that has linked nothing, whose attempts draw their serials from this counter.
    pub(crate) fn new(
        alloc: Global,
        jobs: &'t Jobs,
        scripts: &'t Scripts,
        tickets: &'t Tickets,
    ) -> Result<SiteLinker<'t, J>, NoMemory>
        requires jobs { jobs.now ≡ J.given.jobs }
        requires scripts { scripts.now ≡ J.given.scripts }
        requires are_jobs { AreJobs J.given }
        requires constants { NameConstants J.given }
        requires few { length J.given.jobs ≤ most_sites }
        ensures { IfOk result (λ linker. linker.serials ≡ tickets.entry.now) }
    {
        Ok(SiteLinker {
            jobs,
            scripts,
            serials: tickets,
            cells: Cells::new(alloc, jobs.len())?,
        })
    }

    /// How many call sites the run has.
    pub(crate) fn sites(&self) -> usize
        ensures sites { result ≡ length J.given.jobs }
        ensures few { result ≤ most_sites }
    {
        self.jobs.len()
    }

    /// The jobs of the call sites.
    pub(crate) fn jobs(&self) -> &Jobs
        ensures { result.now ≡ J.given.jobs }
    {
        self.jobs
    }

    /// The counter of the attempts' serials.
    pub(crate) fn serials(&self) -> &Tickets
        ensures { result.now ≡ self.now.serials }
    {
        self.serials
    }

    /// The cells of the sites, in the order of the sites' numbers.
    pub(crate) fn cells(&self) -> &Cells<Linkage<'t, J>>
        ensures cells { result.now ≡ self.now.cells }
        ensures count { length self.now.cells ≡ length J.given.jobs }
    {
        &self.cells
    }

    // Attempts a site that the pass has not learnt, and records the linkage, unless another thread
    // has recorded one before.
    fn attempt<'s, R: Wait, G: Gate>(
        &'s self,
        w: &mut Work<'_, 't>,
        rt: &R,
        pass: &mut SitePass<'s, 't, J>,
        gate: &G,
        site: u32,
    ) -> Result<&'s Linkage<'t, J>, WorkError>
        requires new { serial_at pass.old.linked site ≡ None }
        requires site { site < length J.given.jobs }
        requires ready { IsReadyFor J.given self.now 1 pass.old w.old }
        ensures goes_on { GoesOn call_draws w.old w.new }
        ensures resolves { Resolves {J = J} J.given site (pass_in pass.old w.old)
            (pass_in pass.new w.new) result }
        ensures room_left { OnOk result (HasRoomForConstants pass.new) }
    {
        let serial = pass.begin(self, site)?;
        let linkage = pass.attempt(w, rt, self.scripts, self.jobs.get(site), serial)?;
        gate.before_record(pass.thread(), site);
        let linkage = pass.record(w, rt, linkage)?;
        gate.after_record(pass.thread(), site);
        Ok(linkage)
    }

    /// The linkage of a site: the one that the pass has learnt, or that its cell shows. Otherwise
    /// that of a new attempt, unless another thread has recorded one in the meantime. One that the
    /// pass has learnt takes no memory. If the attempt fails, nothing was recorded, and its serial
    /// is spent.
    pub(crate) fn resolve<'s, R: Wait, G: Gate>(
        &'s self,
        w: &mut Work<'_, 't>,
        rt: &R,
        pass: &mut SitePass<'s, 't, J>,
        gate: &G,
        site: u32,
    ) -> Result<&'s Linkage<'t, J>, WorkError>
        requires site { site < length J.given.jobs }
        requires ready { IsReadyFor J.given self.now 1 pass.old w.old }
        ensures goes_on { GoesOn call_draws w.old w.new }
        ensures resolves { Resolves {J = J} J.given site (pass_in pass.old w.old)
            (pass_in pass.new w.new) result }
        ensures room_left { OnOk result (HasRoomForConstants pass.new) }
    {
        if let Some(found) = pass.find(site) {
            return Ok(found);
        }
        self.attempt(w, rt, pass, gate, site)
    }
}
