ghost use Rattle.std.specs.Prelude.{◌≡◌, ℕ, ◌+◌, ◌<◌, ◌≤◌, All, length, IfOk, OnErr, OnOk, IsTrue};
ghost use Rattle.mh_tickets.specs.Seats as serials_seat;
ghost use Rattle.mh_handle.specs.Seats as forms_seat;
ghost use Rattle.mh_intern.specs.Views as types_seat;
ghost use Rattle.mh_jobs.specs.Given.{AreJobs};
ghost use Rattle.mh_plan.specs.Calls.{IsCallOf};
ghost use Rattle.mh_runtime.specs.Input.{given_by};
ghost use Rattle.mh_runtime.specs.Linkers.{AreSeats, BeginsPass, CanSplit, HasLessRoom, HasRoom, IsOf, JoinsPass, KeepsPass, MakesCall, Resolves, RunsThread, SplitsPass};
ghost use Rattle.mh_runtime.specs.Attempts.{HasRoomForConstants};
ghost use Rattle.mh_runtime.specs.Passes.{NameConstants, most_sites};

use crate::context::Context;
use crate::input::RunInput;
use crate::pass::Pass;
use crate::site_linker::SiteLinker;
use crate::site_pass::SitePass;
use crate::stops::ThreadRun;
use crate::tables::{Seats, Tables};
use mh_attempt::{ConstantsOf, Linkage, WorkError};
use mh_base::NoMemory;
use mh_condy::{ConstPass, ConstTable};
use mh_form::Machine;
use mh_handle::{Answer, FormTable, Work};
use mh_intern::TypeTable;
use mh_jobs::Run;
use mh_leaves::Leaves;
use mh_outside::Gate;
use mh_plan::{Call, ThreadCalls};
use std::alloc::Global;
use std::sync::Wait;

/// How many call sites a run has at most.
pub const MOST_SITES: u32 = 4096;

/// How much room for types a seat has that was split off.
const SPLIT_ROOM: u64 = 1 << 32;

/// Links the call sites of a run and makes calls of them, for threads that share it. What is
/// recorded first at a site is the linkage of the site for all threads, an error too (JVMS SE 17,
/// 5.4.3.6).
///
/// Each thread has a [`Pass`]: the first is made by `first_pass`, and one for each further thread
/// is split off one that there is. Once threads are done, their passes are joined.
#[derive(Drop)]
pub struct Linker<'t, J: Run> {
    pub(crate) alloc: Global,
    /// The call sites, and the counter of the attempts' serials.
    pub sites: SiteLinker<'t, J>,
    /// The leaves of the run, with their classes.
    pub leaves: &'t Leaves,
    /// The table of the types that handles and targets hold.
    pub types: &'t TypeTable,
    /// The table of the forms that handles and targets share.
    pub forms: &'t FormTable,
}

impl<'t, J: Run> Linker<'t, J> {
    /// A linker of these jobs, scripts and leaves that has linked nothing. Its targets have forms
    /// and types of these tables, and its attempts have serials of their counter.
    pub fn new(
        alloc: Global,
        input: &RunInput<'t>,
        tables: &'t Tables,
    ) -> Result<Linker<'t, J>, NoMemory>
        requires named { given_by input.now ≡ J.given }
        requires jobs { AreJobs J.given }
        requires constants { NameConstants J.given }
        requires few { length J.given.jobs ≤ most_sites }
        ensures leaves { IfOk result (λ linker. linker.leaves.now ≡ J.given.leaves) }
        ensures types { IfOk result (λ linker. linker.types.now ≡ tables.entry.now.types) }
        ensures forms { IfOk result (λ linker. linker.forms.now ≡ tables.entry.now.forms) }
        ensures serials { IfOk result (λ linker. linker.sites.serials ≡ tables.entry.now.serials) }
    {
        Ok(Linker {
            alloc,
            sites: SiteLinker::new(alloc, input.jobs, input.scripts, &tables.serials)?,
            leaves: input.leaves,
            types: &tables.types,
            forms: &tables.forms,
        })
    }

    /// The first pass, of thread 0, with seats of the linker's tables, and with the first pass over
    /// a table of the run's constants. If memory runs out, the seats are lost, and the linker can
    /// have no pass.
    pub fn first_pass<'s>(
        &'s self,
        seats: Seats,
        constants: &'s ConstTable<'t, ConstantsOf<J>>,
        asked: ConstPass<'s, 't, ConstantsOf<J>>,
    ) -> Result<Pass<'s, 't, J>, NoMemory>
        requires leaves { self.now.leaves.now ≡ J.given.leaves }
        requires seats { AreSeats self.now seats }
        requires asked { asked.table ≡ constants.now }
        ensures begins { IfOk result
            (BeginsPass (length J.given.jobs) self.entry.now seats asked.entry) }
        ensures pass { IfOk result (IsOf J.given self.entry.now) }
    {
        let Seats {
            types,
            forms,
            serials,
        } = seats;
        Ok(Pass {
            links: SitePass::new(self.alloc, &self.sites, serials, constants, asked, 0)?,
            forms: self.forms.first_pass(self.alloc, forms)?,
            types,
        })
    }

    /// A pass for another thread. It has learnt the sites and the forms that this pass has, and has
    /// attempted nothing and holds no type. It has room for 2^32 serials, form numbers and holds,
    /// which this pass must have: that is room for 65,536 calls. If memory runs out, this pass is
    /// as it was.
    pub fn split<'s>(
        &'s self,
        pass: &mut Pass<'s, 't, J>,
        thread: u32,
    ) -> Result<Pass<'s, 't, J>, NoMemory>
        requires pass { IsOf J.given self.now pass.old }
        requires room { CanSplit pass.old }
        ensures splits { IfOk result (SplitsPass thread pass.old pass.new) }
        ensures left { OnOk result (HasLessRoom pass.old pass.new) }
        ensures room { IfOk result (HasRoom 65536) }
        ensures pass { OnOk result (IsOf J.given self.entry.now pass.new) }
        ensures other { IfOk result (IsOf J.given self.entry.now) }
        ensures err { OnErr result (pass.new ≡ pass.old) }
    {
        // Room is given away once all memory is there.
        let known = pass.links.learnt(self.alloc)?;
        let constants = pass.links.constants_learnt()?;
        let forms = self.forms.split(self.alloc, &mut pass.forms)?;
        Ok(Pass {
            links: pass
                .links
                .split(self.alloc, &self.sites, known, constants, thread),
            forms,
            types: self.types.split(&mut pass.types, SPLIT_ROOM),
        })
    }

    /// Adds what another pass has learnt, attempted, recorded, drawn and held. If memory runs out,
    /// the pass has what it had, and the serials, the form numbers and the holds of both. What the
    /// other one has learnt and attempted may be lost.
    pub fn join<'s>(
        &'s self,
        pass: &mut Pass<'s, 't, J>,
        other: Pass<'s, 't, J>,
    ) -> Result<(), NoMemory>
        requires pass { IsOf J.given self.now pass.old }
        requires other { IsOf J.given self.now other }
        requires constants { other.links.constants.table ≡ pass.old.links.constants.table }
        ensures ok { OnOk result (JoinsPass pass.old other.entry pass.new) }
        ensures kept { KeepsPass pass.old pass.new }
        ensures pass { IsOf J.given self.entry.now pass.new }
        ensures serials { pass.new.links.seat
            ≡ serials_seat.joined_seats pass.old.links.seat other.entry.links.seat }
        ensures numbers { pass.new.forms.seat
            ≡ forms_seat.joined_seats pass.old.forms.seat other.entry.forms.seat }
        ensures types { pass.new.types ≡ types_seat.joined_seats pass.old.types other.entry.types }
    {
        let Pass {
            links,
            forms,
            types,
        } = other;
        self.types.join(&mut pass.types, types);
        let linked = pass.links.join(&self.sites, links);
        let formed = self.forms.join(&mut pass.forms, forms);
        linked?;
        formed?;
        Ok(())
    }

    /// The linkage of a site: the one that the pass has learnt, or that the site shows. Otherwise
    /// that of a new attempt, unless another thread has recorded one in the meantime. One that the
    /// pass has learnt takes no memory and changes nothing. If the attempt fails, nothing was
    /// recorded, and its serial is spent. The gate is called before and after a linkage is
    /// recorded.
    pub fn resolve<'s, R: Wait, G: Gate>(
        &'s self,
        rt: &R,
        pass: &mut Pass<'s, 't, J>,
        gate: &G,
        site: u32,
    ) -> Result<&'s Linkage<'t, J>, WorkError>
        requires pass { IsOf J.given self.now pass.old }
        requires site { site < length J.given.jobs }
        requires room { HasRoom 1 pass.old }
        requires constants { HasRoomForConstants pass.old.links }
        ensures pass { IsOf J.given self.entry.now pass.new }
        ensures resolves { Resolves J.given site pass.old pass.new result }
        ensures left { (more : ℕ) → HasRoom (more + 1) pass.old → HasRoom more pass.new }
        ensures constants_left { OnOk result (HasRoomForConstants pass.new.links) }
    {
        let mut w = Work {
            alloc: self.alloc,
            types: self.types,
            seat: &mut pass.types,
            forms: self.forms,
            pass: &mut pass.forms,
            leaves: self.leaves,
        };
        let linkage = self.sites.resolve(&mut w, rt, &mut pass.links, gate, site);
        let Work {
            alloc: _,
            types: _,
            seat: _,
            forms: _,
            pass: _,
            leaves: _,
        } = w;
        linkage
    }

    /// Whether a call can be made: its leaf or its site is there, and its arguments have the types
    /// of its type, or of the site's. A site whose type cannot be read takes no arguments.
    pub fn can_make(&self, call: &Call) -> bool
        requires { self.now.leaves.now ≡ J.given.leaves }
        ensures yes { IsTrue result → IsCallOf J.given.leaves J.given.jobs call.now }
        ensures no { IsCallOf J.given.leaves J.given.jobs call.now → IsTrue result }
    {
        call.can_be_made(self.leaves, self.sites.jobs())
    }

    /// Makes a call in a machine, whose memory serves all calls of a thread. A leaf is called by a
    /// handle of it, and a call site by its linkage, which is resolved first. An error that is
    /// linked there is thrown with no leaf call.
    pub fn call<'s, R: Wait, G: Gate>(
        &'s self,
        rt: &R,
        machine: &mut Machine,
        pass: &mut Pass<'s, 't, J>,
        gate: &G,
        call: &Call,
    ) -> Result<Answer, WorkError>
        requires pass { IsOf J.given self.now pass.old }
        requires call { IsCallOf J.given.leaves J.given.jobs call.now }
        requires room { HasRoom 1 pass.old }
        requires constants { HasRoomForConstants pass.old.links }
        ensures pass { IsOf J.given self.entry.now pass.new }
        ensures makes { MakesCall J.given call.now pass.old pass.new result }
        ensures left { (more : ℕ) → HasRoom (more + 1) pass.old → HasRoom more pass.new }
        ensures constants_left { OnOk result (HasRoomForConstants pass.new.links) }
    {
        let mut w = Work {
            alloc: self.alloc,
            types: self.types,
            seat: &mut pass.types,
            forms: self.forms,
            pass: &mut pass.forms,
            leaves: self.leaves,
        };
        let context = Context {
            linker: &self.sites,
            gate,
        };
        let answer = context.call(machine, &mut w, rt, &mut pass.links, call);
        let Work {
            alloc: _,
            types: _,
            seat: _,
            forms: _,
            pass: _,
            leaves: _,
        } = w;
        answer
    }

    /// Makes the calls of a thread, in order, up to the first that stops. The calls before that one
    /// are answered.
    pub fn run_thread<'s, R: Wait, G: Gate>(
        &'s self,
        rt: &R,
        pass: &mut Pass<'s, 't, J>,
        gate: &G,
        calls: &ThreadCalls,
    ) -> ThreadRun
        requires pass { IsOf J.given self.now pass.old }
        requires calls { All (IsCallOf J.given.leaves J.given.jobs) calls.now }
        requires room { HasRoom (length calls.now) pass.old }
        requires constants { HasRoomForConstants pass.old.links }
        ensures pass { IsOf J.given self.entry.now pass.new }
        ensures runs { RunsThread J.given calls.now pass.old pass.new result }
    {
        let mut w = Work {
            alloc: self.alloc,
            types: self.types,
            seat: &mut pass.types,
            forms: self.forms,
            pass: &mut pass.forms,
            leaves: self.leaves,
        };
        let context = Context {
            linker: &self.sites,
            gate,
        };
        let run = context.run_thread(&mut w, rt, &mut pass.links, calls);
        let Work {
            alloc: _,
            types: _,
            seat: _,
            forms: _,
            pass: _,
            leaves: _,
        } = w;
        run
    }
}
