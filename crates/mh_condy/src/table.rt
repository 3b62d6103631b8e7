ghost use Rattle.std.specs.Prelude.{◌≡◌, ◌+◌, ◌<◌, ◌≤◌, length, slice_get, Some, IfOk, OnErr, OnOk};
ghost use Rattle.mh_seats.specs.Room.{limit};
ghost use Rattle.mh_tickets.specs.Seats.{KnowsAll, joined_seats, new_seat, with_less_room};
ghost use Rattle.mh_link.specs.Depth.{rank};
ghost use Rattle.mh_condy.specs.Given.{AreAsked};
ghost use Rattle.mh_condy.specs.Nodes.{unresolved};
ghost use Rattle.mh_condy.specs.Passes.{HasBoth, pass_at, split_pass, split_room, with_seat};
ghost use Rattle.mh_condy.specs.Resolving.{GoesOnResolving, Resolves};
ghost use Rattle.mh_condy.specs.Runs.{AreResolvable, HavePlaces};

use crate::attempt::Asked;
use crate::constant::Const;
use crate::depths::depths;
use crate::known::KnownConsts;
use crate::pass::ConstPass;
use crate::resolving::{arguments, resolve};
use crate::run::ConstRun;
use mh_base::NoMemory;
use mh_cells::Cells;
use mh_jobs::{ConstJob, ConstJobs, StaticArguments};
use mh_leaves::Leaves;
use mh_script::Scripts;
use mh_tickets::{TicketSeat, Tickets};
use std::alloc::Global;
use std::marker::Model;
use std::sync::Wait;

/// A rank above those of all constants, which stand 64 deep at most.
const ABOVE_ALL: u8 = 65;

/// The dynamic constants of a run, for threads that share them. Each has a cell: what is put there
/// first is recorded of the constant, an error too (JVMS SE 17, 5.4.3.6). Contracts see the cells,
/// and the counter of the attempts' serials.
///
/// Each thread has a [`ConstPass`]: the first is made by `first_pass`, and one for each further
/// thread is split off one that there is. Once threads are done, their passes are joined.
#[derive(Drop)]
pub struct ConstTable<'t, J: ConstRun> {
    pub(crate) alloc: Global,
    jobs: &'t ConstJobs,
    scripts: &'t Scripts,
    leaves: &'t Leaves,
    /// How deep each constant stands over those that it names, and 0 if it has no depth.
    depths: Vec<u8>,
    serials: Tickets,
    cells: Cells<Const<'t, J>>,
}

impl<'t, J: ConstRun> Model for ConstTable<'t, J> {
    ghost use Rattle.mh_condy.specs.Passes.{TableView};
    ghost use Rattle.mh_condy.specs.Runs.{IsTable};

    ghost Value = { TableView };

    ghost view = { λ t. record { cells = t.cells; serials = t.serials } };

    ghost invariant = { λ t. IsTable J.run t.jobs.now t.scripts.now t.leaves.now t.depths.items
        t.cells };
}

impl<'t, J: ConstRun> ConstTable<'t, J> {
    /// A table of these constants, none of them resolved, and the first seat, with which all
    /// serials may be drawn.
    pub fn new(
        alloc: Global,
        jobs: &'t ConstJobs,
        scripts: &'t Scripts,
        leaves: &'t Leaves,
    ) -> Result<(ConstTable<'t, J>, TicketSeat), NoMemory>
        requires jobs { jobs.now ≡ J.run.jobs }
        requires scripts { scripts.now ≡ J.run.scripts }
        requires leaves { leaves.now ≡ J.run.leaves }
        requires are { AreResolvable J.run }
        ensures { IfOk result (λ made. made.1 ≡ new_seat made.0.serials limit) }
    {
        let depths = depths(alloc, jobs)?;
        let cells = Cells::new(alloc, jobs.len())?;
        let (serials, seat) = Tickets::new(alloc)?;
        let table = ConstTable {
            alloc,
            jobs,
            scripts,
            leaves,
            depths,
            serials,
            cells,
        };
        Ok((table, seat))
    }

    /// The first pass, of thread 0. If memory runs out, the seat is lost, and the table can have no
    /// pass.
    pub fn first_pass<'s>(&'s self, seat: TicketSeat) -> Result<ConstPass<'s, 't, J>, NoMemory>
        requires { seat.tickets ≡ self.now.serials }
        ensures { IfOk result
            (λ pass. pass ≡ pass_at self.entry.now 0 (length J.run.jobs) seat) }
    {
        ConstPass::new(self.alloc, self, seat, 0)
    }

    /// A pass for another thread. It has learnt the constants that this pass has, and has attempted
    /// nothing. It has room for 2^32 serials, which this pass must have. If memory runs out, this
    /// pass is as it was.
    pub fn split<'s>(
        &'s self,
        pass: &mut ConstPass<'s, 't, J>,
        thread: u32,
    ) -> Result<ConstPass<'s, 't, J>, NoMemory>
        requires pass { pass.old.table ≡ self.now }
        requires room { split_room < pass.old.seat.room }
        ensures other { IfOk result (λ other. other ≡ split_pass thread pass.old) }
        ensures left { OnOk result
            (pass.new ≡ with_seat (with_less_room split_room pass.old.seat) pass.old) }
        ensures err { OnErr result (pass.new ≡ pass.old) }
    {
        pass.split(self.alloc, self, thread)
    }

    /// What a pass has learnt, for a pass that is split off it by `split_with`.
    pub fn learnt<'s>(
        &'s self,
        pass: &mut ConstPass<'s, 't, J>,
    ) -> Result<KnownConsts<'s, 't, J>, NoMemory>
        ensures same { pass.new ≡ pass.old }
        ensures cells { IfOk result (λ known. known.cells ≡ pass.old.table.cells) }
        ensures values { IfOk result (λ known. known.values ≡ pass.old.known) }
    {
        pass.learnt(self.alloc)
    }

    /// A pass for another thread, as `split` gives it, where what this pass has learnt is at hand.
    /// It takes no memory.
    pub fn split_with<'s>(
        &'s self,
        pass: &mut ConstPass<'s, 't, J>,
        known: KnownConsts<'s, 't, J>,
        thread: u32,
    ) -> ConstPass<'s, 't, J>
        requires pass { pass.old.table ≡ self.now }
        requires cells { known.cells ≡ pass.old.table.cells }
        requires values { known.values ≡ pass.old.known }
        requires room { split_room < pass.old.seat.room }
        ensures other { result ≡ split_pass thread pass.old }
        ensures left { pass.new ≡ with_seat (with_less_room split_room pass.old.seat) pass.old }
    {
        pass.split_with(self.alloc, self, known, thread)
    }

    /// Adds what another pass has learnt, attempted, recorded and drawn. If memory runs out, the
    /// pass has what it had, and the serials of both; what the other one has learnt and attempted
    /// is lost.
    pub fn join<'s>(
        &'s self,
        pass: &mut ConstPass<'s, 't, J>,
        other: ConstPass<'s, 't, J>,
    ) -> Result<(), NoMemory>
        requires pass { pass.old.table ≡ self.now }
        requires other { other.table ≡ self.now }
        ensures table { pass.new.table ≡ pass.old.table }
        ensures thread { pass.new.thread ≡ pass.old.thread }
        ensures seat { pass.new.seat ≡ joined_seats pass.old.seat other.entry.seat }
        ensures known { KnowsAll pass.new.seat }
        ensures ok { OnOk result (HasBoth pass.old other.entry pass.new) }
        ensures err { OnErr result (pass.new ≡ with_seat pass.new.seat pass.old) }
    {
        pass.join(self, other)
    }

    /// What is recorded of a constant: what the pass has learnt, or what its cell shows. Otherwise
    /// what a new attempt makes, unless another thread has recorded something in the meantime. An
    /// attempt resolves the constants among the static arguments first, in their order, up to the
    /// first that is an error. A constant that the pass has learnt takes no memory and changes
    /// nothing.
    ///
    /// The pass must have room for as many serials as there are constants that it has not learnt.
    pub fn resolve_const<'s, R: Wait>(
        &'s self,
        rt: &R,
        pass: &mut ConstPass<'s, 't, J>,
        c: u32,
    ) -> Result<&'s Const<'t, J>, NoMemory>
        requires pass { pass.old.table ≡ self.now }
        requires constant { c < length J.run.jobs }
        requires room { unresolved pass.old.known ≤ pass.old.seat.room }
        ensures resolves { Resolves J.run c pass.old pass.new result }
        ensures room_left { OnOk result (unresolved pass.new.known ≤ pass.new.seat.room) }
    {
        resolve(self, rt, pass, c)
    }

    /// Resolves the constants among static arguments in their order, up to the first that is an
    /// error, for an attempt that is given these arguments. The answer is what was found of each,
    /// and what is thrown in place of an argument, if something is.
    ///
    /// The pass must have room for as many serials as there are constants that it has not learnt.
    pub fn ask<'s, R: Wait>(
        &'s self,
        rt: &R,
        pass: &mut ConstPass<'s, 't, J>,
        asked: &StaticArguments,
    ) -> Result<Asked, NoMemory>
        requires pass { pass.old.table ≡ self.now }
        requires places { HavePlaces J.run asked.now.parts }
        requires room { unresolved pass.old.known ≤ pass.old.seat.room }
        ensures goes_on { GoesOnResolving pass.old pass.new }
        ensures asked { IfOk result (AreAsked J.run asked.now pass.old pass.new) }
        ensures few { pass.old.seat.room ≤ unresolved pass.old.known + pass.new.seat.room }
        ensures room_left { OnOk result (unresolved pass.new.known ≤ pass.new.seat.room) }
    {
        arguments(self, rt, pass, ABOVE_ALL, asked)
    }

    /// How many constants the run has.
    pub fn len(&self) -> usize
        ensures { result ≡ length J.run.jobs }
    {
        self.jobs.len()
    }

    /// Shows, for proofs, that the constants can be resolved. It does nothing when it runs.
    pub(crate) fn told(&self)
        ensures { AreResolvable J.run }
    {
        let _jobs = self.jobs;
    }

    /// The job of a constant.
    pub(crate) fn job(&self, c: u32) -> &'t ConstJob
        requires { c < length J.run.jobs }
        ensures job { slice_get J.run.jobs c ≡ Some result.now }
        ensures number { result.now.number ≡ c }
    {
        let jobs: &'t ConstJobs = self.jobs;
        jobs.get(c)
    }

    /// How deep a constant stands over those that it names, and 0 if it has no depth.
    pub(crate) fn depth(&self, c: u32) -> u8
        requires { c < length J.run.jobs }
        ensures { result ≡ rank J.run c }
    {
        self.depths[c as usize]
    }

    /// The leaves of the run, with their classes.
    pub(crate) fn leaves(&self) -> &Leaves
        ensures { result.now ≡ J.run.leaves }
    {
        self.leaves
    }

    /// The scripts of the run.
    pub(crate) fn scripts(&self) -> &Scripts
        ensures { result.now ≡ J.run.scripts }
    {
        self.scripts
    }

    /// The counter of the attempts' serials.
    pub(crate) fn serials(&self) -> &Tickets
        ensures { result.now ≡ self.now.serials }
    {
        &self.serials
    }

    /// The cells of the constants, in the order of their numbers.
    pub(crate) fn cells(&self) -> &Cells<Const<'t, J>>
        ensures cells { result.now ≡ self.now.cells }
        ensures count { length self.now.cells ≡ length J.run.jobs }
    {
        &self.cells
    }
}
