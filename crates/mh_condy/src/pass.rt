ghost use Rattle.std.specs.Prelude.{◌≡◌, ◌^◌, ◌<◌, ◌≤◌, length, None, All, Contains, IfOk, OnErr, OnOk};
ghost use Rattle.mh_tickets.specs.Seats.{KnowsAll, joined_seats, with_less_room};
ghost use Rattle.mh_condy.specs.Known.{FindsNode};
ghost use Rattle.mh_condy.specs.Nodes.{Keeps, Knows, node_in};
ghost use Rattle.mh_condy.specs.Passes.{Begins, HasBoth, IsPass, IsRecorded, Looks, Records, attempt_of, pass_at, split_pass, split_room, with_seat};

use crate::constant::Const;
use crate::known::KnownConsts;
use crate::run::ConstRun;
use crate::table::ConstTable;
use mh_base::NoMemory;
use mh_setonce::Put;
use mh_tickets::TicketSeat;
use std::alloc::Global;
use std::marker::Model;
use std::sync::Wait;

/// How many serials a pass may draw that was split off.
const SPLIT_ROOM: u64 = 1 << 32;

/// One attempt to resolve a dynamic constant: its thread, the constant, and its serial.
#[derive(Clone, Copy, Debug, PartialEq, Eq)]
pub struct ConstAttempt {
    /// The thread, counted from 0.
    pub thread: u32,
    /// The constant, counted from 0 over all class files.
    pub constant: u32,
    /// The number of the attempt among all attempts at constants, counted from 1.
    pub serial: u64,
}

/// What one thread knows of a table of constants: what it has learnt of each, its attempts, and
/// those that it has recorded. It also has the seat with which it draws serials. Contracts see all
/// of it.
#[derive(Drop)]
pub struct ConstPass<'s, 't, J: ConstRun> {
    thread: u32,
    known: KnownConsts<'s, 't, J>,
    attempts: Vec<ConstAttempt>,
    recorded: Vec<ConstAttempt>,
    seat: TicketSeat,
}

impl<'s, 't, J: ConstRun> Model for ConstPass<'s, 't, J> {
    ghost use Rattle.mh_condy.specs.Passes.{AreAttempts, PassView};

    ghost Value = { PassView };

    ghost view = { λ p. record {
      table = record { cells = p.known.cells; serials = p.seat.tickets };
      thread = p.thread;
      known = p.known.values;
      attempts = p.attempts.items;
      recorded = p.recorded.items;
      seat = p.seat;
    } };

    ghost invariant = { λ p. AreAttempts J.run p.known.values p.attempts.items p.recorded.items };
}

impl<'s, 't, J: ConstRun> ConstPass<'s, 't, J> {
    /// A pass of a thread that has learnt of no constant.
    pub(crate) fn new(
        alloc: Global,
        table: &'s ConstTable<'t, J>,
        seat: TicketSeat,
        thread: u32,
    ) -> Result<ConstPass<'s, 't, J>, NoMemory>
        requires { seat.tickets ≡ table.now.serials }
        ensures { IfOk result (λ pass. pass
            ≡ pass_at table.entry.now thread (length J.run.jobs) seat) }
    {
        Ok(ConstPass {
            thread,
            known: KnownConsts::new(alloc, table.cells())?,
            attempts: Vec::new(alloc),
            recorded: Vec::new(alloc),
            seat,
        })
    }

    /// A pass for another thread, which has learnt what this one has, and has attempted nothing. It
    /// may draw 2^32 serials. This pass must have room for them. If memory runs out, this pass is
    /// as it was.
    pub(crate) fn split(
        &mut self,
        alloc: Global,
        table: &'s ConstTable<'t, J>,
        thread: u32,
    ) -> Result<ConstPass<'s, 't, J>, NoMemory>
        requires pass { self.old.table ≡ table.now }
        requires room { split_room < self.old.seat.room }
        ensures other { IfOk result (λ other. other ≡ split_pass thread self.old) }
        ensures left { OnOk result
            (self.new ≡ with_seat (with_less_room split_room self.old.seat) self.old) }
        ensures err { OnErr result (self.new ≡ self.old) }
    {
        let known = self.learnt(alloc)?;
        Ok(self.split_with(alloc, table, known, thread))
    }

    /// What the pass has learnt, for a pass that is split off it.
    pub(crate) fn learnt(&mut self, alloc: Global) -> Result<KnownConsts<'s, 't, J>, NoMemory>
        ensures same { self.new ≡ self.old }
        ensures cells { IfOk result (λ known. known.cells ≡ self.old.table.cells) }
        ensures values { IfOk result (λ known. known.values ≡ self.old.known) }
    {
        self.known.copy(alloc)
    }

    /// A pass for another thread, which has learnt this, what this pass has learnt. It takes no
    /// memory.
    pub(crate) fn split_with(
        &mut self,
        alloc: Global,
        table: &'s ConstTable<'t, J>,
        known: KnownConsts<'s, 't, J>,
        thread: u32,
    ) -> ConstPass<'s, 't, J>
        requires pass { self.old.table ≡ table.now }
        requires cells { known.cells ≡ self.old.table.cells }
        requires values { known.values ≡ self.old.known }
        requires room { split_room < self.old.seat.room }
        ensures other { result ≡ split_pass thread self.old }
        ensures left { self.new ≡ with_seat (with_less_room split_room self.old.seat) self.old }
    {
        ConstPass {
            thread,
            known,
            attempts: Vec::new(alloc),
            recorded: Vec::new(alloc),
            seat: table.serials().split(&mut self.seat, SPLIT_ROOM),
        }
    }

    /// Adds what another pass has learnt, attempted and recorded. If memory runs out, the seats are
    /// joined all the same, and the rest of the other pass is lost.
    pub(crate) fn join(
        &mut self,
        table: &'s ConstTable<'t, J>,
        other: ConstPass<'s, 't, J>,
    ) -> Result<(), NoMemory>
        requires pass { self.old.table ≡ table.now }
        requires other { other.table ≡ table.now }
        ensures table { self.new.table ≡ self.old.table }
        ensures thread { self.new.thread ≡ self.old.thread }
        ensures seat { self.new.seat ≡ joined_seats self.old.seat other.entry.seat }
        ensures known { KnowsAll self.new.seat }
        ensures ok { OnOk result (HasBoth self.old other.entry self.new) }
        ensures err { OnErr result (self.new ≡ with_seat self.new.seat self.old) }
    {
        let ConstPass {
            thread: _,
            known,
            mut attempts,
            mut recorded,
            seat,
        } = other;
        table.serials().join(&mut self.seat, seat);
        self.attempts.reserve(attempts.len())?;
        self.recorded.reserve(recorded.len())?;
        self.known.join(known);
        self.attempts.append(&mut attempts)?;
        self.recorded.append(&mut recorded)?;
        Ok(())
    }

    /// The number of its thread.
    pub fn thread(&self) -> u32
        ensures { result ≡ self.now.thread }
    {
        self.thread
    }

    /// How many constants the run has.
    pub fn constants(&self) -> usize
        ensures constants { result ≡ length J.run.jobs }
        ensures known { length self.now.known ≡ length J.run.jobs }
    {
        self.known.len()
    }

    /// The attempts that were made with the pass, and those of passes that were joined to it.
    pub fn attempts(&self) -> &[ConstAttempt]
        ensures items { result.now ≡ self.now.attempts }
        ensures within { All (λ a. a.constant < length J.run.jobs) self.now.attempts }
    {
        self.attempts.as_slice()
    }

    /// Those of its attempts that it has recorded.
    pub fn recorded(&self) -> &[ConstAttempt]
        ensures items { result.now ≡ self.now.recorded }
        ensures are { All (IsRecorded self.now.known self.now.attempts) self.now.recorded }
    {
        self.recorded.as_slice()
    }

    /// What is recorded of a constant, if the pass has learnt it. It takes no memory.
    pub fn seen(&self, c: u32) -> Option<&'s Const<'t, J>>
        requires { c < length J.run.jobs }
        ensures { FindsNode self.now.known c result }
    {
        self.known.seen(c)
    }

    /// Shows, for proofs, what the pass knows: each constant is recorded under what its own attempt
    /// has found, and the pass knows all that its own attempts have found. It does nothing when it
    /// runs.
    pub fn told(&self)
        ensures { IsPass J.run self.now }
    {
        self.known.told();
    }

    /// What is recorded of a constant, if the pass has learnt it or its cell shows it now. It takes
    /// no memory.
    pub(crate) fn find(&mut self, c: u32) -> Option<&'s Const<'t, J>>
        requires { c < length J.run.jobs }
        ensures { Looks c self.old self.new result }
    {
        let _count = self.known.len();
        self.known.find(c)
    }

    /// Begins an attempt of a constant, and draws its serial.
    pub(crate) fn begin(&mut self, table: &'s ConstTable<'t, J>, c: u32) -> Result<u64, NoMemory>
        requires pass { self.old.table ≡ table.now }
        requires constant { c < length J.run.jobs }
        requires room { 1 ≤ self.old.seat.room }
        ensures begins { IfOk result (λ serial. Begins c serial self.old self.new) }
        ensures range { IfOk result (λ serial. (1 ≤ serial) × (serial ≤ 2 ^ 62)) }
        ensures err { OnErr result (self.new ≡ self.old) }
    {
        self.attempts.reserve(1)?;
        let serial = table.serials().draw(&mut self.seat);
        self.attempts.push_reserved(ConstAttempt {
            thread: self.thread,
            constant: c,
            serial,
        });
        Ok(serial)
    }

    /// Records what an attempt has made of a constant that the pass has not learnt, unless
    /// something was recorded before: that is learnt then. If memory runs out, nothing is recorded.
    pub(crate) fn record<R: Wait>(
        &mut self,
        rt: &R,
        alloc: Global,
        made: Const<'t, J>,
    ) -> Result<&'s Const<'t, J>, NoMemory>
        requires attempted { Contains self.old.attempts (attempt_of self.old.thread made) }
        requires new { node_in self.old.known made.job.number ≡ None }
        requires under { All (Knows self.old.known) made.under }
        ensures records { IfOk result (λ node. Records made.entry node.now self.old self.new) }
        ensures failed { OnErr result (self.new ≡ record self.old { known = self.new.known }) }
        ensures kept { Keeps self.old.known self.new.known }
    {
        self.recorded.reserve(1)?;
        let _job = made.job();
        let _count = self.known.len();
        let attempt = ConstAttempt {
            thread: self.thread,
            constant: made.number(),
            serial: made.serial(),
        };
        match self.known.put(rt, alloc, made) {
            Ok(Put::Mine(node)) => {
                self.recorded.push_reserved(attempt);
                Ok(node)
            }
            Ok(Put::Theirs(node, _lost)) => Ok(node),
            Err(_lost) => Err(NoMemory),
        }
    }
}
