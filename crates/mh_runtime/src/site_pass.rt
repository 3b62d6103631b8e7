ghost use Rattle.std.specs.Prelude.{◌≡◌, ◌+◌, ◌^◌, ◌<◌, ◌≤◌, [], length, map, option_map, slice_get, All, Contains, Some, IfOk, OnOk, OnErr};
ghost use Rattle.mh_cells.specs.Values.{value_at};
ghost use Rattle.mh_tickets.specs.Seats.{KnowsAll, joined_seats, with_less_room};
ghost use Rattle.mh_handle.specs.Recipe.{recipe};
ghost use Rattle.mh_handle.specs.Works.{GoesOn, HoldsTypes, IsReady, IsUnchanged, leaves_of};
ghost use Rattle.mh_jobs.specs.Given.{IsJob};
ghost use Rattle.mh_link.specs.Sites.{edits_at, types_at};
ghost use Rattle.mh_link.specs.Named.{run_of};
ghost use Rattle.mh_condy.specs.Nodes.{Knows};
ghost use Rattle.mh_condy.specs.Passes.{IsPass};
ghost use Rattle.mh_condy.specs.Resolving.{GoesOnResolving};
ghost use Rattle.mh_attempt.specs.Asked.{Asks, attempt_draws};
ghost use Rattle.mh_attempt.specs.AskedTypes.{AsksNoOther, AsksTypes};
ghost use Rattle.mh_attempt.specs.Constants.{AsksConstants, AsksFirst, HasPlaces, given_in};
ghost use Rattle.mh_attempt.specs.Linkage.{AddsLinkage};
ghost use Rattle.mh_runtime.specs.Attempts.{DrawsOnce, HasRoomForConstants};
ghost use Rattle.mh_runtime.specs.Linking.{Records, StaysWhole};
ghost use Rattle.mh_runtime.specs.Values.{AtLinks};
ghost use Rattle.mh_runtime.specs.Passes.{BeginsAttempt, FindsLinkage, FindsValue, HasBoth, HasFoundKnown, IsLinkageOf, IsRecorded, KeepsSites, LearnsSites, RecordsOurs, attempt_of, linked_by, pass_at, serial_of, split_pass, split_room, with_seats};

use crate::known_sites::KnownSites;
use crate::site_linker::SiteLinker;
use mh_attempt::{ConstantsOf, Linkage, WorkError, attempt};
use mh_base::NoMemory;
use mh_condy::{ConstPass, ConstTable, KnownConsts};
use mh_handle::Work;
use mh_jobs::{Job, Run};
use mh_report::Attempt;
use mh_script::Scripts;
use mh_setonce::Put;
use mh_tickets::TicketSeat;
use std::alloc::Global;
use std::marker::Model;
use std::sync::Wait;

/// How many serials a pass may draw that was split off.
const SPLIT_ROOM: u64 = 1 << 32;

/// What one thread knows of a linker: the linkages that it has learnt, its attempts, those of them
/// that it has recorded, the seat through which it draws serials, and its pass over the dynamic
/// constants. Contracts see all of it.
#[derive(Drop)]
pub struct SitePass<'s, 't, J: Run> {
    thread: u32,
    known: KnownSites<'s, 't, J>,
    attempts: Vec<Attempt>,
    recorded: Vec<Attempt>,
    seat: TicketSeat,
    /// The table of the constants, which threads share.
    table: &'s ConstTable<'t, ConstantsOf<J>>,
    constants: ConstPass<'s, 't, ConstantsOf<J>>,
}

impl<'s, 't, J: Run> Model for SitePass<'s, 't, J> {
    ghost use Rattle.std.specs.Prelude.{◌≡◌};
    ghost use Rattle.mh_runtime.specs.Passes.{IsLinkPass, LinkPass, linked_by};

    ghost Value = { LinkPass };

    ghost view = { λ p. record {
      linker = record { cells = p.known.cells; serials = p.seat.tickets };
      thread = p.thread;
      linked = linked_by p.known;
      attempts = p.attempts.items;
      recorded = p.recorded.items;
      seat = p.seat;
      linkages = p.known.values;
      constants = p.constants;
    } };

    ghost invariant = { λ p. (p.constants.table ≡ p.table.now)
        × IsLinkPass J.given p.known p.attempts.items p.recorded.items p.constants };
}

impl<'s, 't, J: Run> SitePass<'s, 't, J> {
    /// A pass of a thread that has learnt of no site, with a pass over this table of constants.
    pub(crate) fn new(
        alloc: Global,
        linker: &'s SiteLinker<'t, J>,
        seat: TicketSeat,
        table: &'s ConstTable<'t, ConstantsOf<J>>,
        constants: ConstPass<'s, 't, ConstantsOf<J>>,
        thread: u32,
    ) -> Result<SitePass<'s, 't, J>, NoMemory>
        requires sites { seat.tickets ≡ linker.now.serials }
        requires constants { constants.table ≡ table.now }
        ensures { IfOk result (λ pass. pass
            ≡ pass_at linker.entry.now thread (length J.given.jobs) seat constants.entry) }
    {
        Ok(SitePass {
            thread,
            known: KnownSites::new(alloc, linker)?,
            attempts: Vec::new(alloc),
            recorded: Vec::new(alloc),
            seat,
            table,
            constants,
        })
    }

    /// What the pass has learnt, for a pass that is split off it.
    pub(crate) fn learnt(&mut self, alloc: Global) -> Result<KnownSites<'s, 't, J>, NoMemory>
        ensures same { self.new ≡ self.old }
        ensures cells { IfOk result (λ known. known.cells ≡ self.old.linker.cells) }
        ensures linked { IfOk result (λ known. linked_by known ≡ self.old.linked) }
        ensures values { IfOk result (λ known. known.values ≡ self.old.linkages) }
    {
        self.known.copy(alloc)
    }

    /// What the pass has learnt of the constants, for a pass that is split off it.
    pub(crate) fn constants_learnt(
        &mut self,
    ) -> Result<KnownConsts<'s, 't, ConstantsOf<J>>, NoMemory>
        ensures same { self.new ≡ self.old }
        ensures cells { IfOk result (λ known. known.cells ≡ self.old.constants.table.cells) }
        ensures values { IfOk result (λ known. known.values ≡ self.old.constants.known) }
    {
        self.table.learnt(&mut self.constants)
    }

    /// A pass for another thread, which has learnt what this one has, and has attempted nothing. It
    /// may draw 2^32 serials. This pass must have room for them. It takes no memory.
    pub(crate) fn split(
        &mut self,
        alloc: Global,
        linker: &'s SiteLinker<'t, J>,
        known: KnownSites<'s, 't, J>,
        constants: KnownConsts<'s, 't, ConstantsOf<J>>,
        thread: u32,
    ) -> SitePass<'s, 't, J>
        requires pass { self.old.linker ≡ linker.now }
        requires cells { known.cells ≡ self.old.linker.cells }
        requires linked { linked_by known ≡ self.old.linked }
        requires values { known.values ≡ self.old.linkages }
        requires constant_cells { constants.cells ≡ self.old.constants.table.cells }
        requires constants { constants.values ≡ self.old.constants.known }
        requires room { split_room < self.old.seat.room }
        requires constants_room { split_room < self.old.constants.seat.room }
        ensures other { result ≡ split_pass thread self.old }
        ensures left { self.new ≡ with_seats (with_less_room split_room self.old.seat)
            (with_less_room split_room self.old.constants.seat) self.old }
    {
        SitePass {
            thread,
            known,
            attempts: Vec::new(alloc),
            recorded: Vec::new(alloc),
            seat: linker.serials().split(&mut self.seat, SPLIT_ROOM),
            table: self.table,
            constants: self
                .table
                .split_with(&mut self.constants, constants, thread),
        }
    }

    /// Adds what another pass has learnt, attempted and recorded. If memory runs out, the seats are
    /// joined all the same, and the rest of the other pass may be lost.
    pub(crate) fn join(
        &mut self,
        linker: &'s SiteLinker<'t, J>,
        other: SitePass<'s, 't, J>,
    ) -> Result<(), NoMemory>
        requires pass { self.old.linker ≡ linker.now }
        requires other { other.linker ≡ linker.now }
        requires constants { other.constants.table ≡ self.old.constants.table }
        ensures linker { self.new.linker ≡ self.old.linker }
        ensures thread { self.new.thread ≡ self.old.thread }
        ensures seat { self.new.seat ≡ joined_seats self.old.seat other.entry.seat }
        ensures known { KnowsAll self.new.seat }
        ensures constants_seat { self.new.constants.seat
            ≡ joined_seats self.old.constants.seat other.entry.constants.seat }
        ensures constants_known { KnowsAll self.new.constants.seat }
        ensures ok { OnOk result (HasBoth self.old other.entry self.new) }
        ensures err { OnErr result (KeepsSites self.old self.new) }
    {
        let SitePass {
            thread: _,
            known,
            mut attempts,
            mut recorded,
            seat,
            table: _,
            constants,
        } = other;
        linker.serials().join(&mut self.seat, seat);
        self.table.join(&mut self.constants, constants)?;
        self.attempts.reserve(attempts.len())?;
        self.recorded.reserve(recorded.len())?;
        self.known.join(known);
        self.attempts.append(&mut attempts)?;
        self.recorded.append(&mut recorded)?;
        Ok(())
    }

    /// The number of its thread.
    pub fn thread(&self) -> u32
        ensures { result ≡ self.now.thread }
    {
        self.thread
    }

    /// How many call sites the run has.
    pub(crate) fn sites(&self) -> usize
        ensures sites { result ≡ length J.given.jobs }
        ensures linked { length self.now.linked ≡ length J.given.jobs }
    {
        self.known.len()
    }

    /// The attempts that were made with the pass, and those of passes that were joined to it.
    pub fn attempts(&self) -> &[Attempt]
        ensures { result.now ≡ self.now.attempts }
    {
        self.attempts.as_slice()
    }

    /// Those of its attempts that it has recorded.
    pub fn recorded(&self) -> &[Attempt]
        ensures items { result.now ≡ self.now.recorded }
        ensures are { All (IsRecorded self.now.linked self.now.attempts) self.now.recorded }
    {
        self.recorded.as_slice()
    }

    /// The attempts that were made with the pass.
    pub(crate) fn into_attempts(self) -> Vec<Attempt>
        ensures { result.items ≡ self.entry.attempts }
    {
        self.attempts
    }

    /// What the pass knows of the constants.
    pub fn constants(&self) -> &ConstPass<'s, 't, ConstantsOf<J>>
        ensures { result.now ≡ self.now.constants }
    {
        &self.constants
    }

    /// Shows, for proofs, that the pass knows what its recorded attempts have found of constants,
    /// and that what is linked are the serials of the linkages. It does nothing when it runs.
    pub fn told(&self)
        ensures found { All (HasFoundKnown self.now.constants.known self.now.linkages)
            self.now.recorded }
        ensures linked { self.now.linked ≡ map (option_map serial_of) self.now.linkages }
    {
        let _thread = self.thread;
    }

    /// Shows, for proofs, what the pass knows of the constants. It does nothing when it runs.
    pub(crate) fn constants_told(&self)
        ensures { IsPass (run_of J.given) self.now.constants }
    {
        self.constants.told();
    }

    /// The linkage of a site that the pass has learnt. It takes no memory.
    pub(crate) fn seen(&self, site: u32) -> Option<&'s Linkage<'t, J>>
        requires { site < length J.given.jobs }
        ensures found { FindsLinkage self.now.linked site result }
        ensures value { FindsValue self.now.linkages site result }
    {
        self.known.seen(site)
    }

    /// The linkage of a site, if the pass has learnt it or its cell shows one now. It takes no
    /// memory.
    pub(crate) fn find(&mut self, site: u32) -> Option<&'s Linkage<'t, J>>
        requires { site < length J.given.jobs }
        ensures learns { LearnsSites self.old self.new }
        ensures recorded { self.new.recorded ≡ self.old.recorded }
        ensures found { FindsLinkage self.new.linked site result }
        ensures value { FindsValue self.new.linkages site result }
        ensures constants { IsPass (run_of J.given) self.new.constants }
    {
        self.constants.told();
        self.known.find(site)
    }

    /// Attempts the site of a job, with a serial, and resolves the constants that the job asks.
    pub(crate) fn attempt<R: Wait>(
        &mut self,
        w: &mut Work<'_, 't>,
        rt: &R,
        scripts: &Scripts,
        job: &'t Job,
        serial: u64,
    ) -> Result<Linkage<'t, J>, WorkError>
        requires named { slice_get J.given.jobs job.now.site ≡ Some job.now }
        requires scripts { scripts.now ≡ J.given.scripts }
        requires leaves { leaves_of w.old ≡ J.given.leaves }
        requires job { IsJob J.given.leaves J.given.scripts job.now }
        requires places { HasPlaces J.given job.now }
        requires serial { (1 ≤ serial) × (serial ≤ 2 ^ 62) }
        requires ready { IsReady w.old attempt_draws }
        requires room { HasRoomForConstants self.old }
        ensures others { self.new ≡ record self.old { constants = self.new.constants } }
        ensures of { IfOk result (λ l. (l.job ≡ job.now) × (l.serial ≡ serial)) }
        ensures goes_on { GoesOn attempt_draws w.old w.new }
        ensures types { AddsLinkage w.old w.new result }
        ensures resolving { GoesOnResolving self.old.constants self.new.constants }
        ensures few { DrawsOnce self.old self.new }
        ensures constants { IfOk result (λ l. AsksConstants J.given job.now
            self.old.constants self.new.constants l.under) }
        ensures before { AsksFirst J.given job.now self.old.constants self.new.constants
            w.old.seat.now w.new.seat.now result }
        ensures room_left { OnOk result (HasRoomForConstants self.new) }
        ensures asks { Asks (edits_at (recipe J.given.leaves)
            (given_in self.new.constants J.given) job.now.site serial) w.old w.new result }
        ensures asked { AsksTypes
            (types_at (given_in self.new.constants J.given) job.now.site serial)
            w.old w.new result }
    {
        attempt(w, rt, self.table, &mut self.constants, scripts, job, serial)
    }

    /// Begins an attempt of a site, and draws its serial.
    pub(crate) fn begin(
        &mut self,
        linker: &'s SiteLinker<'t, J>,
        site: u32,
    ) -> Result<u64, NoMemory>
        requires pass { self.old.linker ≡ linker.now }
        requires site { site < length J.given.jobs }
        requires room { 1 ≤ self.old.seat.room }
        ensures begins { IfOk result (λ serial. BeginsAttempt site serial self.old self.new) }
        ensures range { IfOk result (λ serial. (1 ≤ serial) × (serial ≤ 2 ^ 62)) }
        ensures err { OnErr result (self.new ≡ self.old) }
    {
        self.attempts.reserve(1)?;
        let serial = linker.serials().draw(&mut self.seat);
        self.attempts.push_reserved(Attempt {
            thread: self.thread,
            site,
            serial,
        });
        Ok(serial)
    }

    /// Records the linkage of an attempt, unless another one is recorded at its site. That one is
    /// learnt then, and ours is given back, as it also is if memory runs out.
    pub(crate) fn record<R: Wait>(
        &mut self,
        w: &mut Work<'_, 't>,
        rt: &R,
        linkage: Linkage<'t, J>,
    ) -> Result<&'s Linkage<'t, J>, NoMemory>
        requires attempted { Contains self.old.attempts (attempt_of self.old.thread linkage) }
        requires found { All (Knows self.old.constants.known) linkage.under }
        requires of_types { w.old.seat.now.table ≡ w.old.types.now }
        requires held { HoldsTypes w.old linkage.held }
        ensures learns { LearnsSites self.old self.new }
        ensures recorded { IfOk result
            (λ l. RecordsOurs linkage.entry l.now self.old self.new) }
        ensures failed { OnErr result (self.new.recorded ≡ self.old.recorded) }
        ensures linked { IfOk result
            (λ l. IsLinkageOf self.new.linked linkage.entry.job.site l.now) }
        ensures value { IfOk result
            (λ l. value_at self.new.linkages linkage.entry.job.site ≡ Some l.now) }
        ensures unchanged { IsUnchanged w.old w.new }
        ensures seat { StaysWhole w.old.seat.now w.new.seat.now }
        ensures room { w.old.seat.now.room ≤ w.new.seat.now.room }
        ensures types { AtLinks J.given self.new (λ given. Records given linkage.entry
            self.old.recorded self.new.recorded w.old.seat.now w.new.seat.now) }
        ensures asked { AsksNoOther [] w.old.seat.now w.new.seat.now }
    {
        if self.recorded.reserve(1).is_err() {
            linkage.give_back(w);
            return Err(NoMemory);
        }
        let made = Attempt {
            thread: self.thread,
            site: linkage.site(),
            serial: linkage.serial(),
        };
        let _job = linkage.job();
        linkage.told();
        linkage.types_held();
        match self.known.put(rt, w.alloc, linkage) {
            Ok(Put::Mine(recorded)) => {
                self.recorded.push_reserved(made);
                Ok(recorded)
            }
            Ok(Put::Theirs(recorded, lost)) => {
                lost.give_back(w);
                Ok(recorded)
            }
            Err(lost) => {
                lost.give_back(w);
                Err(NoMemory)
            }
        }
    }
}
