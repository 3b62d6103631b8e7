ghost use Rattle.std.specs.Prelude.{◌≡◌, ◌*◌, ◌<◌, ◌≤◌, length, map, IfErr, IfOk, OnOk};
ghost use Rattle.mh_jobs.specs.Given.{AreJobs};
ghost use Rattle.mh_report.specs.Forms.{forms};
ghost use Rattle.mh_report.specs.Prelinked.{draws_by, types_by};
ghost use Rattle.mh_plan.specs.Limits.{IsWithinLimits};
ghost use Rattle.mh_report.specs.Types.{Overfill};
ghost use Rattle.mh_report.specs.Recorded.{recorded, row_serials, rows, serials_of, types};
ghost use Rattle.mh_plan.specs.Calls.{AreCallsOf};
ghost use Rattle.mh_report.specs.Results.{keys_said, results_of, results_said};
ghost use Rattle.mh_handle.specs.Form.{most_forms};
ghost use Rattle.mh_handle.specs.Seats as forms_seat;
ghost use Rattle.mh_intern.specs.Views as types_seat;
ghost use Rattle.mh_tickets.specs.Seats as serials_seat;
ghost use Rattle.mh_seats.specs.Room.{limit};
ghost use Rattle.mh_runtime.specs.Bases.{base_of, pass_of};
ghost use Rattle.mh_runtime.specs.Asking.{IfFull, IfTypesFull};
ghost use Rattle.mh_runtime.specs.Input.{AreConstantsOf, given_by};
ghost use Rattle.mh_runtime.specs.Keys.{plan_keys};
ghost use Rattle.mh_runtime.specs.Joining.{AreAllJoined, HasRoomFor, IsUnused};
ghost use Rattle.mh_runtime.specs.Runs.{IsBaseBy, IsRunOn, IsStopOn};
ghost use Rattle.mh_runtime.specs.Linkers.{IsOf};
ghost use Rattle.mh_runtime.specs.Passes.{most_sites, split_room};
ghost use Rattle.mh_runtime.specs.Report.{ConstLedgerBy, IsLinkedRun, IsReport, LedgerBy, ReportsJoined, as_attempt, given_in, rows_in};
ghost use Rattle.mh_runtime.specs.Report.{IsSettled, StopsJoined};
ghost use Rattle.mh_runtime.specs.RunStops.{IsStopBy};
ghost use Rattle.mh_runtime.specs.Attempts.{AreRecorded};
ghost use Rattle.mh_runtime.specs.Values.{AtLinks};
ghost use Rattle.mh_runtime.specs.Stops.{error_of};
ghost use Rattle.mh_runtime.specs.Workers.{most_workers};

use crate::base::Based;
use crate::input::RunInput;
use crate::joining::Joined;
use crate::linker::Linker;
use crate::ordering::by_serial;
use crate::pass::Pass;
use crate::plan_run::PlanRun;
use crate::prelinking::{Prelinking, link_sites};
use crate::recording::{rows, table};
use crate::site_pass::SitePass;
use crate::stops::Stop;
use crate::tables::{Seats, Tables};
use mh_attempt::ConstantsOf;
use mh_base::{NoMemory, Seq};
use mh_condy::{ConstAttempt, ConstTable};
use mh_intern::TypeSeat;
use mh_jobs::{ConstJobs, Run};
use mh_outside::Gate;
use mh_plan::Plan;
use mh_report::{Attempt, Attempts, ConstRows, Table, ThreadAnswers};
use mh_threads::fork_join;
use mh_tickets::TicketSeat;
use std::alloc::Global;
use std::marker::{Brand, PhantomData};
use std::mem;
use std::sync::Wait;
use std::thread::Threads;

/// What a run gave.
#[derive(Debug, Drop)]
pub struct RunReport {
    /// The answer of each call, thread by thread.
    pub threads: ThreadAnswers,
    /// What is recorded at each call site.
    pub table: Table,
    /// All attempts to link call sites, in the order of their serials.
    pub attempts: Attempts,
    /// What is recorded of each dynamic constant.
    pub constants: ConstRows,
    /// All attempts to resolve dynamic constants, in the order of their serials. The number of the
    /// constant stands in the place of the site's.
    pub constant_attempts: Attempts,
    /// How many forms were asked for.
    pub forms: u32,
    /// How many different types the recorded targets hold.
    pub types: u32,
}

/// What a run is given: what is linked, the plan, the gate, and how many workers link all call
/// sites before the calls.
#[derive(Clone, Copy)]
struct Input<'a, G> {
    alloc: Global,
    given: &'a RunInput<'a>,
    plan: &'a Plan,
    gate: &'a G,
    workers: u32,
}

/// What all threads of a run use.
#[derive(Drop)]
struct Shared<'i, 't, J: Run, G> {
    linker: Linker<'t, J>,
    constants: ConstTable<'t, ConstantsOf<J>>,
    plan: &'i Plan,
    gate: &'i G,
    workers: u32,
}

/// What a run gave, except the count of types.
#[derive(Drop)]
struct Linked {
    threads: ThreadAnswers,
    table: Table,
    attempts: Attempts,
    constants: ConstRows,
    constant_attempts: Attempts,
    forms: u32,
}

// Attempts to resolve constants, with the number of the constant in the place of the site's.
fn resolving(alloc: Global, attempts: &[ConstAttempt]) -> Result<Vec<Attempt>, NoMemory>
    ensures { IfOk result (λ all. all.items ≡ map as_attempt attempts.now) }
{
    let mut all = Vec::new(alloc);
    for attempt in attempts {
        all.push(Attempt {
            thread: attempt.thread,
            site: attempt.constant,
            serial: attempt.serial,
        })?;
    }
    Ok(all)
}

// What is recorded of constants and at sites, in the view of a pass that all others were joined to:
// all that it has learnt was recorded by an attempt that it has recorded.
fn settled<J: Run, R: Wait>(
    rt: &R,
    alloc: Global,
    links: &SitePass<'_, '_, J>,
) -> Result<(ConstRows, Table), NoMemory>
    ensures rows { IfOk result (λ found. found.0 ≡ rows_in links.now.constants.known) }
    ensures table { IfOk result (λ found. AtLinks J.given links.now
        (λ given. found.1 ≡ recorded given links.now.linked)) }
    ensures entries { OnOk result (length links.now.linked ≡ length J.given.jobs) }
    ensures own { OnOk result (AreRecorded links.now links.now.linked) }
    ensures settled { OnOk result (IsSettled J.given links.now) }
{
    links.told();
    links.constants_told();
    let rows = rows(rt, alloc, links.constants())?;
    let table = table(rt, alloc, links)?;
    Ok((rows, table))
}

// What a run gave whose threads were joined, and the seat of types that holds what is recorded.
#[tactic(auto, using(crate::proofs::reports::OutsideStops::outside_report))]
fn report<J: Run, R: Wait>(
    rt: &R,
    alloc: Global,
    joined: Joined<'_, '_, J>,
) -> Result<(Linked, TypeSeat), Stop>
    ensures run { IfOk result
        (λ reported. ReportsJoined J.given joined.entry reported.0 reported.1) }
    ensures stop { IfErr result (StopsJoined J.given joined.entry) }
{
    let Joined {
        pass,
        threads,
        stop,
    } = joined;
    let Pass {
        links,
        forms,
        types,
    } = pass;

    // Also where a thread has stopped, all that was learnt was recorded by one of the threads.
    let (constants, table) = settled(rt, alloc, &links)?;
    if let Some(stop) = stop {
        return Err(stop);
    }
    let _recorded = links.recorded();
    let resolving = resolving(alloc, links.constants().attempts())?;
    let linked = Linked {
        threads,
        table,
        constants,
        constant_attempts: by_serial(resolving),
        forms: forms.len(),
        attempts: by_serial(links.into_attempts()),
    };
    Ok((linked, types))
}

// Makes the calls of the plan: a lane is split off the pass for each thread, and what the lanes
// leave is joined to it.
fn run_lanes<
    's,
    't,
    J: Run + Send + Sync,
    B: Based + Sync,
    R: Threads + Wait + Sync,
    G: Gate + Sync,
>(
    rt: &R,
    run: &PlanRun<'s, 't, J, B, G>,
    pass: Pass<'s, 't, J>,
) -> Result<Joined<'s, 't, J>, NoMemory>
    requires base { pass ≡ (pass_of B.base) }
    requires pass { IsOf J.given run.now.linker.now (pass_of B.base) }
    requires calls { AreCallsOf J.given.leaves J.given.jobs run.now.plan.now }
    requires limits { IsWithinLimits run.now.plan.now }
    requires room { HasRoomFor (length run.now.plan.now) B.base }
    ensures { IfOk result (AreAllJoined J.given (pass_of B.base) run.now.plan.now) }
{
    let mut joined = Joined {
        pass,
        threads: Seq::new(run.alloc),
        stop: None,
    };
    fork_join(rt, run.alloc, run, &mut joined)?;
    Ok(joined)
}

// Runs a plan, whose threads' passes are split off this one.
#[tactic(auto, using(crate::proofs::reports::OutsideStops::outside_pass))]
fn run_pass<
    's,
    't,
    J: Run + Send + Sync,
    B: Based + Sync,
    R: Threads + Wait + Sync,
    G: Gate + Sync,
>(
    rt: &R,
    linker: &'s Linker<'t, J>,
    pass: Pass<'s, 't, J>,
    plan: &'s Plan,
    gate: &'s G,
) -> Result<(Linked, TypeSeat), Stop>
    requires base { pass ≡ pass_of B.base }
    requires pass { IsOf J.given linker.now pass }
    requires calls { AreCallsOf J.given.leaves J.given.jobs plan.now }
    requires limits { IsWithinLimits plan.now }
    requires room { HasRoomFor (length plan.now) (base_of pass) }
    ensures run { IfOk result (λ run. IsRunOn J.given pass.entry plan.now run.0 run.1) }
    ensures stop { IfErr result (IsStopOn J.given pass.entry plan.now) }
{
    let run = PlanRun {
        alloc: linker.alloc,
        linker,
        plan,
        gate,
        of: PhantomData::<B>,
    };
    let joined = run_lanes(rt, &run, pass)?;
    report(rt, linker.alloc, joined)
}

// The pass that those of the plan's threads are split off: the first one, once all call sites are
// linked, if there are workers.
#[tactic(auto, using(crate::proofs::reports::OutsideStops::outside_steps))]
fn base_pass<'s, 't, J: Run + Send + Sync, R: Threads + Wait + Sync, G: Gate + Sync>(
    rt: &R,
    prelinking: &Prelinking<'s, 't, J, G>,
    pass: Pass<'s, 't, J>,
) -> Result<Pass<'s, 't, J>, Stop>
    requires pass { IsUnused J.given prelinking.now.linker.now prelinking.now.constants.now pass }
    requires leaves { prelinking.now.linker.now.leaves.now ≡ J.given.leaves }
    requires limits { IsWithinLimits prelinking.now.plan.now }
    requires few { prelinking.now.workers ≤ most_workers }
    requires sites { length J.given.jobs ≤ most_sites }
    requires constants { AreConstantsOf J.given }
    requires few_constants { length J.given.constants ≤ split_room }
    ensures base { IfOk result (IsBaseBy J.given prelinking.now.linker.now
        prelinking.now.constants.now (length prelinking.now.plan.now) prelinking.now.workers) }
    ensures stop { IfErr result
        (IsStopBy J.given prelinking.now.workers prelinking.now.plan.now) }
    ensures full { IfFull (error_of result)
        (most_forms < draws_by J.given prelinking.now.workers prelinking.now.plan.now) }
    ensures no_slot { IfTypesFull (error_of result) (λ bucket. Overfill bucket
        (types_by J.given prelinking.now.workers prelinking.now.plan.now)) }
{
    if prelinking.workers == 0 {
        return Ok(pass);
    }
    let prelinked = link_sites(rt, prelinking, pass)?;
    if let Some(lowest) = prelinked.stop {
        settled(rt, prelinking.linker.alloc, &prelinked.pass.links)?;
        return Err(lowest);
    }
    Ok(prelinked.pass)
}

// Runs a plan with a linker and a table of constants that are new, and with seats that have all the
// room.
#[tactic(auto, using(crate::proofs::reports::OutsideStops::outside_steps))]
fn run_linked<'s, 'i, 't, J: Run + Send + Sync, R: Threads + Wait + Sync, G: Gate + Sync>(
    rt: &R,
    shared: &'s Shared<'i, 't, J, G>,
    seats: Seats,
    asked: TicketSeat,
) -> Result<(Linked, TypeSeat), Stop>
    requires constants { AreConstantsOf J.given }
    requires few_constants { length J.given.constants ≤ split_room }
    requires leaves { shared.now.linker.leaves.now ≡ J.given.leaves }
    requires calls { AreCallsOf J.given.leaves J.given.jobs shared.now.plan.now }
    requires limits { IsWithinLimits shared.now.plan.now }
    requires few { shared.now.workers ≤ most_workers }
    requires sites { length J.given.jobs ≤ most_sites }
    requires types { seats.types ≡ types_seat.new_seat shared.now.linker.types.now limit }
    requires forms { seats.forms ≡ forms_seat.new_seat shared.now.linker.forms.now limit }
    requires serials { seats.serials ≡ serials_seat.new_seat shared.now.linker.sites.serials limit }
    requires asked { asked ≡ serials_seat.new_seat shared.now.constants.serials limit }
    ensures run { IfOk result (λ run. IsLinkedRun J.given shared.now.workers shared.now.plan.now
        shared.now.linker.types.now run.0 run.1) }
    ensures stop { IfErr result (IsStopBy J.given shared.now.workers shared.now.plan.now) }
    ensures full { IfFull (error_of result)
        (most_forms < draws_by J.given shared.now.workers shared.now.plan.now) }
    ensures no_slot { IfTypesFull (error_of result) (λ bucket. Overfill bucket
        (types_by J.given shared.now.workers shared.now.plan.now)) }
{
    let linker = &shared.linker;
    let constants = &shared.constants;
    let prelinking = Prelinking {
        linker,
        constants,
        plan: shared.plan,
        gate: shared.gate,
        workers: shared.workers,
    };
    let asked = constants.first_pass(asked)?;
    let pass = linker.first_pass(seats, constants, asked)?;
    let base = base_pass(rt, &prelinking, pass)?;
    run_pass::<J, Brand, R, G>(rt, linker, base, shared.plan, shared.gate)
}

// The same with a linker and a table that are nowhere else.
fn run_owned<'t, J: Run + Send + Sync, R: Threads + Wait + Sync, G: Gate + Sync>(
    rt: &R,
    linker: Linker<'t, J>,
    constants: ConstTable<'t, ConstantsOf<J>>,
    seats: Seats,
    asked: TicketSeat,
    input: &Input<'_, G>,
) -> Result<(Linked, TypeSeat), Stop>
    requires constants { AreConstantsOf J.given }
    requires few_constants { length J.given.constants ≤ split_room }
    requires leaves { linker.leaves.now ≡ J.given.leaves }
    requires calls { AreCallsOf J.given.leaves J.given.jobs input.now.plan.now }
    requires limits { IsWithinLimits input.now.plan.now }
    requires few { input.now.workers ≤ most_workers }
    requires sites { length J.given.jobs ≤ most_sites }
    requires types { seats.types ≡ types_seat.new_seat linker.types.now limit }
    requires forms { seats.forms ≡ forms_seat.new_seat linker.forms.now limit }
    requires serials { seats.serials ≡ serials_seat.new_seat linker.sites.serials limit }
    requires asked { asked ≡ serials_seat.new_seat constants.serials limit }
    ensures run { IfOk result (λ run. IsLinkedRun J.given input.now.workers input.now.plan.now
        linker.entry.types.now run.0 run.1) }
    ensures stop { IfErr result (IsStopBy J.given input.now.workers input.now.plan.now) }
    ensures full { IfFull (error_of result)
        (most_forms < draws_by J.given input.now.workers input.now.plan.now) }
    ensures no_slot { IfTypesFull (error_of result) (λ bucket. Overfill bucket
        (types_by J.given input.now.workers input.now.plan.now)) }
{
    let shared = Shared {
        linker,
        constants,
        plan: input.plan,
        gate: input.gate,
        workers: input.workers,
    };
    let made = run_linked(rt, &shared, seats, asked);

    // To give some 17 blocks of memory back for each site would take a tenth of the run.
    mem::forget(shared);
    made
}

// There are at most as many constants as a pass may draw serials that was split off. More take more
// memory than there is.
fn few_constants(constants: &ConstJobs) -> Result<(), NoMemory>
    ensures { OnOk result (length constants.now ≤ split_room) }
{
    let _count = u32::try_from(constants.len()).map_err(|_| NoMemory)?;
    Ok(())
}

// Runs a plan of what the run's type parameter names. Once all is joined, the table of types has
// the types of the recorded targets and no others.
#[tactic(auto, using(crate::proofs::reports::OutsideStops::outside_steps))]
fn run_named<J: Run + Send + Sync, R: Threads + Wait + Sync, G: Gate + Sync>(
    rt: &R,
    input: &Input<'_, G>,
) -> Result<RunReport, Stop>
    requires named { given_by input.now.given.now ≡ J.given }
    requires calls { AreCallsOf J.given.leaves J.given.jobs input.now.plan.now }
    requires limits { IsWithinLimits input.now.plan.now }
    requires workers { input.now.workers ≤ most_workers }
    requires jobs { AreJobs J.given }
    requires constants { AreConstantsOf J.given }
    requires few { length J.given.jobs ≤ most_sites }
    ensures run { IfOk result (IsReport J.given input.now.workers input.now.plan.now) }
    ensures stop { IfErr result (IsStopBy J.given input.now.workers input.now.plan.now) }
    ensures full { IfFull (error_of result)
        (most_forms < draws_by J.given input.now.workers input.now.plan.now) }
    ensures no_slot { IfTypesFull (error_of result) (λ bucket. Overfill bucket
        (types_by J.given input.now.workers input.now.plan.now)) }
{
    let (tables, seats) = Tables::new(input.alloc)?;
    let given = input.given;
    few_constants(given.constants)?;
    let linker = Linker::<J>::new(input.alloc, given, &tables)?;
    let (constants, asked) = ConstTable::<ConstantsOf<J>>::new(
        input.alloc,
        given.constants,
        given.scripts,
        given.leaves,
    )?;
    let (run, seat) = run_owned(rt, linker, constants, seats, asked, input)?;
    let Linked {
        threads,
        table,
        attempts,
        constants,
        constant_attempts,
        forms,
    } = run;
    Ok(RunReport {
        threads,
        table,
        attempts,
        constants,
        constant_attempts,
        forms,
        types: tables.types.close(seat),
    })
}

/// Runs the calls of a plan, with concurrent threads, over one linker and one table of forms, which
/// has numbers for 16,384 forms. The plan is one of these leaves and call sites, and within the
/// limits on threads and calls; there are at most 4,096 sites. What was linked lasts as long as the
/// process: it is for a program that makes one run.
///
/// A thread links a site at its first call of it, unless it finds it linked by another thread. What
/// is recorded first stays, even an error, and each caller of the site gets it. The gate is called
/// by a thread before and after it records.
///
/// An attempt to link a site resolves the dynamic constants among its static arguments first, each
/// once over all threads. The gate is not called for them.
///
/// If there are workers, at most 16, they link all call sites before the calls, concurrently. Each
/// takes sites that no other one takes, with a pass of its own. They have the numbers after those
/// of the plan's threads, which then find each site linked and attempt none.
///
/// If a thread stopped, the answer is the lowest one that did, and its error: no memory was left,
/// no number for a form, or no slot for a type. Only if that one had no number and a higher one no
/// memory, the answer is the lowest that had no memory. It is the same for workers, after which no
/// call is made. If memory runs out outside the threads, the answer is thread 0.
pub fn run_all<R: Threads + Wait + Sync, G: Gate + Sync>(
    rt: &R,
    alloc: Global,
    input: &RunInput<'_>,
    plan: &Plan,
    workers: u32,
    gate: &G,
) -> Result<RunReport, Stop>
    requires calls { AreCallsOf input.now.leaves.now input.now.jobs.now plan.now }
    requires limits { IsWithinLimits plan.now }
    requires workers { workers ≤ most_workers }
    requires jobs { AreJobs (given_by input.now) }
    requires constants { AreConstantsOf (given_by input.now) }
    requires few { length input.now.jobs.now ≤ most_sites }
    ensures ledger { IfOk result (λ run. LedgerBy workers plan.now (length input.now.jobs.now)
        (serials_of run.table) run.attempts) }
    ensures constants { IfOk result (λ run. ConstLedgerBy (given_by input.now) workers plan.now
        run.attempts (row_serials run.constants) run.constant_attempts) }
    ensures rows { IfOk result (λ run. run.constants
        ≡ rows (given_by input.now) (row_serials run.constants)) }

    // What else is reported is said where constants are what they are by these serials.
    ensures table { IfOk result (λ run. run.table
        ≡ recorded (given_in input.now run) (serials_of run.table)) }
    ensures results { IfOk result (λ run. results_said run.threads
        ≡ results_of (given_in input.now run) (serials_of run.table) plan.now) }
    ensures keys { IfOk result (λ run. keys_said run.threads
        ≡ plan_keys (given_in input.now run) (serials_of run.table) plan.now) }
    ensures forms { IfOk result
        (λ run. run.forms ≡ forms (given_in input.now run) plan.now run.attempts) }
    ensures types { IfOk result
        (λ run. run.types ≡ types (given_in input.now run) (serials_of run.table)) }
    ensures stop { IfErr result (IsStopBy (given_by input.now) workers plan.now) }
    ensures full { IfFull (error_of result)
        (most_forms < draws_by (given_by input.now) workers plan.now) }
    ensures no_slot { IfTypesFull (error_of result)
        (λ bucket. Overfill bucket (types_by (given_by input.now) workers plan.now)) }
{
    let input = Input {
        alloc,
        given: input,
        plan,
        gate,
        workers,
    };
    run_named::<Brand, R, G>(rt, &input)
}
