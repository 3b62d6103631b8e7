//! A first use of the library in your own runtime. It reads leaves, scripts and a class file, and
//! calls a call site of the class from two threads, which share a linker.
#![tactic(auto)]

ghost use Rattle.std.specs.Prelude.{◌≡◌, ◌≤◌, length};
ghost use Rattle.mh_seats.specs.Room.{limit};
ghost use Rattle.mh_intern.specs.Views as types_seat;
ghost use Rattle.mh_tickets.specs.Seats as serials_seat;
ghost use Rattle.mh_handle.specs.Seats as forms_seat;
ghost use Rattle.mh_jobs.specs.Given.{AreJobs};
ghost use Rattle.mh_runtime.specs.Attempts.{HasRoomForConstants};
ghost use Rattle.mh_runtime.specs.Input.{AreConstantsOf, given_by};
ghost use Rattle.mh_runtime.specs.Linkers.{HasRoom, IsOf};
ghost use Rattle.mh_runtime.specs.Passes.{most_sites, split_room};

use mh_attempt::ConstantsOf;
use mh_base::{NoMemory, Seq};
use mh_classfile::read;
use mh_condy::ConstTable;
use mh_form::Machine;
use mh_jobs::{Run, RunJobs, push_class};
use mh_leaves::read_manifest;
use mh_outside::{Inputs, OpenGate, read_whole, real_inputs, real_sink, write_whole};
use mh_plan::Call;
use mh_report::push_answer;
use mh_runtime::{Linker, MOST_SITES, Pass, RunInput, Seats, Tables};
use mh_script::read_scripts;
use mh_texts::read_literal;
use mh_tickets::TicketSeat;
use std::alloc::Global;
use std::process::ExitCode;
use std::sync::Wait;
use std::thread::{Threads, join_mut};

/// What stops the program: a file that does not exist or is refused, a call that cannot be made, or
/// lack of memory, forms or types. A runtime would keep the reason.
#[derive(Clone, Copy, Debug)]
struct Stopped;

impl From<NoMemory> for Stopped {
    fn from(_: NoMemory) -> Self {
        Stopped
    }
}

/// What is read or written, unless the program stops.
type Bytes = Result<Vec<u8>, Stopped>;

// Calls site 0 with two values, and gives the line of the answer. The site is linked now, unless a
// thread has linked it before.
fn call<'s, 't, J: Run, R: Wait>(
    rt: &R,
    alloc: Global,
    linker: &'s Linker<'t, J>,
    pass: &mut Pass<'s, 't, J>,
    words: [&[u8]; 2],
) -> Bytes
    requires pass { IsOf J.given linker.now pass.old }
    requires room { HasRoom 1 pass.old }
    requires constants { HasRoomForConstants pass.old.links }
{
    let classes = linker.leaves.classes();
    let mut items = Seq::new(alloc);
    for word in words {
        items.push(read_literal(alloc, word, classes).or(Err(Stopped))?)?;
    }
    let call = Call::Indy(0, items);
    if !linker.can_make(&call) {
        return Err(Stopped);
    }
    let mut machine = Machine::new(alloc);
    let answer = linker.call(rt, &mut machine, pass, &OpenGate, &call);
    let mut line = Vec::new(alloc);
    push_answer(alloc, &mut line, &answer.or(Err(Stopped))?, classes)?;
    Ok(line)
}

/// What the threads share: a linker, and the table of the dynamic constants.
#[derive(Drop)]
struct Shared<'t, J: Run> {
    linker: Linker<'t, J>,
    constants: ConstTable<'t, ConstantsOf<J>>,
}

// Calls the site from two threads, each with a pass of its own.
fn call_from_both<'s, 't, J: Run + Send + Sync, R: Threads + Wait + Sync>(
    rt: &R,
    alloc: Global,
    linker: &'s Linker<'t, J>,
    mut one: Pass<'s, 't, J>,
    mut two: Pass<'s, 't, J>,
) -> Bytes
    requires one { IsOf J.given linker.now one }
    requires one_room { HasRoom 1 one }
    requires one_constants { HasRoomForConstants one.links }
    requires two { IsOf J.given linker.now two }
    requires two_room { HasRoom 1 two }
    requires two_constants { HasRoomForConstants two.links }
{
    let (first, second) = join_mut(
        rt,
        &mut || call(rt, alloc, linker, &mut one, [b"i:3", b"i:4"]),
        &mut || call(rt, alloc, linker, &mut two, [b"i:10", b"i:10"]),
    );
    let mut lines = first?;
    lines.extend_from_slice(&second?).or(Err(Stopped))?;
    Ok(lines)
}

// The same with a first pass, and one that is split off it.
fn split_and_call<'s, 't, J: Run + Send + Sync, R: Threads + Wait + Sync>(
    rt: &R,
    alloc: Global,
    shared: &'s Shared<'t, J>,
    seats: Seats,
    asked: TicketSeat,
) -> Bytes
    requires leaves { shared.now.linker.leaves.now ≡ J.given.leaves }
    requires types { seats.types ≡ types_seat.new_seat shared.now.linker.types.now limit }
    requires forms { seats.forms ≡ forms_seat.new_seat shared.now.linker.forms.now limit }
    requires serials { seats.serials ≡ serials_seat.new_seat shared.now.linker.sites.serials limit }
    requires asked { asked ≡ serials_seat.new_seat shared.now.constants.serials limit }
    requires few { length J.given.constants ≤ split_room }
{
    let linker = &shared.linker;
    let constants = &shared.constants;
    let asked = constants.first_pass(asked)?;
    let mut one = linker.first_pass(seats, constants, asked)?;
    let two = linker.split(&mut one, 1)?;
    call_from_both(rt, alloc, linker, one, two)
}

// The same with a linker and a table that are nowhere else.
fn call_shared<'t, J: Run + Send + Sync, R: Threads + Wait + Sync>(
    rt: &R,
    alloc: Global,
    linker: Linker<'t, J>,
    constants: ConstTable<'t, ConstantsOf<J>>,
    seats: Seats,
    asked: TicketSeat,
) -> Bytes
    requires leaves { linker.leaves.now ≡ J.given.leaves }
    requires types { seats.types ≡ types_seat.new_seat linker.types.now limit }
    requires forms { seats.forms ≡ forms_seat.new_seat linker.forms.now limit }
    requires serials { seats.serials ≡ serials_seat.new_seat linker.sites.serials limit }
    requires asked { asked ≡ serials_seat.new_seat constants.serials limit }
    requires few { length J.given.constants ≤ split_room }
{
    let shared = Shared { linker, constants };
    split_and_call(rt, alloc, &shared, seats, asked)
}

// Makes the tables that the threads share, and a linker over them.
fn link_and_call<'a, J: Run + Send + Sync, R: Threads + Wait + Sync>(
    rt: &R,
    alloc: Global,
    input: &'a RunInput<'a>,
) -> Bytes
    requires named { given_by input.now ≡ J.given }
    requires jobs { AreJobs J.given }
    requires constants { AreConstantsOf J.given }
    requires few { length J.given.jobs ≤ most_sites }
    requires few_constants { length J.given.constants ≤ split_room }
{
    let (tables, seats) = Tables::new(alloc)?;
    let linker = Linker::<J>::new(alloc, input, &tables)?;
    let (constants, asked) = ConstTable::<ConstantsOf<J>>::new(
        alloc,
        input.constants,
        input.scripts,
        input.leaves,
    )?;
    call_shared(rt, alloc, linker, constants, seats, asked)
}

/// The bytes of a file, at most 1,048,576.
fn file<I: Inputs>(alloc: Global, inputs: &mut I, name: &str) -> Bytes {
    read_whole(alloc, inputs, name, 1 << 20).or(Err(Stopped))
}

/// A line for each thread's call.
fn lines<R: Threads + Wait + Sync, I: Inputs>(rt: &R, alloc: Global, inputs: &mut I) -> Bytes {
    let leaves = read_manifest(alloc, &file(alloc, inputs, "leaves.txt")?).or(Err(Stopped))?;
    let scripts = read_scripts(alloc, &file(alloc, inputs, "scripts.txt")?).or(Err(Stopped))?;
    let bytes = file(alloc, inputs, "Prices.class")?;
    let class = read(alloc, &bytes, MOST_SITES).or(Err(Stopped))?;
    let mut jobs = RunJobs::new(alloc);
    push_class(alloc, &mut jobs, &class, &scripts, &leaves)?;
    if jobs.sites.len() > MOST_SITES as usize || jobs.constants.len() > u32::MAX as usize {
        return Err(Stopped);
    }
    let input = RunInput {
        leaves: &leaves,
        scripts: &scripts,
        jobs: &jobs.sites,
        constants: &jobs.constants,
    };
    link_and_call::<std::marker::Brand, R>(rt, alloc, &input)
}

fn main(rt: HostRuntime) -> ExitCode {
    let mut inputs = real_inputs(rt.alloc(), &rt);
    match lines(&rt, rt.alloc(), &mut inputs) {
        Ok(text) if write_whole(&mut real_sink(&rt), &text).is_ok() => ExitCode::SUCCESS,
        _ => ExitCode::FAILURE,
    }
}
