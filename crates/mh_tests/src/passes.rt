//! Passes of one linker that resolve a call site one after the other.

ghost use Rattle.std.specs.Prelude.{◌≡◌, ℕ, ◌+◌, ◌<◌, ◌≤◌, length, IfOk, OnOk};
ghost use Rattle.mh_seats.specs.Room.{limit};
ghost use Rattle.mh_intern.specs.Views as types_seat;
ghost use Rattle.mh_tickets.specs.Seats as serials_seat;
ghost use Rattle.mh_handle.specs.Seats as forms_seat;
ghost use Rattle.mh_classfile.specs.Class.{HasDynamics};
ghost use Rattle.mh_made_class.specs.Sites.{IsMakeableSite, site_width};
ghost use Rattle.mh_jobs.specs.Given.{AreJobs, AreJobsOf};
ghost use Rattle.mh_runtime.specs.Attempts.{HasRoomForConstants};
ghost use Rattle.mh_runtime.specs.Input.{AreConstantsOf, given_by};
ghost use Rattle.mh_runtime.specs.Linkers.{HasRoom, IsOf};
ghost use Rattle.mh_runtime.specs.Passes.{most_sites, split_room};
ghost use Rattle.mh_main.specs.Input.{given_with};

use mh_attempt::ConstantsOf;
use mh_base::{NoMemory, Seq};
use mh_class_tests::sites::text;
use mh_classfile::{ClassView, read};
use mh_condy::ConstTable;
use mh_jobs::{Run, RunJobs, push_class};
use mh_leaves::{Leaves, read_manifest};
use mh_made_class::{MadeSite, make_class};
use mh_outside::OpenGate;
use mh_runtime::{Linker, Pass, RunInput, Seats, Tables, WorkError};
use mh_script::{Scripts, read_scripts};
use mh_tickets::TicketSeat;
use std::alloc::Global;
use std::marker::Brand;
use std::sync::Wait;
use std::test::Fail;

const LEAVES: &[u8] = b"\
    class demo/Host java/lang/Object\n\
    static demo/Host add (II)I iadd\n";

/// Adds 10.
const SCRIPTS: &[u8] = b"\
    script made/Boot link (Ljava/lang/invoke/MethodHandles$Lookup;Ljava/lang/String;Ljava/lang/invok\
    e/MethodType;)Ljava/lang/invoke/CallSite;\n\
    let a leaf demo/Host.add:(II)I\n\
    let b bind a 1 I:10\n\
    return b\n\
    end\n";

/// The attempt that resolved a site, the first and the second time, and how many attempts were made
/// for both.
#[derive(Clone, Copy, Debug, PartialEq, Eq)]
struct Resolved {
    first: u64,
    then: u64,
    attempts: usize,
}

/// A call site of the script `link` and the type `(I)I`.
fn site(alloc: Global) -> Result<MadeSite, NoMemory>
    ensures makeable { IfOk result (λ site. IsMakeableSite site) }
    ensures width { IfOk result (λ site. site_width site ≡ 7) }
{
    Ok(MadeSite {
        script: text(alloc, b"link")?,
        ty: text(alloc, b"(I)I")?,
        args: Seq::new(alloc),
    })
}

/// A class file with one such call site.
fn class_file(alloc: Global) -> Result<Vec<u8>, NoMemory> {
    let mut sites = Seq::new(alloc);
    sites.push(site(alloc)?)?;
    make_class(alloc, &sites)
}

/// Resolves site 0, and gives the serial of the attempt by which it is linked.
fn resolve<'s, 't, J: Run, R: Wait>(
    rt: &R,
    linker: &'s Linker<'t, J>,
    pass: &mut Pass<'s, 't, J>,
) -> Result<u64, WorkError>
    requires pass { IsOf J.given linker.now pass.old }
    requires site { 0 < length J.given.jobs }
    requires room { HasRoom 1 pass.old }
    requires constants { HasRoomForConstants pass.old.links }
    ensures pass { IsOf J.given linker.now pass.new }
    ensures left { (more : ℕ) → HasRoom (more + 1) pass.old → HasRoom more pass.new }
    ensures constants_left { OnOk result (HasRoomForConstants pass.new.links) }
{
    Ok(linker.resolve(rt, pass, &OpenGate, 0)?.serial())
}

/// What passes share: a linker, and the table of the dynamic constants.
#[derive(Drop)]
struct Shared<'t, J: Run> {
    linker: Linker<'t, J>,
    constants: ConstTable<'t, ConstantsOf<J>>,
}

/// Resolves site 0 with the first pass, and then with another one, or with the same once more.
fn resolve_twice<'s, 't, J: Run, R: Wait>(
    rt: &R,
    shared: &'s Shared<'t, J>,
    seats: Seats,
    asked: TicketSeat,
    other: bool,
) -> Result<Resolved, WorkError>
    requires leaves { shared.now.linker.leaves.now ≡ J.given.leaves }
    requires types { seats.types ≡ types_seat.new_seat shared.now.linker.types.now limit }
    requires forms { seats.forms ≡ forms_seat.new_seat shared.now.linker.forms.now limit }
    requires serials { seats.serials ≡ serials_seat.new_seat shared.now.linker.sites.serials limit }
    requires asked { asked ≡ serials_seat.new_seat shared.now.constants.serials limit }
    requires few { length J.given.constants ≤ split_room }
    requires site { 0 < length J.given.jobs }
{
    let linker = &shared.linker;
    let constants = &shared.constants;
    let asked = constants.first_pass(asked)?;
    let mut one = linker.first_pass(seats, constants, asked)?;
    let mut two = linker.split(&mut one, 1)?;
    let first = resolve(rt, linker, &mut one)?;
    let then = if other {
        resolve(rt, linker, &mut two)?
    } else {
        resolve(rt, linker, &mut one)?
    };
    Ok(Resolved {
        first,
        then,
        attempts: one.links.attempts().len() + two.links.attempts().len(),
    })
}

/// The same with a linker and a table that are nowhere else.
fn resolve_shared<'t, J: Run, R: Wait>(
    rt: &R,
    linker: Linker<'t, J>,
    constants: ConstTable<'t, ConstantsOf<J>>,
    seats: Seats,
    asked: TicketSeat,
    other: bool,
) -> Result<Resolved, WorkError>
    requires leaves { linker.leaves.now ≡ J.given.leaves }
    requires types { seats.types ≡ types_seat.new_seat linker.types.now limit }
    requires forms { seats.forms ≡ forms_seat.new_seat linker.forms.now limit }
    requires serials { seats.serials ≡ serials_seat.new_seat linker.sites.serials limit }
    requires asked { asked ≡ serials_seat.new_seat constants.serials limit }
    requires few { length J.given.constants ≤ split_room }
    requires site { 0 < length J.given.jobs }
{
    let shared = Shared { linker, constants };
    resolve_twice(rt, &shared, seats, asked, other)
}

/// The same over tables of its own.
fn link_twice<'a, J: Run, R: Wait>(
    rt: &R,
    alloc: Global,
    input: &'a RunInput<'a>,
    other: bool,
) -> Result<Resolved, WorkError>
    requires named { given_by input.now ≡ J.given }
    requires jobs { AreJobs J.given }
    requires constants { AreConstantsOf J.given }
    requires few { length J.given.jobs ≤ most_sites }
    requires few_constants { length J.given.constants ≤ split_room }
    requires site { 0 < length J.given.jobs }
{
    let (tables, seats) = Tables::new(alloc)?;
    let linker = Linker::<J>::new(alloc, input, &tables)?;
    let (constants, asked) = ConstTable::<ConstantsOf<J>>::new(
        alloc,
        input.constants,
        input.scripts,
        input.leaves,
    )?;
    resolve_shared(rt, linker, constants, seats, asked, other)
}

/// The jobs of a class.
fn jobs_of(
    alloc: Global,
    view: &ClassView<'_>,
    scripts: &Scripts,
    leaves: &Leaves,
) -> Result<RunJobs, NoMemory>
    requires { HasDynamics view.now }
    ensures sites { IfOk result (λ jobs. AreJobsOf leaves.now scripts.now jobs.sites) }
    ensures constants { IfOk result
        (λ jobs. AreConstantsOf (given_with leaves.now scripts.now jobs)) }
{
    let mut jobs = RunJobs::new(alloc);
    push_class(alloc, &mut jobs, view, scripts, leaves)?;
    Ok(jobs)
}

/// The same of the call site of the class.
fn resolved_twice<R: Wait>(rt: &R, alloc: Global, other: bool) -> Result<Resolved, Fail> {
    let leaves = read_manifest(alloc, LEAVES)?;
    let scripts = read_scripts(alloc, SCRIPTS)?;
    let class = class_file(alloc)?;
    let view = read(alloc, &class, 1)?;
    let jobs = jobs_of(alloc, &view, &scripts, &leaves)?;
    if jobs.sites.len() != 1 {
        return Err("a class file with another number of sites than one".into());
    }
    if jobs.constants.len() != 0 {
        return Err("a class file with a Dynamic entry".into());
    }
    let input = RunInput {
        leaves: &leaves,
        scripts: &scripts,
        jobs: &jobs.sites,
        constants: &jobs.constants,
    };
    Ok(link_twice::<Brand, R>(rt, alloc, &input, other)?)
}

const ONE_ATTEMPT: Resolved = Resolved {
    first: 1,
    then: 1,
    attempts: 1,
};

#[test]
fn a_pass_finds_what_another_has_recorded(rt: HostRuntime) -> Result<(), Fail> {
    assert_eq!(rt; resolved_twice(&rt, rt.alloc(), true)?, ONE_ATTEMPT);
    Ok(())
}

#[test]
fn a_pass_resolves_a_site_once(rt: HostRuntime) -> Result<(), Fail> {
    assert_eq!(rt; resolved_twice(&rt, rt.alloc(), false)?, ONE_ATTEMPT);
    Ok(())
}
