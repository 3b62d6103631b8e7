//! Eight threads that race edit at random, each through a pass of its own over one table.
ghost use Rattle.std.specs.Prelude.{◌≡◌, ◌+◌, ◌*◌, ◌<◌, ◌≤◌, All, IfOk, length};
ghost use Rattle.mh_handle.specs.Joins.{split_room};
ghost use Rattle.mh_handle.specs.Passes.{IsPassOf};
ghost use Rattle.mh_handle_tests.specs.Lanes.{CanRun, HasRun};

use crate::edits::{more_ints, root};
use mh_base::{NoMemory, Seq};
use mh_handle::{EditError, FormPass, FormTable};
use mh_steps::Broken;
use mh_threads::{Task, run_each};
use rand_core::utils::NextWord;
use rand_pcg::Pcg32;
use std::alloc::Global;
use std::sync::Wait;
use std::test::Fail;
use std::thread::Threads;

const THREADS: u64 = 8;
/// How many edits a thread makes in a round.
const EDITS: u32 = 100;

const ROUNDS: u64 = 100;
/// How many roots there are, and how many forms are made of each.
const KINDS: u32 = 8;

/// A recipe of the set: a leaf's root that takes this many ints, and then this many more first of
/// all.
#[derive(Drop, Clone, Copy, Debug)]
struct Recipe {
    ints: u32,
    more: u32,
}

/// The numbers that a pass has for the root of a recipe and for its form.
#[derive(Debug, Drop)]
struct Edited {
    recipe: Recipe,
    root: u64,
    form: u64,
}

/// Makes the form of a recipe.
fn edit_by<'t, R: Wait>(
    rt: &R,
    alloc: Global,
    table: &'t FormTable,
    pass: &mut FormPass<'t>,
    recipe: Recipe,
) -> Result<Edited, EditError>
    requires pass { IsPassOf table.now pass.old }
    requires room { 2 ≤ pass.old.seat.room }
    ensures table { pass.new.table ≡ pass.old.table }
    ensures room { pass.old.seat.room ≤ pass.new.seat.room + 2 }
{
    let root = root(rt, alloc, table, pass, recipe.ints)?;
    let key = more_ints(alloc, recipe.more)?;
    let form = table.edit(rt, alloc, pass, root, key)?;
    Ok(Edited {
        recipe,
        root: root.number(),
        form: form.number(),
    })
}

/// Makes forms of recipes that are picked at random.
fn edit_at_random<'t, R: Wait>(
    rt: &R,
    alloc: Global,
    table: &'t FormTable,
    pass: &mut FormPass<'t>,
    seed: u64,
) -> Result<Seq<Edited>, EditError>
    requires pass { IsPassOf table.now pass.old }
    requires room { 200 ≤ pass.old.seat.room }
    ensures table { pass.new.table ≡ pass.old.table }
{
    let mut random = Pcg32::new(seed, 0);
    let mut all = Seq::new(alloc);
    for turn in 0..EDITS {
        let recipe = Recipe {
            ints: random.next_word() % KINDS,
            more: 1 + random.next_word() % KINDS,
        };
        all.push(edit_by(rt, alloc, table, pass, recipe)?)?;
    }
    Ok(all)
}

/// Makes the form of each recipe of the set.
fn edit_each<'t, R: Wait>(
    rt: &R,
    alloc: Global,
    table: &'t FormTable,
    pass: &mut FormPass<'t>,
) -> Result<Seq<Edited>, EditError>
    requires pass { IsPassOf table.now pass.old }
    requires room { 128 ≤ pass.old.seat.room }
{
    let mut all = Seq::new(alloc);
    for at in 0..KINDS * KINDS {
        let recipe = Recipe {
            ints: at / KINDS,
            more: 1 + at % KINDS,
        };
        all.push(edit_by(rt, alloc, table, pass, recipe)?)?;
    }
    Ok(all)
}

/// What a thread has and makes.
#[derive(Drop)]
pub(crate) struct Lane<'t> {
    pass: FormPass<'t>,
    seed: u64,
    /// Nothing before the thread has run, and nothing if it had no memory.
    edited: Option<Seq<Edited>>,
}

/// What all threads share.
#[derive(Drop)]
pub(crate) struct Forms<'t> {
    alloc: Global,
    table: &'t FormTable,
}

impl<'t> Task for Forms<'t> {
    ghost use Rattle.mh_handle_tests.specs.Lanes.{CanRun, HasRun};

    type Lane = Lane<'t>;

    ghost ready = { CanRun };

    ghost done = { λ forms old new. HasRun forms new };

    fn run<R: Wait>(&self, rt: &R, lane: &mut Lane<'t>) {
        lane.edited = edit_at_random(rt, self.alloc, self.table, &mut lane.pass, lane.seed).ok();
    }
}

/// A lane for each thread, each with a part of the pass.
fn lanes<'t>(
    alloc: Global,
    table: &'t FormTable,
    pass: &mut FormPass<'t>,
    round: u64,
) -> Result<Vec<Lane<'t>>, NoMemory>
    requires pass { IsPassOf table.now pass.old }
    requires room { 8 * split_room < pass.old.seat.room }
    ensures table { pass.new.table ≡ pass.old.table }
    ensures room { pass.old.seat.room ≤ pass.new.seat.room + 8 * split_room }
    ensures count { IfOk result (λ lanes. length lanes.items ≡ 8) }
    ensures lanes { IfOk result (λ lanes.
        All (λ l. IsPassOf table.entry.now l.pass × (200 ≤ l.pass.seat.room)) lanes.items) }
{
    let mut lanes = Vec::new(alloc);
    for at in 0..THREADS {
        let part = table.split(alloc, pass)?;
        lanes.push(Lane {
            pass: part,
            seed: round.wrapping_mul(THREADS).wrapping_add(at),
            edited: None,
        })?;
    }
    Ok(lanes)
}

/// A thread edits through each lane.
fn run_lanes<'t, R: Threads + Wait + Sync>(rt: &R, forms: &Forms<'t>, lanes: &mut [Lane<'t>])
    requires some { 0 < length lanes.old }
    requires lanes { All (CanRun forms.now) lanes.old }
    ensures { All (HasRun forms.entry.now) lanes.new }
{
    run_each(rt, forms, lanes);
}

/// What the threads have made, with the passes joined again.
fn joined<'t>(
    alloc: Global,
    table: &'t FormTable,
    pass: &mut FormPass<'t>,
    lanes: Vec<Lane<'t>>,
) -> Result<Seq<Edited>, Broken>
    requires pass { IsPassOf table.now pass.old }
    requires lanes { All (λ l. IsPassOf table.now l.pass) lanes.items }
    ensures table { pass.new.table ≡ pass.old.table }
    ensures room { pass.old.seat.room ≤ pass.new.seat.room }
{
    let mut all = Seq::new(alloc);
    for lane in lanes {
        let Lane {
            pass: other,
            seed: _,
            edited,
        } = lane;
        table.join(pass, other)?;
        all.append(edited.ok_or(Broken::Fixture("a thread that made no forms"))?)?;
    }
    Ok(all)
}

/// What threads have made, and what the joined pass makes of each recipe.
#[derive(Drop)]
struct Round {
    threads: Seq<Edited>,
    joined: Seq<Edited>,
    /// How many forms the joined pass has asked for.
    asked: u32,
}

/// Threads edit over a table, and a pass that knows all that theirs did edits by each recipe.
fn race<'t, R: Threads + Wait + Sync>(
    rt: &R,
    alloc: Global,
    table: &'t FormTable,
    mut pass: FormPass<'t>,
    round: u64,
) -> Result<Round, Broken>
    requires pass { IsPassOf table.now pass }
    requires room { 8 * split_room + 128 < pass.seat.room }
{
    let mut lanes = lanes(alloc, table, &mut pass, round)?;
    run_lanes(rt, &Forms { alloc, table }, lanes.as_mut_slice());
    let threads = joined(alloc, table, &mut pass, lanes)?;
    let all = edit_each(rt, alloc, table, &mut pass)?;
    Ok(Round {
        threads,
        joined: all,
        asked: pass.len(),
    })
}

/// A round over a new table.
fn race_anew<R: Threads + Wait + Sync>(rt: &R, alloc: Global, round: u64) -> Result<Round, Broken> {
    let (table, seat) = FormTable::new(alloc)?;
    let pass = table.first_pass(alloc, seat)?;
    race(rt, alloc, &table, pass, round)
}

/// Whether two passes have the same numbers for what they both have made.
fn does_agree(one: &Edited, other: &Edited) -> bool {
    one.recipe.ints != other.recipe.ints
        || one.root == other.root
            && (one.recipe.more != other.recipe.more || one.form == other.form)
}

/// What a thread has made with other numbers than the joined pass has, and what that one has made.
fn first_apart(round: &Round) -> Option<(&Edited, &Edited)> {
    for one in round.threads.as_slice() {
        for other in round.joined.as_slice() {
            if !does_agree(one, other) {
                return Some((one, other));
            }
        }
    }
    None
}

#[test]
fn threads_that_edit_at_random_have_the_same_forms(rt: HostRuntime) -> Result<(), Fail> {
    let alloc = rt.alloc();
    for round in 0..ROUNDS {
        let round = race_anew(&rt, alloc, round)?;
        assert_eq!(rt; round.threads.len(), 800);
        let apart = first_apart(&round);
        assert!(rt; apart.is_none(), "{apart:?}");
        // 8 roots, and 8 forms of each.
        assert_eq!(rt; round.asked, 72);
    }
    Ok(())
}
