ghost use Rattle.std.specs.Prelude.{◌≡◌, ◌≢◌, ◌∷◌, [], IfOk};
ghost use Rattle.mh_values.specs.Computation.{Stuck};
ghost use Rattle.mh_form.specs.Run.{IsLeaf, IsPart, run_body as run_of, run_bound};
ghost use Rattle.mh_form.specs.Slots.{called};
ghost use Rattle.mh_values_tests.specs.Host.{host, nested, nested_on, two_links};

use crate::bodies::{gave, naming, one, one_place, text};
use mh_base::{NoMemory, Seq};
use mh_form::{Bound, Field, FormBody, Name, Operands, Ran, Slot, run};
use mh_leaves::{Leaves, ManifestError, read_manifest};
use mh_values::LeafId;
use std::alloc::Global;
use std::sync::Arc;
use std::test::Fail;

/// The leaves `tick`, which gives the count of leaf calls before it, and `div`.
fn host(alloc: Global) -> Result<Leaves, ManifestError>
    ensures { IfOk result (λ leaves. leaves ≡ host) }
{
    Ok(read_manifest(
        alloc,
        b"class demo/Host java/lang/Object\nstatic demo/Host tick (I)I tick\nstatic demo/Host div (II)I idiv\n",
    )?)
}

fn two_places(alloc: Global, first: u32, second: u32) -> Result<Operands, NoMemory>
    ensures { IfOk result (λ places. places ≡ first ∷ second ∷ []) }
{
    Ok(Seq::from_vec(vec![in alloc; first, second]?))
}

/// A body that links its part twice, and gives what the second run gives.
fn twice(alloc: Global) -> Result<FormBody, NoMemory>
    ensures { IfOk result (λ body. body ≡ two_links) }
{
    let mut names = Seq::new(alloc);
    names.push(Name::Link(0, one_place(alloc, 0)?))?;
    names.push(Name::Link(0, one_place(alloc, 0)?))?;
    Ok(FormBody {
        params: Seq::new(alloc),
        fields: 1,
        names,
        out: Some(2),
    })
}

/// A body on a leaf.
fn on_leaf<'t>(
    alloc: Global,
    leaves: &Leaves,
    body: &'t FormBody,
    leaf: LeafId,
) -> Result<Bound<'t>, NoMemory>
    ensures { IfOk result (λ bound. run_bound leaves.now bound
        ≡ run_of body.now (IsLeaf (called leaves.now leaf) ∷ [])) }
{
    let mut fields = Vec::new(alloc);
    fields.push(Field::Leaf(leaf))?;
    Ok(Bound { body, fields })
}

/// A body on a part.
fn on_part<'t>(
    alloc: Global,
    leaves: &Leaves,
    body: &'t FormBody,
    part: Bound<'t>,
) -> Result<Bound<'t>, NoMemory>
    ensures { IfOk result (λ bound. run_bound leaves.now bound
        ≡ run_of body.now (IsPart (run_bound leaves.now part.entry) ∷ [])) }
{
    let mut fields = Vec::new(alloc);
    fields.push(Field::Part(Arc::new(alloc, part)?))?;
    Ok(Bound { body, fields })
}

/// Runs a leaf by a body, which is a part of a second one, which is a part of a third.
fn run_nested<'t>(
    alloc: Global,
    leaves: &Leaves,
    call: &'t FormBody,
    link: &'t FormBody,
    twice: &'t FormBody,
    leaf: u32,
    arg: Slot,
    n: u32,
) -> Result<Ran, NoMemory>
    requires { nested_on leaves.now call.now link.now twice.now leaf arg n ≢ Stuck }
{
    let inner = on_leaf(alloc, leaves, call, LeafId(leaf))?;
    let middle = on_part(alloc, leaves, link, inner)?;
    let outer = on_part(alloc, leaves, twice, middle)?;
    run(alloc, &outer, one(alloc, arg)?, n, leaves)
}

/// Runs a leaf twice, below two parts.
fn nested(
    alloc: Global,
    leaves: &Leaves,
    leaf: u32,
    places: Operands,
    arg: Slot,
    n: u32,
) -> Result<Ran, NoMemory>
    requires { nested leaves.now leaf places arg n ≢ Stuck }
{
    let call = naming(alloc, Name::Call(0, places), 1)?;
    let link = naming(alloc, Name::Link(0, one_place(alloc, 0)?), 1)?;
    let twice = twice(alloc)?;
    run_nested(alloc, leaves, &call, &link, &twice, leaf, arg, n)
}

/// What the second of two calls of `tick` gives after `n` calls, and how many calls there were.
fn ticks(alloc: Global, leaves: &Leaves, n: u32) -> Result<(Vec<u8>, usize), NoMemory>
    requires { leaves.now ≡ host }
{
    let places = one_place(alloc, 0)?;
    let ran = nested(alloc, leaves, 0, places, Slot::I(7), n)?;
    let gave = gave(alloc, &ran.outcome, leaves.classes())?;
    Ok((gave, ran.calls.len()))
}

/// What the first of two calls of `div` by zero ends the run with, and how many calls there were.
fn throws(alloc: Global, leaves: &Leaves) -> Result<(Vec<u8>, usize), NoMemory>
    requires { leaves.now ≡ host }
{
    let places = two_places(alloc, 0, 0)?;
    let ran = nested(alloc, leaves, 1, places, Slot::I(0), 0)?;
    let gave = gave(alloc, &ran.outcome, leaves.classes())?;
    Ok((gave, ran.calls.len()))
}

/// Counts of calls before a run, and what `tick` gives the second time.
static TICKS: [(u32, &str); 3] = [
    (0, "i:1"),
    (2147483647, "i:-2147483648"),
    (4294967295, "i:0"),
];

#[test]
fn parts_are_told_of_the_calls_before_them(rt: HostRuntime) -> Result<(), Fail> {
    let leaves = host(rt.alloc())?;
    for (n, wanted) in TICKS.iter().copied() {
        let (gave, calls) = ticks(rt.alloc(), &leaves, n)?;
        assert_eq!(rt; (text(&gave), calls), (wanted, 2), "after {n} calls");
    }
    Ok(())
}

#[test]
fn an_exception_ends_the_parts(rt: HostRuntime) -> Result<(), Fail> {
    let leaves = host(rt.alloc())?;
    let (gave, calls) = throws(rt.alloc(), &leaves)?;
    let wanted = "java/lang/ArithmeticException s:/\\sby\\szero";
    assert_eq!(rt; (text(&gave), calls), (wanted, 1));
    Ok(())
}
