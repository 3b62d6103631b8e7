//! Bodies, arguments and runs, for the tests.

ghost use Rattle.std.specs.Prelude.{◌≡◌, ◌≢◌, ◌∷◌, [], IfOk};
ghost use Rattle.mh_values.specs.Computation.{Stuck};
ghost use Rattle.mh_leaves.specs.Registered.{nothing_registered};
ghost use Rattle.mh_form.specs.Run.{ran_of_run, run_on};
ghost use Rattle.mh_values_tests.specs.Host.{naming};

use mh_base::{NoMemory, Seq};
use mh_form::{Bound, Field, FormBody, Name, Operands, Ran, Slot, SlotOutcome, Slots, run};
use mh_leaves::{Leaves, ManifestError, read_manifest};
use mh_texts::{show_exc, show_value};
use mh_values::{Classes, Num, Value};
use std::alloc::Global;

/// The built-in classes, and no leaf.
fn no_leaves(alloc: Global) -> Result<Leaves, ManifestError>
    ensures { IfOk result (λ leaves. leaves ≡ nothing_registered) }
{
    Ok(read_manifest(alloc, b"")?)
}

/// A body of one name, with one field.
pub fn naming(alloc: Global, name: Name, out: u32) -> Result<FormBody, NoMemory>
    ensures { IfOk result (λ body. body ≡ naming name out) }
{
    let mut names = Seq::new(alloc);
    names.push(name)?;
    Ok(FormBody {
        params: Seq::new(alloc),
        fields: 1,
        names,
        out: Some(out),
    })
}

/// A list of one slot.
pub fn one(alloc: Global, slot: Slot) -> Result<Slots, NoMemory>
    ensures { IfOk result (λ slots. slots ≡ slot ∷ []) }
{
    let mut slots = Seq::new(alloc);
    slots.push(slot)?;
    Ok(slots)
}

/// A list of one place.
pub fn one_place(alloc: Global, place: u32) -> Result<Operands, NoMemory>
    ensures { IfOk result (λ places. places ≡ place ∷ []) }
{
    let mut places = Seq::new(alloc);
    places.push(place)?;
    Ok(places)
}

/// Runs a body on one field.
fn run_body<'t>(
    alloc: Global,
    leaves: &Leaves,
    body: &'t FormBody,
    field: Field<'t>,
    args: Slots,
) -> Result<Ran, NoMemory>
    requires { run_on leaves.now body.now (field ∷ []) args 0 ≢ Stuck }
    ensures { IfOk result (λ r. ran_of_run r
        ≡ run_on leaves.now body.now (field.entry ∷ []) args 0) }
{
    let mut fields = Vec::new(alloc);
    fields.push(field)?;
    run(alloc, &Bound { body, fields }, args, 0, leaves)
}

/// A slot as the literal of a value.
fn show_slot(alloc: Global, slot: &Slot, classes: &Classes) -> Result<Vec<u8>, NoMemory> {
    match slot {
        Slot::I(number) => show_value(alloc, &Value::Prim(Num::I(*number)), classes),
        Slot::J(number) => show_value(alloc, &Value::Prim(Num::J(*number)), classes),
        Slot::L(value) => show_value(alloc, value, classes),
    }
}

/// Bytes as a text; `?` if they are none.
pub fn text(bytes: &[u8]) -> &str {
    str::from_utf8(bytes).unwrap_or("?")
}

/// What a run gave: a slot as a literal, or an exception's class and message.
pub fn gave(alloc: Global, outcome: &SlotOutcome, classes: &Classes) -> Result<Vec<u8>, NoMemory> {
    match outcome {
        SlotOutcome::Return(None) => Ok(Vec::new(alloc)),
        SlotOutcome::Return(Some(slot)) => show_slot(alloc, slot, classes),
        SlotOutcome::Throw(exc) => show_exc(alloc, exc, classes),
    }
}

/// What a body gives on one field and one argument.
pub fn gives<'t>(
    alloc: Global,
    body: &'t FormBody,
    field: Field<'t>,
    slot: Slot,
) -> Result<Vec<u8>, ManifestError>
    requires { run_on nothing_registered body.now (field ∷ []) (slot ∷ []) 0 ≢ Stuck }
{
    let leaves = no_leaves(alloc)?;
    let args = one(alloc, slot)?;
    let ran = run_body(alloc, &leaves, body, field, args)?;
    Ok(gave(alloc, &ran.outcome, leaves.classes())?)
}
