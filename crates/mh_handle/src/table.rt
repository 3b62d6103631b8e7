ghost use Rattle.std.specs.Prelude.{◌≡◌, ◌+◌, ◌<◌, ◌≤◌, ◌++◌, ◌∷◌, [], All, length, IfOk, OnOk, OnErr, IsTrue};
ghost use Rattle.mh_edit.specs.Fit.{fits};
ghost use Rattle.mh_setonce.specs.Views.{room_of};
ghost use Rattle.mh_handle.specs.Chains.{chain_count, chain_room};
ghost use Rattle.mh_handle.specs.Form.{base_form, body_of};
ghost use Rattle.mh_handle.specs.Joins.{DoAgree, KnowsBoth, split_pass, split_room, with_seat};
ghost use Rattle.mh_handle.specs.Passes.{Edits, IsPassOf, StaysLearnt, pass_at};
ghost use Rattle.mh_tickets.specs.Draws.{AreDistinct};
ghost use Rattle.mh_handle.specs.Seats.{KnowsAll, joined_seats, seat_at, with_less_room};

use crate::chain::{CHAIN_ROOM, CHAINS};
use crate::error::EditError;
use crate::form::Form;
use crate::pass::FormPass;
use crate::seat::FormSeat;
use mh_base::NoMemory;
use mh_edit::{Key, apply};
use mh_setonce::Chain;
use mh_tickets::Tickets;
use std::alloc::Global;
use std::marker::Model;
use std::sync::Wait;

/// The forms of a run, one for each recipe, which threads share. It has 64 chains of 16,384 cells
/// each, and the counter of the forms' numbers. Contracts see the chains and the counter.
#[derive(Drop)]
pub struct FormTable {
    base: Form,
    chains: Vec<Chain<Form>>,
    tickets: Tickets,
}

impl Model for FormTable {
    ghost use Rattle.std.specs.Prelude.{◌≡◌, length};
    ghost use Rattle.mh_handle.specs.Seats.{TableView};

    ghost Value = { TableView };

    ghost use Rattle.mh_handle.specs.Chains.{chain_count};
    ghost use Rattle.mh_handle.specs.Form.{base_form};

    ghost view = { λ t. record { chains = t.chains.items; tickets = t.tickets } };

    ghost invariant = { λ t. (t.base ≡ base_form) × (length t.chains.items ≡ chain_count) };
}

impl FormTable {
    /// A table with no form except the base, and its first seat, which has room for 2^62 numbers.
    pub fn new(alloc: Global) -> Result<(FormTable, FormSeat), NoMemory>
        ensures chains { IfOk result (λ made. length made.0.chains ≡ chain_count) }
        ensures cells { IfOk result (λ made. All (λ c. room_of c ≡ chain_room) made.0.chains) }
        ensures seat { IfOk result (λ made. made.1 ≡ seat_at made.0 0) }
    {
        let (tickets, seat) = Tickets::new(alloc)?;
        let table = FormTable {
            base: Form::base(alloc),
            chains: all_chains(alloc)?,
            tickets,
        };
        let seat = FormSeat::of(&table, seat);
        Ok((table, seat))
    }

    /// The form that takes nothing and does nothing, from which roots make forms.
    pub fn base(&self) -> &Form
        ensures { result.now ≡ base_form }
    {
        &self.base
    }

    /// The chains, in the order of their numbers.
    pub(crate) fn chains(&self) -> &[Chain<Form>]
        ensures chains { result.now ≡ self.now.chains }
        ensures count { length self.now.chains ≡ chain_count }
    {
        self.chains.as_slice()
    }

    /// The counter of the forms' numbers.
    pub(crate) fn tickets(&self) -> &Tickets
        ensures { result.now ≡ self.now.tickets }
    {
        &self.tickets
    }

    /// The first pass, with the table's seat.
    pub fn first_pass<'t>(&'t self, alloc: Global, seat: FormSeat) -> Result<FormPass<'t>, NoMemory>
        requires { seat.table ≡ self.now }
        ensures { IfOk result (λ pass. pass ≡ pass_at self.entry.now seat) }
    {
        FormPass::new(alloc, self, seat)
    }

    /// A second pass over the table, for another thread. It knows the forms that the pass has
    /// learnt and asked for, and has made none. It gets room for 2^32 numbers, which the pass must
    /// have.
    pub fn split<'t>(
        &'t self,
        alloc: Global,
        pass: &mut FormPass<'t>,
    ) -> Result<FormPass<'t>, NoMemory>
        requires pass { IsPassOf self.now pass.old }
        requires room { split_room < pass.old.seat.room }
        ensures ok { IfOk result (λ other. other ≡ split_pass pass.old) }
        ensures left { OnOk result
            (pass.new ≡ with_seat (with_less_room split_room pass.old.seat) pass.old) }
        ensures err { OnErr result (pass.new ≡ pass.old) }
    {
        pass.split(alloc, self)
    }

    /// Joins another pass into this one, which then knows what both knew. If no memory is left, it
    /// has the numbers and the room of both, and otherwise knows what it knew before.
    ///
    /// The two never differ on the form of a recipe.
    pub fn join<'t>(&'t self, pass: &mut FormPass<'t>, other: FormPass<'t>) -> Result<(), NoMemory>
        requires pass { IsPassOf self.now pass.old }
        requires other { IsPassOf self.now other }
        ensures table { pass.new.table ≡ pass.old.table }
        ensures seat { pass.new.seat ≡ joined_seats pass.old.seat other.entry.seat }
        ensures distinct { AreDistinct pass.new.seat.numbers }
        ensures known { KnowsAll pass.new.seat }
        ensures agree { DoAgree pass.old other.entry }
        ensures ok { OnOk result (KnowsBoth pass.old other.entry pass.new) }
        ensures err { OnErr result (pass.new ≡ with_seat pass.new.seat pass.old) }
    {
        pass.join(self, other)
    }

    /// The form whose recipe is that of `form` followed by the key. `Work::edit` calls it and has
    /// the details. If the chain seems full, it looks again; for that it takes `rt`.
    pub fn edit<'t, R: Wait>(
        &'t self,
        rt: &R,
        alloc: Global,
        pass: &mut FormPass<'t>,
        form: &'t Form,
        key: Key,
    ) -> Result<&'t Form, EditError>
        requires fits { IsTrue (fits key (body_of form.now.recipe)) }
        requires pass { IsPassOf self.now pass.old }
        requires room { 1 ≤ pass.old.seat.room }
        ensures table { pass.new.table ≡ pass.old.table }
        ensures learnt { StaysLearnt pass.old pass.new }
        ensures room { pass.old.seat.room ≤ pass.new.seat.room + 1 }
        ensures edits { Edits (form.entry.now.recipe ++ key ∷ []) pass.old pass.new result }
    {
        self.edit_by(rt, alloc, pass, form, &key)
    }

    fn edit_by<'t, R: Wait>(
        &'t self,
        rt: &R,
        alloc: Global,
        pass: &mut FormPass<'t>,
        form: &'t Form,
        key: &Key,
    ) -> Result<&'t Form, EditError>
        requires fits { IsTrue (fits key.now (body_of form.now.recipe)) }
        requires pass { IsPassOf self.now pass.old }
        requires room { 1 ≤ pass.old.seat.room }
        ensures table { pass.new.table ≡ pass.old.table }
        ensures learnt { StaysLearnt pass.old pass.new }
        ensures room { pass.old.seat.room ≤ pass.new.seat.room + 1 }
        ensures edits { Edits (form.entry.now.recipe ++ key.now ∷ []) pass.old pass.new result }
    {
        if let Some(seen) = pass.seen(form.recipe(), key) {
            return Ok(seen);
        }
        let recipe = form.recipe().then(alloc, key)?;
        if let Some(found) = pass.ask_shown(self, &recipe)? {
            return Ok(found);
        }
        let body = apply(alloc, form.body(), key)?;
        pass.make(rt, alloc, self, recipe, body)
    }
}

/// The chains of a new table: no cell is set.
fn all_chains(alloc: Global) -> Result<Vec<Chain<Form>>, NoMemory>
    ensures count { IfOk result (λ chains. length chains.items ≡ chain_count) }
    ensures room { IfOk result (λ chains. All (λ c. room_of c ≡ chain_room) chains.items) }
{
    let mut chains = Vec::new(alloc);
    for _ in 0..CHAINS {
        chains.push(Chain::new(alloc, CHAIN_ROOM)?)?;
    }
    Ok(chains)
}
