ghost use Rattle.std.specs.Prelude.{◌≡◌, ◌≤◌, ◌<◌, ◌++◌, ◌∷◌, [], length, map, vec_len, vec_capacity, OnOk, OnErr, IfOk, IfSome, List};
ghost use Rattle.mh_setonce.specs.Walks.{FindsNode, Has, Lacks};
ghost use Rattle.mh_handle.specs.Form.{FormView, body_of};
ghost use Rattle.mh_handle.specs.Index.{recipe_of};
ghost use Rattle.mh_handle.specs.Joins.{DoAgree, KnowsBoth, split_pass, split_room, unasked, with_seat};
ghost use Rattle.mh_handle.specs.Passes.{HaveNumbers, AsksShown, IsFormOf, IsKept, IsPassOf, IsPut, Learns, MakesForm, StaysLearnt, pass_at};
ghost use Rattle.mh_tickets.specs.Draws.{AreDistinct};
ghost use Rattle.mh_handle.specs.Seats.{KnowsAll, joined_seats, with_less_room};

use crate::error::EditError;
use crate::form::Form;
use crate::recipe::Recipe;
use crate::seat::FormSeat;
use crate::seen_forms::SeenForms;
use crate::sought::Then;
use crate::table::FormTable;
use crate::walks::FormWalks;
use mh_base::NoMemory;
use mh_edit::Key;
use mh_form::FormBody;
use mh_setonce::Put;
use std::alloc::Global;
use std::marker::Model;
use std::sync::Wait;

/// How many numbers a split-off pass may draw.
const SPLIT_ROOM: u64 = 1 << 32;

/// What one thread knows of a table of forms. It has the forms that the thread has learnt of the
/// table's chains, those that it has put there, and those that it has asked for, each once. Its
/// seat draws the numbers of the forms that it makes.
#[derive(Drop)]
pub struct FormPass<'t> {
    walks: FormWalks<'t>,
    made: Vec<&'t Form>,
    seen: SeenForms<'t>,
    seat: FormSeat,
}

impl<'t> Model for FormPass<'t> {
    ghost use Rattle.std.specs.Prelude.{map};
    ghost use Rattle.mh_handle.specs.Chains.{learnt_by};
    ghost use Rattle.mh_handle.specs.Passes.{IsPass, PassView};

    ghost Value = { PassView };

    ghost view = { λ p. record {
      table = p.seat.table;
      learnt = learnt_by p.walks;
      made = map (λ f. f.now) p.made.items;
      asked = p.seen;
      seat = p.seat;
    } };

    ghost invariant = { λ p. IsPass p.walks (map (λ f. f.now) p.made.items) p.seen p.seat };
}

impl<'t> FormPass<'t> {
    pub(crate) fn new(
        alloc: Global,
        table: &'t FormTable,
        seat: FormSeat,
    ) -> Result<FormPass<'t>, NoMemory>
        requires { seat.table ≡ table.now }
        ensures { IfOk result (λ pass. pass ≡ pass_at table.entry.now seat) }
    {
        Ok(FormPass {
            walks: FormWalks::new(alloc, table)?,
            made: Vec::new(alloc),
            seen: SeenForms::new(alloc),
            seat,
        })
    }

    /// A pass that knows what this one knows and has made no form, with a part of its room.
    pub(crate) fn split(
        &mut self,
        alloc: Global,
        table: &'t FormTable,
    ) -> Result<FormPass<'t>, NoMemory>
        requires pass { IsPassOf table.now self.old }
        requires room { split_room < self.old.seat.room }
        ensures ok { IfOk result (λ other. other ≡ split_pass self.old) }
        ensures left { OnOk result
            (self.new ≡ with_seat (with_less_room split_room self.old.seat) self.old) }
        ensures err { OnErr result (self.new ≡ self.old) }
    {
        let walks = self.walks.copy(alloc)?;
        let seen = self.seen.copy()?;
        Ok(FormPass {
            walks,
            made: Vec::new(alloc),
            seen,
            seat: self.seat.split(table, SPLIT_ROOM),
        })
    }

    /// Adds what another pass over the table knows. If no memory is left, the seats are joined all
    /// the same.
    pub(crate) fn join(&mut self, table: &'t FormTable, other: FormPass<'t>) -> Result<(), NoMemory>
        requires pass { IsPassOf table.now self.old }
        requires other { IsPassOf table.now other }
        ensures table { self.new.table ≡ self.old.table }
        ensures seat { self.new.seat ≡ joined_seats self.old.seat other.entry.seat }
        ensures distinct { AreDistinct self.new.seat.numbers }
        ensures known { KnowsAll self.new.seat }
        ensures agree { DoAgree self.old other.entry }
        ensures ok { OnOk result (KnowsBoth self.old other.entry self.new) }
        ensures err { OnErr result (self.new ≡ with_seat self.new.seat self.old) }
    {
        let FormPass {
            walks,
            made,
            seen,
            seat,
        } = other;
        self.seat.join(table, seat);
        self.walks.meet(table, &walks);
        add_all(&mut self.made, &mut self.seen, made, seen)?;
        self.walks.join(walks);
        Ok(())
    }

    /// How many forms were asked for. No two of them have the same recipe.
    pub fn len(&self) -> u32
        ensures count { result ≡ length self.now.asked }
        ensures numbered { HaveNumbers self.now.made self.now.seat.numbers }
    {
        self.seen.len()
    }

    /// The forms that were asked for, in the order in which they first were.
    pub fn asked(&self) -> &[&'t Form]
        ensures { map (λ f. f.now) result.now ≡ self.now.asked }
    {
        self.seen.as_slice()
    }

    /// The form of a recipe and one more key, if it was asked for. It takes no memory.
    pub(crate) fn seen(&self, recipe: &Recipe, key: &Key) -> Option<&'t Form>
        ensures seen { FindsNode recipe_of self.now.asked (recipe.now ++ key.now ∷ []) result }
        ensures form { IfSome result (λ form. IsFormOf (recipe.now ++ key.now ∷ [])
            self.now form.now) }
    {
        self.seen.find(&Then { recipe, key })
    }

    /// The form of a recipe, if the table shows it.
    pub(crate) fn find(
        &mut self,
        table: &'t FormTable,
        recipe: &Recipe,
    ) -> Result<Option<&'t Form>, NoMemory>
        requires { IsPassOf table.now self.old }
        ensures learns { Learns self.old self.new }
        ensures found { IfOk result (FindsNode recipe_of self.new.learnt recipe.now) }
        ensures form { IfOk result (λ found. IfSome found
            (λ form. IsFormOf recipe.now self.new form.now)) }
    {
        self.walks.find(table, recipe)
    }

    /// Asks for a form that was learnt and not asked for before.
    pub(crate) fn ask(&mut self, form: &'t Form) -> Result<(), NoMemory>
        requires new { Lacks recipe_of self.old.asked form.now.recipe }
        requires learnt { Has recipe_of self.old.learnt form.now.recipe form.now }
        ensures ok { OnOk result (self.new ≡ record self.old
            { asked = self.old.asked ++ form.entry.now ∷ [] }) }
        ensures err { OnErr result (self.new ≡ self.old) }
    {
        self.seen.add(form)
    }

    /// Asks for a form that was not asked for before, if the table shows it.
    pub(crate) fn ask_shown(
        &mut self,
        table: &'t FormTable,
        recipe: &Recipe,
    ) -> Result<Option<&'t Form>, NoMemory>
        requires pass { IsPassOf table.now self.old }
        requires new { Lacks recipe_of self.old.asked recipe.now }
        ensures table { self.new.table ≡ self.old.table }
        ensures learnt { StaysLearnt self.old self.new }
        ensures asks { AsksShown recipe.now self.old self.new result }
    {
        let Some(found) = self.find(table, recipe)? else {
            return Ok(None);
        };
        self.ask(found)?;
        Ok(Some(found))
    }

    /// Makes a form that was neither asked for nor learnt, with a number of its own. If another
    /// pass has made it in the meantime, it takes that one.
    pub(crate) fn make<R: Wait>(
        &mut self,
        rt: &R,
        alloc: Global,
        table: &'t FormTable,
        recipe: Recipe,
        body: FormBody,
    ) -> Result<&'t Form, EditError>
        requires body { body ≡ body_of recipe }
        requires pass { IsPassOf table.now self.old }
        requires room { 1 ≤ self.old.seat.room }
        requires new { Lacks recipe_of self.old.asked recipe }
        ensures table { self.new.table ≡ self.old.table }
        ensures learnt { StaysLearnt self.old self.new }
        ensures makes { MakesForm recipe self.old self.new result }
        ensures form { IfOk result (λ form. IsFormOf recipe self.new form.now) }
    {
        self.seen.reserve()?;
        reserve_one(&mut self.made)?;
        self.walks.reserve(&recipe)?;
        let number = self.seat.draw(table);
        if number > Form::LIMIT {
            return Err(EditError::FormsFull { drawn: number });
        }
        let form = Form::new(number, recipe, body);
        let put = self.walks.put(rt, alloc, table, form)?;
        let form = kept(&mut self.made, put);
        self.ask(form)?;
        Ok(form)
    }
}

/// Adds the forms that another pass has made and asked for. If no memory is left, it adds none.
fn add_all<'t>(
    made: &mut Vec<&'t Form>,
    seen: &mut SeenForms<'t>,
    mut more_made: Vec<&'t Form>,
    more_seen: SeenForms<'t>,
) -> Result<(), NoMemory>
    ensures made { OnOk result (made.new.items ≡ made.old.items ++ more_made.entry.items) }
    ensures seen { OnOk result (seen.new ≡ seen.old ++ unasked seen.old more_seen.entry) }
    ensures made_err { OnErr result (made.new.items ≡ made.old.items) }
    ensures seen_err { OnErr result (seen.new ≡ seen.old) }
{
    made.reserve(more_made.len())?;
    seen.add_all(&more_seen)?;
    made.append(&mut more_made)?;
    Ok(())
}

/// Takes memory for one more form.
fn reserve_one<'t>(forms: &mut Vec<&'t Form>) -> Result<(), NoMemory>
    ensures same { forms.new.items ≡ forms.old.items }
    ensures room { IfOk result (λ _. vec_len forms.new < vec_capacity forms.new) }
{
    forms.reserve(1)?;
    Ok(())
}

/// The form that the table has, whichever pass has put it. If this pass has put it, it is noted as
/// made.
fn kept<'t>(made: &mut Vec<&'t Form>, put: Put<'t, Form>) -> &'t Form
    requires { vec_len made.old < vec_capacity made.old }
    ensures has { (learnt : List FormView) (ours : FormView) → IsPut learnt ours put.entry
        → Has recipe_of learnt ours.recipe result.now }
    ensures kept { (learnt : List FormView) (ours : FormView) → IsPut learnt ours put.entry
        → IsKept ours (map (λ f. f.now) made.old.items) (map (λ f. f.now) made.new.items) result.now }
{
    match put {
        Put::Mine(form) => {
            made.push_reserved(form);
            form
        }
        Put::Theirs(form, _) => form,
    }
}
