ghost use Rattle.std.specs.Prelude.{◌≡◌, [], List, IfOk};
ghost use Rattle.mh_setonce.specs.Puts.{Refused};
ghost use Rattle.mh_setonce.specs.Views.{ChainView};
ghost use Rattle.mh_setonce.specs.Walks.{Distinct, FindsNode, StartsWith};
ghost use Rattle.mh_setonce.specs.ManyWalks.{DoMeet, IsLonger, chains_of};
ghost use Rattle.mh_handle.specs.Chains.{learnt_by};
ghost use Rattle.mh_handle.specs.Form.{FormView};
ghost use Rattle.mh_handle.specs.Index.{recipe_of};
ghost use Rattle.mh_handle.specs.Passes.{AreLearnt, AreOneEach, DoMatch, IsPut};

use crate::form::Form;
use crate::recipe::Recipe;
use crate::table::FormTable;
use mh_base::NoMemory;
use mh_setonce::{Chain, Put, PutRefused, Walk};
use std::alloc::Global;
use std::marker::Model;
use std::mem;
use std::sync::Wait;

/// What a pass has learnt of its table: a walk of each chain. A chain that the pass has not looked
/// at takes no memory of its own.
#[derive(Drop)]
pub(crate) struct FormWalks<'t> {
    walks: Vec<Walk<'t, Form>>,
}

impl<'t> Model for FormWalks<'t> {
    ghost use Rattle.std.specs.Prelude.{List};
    ghost use Rattle.mh_setonce.specs.Views.{WalkView};
    ghost use Rattle.mh_handle.specs.Form.{FormView};

    ghost Value = { List (WalkView FormView) };

    ghost use Rattle.mh_handle.specs.Chains.{AreWalks};

    ghost view = { λ w. w.walks.items };

    ghost invariant = { λ w. AreWalks w.walks.items };
}

impl<'t> FormWalks<'t> {
    /// Walks that have learnt nothing yet.
    pub(crate) fn new(alloc: Global, table: &'t FormTable) -> Result<FormWalks<'t>, NoMemory>
        ensures chains { IfOk result (λ walks. chains_of walks ≡ table.entry.now.chains) }
        ensures learnt { IfOk result (λ walks. learnt_by walks ≡ []) }
    {
        let mut walks = Vec::new(alloc);
        for chain in table.chains() {
            walks.push(chain.walk(alloc))?;
        }
        Ok(FormWalks { walks })
    }

    /// Walks that have learnt the same.
    pub(crate) fn copy(&self, alloc: Global) -> Result<FormWalks<'t>, NoMemory>
        ensures { IfOk result (λ copy. copy ≡ self.now) }
    {
        let mut walks = Vec::new(alloc);
        for walk in self.walks.as_slice() {
            walks.push(walk.copy()?)?;
        }
        Ok(FormWalks { walks })
    }

    /// The form of a recipe, if the table shows it.
    pub(crate) fn find(
        &mut self,
        table: &'t FormTable,
        recipe: &Recipe,
    ) -> Result<Option<&'t Form>, NoMemory>
        requires { chains_of self.old ≡ table.now.chains }
        ensures chains { chains_of self.new ≡ chains_of self.old }
        ensures learnt { AreLearnt (learnt_by self.new) (learnt_by self.old) }
        ensures once { AreOneEach (learnt_by self.new) }
        ensures found { IfOk result (FindsNode recipe_of (learnt_by self.new) recipe.now) }
    {
        let place = recipe.chain();
        table.chains()[place].find(&mut self.walks[place], recipe)
    }

    /// Takes memory for one more form, of this recipe.
    pub(crate) fn reserve(&mut self, recipe: &Recipe) -> Result<(), NoMemory>
        ensures { self.new ≡ self.old }
    {
        self.walks[recipe.chain()].reserve()
    }

    /// Puts a form into the table, unless the table has one with its recipe.
    pub(crate) fn put<R: Wait>(
        &mut self,
        rt: &R,
        alloc: Global,
        table: &'t FormTable,
        form: Form,
    ) -> Result<Put<'t, Form>, NoMemory>
        requires { chains_of self.old ≡ table.now.chains }
        ensures chains { chains_of self.new ≡ chains_of self.old }
        ensures learnt { AreLearnt (learnt_by self.new) (learnt_by self.old) }
        ensures once { AreOneEach (learnt_by self.new) }
        ensures put { IfOk result (IsPut (learnt_by self.new) form) }
    {
        let place = form.recipe().chain();
        put_form(
            rt,
            alloc,
            &table.chains()[place],
            &mut self.walks[place],
            form,
        )
    }

    /// Shows, for proofs, that of two walks of one chain one begins with the other. It changes
    /// nothing.
    pub(crate) fn meet(&self, table: &FormTable, other: &FormWalks)
        requires walks { chains_of self.now ≡ table.now.chains }
        requires other { chains_of other.now ≡ table.now.chains }
        ensures meet { DoMeet self.now other.now }
        ensures matching { DoMatch (learnt_by self.now) (learnt_by other.now) }
    {
        let chains = table.chains();
        for place in 0..chains.len() {
            chains[place].meet(&self.walks[place], &other.walks[place]);
        }
    }

    /// Keeps, for each chain, the longer of the two walks.
    pub(crate) fn join(&mut self, other: FormWalks<'t>)
        requires chains { chains_of other ≡ chains_of self.old }
        requires meet { DoMeet self.old other }
        ensures chains { chains_of self.new ≡ chains_of self.old }
        ensures mine { AreLearnt (learnt_by self.new) (learnt_by self.old) }
        ensures theirs { AreLearnt (learnt_by self.new) (learnt_by other.entry) }
        ensures once { AreOneEach (learnt_by self.new) }
    {
        let FormWalks { walks: mut others } = other;
        for place in 0..self.walks.len() {
            keep_longer(&mut self.walks[place], &mut others[place]);
        }
    }
}

/// Keeps the longer of two walks.
fn keep_longer<'t>(walk: &mut Walk<'t, Form>, other: &mut Walk<'t, Form>)
    ensures { IsLonger walk.old other.old walk.new }
{
    if walk.len() < other.len() {
        mem::swap(walk, other);
    }
}
/// Puts a form into the chain, unless the chain has one with its recipe.
///
/// A cell is always left, because each form has a number of its own from 1 to 16,384. No contract
/// says so. So a chain that seems full is asked again.
fn put_form<'t, R: Wait>(
    rt: &R,
    alloc: Global,
    chain: &'t Chain<Form>,
    walk: &mut Walk<'t, Form>,
    mut form: Form,
) -> Result<Put<'t, Form>, NoMemory>
    requires { walk.old.chain ≡ chain.now }
    ensures chain { walk.new.chain ≡ walk.old.chain }
    ensures nodes { StartsWith walk.new.nodes walk.old.nodes }
    ensures once { Distinct recipe_of walk.new.nodes }
    ensures put { IfOk result (IsPut walk.new.nodes form) }
{
    for _ in rt.forever() {
        match chain.find_or_put(rt, alloc, walk, form) {
            Ok(put) => return Ok(put),
            Err(refused) => form = handed_back(refused)?,
        }
    }
    unreachable!()
}

/// The form that was not put, if the chain seems full.
fn handed_back(refused: PutRefused<Form>) -> Result<Form, NoMemory>
    ensures { (nodes : List FormView) (chain : ChainView) (form : FormView)
        → Refused recipe_of nodes chain form refused → IfOk result (λ back. back ≡ form) }
{
    match refused {
        PutRefused::NoMemory(_) => Err(NoMemory),
        PutRefused::Full(back) => Ok(back),
    }
}
