ghost use Rattle.std.specs.Prelude.{◌≡◌, ◌≢◌, ◌++◌, IfOk, List, length, map};
ghost use Rattle.mh_values.specs.declared.calls.LeafCall.{LeafCall};
ghost use Rattle.mh_values.specs.Computation.{Stuck};
ghost use Rattle.mh_values.specs.HasType.{HaveTypes};
ghost use Rattle.mh_leaf.specs.Outcome.{ran_of};
ghost use Rattle.mh_tree.specs.Tree.{Tree};
ghost use Rattle.mh_tree.specs.Meaning.{mean};
ghost use Rattle.mh_form.specs.Erasure.{erased};
ghost use Rattle.mh_form.specs.Run.{ran_of_outcome, run_on};
ghost use Rattle.mh_handle.specs.Answers.{IsAnswer, answer_in, typed_ran};
ghost use Rattle.mh_handle.specs.Form.{body_of};
ghost use Rattle.mh_handle.specs.Stands.{Stands, handle_run};

use crate::answer::{Answer, Ended, type_result};
use crate::form::Form;
use crate::handle::Handle;
use mh_base::NoMemory;
use mh_form::{Bound, Fields, Machine, SlotOutcome, copy_fields, run_on};
use mh_leaves::Leaves;
use mh_values::{Classes, Items, Outcome, Ty};
use std::alloc::Global;

impl<'t> Handle<'t> {
    /// Calls the handle on arguments of its type, after `n` earlier leaf calls.
    pub fn invoke(
        &self,
        alloc: Global,
        leaves: &Leaves,
        args: &Items,
        n: u32,
    ) -> Result<Answer, NoMemory>
        requires typed { HaveTypes leaves.now.classes args.now self.now.ty.params }
        requires runs { typed_ran leaves.now.classes self.now.ty.ret
            (handle_run leaves.now self.now (map erased args.now) n) ≢ Stuck }
        ensures run { IfOk result (IsAnswer (typed_ran leaves.now.classes self.now.ty.ret
            (handle_run leaves.now self.now (map erased args.now) n))
            (length self.now.form.recipe)) }
        ensures tree { (t : Tree) → Stands leaves.now self.now t
            → IfOk result (IsAnswer (mean leaves.now t args.now n) (length self.now.form.recipe)) }
    {
        self.invoke_with(&mut Machine::new(alloc), leaves, args, n)
    }

    /// Calls the handle as `invoke` does, in a machine that is kept from call to call. The answer
    /// takes the leaf calls out of the machine.
    pub fn invoke_with(
        &self,
        machine: &mut Machine,
        leaves: &Leaves,
        args: &Items,
        n: u32,
    ) -> Result<Answer, NoMemory>
        requires typed { HaveTypes leaves.now.classes args.now self.now.ty.params }
        requires runs { typed_ran leaves.now.classes self.now.ty.ret
            (handle_run leaves.now self.now (map erased args.now) n) ≢ Stuck }
        ensures run { IfOk result (IsAnswer (typed_ran leaves.now.classes self.now.ty.ret
            (handle_run leaves.now self.now (map erased args.now) n))
            (length self.now.form.recipe)) }
        ensures tree { (t : Tree) → Stands leaves.now self.now t
            → IfOk result (IsAnswer (mean leaves.now t args.now n) (length self.now.form.recipe)) }
    {
        let ended = self.invoke_on(machine, leaves, args, n)?;
        Ok(Answer::new(ended, machine.take_calls()))
    }

    /// Calls the handle as `invoke` does, in a machine that is kept from call to call. The leaf
    /// calls stay in the machine until its next call. So it takes memory only if a leaf or a
    /// conversion makes a text, an array or a message, or if the machine has too little room.
    pub fn invoke_on(
        &self,
        machine: &mut Machine,
        leaves: &Leaves,
        args: &Items,
        n: u32,
    ) -> Result<Ended, NoMemory>
        requires typed { HaveTypes leaves.now.classes args.now self.now.ty.params }
        requires runs { typed_ran leaves.now.classes self.now.ty.ret
            (handle_run leaves.now self.now (map erased args.now) n) ≢ Stuck }
        ensures run { IfOk result (λ ended. IsAnswer (typed_ran leaves.now.classes self.now.ty.ret
            (handle_run leaves.now self.now (map erased args.now) n))
            (length self.now.form.recipe) (answer_in ended machine.new)) }
        ensures tree { (t : Tree) → Stands leaves.now self.now t → IfOk result (λ ended.
            IsAnswer (mean leaves.now t args.now n) (length self.now.form.recipe)
            (answer_in ended machine.new)) }
    {
        let outcome = run_on(machine, &self.bound, args, n, leaves)?;
        let keys = self.form.recipe().len();
        end(outcome, self.ty().ret, keys, leaves.classes())
    }

    /// Calls a form that an edit made from the handle's form, on the handle's fields followed by
    /// those of the edit. The result is read as a value of the return type.
    pub fn invoke_edited(
        &self,
        alloc: Global,
        form: &'t Form,
        more: Fields<'t>,
        ret: Option<Ty>,
        leaves: &Leaves,
        args: &Items,
        n: u32,
    ) -> Result<Answer, NoMemory>
        requires runs { typed_ran leaves.now.classes ret
            (run_on leaves.now (body_of form.now.recipe) (self.now.fields ++ more.items)
            (map erased args.now) n) ≢ Stuck }
        ensures run { IfOk result (IsAnswer (typed_ran leaves.now.classes ret
            (run_on leaves.now (body_of form.entry.now.recipe) (self.now.fields ++ more.entry.items)
            (map erased args.now) n)) (length form.entry.now.recipe)) }
    {
        self.invoke_edited_with(&mut Machine::new(alloc), form, more, ret, leaves, args, n)
    }

    /// Calls an edited form as `invoke_edited` does, in a machine that is kept from call to call.
    /// The answer takes the leaf calls out of the machine.
    pub fn invoke_edited_with(
        &self,
        machine: &mut Machine,
        form: &'t Form,
        more: Fields<'t>,
        ret: Option<Ty>,
        leaves: &Leaves,
        args: &Items,
        n: u32,
    ) -> Result<Answer, NoMemory>
        requires runs { typed_ran leaves.now.classes ret
            (run_on leaves.now (body_of form.now.recipe) (self.now.fields ++ more.items)
            (map erased args.now) n) ≢ Stuck }
        ensures run { IfOk result (IsAnswer (typed_ran leaves.now.classes ret
            (run_on leaves.now (body_of form.entry.now.recipe) (self.now.fields ++ more.entry.items)
            (map erased args.now) n)) (length form.entry.now.recipe)) }
    {
        let mut fields = copy_fields(machine.alloc(), self.bound.fields.as_slice())?;
        let mut more = more;
        fields.append(&mut more)?;
        let bound = Bound {
            body: form.body(),
            fields,
        };
        let outcome = run_on(machine, &bound, args, n, leaves)?;
        let ended = end(outcome, ret, form.recipe().len(), leaves.classes())?;
        Ok(Answer::new(ended, machine.take_calls()))
    }
}

/// The end of a run of a form with `keys` keys; the result is read as a value of the return type.
fn end(
    outcome: SlotOutcome,
    ret: Option<Ty>,
    keys: usize,
    classes: &Classes,
) -> Result<Ended, NoMemory>
    requires { (calls : List LeafCall) × (typed_ran classes.now ret
        (ran_of_outcome outcome calls) ≢ Stuck) }
    ensures { (calls : List LeafCall) → IfOk result (λ ended. IsAnswer
        (typed_ran classes.now ret (ran_of_outcome outcome calls)) keys (answer_in ended calls)) }
{
    let Ok(keys) = u32::try_from(keys) else {
        return Err(NoMemory);
    };
    Ok(Ended {
        outcome: type_outcome(outcome, ret, classes),
        keys,
    })
}

/// An outcome with its result read as a value of the return type.
fn type_outcome(outcome: SlotOutcome, ret: Option<Ty>, classes: &Classes) -> Outcome
    requires { (calls : List LeafCall) × (typed_ran classes.now ret
        (ran_of_outcome outcome calls) ≢ Stuck) }
    ensures { (calls : List LeafCall) → typed_ran classes.now ret
        (ran_of_outcome outcome calls) ≡ ran_of result calls }
{
    match outcome {
        SlotOutcome::Throw(exc) => Outcome::Throw(exc),
        SlotOutcome::Return(slot) => Outcome::Return(type_result(slot, ret, classes)),
    }
}
