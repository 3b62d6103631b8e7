ghost use Rattle.std.specs.Prelude.{◌<◌, ◌∷◌, [], length, IfOk, OnOk};
ghost use Rattle.mh_values.specs.HasType.{HaveTypes};
ghost use Rattle.mh_tree.specs.Meaning.{exact, generic};
ghost use Rattle.mh_tree.specs.Tree as tree;
ghost use Rattle.mh_handle.specs.Answers.{IsAnswer};
ghost use Rattle.mh_handle.specs.Recipe.{recipe};
ghost use Rattle.mh_handle.specs.Works.{GoesOn, IsReady, StandsIn, classes_of, leaves_of};
ghost use Rattle.mh_astype.specs.Calls.{exact_keys, generic_keys};
ghost use Rattle.mh_attempt.specs.Asked.{Asks};
ghost use Rattle.mh_attempt.specs.AskedTypes.{AsksTypes};
ghost use Rattle.mh_attempt.specs.Several.{AddsTypes};
ghost use Rattle.mh_jobs.specs.Jobs.{params_at};
ghost use Rattle.mh_link.specs.Made.{types_of};
ghost use Rattle.mh_plan.specs.declared.call.Call.TheVariants.{Indy};
ghost use Rattle.mh_plan.specs.Calls.{IsCallOf};
ghost use Rattle.mh_report.specs.Forms.{used_edits};
ghost use Rattle.mh_runtime.specs.Asking.{call_draws};
ghost use Rattle.mh_runtime.specs.Attempts.{HasRoomForConstants};
ghost use Rattle.mh_runtime.specs.Linkers.{IsReadyFor, MakesCall, pass_in};
ghost use Rattle.mh_runtime.specs.Linking.{KeepsTypes};

use crate::context::Context;
use crate::site_pass::SitePass;
use mh_astype::{invoke_exact_with, invoke_generic_with};
use mh_attempt::WorkError;
use mh_form::Machine;
use mh_handle::{Answer, Handle, HandleError, Work, leaf};
use mh_jobs::Run;
use mh_outside::Gate;
use mh_plan::Call;
use mh_values::{Items, LeafId, MethodTy};
use std::sync::Wait;

// The handle of a leaf.
fn leaf_handle<'t, R: Wait>(
    w: &mut Work<'_, 't>,
    rt: &R,
    id: LeafId,
) -> Result<Handle<'t>, WorkError>
    requires leaf { id.0 < length (leaves_of w.old).leaves }
    requires ready { IsReady w.old 1 }
    ensures goes_on { GoesOn 1 w.old w.new }
    ensures types { AddsTypes w.old w.new result }
    ensures stands { IfOk result (λ h. StandsIn w.old h (tree.Leaf id)) }
    ensures asks { Asks (recipe (leaves_of w.old) (tree.Leaf id) ∷ []) w.old w.new result }
    ensures asked { AsksTypes (types_of (leaves_of w.old) (tree.Leaf id ∷ [])) w.old w.new result }
{
    match leaf(w, rt, id) {
        Ok(handle) => Ok(handle),
        Err(HandleError::NoMemory) => Err(WorkError::NoMemory),
        Err(HandleError::FormsFull { drawn }) => Err(WorkError::FormsFull { drawn }),
        Err(HandleError::TypesFull { bucket }) => Err(WorkError::TypesFull { bucket }),
        Err(HandleError::Refused(_)) => unreachable!(),
    }
}

// An exact call of a leaf.
fn call_exact<'t, R: Wait>(
    machine: &mut Machine,
    w: &mut Work<'_, 't>,
    rt: &R,
    id: LeafId,
    ty: &MethodTy,
    args: &Items,
) -> Result<Answer, WorkError>
    requires leaf { id.0 < length (leaves_of w.old).leaves }
    requires typed { HaveTypes (classes_of w.old) args.now ty.now.params }
    requires ready { IsReady w.old 1 }
    ensures goes_on { GoesOn 1 w.old w.new }
    ensures types { KeepsTypes w.old w.new }
    ensures answer { IfOk result
        (IsAnswer (exact (leaves_of w.old) (tree.Leaf id) ty.now args.now 0)
        (exact_keys (leaves_of w.old) (tree.Leaf id) ty.now)) }
    ensures asks { Asks (recipe (leaves_of w.old) (tree.Leaf id) ∷ []) w.old w.new result }
    ensures asked { AsksTypes (types_of (leaves_of w.old) (tree.Leaf id ∷ [])) w.old w.new result }
{
    let handle = leaf_handle(w, rt, id)?;
    let answer = invoke_exact_with(machine, &handle, w.leaves, ty, args, 0);
    handle.give_back(w);
    Ok(answer?)
}

// A generic call of a leaf.
fn call_generic<'t, R: Wait>(
    machine: &mut Machine,
    w: &mut Work<'_, 't>,
    rt: &R,
    id: LeafId,
    ty: &MethodTy,
    args: &Items,
) -> Result<Answer, WorkError>
    requires leaf { id.0 < length (leaves_of w.old).leaves }
    requires typed { HaveTypes (classes_of w.old) args.now ty.now.params }
    requires ready { IsReady w.old 2 }
    ensures goes_on { GoesOn 2 w.old w.new }
    ensures types { KeepsTypes w.old w.new }
    ensures answer { IfOk result
        (IsAnswer (generic (leaves_of w.old) (tree.Leaf id) ty.now args.now 0)
        (generic_keys (leaves_of w.old) (tree.Leaf id) ty.now)) }
    ensures asks { Asks (recipe (leaves_of w.old) (tree.Leaf id)
        ∷ used_edits (leaves_of w.old) (tree.Leaf id) ty.now) w.old w.new result }
    ensures asked { AsksTypes (types_of (leaves_of w.old) (tree.Leaf id ∷ [])) w.old w.new result }
{
    let handle = leaf_handle(w, rt, id)?;
    let answer = invoke_generic_with(machine, w, rt, &handle, ty, args, 0);
    handle.give_back(w);
    Ok(answer?)
}

impl<'s, 'g, 't, J: Run, G: Gate> Context<'s, 'g, 't, J, G> {
    // Calls a site: its target is called, or the recorded error is thrown.
    fn call_site<R: Wait>(
        &self,
        machine: &mut Machine,
        w: &mut Work<'_, 't>,
        rt: &R,
        pass: &mut SitePass<'s, 't, J>,
        site: u32,
        args: &Items,
    ) -> Result<Answer, WorkError>
        requires site { site < length J.given.jobs }
        requires typed { HaveTypes J.given.leaves.classes args.now (params_at J.given.jobs site) }
        requires ready { IsReadyFor J.given self.now.linker.now 1 pass.old w.old }
        ensures goes_on { GoesOn call_draws w.old w.new }
        ensures makes { MakesCall {J = J} J.given (Indy site args.now) (pass_in pass.old w.old)
            (pass_in pass.new w.new) result }
        ensures room_left { OnOk result (HasRoomForConstants pass.new) }
    {
        let linkage = self.linker.resolve(w, rt, pass, self.gate, site)?;
        let _job = linkage.job();
        linkage.told();
        Ok(linkage.call_with(machine, w.leaves, args)?)
    }

    /// Makes a call of a thread, in the machine that its calls have in common. A leaf is called by
    /// a handle of it, as the first call of its invocation. A call site is called by its linkage,
    /// and is attempted now if the pass has learnt none. Each handle that is made is given back,
    /// except a recorded target, also if memory, form numbers or type slots run out.
    pub(crate) fn call<R: Wait>(
        &self,
        machine: &mut Machine,
        w: &mut Work<'_, 't>,
        rt: &R,
        pass: &mut SitePass<'s, 't, J>,
        call: &Call,
    ) -> Result<Answer, WorkError>
        requires call { IsCallOf J.given.leaves J.given.jobs call.now }
        requires ready { IsReadyFor J.given self.now.linker.now 1 pass.old w.old }
        ensures goes_on { GoesOn call_draws w.old w.new }
        ensures makes { MakesCall {J = J} J.given call.now (pass_in pass.old w.old)
            (pass_in pass.new w.new) result }
        ensures room_left { OnOk result (HasRoomForConstants pass.new) }
    {
        pass.constants_told();
        match call {
            Call::Exact(id, ty, args) => call_exact(machine, w, rt, *id, ty, args),
            Call::Generic(id, ty, args) => call_generic(machine, w, rt, *id, ty, args),
            Call::Indy(site, args) => self.call_site(machine, w, rt, pass, *site, args),
        }
    }
}
