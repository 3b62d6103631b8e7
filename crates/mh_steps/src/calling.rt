ghost use Rattle.std.specs.Prelude.{◌≡◌, IfOk};
ghost use Rattle.mh_values.specs.HasType.{HaveTypes};
ghost use Rattle.mh_tree.specs.Meaning.{exact};
ghost use Rattle.mh_tree.specs.Tree.{Tree};
ghost use Rattle.mh_handle.specs.Answers.{IsAnswer};
ghost use Rattle.mh_handle.specs.Stands.{Stands, StandsForSome};
ghost use Rattle.mh_astype.specs.Calls.{exact_keys};

use mh_astype::{invoke_exact_on, invoke_exact_with};
use mh_base::NoMemory;
use mh_form::Machine;
use mh_handle::{Answer, Handle};
use mh_leaves::Leaves;
use mh_values::Items;
use std::alloc::Global;

/// Calls a handle by its own type, as the first of its invocation, twice in one machine; the second
/// call answers.
pub fn call_typed<'t>(
    alloc: Global,
    handle: &Handle<'t>,
    leaves: &Leaves,
    args: &Items,
) -> Result<Answer, NoMemory>
    requires typed { HaveTypes leaves.now.classes args.now handle.now.ty.params }
    requires stands { StandsForSome leaves.now handle.now }
    ensures { (t : Tree) → Stands leaves.now handle.now t → IfOk result
        (IsAnswer (exact leaves.now t handle.now.ty args.now 0)
        (exact_keys leaves.now t handle.now.ty)) }
{
    let mut machine = Machine::new(alloc);
    let _first = invoke_exact_on(&mut machine, handle, leaves, handle.ty(), args, 0)?;
    invoke_exact_with(&mut machine, handle, leaves, handle.ty(), args, 0)
}
