ghost use Rattle.std.specs.Prelude.{◌≡◌, ◌<◌, length, IsTrue};
ghost use Rattle.mh_values.specs.HasType.{HaveTypes};
ghost use Rattle.mh_jobs.specs.Jobs.{params_at};
ghost use Rattle.mh_plan.specs.Calls.{IsCallOf};

use mh_base::Seq;
use mh_jobs::Jobs;
use mh_leaves::Leaves;
use mh_values::{Items, LeafId, MethodTy, Ty, are_typed};

/// A call that a thread makes.
#[derive(Debug, Drop)]
pub enum Call {
    /// A call of a leaf as `MethodHandle.invokeExact` makes it: with the type of the call, and with
    /// arguments of that type's parameters.
    Exact(LeafId, MethodTy, Items),
    /// A call of a leaf as `MethodHandle.invoke` makes it: the leaf is converted to the type of the
    /// call, and the arguments are of that type's parameters.
    Generic(LeafId, MethodTy, Items),
    /// A call of a call site, as `invokedynamic` makes it: the site's number, and arguments of the
    /// parameters of the site's type. If that type cannot be read, there are no arguments.
    Indy(u32, Items),
}

/// The types of the arguments that a call of a site takes.
pub(crate) fn params_at(jobs: &Jobs, site: u32) -> &[Ty]
    requires { site < length jobs.now }
    ensures { result.now ≡ params_at jobs.now site }
{
    match jobs.get(site).ty() {
        Some(ty) => ty.params.as_slice(),
        None => &[],
    }
}

// Whether a leaf is there, and arguments have the types of a call's type.
fn is_leaf_call(leaves: &Leaves, leaf: LeafId, ty: &MethodTy, args: &Items) -> bool
    ensures yes { IsTrue result → (leaf.0 < length leaves.now.leaves)
        × HaveTypes leaves.now.classes args.now ty.now.params }
    ensures no { (leaf.0 < length leaves.now.leaves)
        × HaveTypes leaves.now.classes args.now ty.now.params → IsTrue result }
{
    leaf.0 < leaves.count() && are_typed(args.as_slice(), ty.params.as_slice(), leaves.classes())
}

// Whether a site is there, and arguments have the types of its parameters.
fn is_site_call(leaves: &Leaves, jobs: &Jobs, site: u32, args: &Items) -> bool
    ensures yes { IsTrue result → (site < length jobs.now)
        × HaveTypes leaves.now.classes args.now (params_at jobs.now site) }
    ensures no { (site < length jobs.now)
        × HaveTypes leaves.now.classes args.now (params_at jobs.now site) → IsTrue result }
{
    (site as usize) < jobs.len()
        && are_typed(args.as_slice(), params_at(jobs, site), leaves.classes())
}

impl Call {
    /// Whether the call can be made: its leaf or its site exists, and its arguments have the
    /// parameter types of its type, or of the site's. A site whose type cannot be read takes no
    /// arguments. Ask this if the call does not come from a plan's reader.
    pub fn can_be_made(&self, leaves: &Leaves, jobs: &Jobs) -> bool
        ensures yes { IsTrue result → IsCallOf leaves.now jobs.now self.now }
        ensures no { IsCallOf leaves.now jobs.now self.now → IsTrue result }
    {
        match self {
            Call::Exact(leaf, ty, args) | Call::Generic(leaf, ty, args) => {
                is_leaf_call(leaves, *leaf, ty, args)
            }
            Call::Indy(site, args) => is_site_call(leaves, jobs, *site, args),
        }
    }
}

/// The calls of one thread, in order.
pub type ThreadCalls = Seq<Call>;

/// The calls of each thread. Threads are numbered from 0.
pub type Plan = Seq<ThreadCalls>;
