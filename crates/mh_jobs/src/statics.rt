ghost use Rattle.std.specs.Prelude.{◌≡◌, ◌<◌, length, slice_get, Some};
ghost use Rattle.mh_jobs.specs.Job.{constants_at};

use mh_classfile::{ClassView, Constant};

/// The number of static arguments of a bootstrap method.
pub(crate) fn count(view: &ClassView<'_>, bootstrap: u16) -> u16
    requires { bootstrap < length view.now.bootstraps }
    ensures { result ≡ length (constants_at view.now bootstrap) }
{
    view.arguments(bootstrap)
}

/// A static argument of a bootstrap method.
pub(crate) fn constant<'b>(view: &ClassView<'b>, bootstrap: u16, k: u16) -> Constant<'b>
    requires bootstrap { bootstrap < length view.now.bootstraps }
    requires argument { k < length (constants_at view.now bootstrap) }
    ensures { slice_get (constants_at view.now bootstrap) k ≡ Some result }
{
    view.argument(bootstrap, k)
}
