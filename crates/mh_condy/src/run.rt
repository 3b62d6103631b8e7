ghost use Rattle.std.specs.Prelude.{[]};
ghost use Rattle.mh_link.specs.Named.{Constants};

use std::marker::Brand;

/// Names the constants of a run, in contracts. What is recorded of constants has a parameter of
/// this trait, so that its type names its run. Whoever has the jobs, the scripts and the leaves
/// picks it by calling at [`Brand`].
pub trait ConstRun {
    ghost run: { Constants };
}

impl ConstRun for Brand {
    ghost run = { record { leaves = record { classes = []; leaves = [] }; scripts = []; jobs = [] } };
}
