ghost use Rattle.std.specs.Prelude.{[]};
ghost use Rattle.mh_jobs.specs.Given.{Given, nothing_known};

use std::marker::Brand;

/// Names what a run is given, in contracts. What a run links has a parameter of this trait, so that
/// its type names its run. Whoever has the jobs, the scripts and the leaves picks it by calling at
/// [`Brand`].
pub trait Run {
    ghost given: { Given };
}

impl Run for Brand {
    ghost given = { record {
      leaves = record { classes = []; leaves = [] };
      scripts = [];
      jobs = [];
      constants = [];
      values = nothing_known;
    } };
}
