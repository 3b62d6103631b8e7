ghost use Rattle.mh_runtime.specs.Bases.{Base, no_base};

use std::marker::Brand;

/// Names the pass that lanes are split off, in contracts. Whoever has that pass at hand picks it,
/// by calling at [`Brand`].
pub(crate) trait Based {
    ghost base: { Base };
}

impl Based for Brand {
    ghost base = { no_base };
}
