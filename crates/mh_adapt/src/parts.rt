ghost use Rattle.std.specs.Prelude.{◌++◌, IfOk};
ghost use Rattle.mh_tree.specs.Rows.{collect_row, filter_row, filterret_row, fold_row};
ghost use Rattle.mh_tree.specs.Tree.{Tree};
ghost use Rattle.mh_tree.specs.Tree as tree;
ghost use Rattle.mh_handle.specs.Grows.{GainsPart};
ghost use Rattle.mh_handle.specs.Obeys.{Obeys};
ghost use Rattle.mh_handle.specs.Recipe.{recipe};
ghost use Rattle.mh_handle.specs.Works.{GoesOn, HoldsTypes, IsReady, Makes, StandsIn, TradesTypes};
ghost use Rattle.mh_handle.specs.Works.{leaves_of, types_in};

use crate::joining::check_and_join;
use mh_handle::{Handle, HandleError, Work};
use mh_tree::Joint;
use std::sync::Wait;

/// Applies `filter` to one argument, and passes its result to `target` in the argument's place
/// (`MethodHandles.filterArguments` with one filter, SE 17). Refused if `filter` does not take one
/// argument and return that parameter's type.
pub fn filter<'t, R: Wait>(
    w: &mut Work<'_, 't>,
    rt: &R,
    target: Handle<'t>,
    position: u8,
    filter: Handle<'t>,
) -> Result<Handle<'t>, HandleError>
    requires ready { IsReady w.old 1 }
    requires held { HoldsTypes w.old (target.held ++ filter.held) }
    ensures goes_on { GoesOn 1 w.old w.new }
    ensures obeys { Obeys (filter_row target.entry.ty target.entry.weight position
        filter.entry.ty filter.entry.weight) result }
    ensures makes { (a b : Tree) → StandsIn w.old target.entry a
        → StandsIn w.old filter.entry b
        → Makes (recipe (leaves_of w.old) (tree.FilterArg a position b)) w.old w.new result }
    ensures types { TradesTypes (types_in (filter_row target.entry.ty target.entry.weight
        position filter.entry.ty filter.entry.weight))
        (target.entry.held ++ filter.entry.held) w.old w.new result }
    ensures gains { IfOk result (GainsPart filter.entry target.entry) }
    ensures stands { (a b : Tree) → StandsIn w.old target.entry a
        → StandsIn w.old filter.entry b
        → IfOk result (λ h. StandsIn w.old h (tree.FilterArg a position b)) }
{
    check_and_join(w, rt, target, Joint::Filter(position), filter)
}

/// Applies `filter` to the result of `target`, and returns what `filter` returns
/// (`MethodHandles.filterReturnValue`, SE 17). Refused if `filter` does not take exactly the result
/// of `target`, or nothing if that is void.
pub fn filterret<'t, R: Wait>(
    w: &mut Work<'_, 't>,
    rt: &R,
    target: Handle<'t>,
    filter: Handle<'t>,
) -> Result<Handle<'t>, HandleError>
    requires ready { IsReady w.old 1 }
    requires held { HoldsTypes w.old (target.held ++ filter.held) }
    ensures goes_on { GoesOn 1 w.old w.new }
    ensures obeys { Obeys (filterret_row target.entry.ty target.entry.weight
        filter.entry.ty filter.entry.weight) result }
    ensures makes { (a b : Tree) → StandsIn w.old target.entry a
        → StandsIn w.old filter.entry b
        → Makes (recipe (leaves_of w.old) (tree.FilterRet a b)) w.old w.new result }
    ensures types { TradesTypes (types_in
        (filterret_row target.entry.ty target.entry.weight filter.entry.ty filter.entry.weight))
        (target.entry.held ++ filter.entry.held) w.old w.new result }
    ensures gains { IfOk result (GainsPart filter.entry target.entry) }
    ensures stands { (a b : Tree) → StandsIn w.old target.entry a
        → StandsIn w.old filter.entry b
        → IfOk result (λ h. StandsIn w.old h (tree.FilterRet a b)) }
{
    check_and_join(w, rt, target, Joint::FilterReturn, filter)
}

/// Runs `combiner` on the arguments from a position on, and then `target` with the combiner's
/// result put in there (`MethodHandles.foldArguments`, SE 17). A void combiner puts in nothing.
/// Refused if `combiner` does not return that parameter's type, or does not take the first
/// parameters that follow.
pub fn fold<'t, R: Wait>(
    w: &mut Work<'_, 't>,
    rt: &R,
    target: Handle<'t>,
    position: u8,
    combiner: Handle<'t>,
) -> Result<Handle<'t>, HandleError>
    requires ready { IsReady w.old 1 }
    requires held { HoldsTypes w.old (target.held ++ combiner.held) }
    ensures goes_on { GoesOn 1 w.old w.new }
    ensures obeys { Obeys (fold_row target.entry.ty target.entry.weight position
        combiner.entry.ty combiner.entry.weight) result }
    ensures makes { (a b : Tree) → StandsIn w.old target.entry a
        → StandsIn w.old combiner.entry b
        → Makes (recipe (leaves_of w.old) (tree.Fold a position b)) w.old w.new result }
    ensures types { TradesTypes (types_in (fold_row target.entry.ty target.entry.weight
        position combiner.entry.ty combiner.entry.weight))
        (target.entry.held ++ combiner.entry.held) w.old w.new result }
    ensures gains { IfOk result (GainsPart combiner.entry target.entry) }
    ensures stands { (a b : Tree) → StandsIn w.old target.entry a
        → StandsIn w.old combiner.entry b
        → IfOk result (λ h. StandsIn w.old h (tree.Fold a position b)) }
{
    check_and_join(w, rt, target, Joint::Fold(position), combiner)
}

/// Runs `filter` on its arguments, which come from a position on, and passes its result to `target`
/// in their place (`MethodHandles.collectArguments`, SE 17). A void filter passes nothing. Refused
/// if `filter` does not return that parameter's type, or if it is void and the position is after
/// the last parameter.
pub fn collect<'t, R: Wait>(
    w: &mut Work<'_, 't>,
    rt: &R,
    target: Handle<'t>,
    position: u8,
    filter: Handle<'t>,
) -> Result<Handle<'t>, HandleError>
    requires ready { IsReady w.old 1 }
    requires held { HoldsTypes w.old (target.held ++ filter.held) }
    ensures goes_on { GoesOn 1 w.old w.new }
    ensures obeys { Obeys (collect_row target.entry.ty target.entry.weight position
        filter.entry.ty filter.entry.weight) result }
    ensures makes { (a b : Tree) → StandsIn w.old target.entry a
        → StandsIn w.old filter.entry b
        → Makes (recipe (leaves_of w.old) (tree.Collect a position b)) w.old w.new result }
    ensures types { TradesTypes (types_in (collect_row target.entry.ty target.entry.weight
        position filter.entry.ty filter.entry.weight))
        (target.entry.held ++ filter.entry.held) w.old w.new result }
    ensures gains { IfOk result (GainsPart filter.entry target.entry) }
    ensures stands { (a b : Tree) → StandsIn w.old target.entry a
        → StandsIn w.old filter.entry b
        → IfOk result (λ h. StandsIn w.old h (tree.Collect a position b)) }
{
    check_and_join(w, rt, target, Joint::Collect(position), filter)
}
