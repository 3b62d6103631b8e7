//! Several handles as the parts of one.

ghost use Rattle.std.specs.Prelude.{◌≡◌, ◌++◌, ◌∷◌, [], IfOk};
ghost use Rattle.mh_intern.specs.Exchanges.{Exchanges};
ghost use Rattle.mh_branch.specs.Growths.{TradesParts};
ghost use Rattle.mh_handle.specs.Works.{GoesOn, HoldsTypes, IsAccepted, IsReady, IsUnchanged};
ghost use Rattle.mh_handle.specs.Works.{Makes, TradesTypes};
ghost use Rattle.mh_more.specs.Roots.{CanRoot, RootsParts};
ghost use Rattle.mh_more.specs.Several.{AddsAll, holds_of};

use mh_base::{NoMemory, Seq};
use mh_branch::with_part;
use mh_edit::Key;
use mh_handle::{Growth, Handle, HandleError, Parts, Work};
use mh_values::MethodTy;
use std::alloc::AllocFailed;
use std::sync::Wait;

/// A list of handles.
pub type Handles<'t> = Seq<Handle<'t>>;

/// The type, the weight and the key of a handle whose form a root makes.
#[derive(Drop)]
pub(crate) struct Root {
    pub(crate) ty: MethodTy,
    pub(crate) weight: u32,
    pub(crate) key: Key,
}

/// Gives up handles and releases the types that they hold. It takes no memory.
pub(crate) fn give_back_all<'t>(w: &mut Work<'_, 't>, mut handles: Vec<Handle<'t>>)
    requires of_types { w.old.seat.now.table ≡ w.old.types.now }
    requires held { HoldsTypes w.old (holds_of handles.items) }
    ensures unchanged { IsUnchanged w.old w.new }
    ensures types { Exchanges [] (holds_of handles.entry.items) [] w.old.seat.now w.new.seat.now }
{
    while let Some(last) = handles.pop() {
        last.give_back(w);
    }
}

/// A handle before others. If memory runs out, all are given back.
pub fn with_first<'t>(
    w: &mut Work<'_, 't>,
    first: Handle<'t>,
    others: Handles<'t>,
) -> Result<Handles<'t>, NoMemory>
    requires of_types { w.old.seat.now.table ≡ w.old.types.now }
    requires held { HoldsTypes w.old (first.held ++ holds_of others) }
    ensures unchanged { IsUnchanged w.old w.new }
    ensures listed { IfOk result (λ all. all ≡ first.entry ∷ others.entry) }
    ensures types { TradesParts (first.entry.held ++ holds_of others.entry) w.old w.new result }
{
    let mut all = others.into_vec();
    match all.insert(0, first) {
        Ok(()) => Ok(Seq::from_vec(all)),
        Err(AllocFailed { value }) => {
            value.give_back(w);
            give_back_all(w, all);
            Err(NoMemory)
        }
    }
}

/// A list of two handles. If memory runs out, both are given back.
pub(crate) fn pair<'t>(
    w: &mut Work<'_, 't>,
    first: Handle<'t>,
    second: Handle<'t>,
) -> Result<Handles<'t>, NoMemory>
    requires of_types { w.old.seat.now.table ≡ w.old.types.now }
    requires held { HoldsTypes w.old (first.held ++ second.held) }
    ensures unchanged { IsUnchanged w.old w.new }
    ensures listed { IfOk result (λ all. all ≡ first.entry ∷ second.entry ∷ []) }
    ensures types { TradesParts (first.entry.held ++ second.entry.held) w.old w.new result }
{
    let none = Seq::new(w.alloc);
    match with_first(w, second, none) {
        Ok(others) => with_first(w, first, others),
        Err(NoMemory) => {
            first.give_back(w);
            Err(NoMemory)
        }
    }
}

/// A list of three handles. If memory runs out, all are given back.
pub(crate) fn three<'t>(
    w: &mut Work<'_, 't>,
    first: Handle<'t>,
    second: Handle<'t>,
    third: Handle<'t>,
) -> Result<Handles<'t>, NoMemory>
    requires of_types { w.old.seat.now.table ≡ w.old.types.now }
    requires held { HoldsTypes w.old (first.held ++ second.held ++ third.held) }
    ensures unchanged { IsUnchanged w.old w.new }
    ensures listed { IfOk result
        (λ all. all ≡ first.entry ∷ second.entry ∷ third.entry ∷ []) }
    ensures types { TradesParts (first.entry.held ++ second.entry.held ++ third.entry.held)
        w.old w.new result }
{
    match pair(w, second, third) {
        Ok(others) => with_first(w, first, others),
        Err(NoMemory) => {
            first.give_back(w);
            Err(NoMemory)
        }
    }
}

/// Adds a part for each handle. If memory runs out, all are given back.
fn with_all<'t>(
    w: &mut Work<'_, 't>,
    parts: Parts<'t>,
    handles: Vec<Handle<'t>>,
) -> Result<Parts<'t>, NoMemory>
    requires of_types { w.old.seat.now.table ≡ w.old.types.now }
    requires held { HoldsTypes w.old (parts.held ++ holds_of handles.items) }
    ensures unchanged { IsUnchanged w.old w.new }
    ensures adds { IfOk result (AddsAll handles.entry.items parts.entry) }
    ensures types { TradesParts (parts.entry.held ++ holds_of handles.entry.items)
        w.old w.new result }
{
    let mut front = handles;
    match front.pop() {
        None => Ok(parts),
        Some(last) => match with_all(w, parts, front) {
            Ok(parts) => with_part(w, parts, last),
            Err(NoMemory) => {
                last.give_back(w);
                Err(NoMemory)
            }
        },
    }
}

/// A handle whose form a root makes, with these handles as its parts. If none is made, they are
/// given back.
pub(crate) fn make_rooted_of<'t, R: Wait>(
    w: &mut Work<'_, 't>,
    rt: &R,
    handles: Handles<'t>,
    root: Root,
) -> Result<Handle<'t>, HandleError>
    requires can { CanRoot handles root }
    requires ready { IsReady w.old 1 }
    requires held { HoldsTypes w.old (holds_of handles) }
    ensures goes_on { GoesOn 1 w.old w.new }
    ensures makes { Makes (root.key ∷ []) w.old w.new result }
    ensures accepted { IsAccepted result }
    ensures roots { IfOk result (RootsParts root handles.entry) }
    ensures types { TradesTypes (root.ty ∷ []) (holds_of handles.entry) w.old w.new result }
{
    let none = Parts::new(w.alloc);
    let parts = with_all(w, none, handles.into_vec())?;
    let Root { ty, weight, key } = root;
    let by = Growth {
        ty,
        weight,
        key,
        parts,
    };
    Handle::make_rooted(w, rt, by)
}
