ghost use Rattle.std.specs.Prelude.{◌≡◌, IfSome, IfNone};
ghost use Rattle.once_cell.specs.Once.{cell_name};

use crate::mark::Mark;
use once_cell::race::OnceBox;
use std::marker::Model;

/// A value, with what shows that its cell holds it for good. Contracts see the value and the name
/// of the cell.
#[derive(Drop)]
pub(crate) struct Learnt<'t, V> {
    node: &'t V,
    mark: Mark<V>,
}

impl<'t, V> Model for Learnt<'t, V> {
    ghost use Rattle.std.specs.Prelude.{◌≡◌};
    ghost use Rattle.mh_setonce.specs.Learnings.{LearntView, learnt_coded};

    ghost Value = { LearntView V };

    ghost coded = { learnt_coded V.code };

    ghost view = { λ l. record { node = l.node.now; cell = l.mark.cell } };

    ghost invariant = { λ l. l.mark.value ≡ l.node.now };
}

impl<'t, V> Learnt<'t, V> {
    /// What the cell shows now, if anything.
    pub(crate) fn look(cell: &'t OnceBox<V>) -> Option<Learnt<'t, V>>
        ensures { IfSome result (λ one. one.cell ≡ cell_name cell.entry.now) }
    {
        let mut note = cell.note();
        let node = cell.get_as(&mut note)?;
        Some(Learnt {
            node,
            mark: Mark::of(&mut note),
        })
    }

    /// The value.
    pub(crate) fn node(&self) -> &'t V
        ensures { result.now ≡ self.now.node }
    {
        self.node
    }

    /// A copy. It takes no memory.
    pub(crate) fn copy(&self) -> Learnt<'t, V>
        ensures { result ≡ self.now }
    {
        Learnt {
            node: self.node,
            mark: self.mark.copy(),
        }
    }

    /// A cell holds one value.
    pub(crate) fn agrees(&self, other: &Learnt<V>)
        requires { self.now.cell ≡ other.now.cell }
        ensures { self.now ≡ other.now }
    {
        self.mark.agrees(&other.mark);
    }
}

impl<'t, V: Drop> Learnt<'t, V> {
    /// What the cell shows from now on, and the value if the cell had another one.
    pub(crate) fn put(cell: &'t OnceBox<V>, value: Box<V>) -> (Learnt<'t, V>, Option<Box<V>>)
        ensures noted { result.0.cell ≡ cell_name cell.entry.now }
        ensures mine { IfNone result.1 (result.0.node ≡ value.value) }
        ensures back { IfSome result.1 (λ back. back.value ≡ value.value) }
    {
        let mut note = cell.note();
        let back = match cell.set_as(value, &mut note) {
            Ok(()) => None,
            Err(back) => Some(back),
        };
        match cell.get_as(&mut note) {
            Some(node) => {
                let mark = Mark::of(&mut note);
                (Learnt { node, mark }, back)
            }
            None => unreachable!(),
        }
    }
}
