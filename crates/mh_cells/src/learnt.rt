ghost use Rattle.std.specs.Prelude.{◌≡◌, IfSome, IfNone};
ghost use Rattle.once_cell.specs.Once.{cell_name};

use once_cell::race::{Note, OnceBox};
use std::marker::Model;

/// A value with the note of its cell, which holds it for good. Contracts see the value and the name
/// of the cell.
#[derive(Drop)]
pub(crate) struct Learnt<'t, V> {
    node: &'t V,
    note: Note<V>,
}

impl<'t, V> Model for Learnt<'t, V> {
    ghost use Rattle.std.specs.Prelude.{◌≡◌, Some};
    ghost use Rattle.mh_setonce.specs.Learnings.{LearntView, learnt_coded};

    ghost Value = { LearntView V };

    ghost coded = { learnt_coded V.code };

    ghost view = { λ l. record { node = l.node.now; cell = l.note.cell } };

    ghost invariant = { λ l. l.note.known ≡ Some l.node.now };
}

impl<'t, V> Learnt<'t, V> {
    /// What the cell shows now, if anything.
    pub(crate) fn look(cell: &'t OnceBox<V>) -> Option<Learnt<'t, V>>
        ensures { IfSome result (λ one. one.cell ≡ cell_name cell.entry.now) }
    {
        let mut note = cell.note();
        let node = cell.get_as(&mut note)?;
        Some(Learnt { node, note })
    }

    /// The value.
    pub(crate) fn node(&self) -> &'t V
        ensures { result.now ≡ self.now.node }
    {
        self.node
    }

    /// A copy. It takes no memory.
    pub(crate) fn again(&mut self) -> Learnt<'t, V>
        ensures same { self.new ≡ self.old }
        ensures copy { result ≡ self.old }
    {
        Learnt {
            node: self.node,
            note: self.note.again(),
        }
    }

    /// A cell holds one value.
    pub(crate) fn agrees(&mut self, other: Learnt<V>)
        requires { other.cell ≡ self.old.cell }
        ensures same { self.new ≡ self.old }
        ensures one { other.entry ≡ self.old }
    {
        let Learnt { node: _, note } = other;
        self.note.compare(note);
    }
}

impl<'t, V: Drop> Learnt<'t, V> {
    /// What the cell shows from now on, and the value if the cell had another one.
    pub(crate) fn put(cell: &'t OnceBox<V>, value: Box<V>) -> (Learnt<'t, V>, Option<Box<V>>)
        ensures noted { result.0.cell ≡ cell_name cell.entry.now }
        ensures mine { IfNone result.1 (result.0.node ≡ value.value) }
        ensures back { IfSome result.1 (λ back. back.value ≡ value.value) }
    {
        let mut note = cell.note();
        let back = match cell.set_as(value, &mut note) {
            Ok(()) => None,
            Err(back) => Some(back),
        };
        match cell.get_as(&mut note) {
            Some(node) => (Learnt { node, note }, back),
            None => unreachable!(),
        }
    }
}
