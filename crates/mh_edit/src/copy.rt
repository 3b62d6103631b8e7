ghost use Rattle.std.specs.Prelude.{◌≡◌, IfOk};

use crate::{Entries, Key, RetEntry};
use mh_base::{Copied, NoMemory, Seq};
use std::alloc::Global;

impl Copied for RetEntry {
    fn copy(&self, _alloc: Global) -> Result<RetEntry, NoMemory> {
        Ok(*self)
    }
}

impl Copied for Key {
    fn copy(&self, alloc: Global) -> Result<Key, NoMemory> {
        Ok(match self {
            Key::LeafRoot { shape } => Key::LeafRoot {
                shape: shape.copy(alloc)?,
            },
            &Key::ConstRoot { basic } => Key::ConstRoot { basic },
            &Key::IdentityRoot { basic } => Key::IdentityRoot { basic },
            &Key::ThrowRoot { ret } => Key::ThrowRoot { ret },
            Key::GuardRoot { shape, test } => Key::GuardRoot {
                shape: shape.copy(alloc)?,
                test: *test,
            },
            Key::CatchRoot { shape, handler } => Key::CatchRoot {
                shape: shape.copy(alloc)?,
                handler: *handler,
            },
            Key::TryRoot { shape, cleanup } => Key::TryRoot {
                shape: shape.copy(alloc)?,
                cleanup: *cleanup,
            },
            Key::SwitchRoot { shape, count } => Key::SwitchRoot {
                shape: shape.copy(alloc)?,
                count: *count,
            },
            Key::LoopRoot {
                shape,
                iterations,
                init,
                body,
            } => Key::LoopRoot {
                shape: shape.copy(alloc)?,
                iterations: *iterations,
                init: *init,
                body: *body,
            },
            Key::ConcatRoot { shape } => Key::ConcatRoot {
                shape: shape.copy(alloc)?,
            },
            &Key::Bind { pos } => Key::Bind { pos },
            Key::Add { pos, basics } => Key::Add {
                pos: *pos,
                basics: basics.copy()?,
            },
            Key::Permute { basics, reorder } => Key::Permute {
                basics: basics.copy()?,
                reorder: reorder.copy()?,
            },
            Key::Collect { pos, basics, ret } => Key::Collect {
                pos: *pos,
                basics: basics.copy()?,
                ret: *ret,
            },
            &Key::Fold { pos, count, ret } => Key::Fold { pos, count, ret },
            &Key::FilterReturn { ret } => Key::FilterReturn { ret },
            Key::Convert { params, ret } => Key::Convert {
                params: copy_entries(alloc, params)?,
                ret: *ret,
            },
            &Key::Spread { count, basic } => Key::Spread { count, basic },
            &Key::Gather { count, basic } => Key::Gather { count, basic },
        })
    }
}

fn copy_entries(alloc: Global, entries: &Entries) -> Result<Entries, NoMemory>
    ensures { IfOk result (λ copy. copy ≡ entries.now) }
{
    let mut copies = Seq::new(alloc);
    for entry in entries.as_slice() {
        copies.push(*entry)?;
    }
    Ok(copies)
}
