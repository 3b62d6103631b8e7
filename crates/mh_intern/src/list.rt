// The list of a bucket: types that have a slot, some of which nobody holds.
ghost use Rattle.std.specs.Prelude.{◌≡◌, ◌<◌, ◌==◌, vec_len, vec_capacity, IfOk};
ghost use Rattle.std.specs.List.{position};
ghost use Rattle.mh_values.specs.Same.{is_same_method_type};
ghost use Rattle.mh_intern.specs.Lists.{Places, FindsEntry};

use crate::holding::Entry;
use mh_base::NoMemory;
use mh_values::{MethodTy, is_same_method_type};

fn place_of_type(entries: &[Entry], ty: &MethodTy) -> Option<usize>
    ensures { result ≡ position (λ e. is_same_method_type e.ty ty.now) entries.now }
{
    entries
        .iter()
        .position(|entry| is_same_method_type(entry.ty.get(), ty))
}

fn place_of_slot(entries: &[Entry], slot: u32) -> Option<usize>
    ensures { result ≡ position (λ e. e.slot == slot) entries.now }
{
    entries.iter().position(|entry| entry.slot == slot)
}

/// The entry of a type. It takes no memory, and fails only if 2^63 owners are counted.
pub(crate) fn entry_of(entries: &[Entry], ty: &MethodTy) -> Result<Option<Entry>, NoMemory>
    ensures { IfOk result (FindsEntry ty.now entries.now) }
{
    match place_of_type(entries, ty) {
        Some(at) => Ok(Some(entries[at].share()?)),
        None => Ok(None),
    }
}

/// Puts an entry into the list, in place of the one of its slot, if there is one.
pub(crate) fn put(entries: &mut Vec<Entry>, entry: Entry)
    requires { vec_len entries.old < vec_capacity entries.old }
    ensures { Places entry entries.old.items entries.new.items }
{
    match place_of_slot(entries, entry.slot) {
        Some(at) => entries[at] = entry,
        None => entries.push_reserved(entry),
    }
}
