ghost use Rattle.std.specs.Prelude.{◌≡◌, ◌<◌, ◌≤◌, ◌+◌, ◌*◌, ◌%◌};
ghost use Rattle.mh_handle.specs.Chains.{chain_count, kind_of};

use mh_edit::Key;

/// How many chains a table of forms has.
pub(crate) const CHAINS: u32 = 64;

/// How many cells a chain has.
pub(crate) const CHAIN_ROOM: u32 = 16384;

/// How many cells a chain makes at once.
pub(crate) const ROW_LEN: usize = 128;

/// The number of a key's kind, from 1 on.
fn kind(key: &Key) -> u32
    ensures kind { result ≡ kind_of key.now }
    ensures small { result ≤ 19 }
{
    match key {
        Key::LeafRoot { .. } => 1,
        Key::ConstRoot { .. } => 2,
        Key::IdentityRoot { .. } => 3,
        Key::ThrowRoot { .. } => 4,
        Key::GuardRoot { .. } => 5,
        Key::CatchRoot { .. } => 6,
        Key::ConcatRoot { .. } => 16,
        Key::TryRoot { .. } => 17,
        Key::SwitchRoot { .. } => 18,
        Key::LoopRoot { .. } => 19,
        Key::Bind { .. } => 7,
        Key::Add { .. } => 8,
        Key::Permute { .. } => 9,
        Key::Collect { .. } => 10,
        Key::Fold { .. } => 11,
        Key::FilterReturn { .. } => 12,
        Key::Convert { .. } => 13,
        Key::Spread { .. } => 14,
        Key::Gather { .. } => 15,
    }
}

/// The chain of a recipe with one more key, given the chain of the recipe.
pub(crate) fn chain_then(chain: u32, key: &Key) -> u32
    requires { chain < chain_count }
    ensures chain { result ≡ (31 * chain + kind_of key.now) % chain_count }
    ensures small { result < chain_count }
{
    (31 * chain + kind(key)) % CHAINS
}
