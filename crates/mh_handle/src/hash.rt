ghost use Rattle.std.specs.Prelude.{◌≡◌, ◌<◌, ℕ};
ghost use Rattle.mh_handle.specs.Hashes.{hash_limit, mixed, all_mixed, shape_mixed, basic_number, entry_number, ret_number, ret_entry_number, key_hash};

use mh_edit::{Key, RetEntry};
use mh_form::{Basic, BasicRet, Shape};

/// Hashes are below this prime number.
const HASH_LIMIT: u32 = 16777213;

/// What goes into the hash of a recipe.
pub(crate) trait Hashed {
    ghost part: { Self → ℕ };

    /// What it contributes to a hash.
    fn hash(&self) -> u32
        ensures part { result ≡ part self.now }
        ensures small { result < hash_limit };
}

impl Hashed for u8 {
    ghost part = { λ n. n };

    fn hash(&self) -> u32 {
        *self as u32
    }
}

impl Hashed for Basic {
    ghost part = { basic_number };

    fn hash(&self) -> u32 {
        match self {
            Basic::L => 1,
            Basic::I => 2,
            Basic::J => 3,
        }
    }
}

impl Hashed for Option<Basic> {
    ghost part = { entry_number };

    fn hash(&self) -> u32 {
        match self {
            None => 0,
            Some(basic) => basic.hash(),
        }
    }
}

impl Hashed for BasicRet {
    ghost part = { ret_number };

    fn hash(&self) -> u32 {
        match self {
            BasicRet::V => 0,
            BasicRet::Is(basic) => basic.hash(),
        }
    }
}

impl Hashed for RetEntry {
    ghost part = { ret_entry_number };

    fn hash(&self) -> u32 {
        match self {
            RetEntry::Keep => 4,
            RetEntry::New(ret) => ret.hash(),
        }
    }
}

/// A hash with one more part.
pub(crate) fn mix(hash: u32, part: u32) -> u32
    requires hash { hash < hash_limit }
    requires part { part < hash_limit }
    ensures mixed { result ≡ mixed hash part }
    ensures small { result < hash_limit }
{
    (31 * hash + part) % HASH_LIMIT
}

/// A hash with the parts of a list.
fn mix_all<T: Hashed>(hash: u32, items: &[T]) -> u32
    requires { hash < hash_limit }
    ensures mixed { result ≡ all_mixed T.part hash items.now }
    ensures small { result < hash_limit }
{
    let mut all = hash;
    for item in items {
        all = mix(all, item.hash());
    }
    all
}

/// A hash with the parts of a shape.
fn mix_shape(hash: u32, shape: &Shape) -> u32
    requires { hash < hash_limit }
    ensures mixed { result ≡ shape_mixed hash shape.now }
    ensures small { result < hash_limit }
{
    mix_all(mix(hash, shape.ret.hash()), shape.params.as_slice())
}

impl Hashed for Key {
    ghost part = { key_hash };

    fn hash(&self) -> u32 {
        match self {
            Key::LeafRoot { shape } => mix_shape(1, shape),
            Key::ConstRoot { basic } => mix(2, basic.hash()),
            Key::IdentityRoot { basic } => mix(3, basic.hash()),
            Key::ThrowRoot { ret } => mix(4, ret.hash()),
            Key::GuardRoot { shape, test } => mix_shape(mix(5, *test as u32), shape),
            Key::CatchRoot { shape, handler } => mix_shape(mix(6, *handler as u32), shape),
            Key::TryRoot { shape, cleanup } => mix_shape(mix(17, *cleanup as u32), shape),
            Key::SwitchRoot { shape, count } => mix_shape(mix(18, *count as u32), shape),
            Key::LoopRoot {
                shape,
                iterations,
                init,
                body,
            } => {
                let parts = mix(mix(19, *iterations as u32), *init as u32);
                mix_shape(mix(parts, *body as u32), shape)
            }
            Key::ConcatRoot { shape } => mix_shape(16, shape),
            Key::Bind { pos } => mix(7, *pos as u32),
            Key::Add { pos, basics } => mix_all(mix(8, *pos as u32), basics.as_slice()),
            Key::Permute { basics, reorder } => {
                mix_all(mix_all(9, basics.as_slice()), reorder.as_slice())
            }
            Key::Collect { pos, basics, ret } => {
                mix_all(mix(mix(10, *pos as u32), ret.hash()), basics.as_slice())
            }
            Key::Fold { pos, count, ret } => {
                mix(mix(mix(11, *pos as u32), *count as u32), ret.hash())
            }
            Key::FilterReturn { ret } => mix(12, ret.hash()),
            Key::Convert { params, ret } => mix_all(mix(13, ret.hash()), params.as_slice()),
            Key::Spread { count, basic } => mix(mix(14, *count as u32), basic.hash()),
            Key::Gather { count, basic } => mix(mix(15, *count as u32), basic.hash()),
        }
    }
}
