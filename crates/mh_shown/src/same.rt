ghost use Rattle.std.specs.Prelude.{◌≡◌};
ghost use Rattle.mh_shown.specs.KeyText.{HasBytes, key_text};

use mh_edit::Key;

/// Shows, for proofs, that different keys have different texts, if their numbers have 8 bits, as
/// those of all keys do. It does nothing when it runs.
#[tactic(auto, using(crate::proofs::KeyTexts::key_texts_differ))]
pub fn shows_keys(one: &Key, other: &Key)
    ensures { HasBytes one.now → HasBytes other.now → key_text one.now ≡ key_text other.now
        → one.now ≡ other.now }
{
    let _one = one;
    let _other = other;
}
