ghost use Rattle.std.specs.Prelude.{◌≡◌, ◌≤◌, ℕ, IsTrue};
ghost use mathlib.Core.Logic.{◌↔◌};

/// A value with a key, by which a chain finds it.
pub trait Keyed: Drop {
    type Key;

    ghost key_of: { Self → Self.Key };

    // The hash of a key.
    ghost hash_of: { Self.Key → ℕ };

    // How many cells a row of a chain has.
    ghost row_size: { ℕ };

    // What each value keeps to its key.
    ghost keeps: { Self → Self.Key → Type 0 };

    /// Whether the value's key is this one. It takes no memory.
    fn has_key(&self, key: &Self::Key) -> bool
        ensures { IsTrue result ↔ (Self.key_of self.now ≡ key.now) };

    /// Whether both values have the same key. It takes no memory.
    fn same_key(&self, other: &Self) -> bool
        ensures { IsTrue result ↔ (Self.key_of self.now ≡ Self.key_of other.now) };

    /// The hash of the value's key. It takes no memory.
    fn hash(&self) -> u32
        ensures { result ≡ Self.hash_of (Self.key_of self.now) };

    /// The hash of a key: if the hashes of two keys differ, a chain does not compare them. It
    /// takes no memory.
    fn hash_key(key: &Self::Key) -> u32
        ensures { result ≡ Self.hash_of key.now };

    /// How many cells a chain makes at once, when the first of them is used.
    fn row_len() -> usize
        ensures size { result ≡ Self.row_size }
        ensures some { 1 ≤ result };

    /// What the value keeps to its key. It does nothing when it runs.
    fn kept(&self)
        ensures { keeps self.now (key_of self.now) };
}
