/// Whose value a chain has for a key, once one was put.
#[derive(Drop)]
pub enum Put<'t, V> {
    /// The value that was put is the chain's, for good.
    Mine(&'t V),
    /// Another value with the key was put before. Ours is handed back.
    Theirs(&'t V, V),
}

/// Why a value was not put. It is handed back.
#[derive(Drop)]
pub enum PutRefused<V> {
    NoMemory(V),
    /// Each cell of the chain holds a value with another key.
    Full(V),
}

// One try to put a value into the next cell.
#[derive(Drop)]
pub(crate) enum Tried<'t, V> {
    Mine(&'t V),
    Again(V),
    NoMemory(V),
}
