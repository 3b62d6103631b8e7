use mh_values::{ClassId, LeafId};

/// What a handle is made from. A type is given as the return type of a descriptor, and a value as
/// its literal.
#[derive(Clone, Copy)]
pub enum Root {
    Leaf(LeafId),
    Constant(&'static str, &'static str),
    Identity(&'static str),
    Throw(&'static str, ClassId),
    /// A test, a target and a fallback.
    Guard(LeafId, LeafId, LeafId),
    /// A target, the class of the exceptions that it catches, and a handler.
    Catch(LeafId, ClassId, LeafId),
    /// A fallback, and up to 17 cases, which the first argument numbers.
    Switch(LeafId, &'static [LeafId]),
    /// A target and its cleanup.
    TryFinally(LeafId, LeafId),
    /// The number of turns, and a body, which takes an int and the number of its turn. The int is 0
    /// at first.
    Counted(&'static str, LeafId),
}

/// One adapter more. A value is given as its literal, a type as a descriptor, and a part as a leaf,
/// or it is a copy of the handle.
#[derive(Clone, Copy)]
pub enum Step {
    Bind(u8, &'static str),
    Typed(&'static str, Typed),
    Joined(LeafId, Joined),
    /// The result goes through a copy of the handle.
    Doubled,
}

/// An adapter that is given types: the parameters of a descriptor, its return type, or all of it.
#[derive(Clone, Copy)]
pub enum Typed {
    Drop(u8),
    Permute(&'static [u8]),
    Spread(u8),
    Gather(u8),
    AsType,
    Explicit,
}

/// An adapter that runs another handle, at a position.
#[derive(Clone, Copy)]
pub enum Joined {
    Filter(u8),
    Fold(u8),
    Collect(u8),
}
