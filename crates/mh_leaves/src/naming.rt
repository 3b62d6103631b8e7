ghost use Rattle.std.specs.Prelude.{◌≡◌};
ghost use Rattle.mh_leaves.specs.Find.{is_way};

use mh_leaf::Leaf;
use std::error::Error;
use std::fmt;

/// In which way a leaf is called.
#[derive(Clone, Copy, Debug, PartialEq, Eq)]
pub enum How {
    /// Either way.
    Any,
    /// Without a receiver.
    Static,
    /// On a receiver.
    Virtual,
}

impl How {
    /// Whether a leaf is called in this way.
    pub(crate) fn is_way(self, leaf: &Leaf) -> bool
        ensures { result ≡ is_way self leaf.now }
    {
        match self {
            How::Any => true,
            How::Static => !leaf.is_virtual,
            How::Virtual => leaf.is_virtual,
        }
    }
}

/// Why a leaf is not found.
#[derive(Clone, Copy, Debug, PartialEq, Eq)]
pub enum Missing {
    /// The owner is no class of the list.
    NoClass,
    /// The owner has no leaf of that way with the name and the descriptor.
    NoMethod,
}

impl fmt::Display for Missing {
    fn fmt<W: fmt::Write>(&self, f: &mut fmt::Formatter<W>) -> fmt::Result {
        f.write_str(match self {
            Missing::NoClass => "no such class",
            Missing::NoMethod => "no such method",
        })
    }
}

impl Error for Missing {}
