use mh_base::Seq;
use mh_form::{Basic, BasicRet, Basics, Shape};

/// Places of parameters, from 0.
pub type Places = Seq<u8>;

/// For each parameter its new basic type, or `None` if it stays as it is.
pub type Entries = Seq<Option<Basic>>;

/// What a conversion does with the result: keeps it, or makes it one of a basic return type.
#[derive(Clone, Copy, Debug, PartialEq, Eq)]
pub enum RetEntry {
    Keep,
    New(BasicRet),
}

/// An edit of a form, by basic types and positions alone, so that handles share the form that it
/// makes (the idea of OpenJDK's `LambdaFormEditor`). A root makes a form from nothing. Values,
/// parts and classes differ from handle to handle, so they are in fields. An edit adds its fields
/// after the old ones, in the order listed here.
#[derive(Drop)]
pub enum Key {
    /// A call of a leaf. Field: the leaf.
    LeafRoot {
        shape: Shape,
    },
    /// A constant. Field: its slot.
    ConstRoot {
        basic: Basic,
    },
    /// Gives its one argument.
    IdentityRoot {
        basic: Basic,
    },
    /// Throws the one argument.
    ThrowRoot {
        ret: BasicRet,
    },
    /// A test on the first arguments, which picks one of two parts. Fields: the three parts.
    GuardRoot {
        shape: Shape,
        test: u8,
    },
    /// A part, and a handler that takes the exception and the first arguments. Fields: the part,
    /// the class of exceptions, and the handler.
    CatchRoot {
        shape: Shape,
        handler: u8,
    },
    /// A part, and a cleanup that takes how the part ended and the first arguments. Fields: the
    /// part and the cleanup.
    TryRoot {
        shape: Shape,
        cleanup: u8,
    },
    /// A switch: the first argument, an `int`, picks one of several parts. Fields: the part for all
    /// ints that number no case, and the parts of the cases, from 0 on.
    SwitchRoot {
        shape: Shape,
        count: u8,
    },
    /// A counted loop. Fields: the parts that give its end and its start, and its body. Each takes
    /// this many of the first arguments.
    LoopRoot {
        shape: Shape,
        iterations: u8,
        init: u8,
        body: u8,
    },
    /// A concatenation. Field: its pieces.
    ConcatRoot {
        shape: Shape,
    },
    /// A parameter becomes a constant. Field: its slot.
    Bind {
        pos: u8,
    },
    /// Parameters are added, and not used.
    Add {
        pos: u8,
        basics: Basics,
    },
    /// Parameters are replaced: the old parameter i is the new one at `reorder[i]`.
    Permute {
        basics: Basics,
        reorder: Places,
    },
    /// A part runs first, on parameters that are added. Its result takes the place of a parameter.
    /// Field: the part.
    Collect {
        pos: u8,
        basics: Basics,
        ret: BasicRet,
    },
    /// A part runs first, on parameters that stay. Its result takes the place of a parameter before
    /// them. Field: the part.
    Fold {
        pos: u8,
        count: u8,
        ret: BasicRet,
    },
    /// A part runs last, on the result. Field: the part.
    FilterReturn {
        ret: BasicRet,
    },
    /// Parameters are converted, from left to right, and last the result. Fields: the conversions
    /// of the parameters that have an entry, and the return conversion if there is one.
    Convert {
        params: Entries,
        ret: RetEntry,
    },
    /// The last parameters become one array.
    Spread {
        count: u8,
        basic: Basic,
    },
    /// The last parameter, an array, becomes its items. Field: the component type.
    Gather {
        count: u8,
        basic: Basic,
    },
}
