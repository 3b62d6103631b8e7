ghost use Rattle.std.specs.Prelude.{◌≡◌};
ghost use Rattle.mh_script.specs.Forms.{one_form, two_form, argument_form, other_form, three_form, one_place, two_places, three_places};

/// The sorts of token that follow the word of an operation.
#[derive(Clone, Copy)]
pub(crate) enum Place {
    /// H or F: a register with a method handle.
    Handle,
    /// V: a literal, or a register with a value.
    Value,
    /// T: a type.
    Type,
    /// M: a method type.
    MethodType,
    /// TYPES: descriptors, one after the other.
    Types,
    /// C: the name of a class.
    Class,
    /// P or N: a number from 0 to 255.
    Number,
    /// ORDER: such numbers.
    Order,
    /// REF: a leaf.
    Reference,
}

/// The operations with one operand.
#[derive(Clone, Copy)]
pub(crate) enum One {
    Leaf,
    Identity,
}

/// The operations with two operands.
#[derive(Clone, Copy)]
pub(crate) enum Two {
    Constant,
    Throw,
    FilterReturn,
    AsType,
    Explicit,
    TryFinally,
}

/// The operations with three operands.
#[derive(Clone, Copy)]
pub(crate) enum Three {
    Bind,
    Drop,
    Permute,
    Filter,
    Fold,
    Collect,
    Spread,
    Gather,
    Guard,
    Catch,
    Counted,
}

/// The operation of one operand that a word names.
pub(crate) fn one_form(word: &[u8]) -> Option<One>
    ensures { result ≡ one_form word.now }
{
    if word == b"leaf".as_slice() {
        Some(One::Leaf)
    } else if word == b"identity".as_slice() {
        Some(One::Identity)
    } else {
        None
    }
}

/// The operation of two operands that a word names.
pub(crate) fn two_form(word: &[u8]) -> Option<Two>
    ensures { result ≡ two_form word.now }
{
    if word == b"constant".as_slice() {
        Some(Two::Constant)
    } else if word == b"throw".as_slice() {
        Some(Two::Throw)
    } else if word == b"filterret".as_slice() {
        Some(Two::FilterReturn)
    } else if word == b"astype".as_slice() {
        Some(Two::AsType)
    } else if word == b"explicit".as_slice() {
        Some(Two::Explicit)
    } else if word == b"tryfinally".as_slice() {
        Some(Two::TryFinally)
    } else {
        None
    }
}

// The operation of three operands that a word names, if it changes single arguments.
fn argument_form(word: &[u8]) -> Option<Three>
    ensures { result ≡ argument_form word.now }
{
    if word == b"bind".as_slice() {
        Some(Three::Bind)
    } else if word == b"drop".as_slice() {
        Some(Three::Drop)
    } else if word == b"permute".as_slice() {
        Some(Three::Permute)
    } else if word == b"filter".as_slice() {
        Some(Three::Filter)
    } else if word == b"fold".as_slice() {
        Some(Three::Fold)
    } else if word == b"collect".as_slice() {
        Some(Three::Collect)
    } else {
        None
    }
}

// Any other operation of three operands that a word names.
fn other_form(word: &[u8]) -> Option<Three>
    ensures { result ≡ other_form word.now }
{
    if word == b"spread".as_slice() {
        Some(Three::Spread)
    } else if word == b"gather".as_slice() {
        Some(Three::Gather)
    } else if word == b"guard".as_slice() {
        Some(Three::Guard)
    } else if word == b"catch".as_slice() {
        Some(Three::Catch)
    } else if word == b"counted".as_slice() {
        Some(Three::Counted)
    } else {
        None
    }
}

/// The operation of three operands that a word names.
pub(crate) fn three_form(word: &[u8]) -> Option<Three>
    ensures { result ≡ three_form word.now }
{
    if let Some(form) = argument_form(word) {
        return Some(form);
    }
    other_form(word)
}

impl One {
    /// What follows the word.
    pub(crate) fn place(self) -> Place
        ensures { result ≡ one_place self }
    {
        match self {
            One::Leaf => Place::Reference,
            One::Identity => Place::Type,
        }
    }
}

impl Two {
    /// What follows the word, in this order.
    pub(crate) fn places(self) -> (Place, Place)
        ensures { result ≡ two_places self }
    {
        match self {
            Two::Constant => (Place::Type, Place::Value),
            Two::Throw => (Place::Type, Place::Class),
            Two::FilterReturn | Two::TryFinally => (Place::Handle, Place::Handle),
            Two::AsType | Two::Explicit => (Place::Handle, Place::MethodType),
        }
    }
}

impl Three {
    /// What follows the word, in this order.
    pub(crate) fn places(self) -> (Place, Place, Place)
        ensures { result ≡ three_places self }
    {
        match self {
            Three::Bind => (Place::Handle, Place::Number, Place::Value),
            Three::Drop => (Place::Handle, Place::Number, Place::Types),
            Three::Permute => (Place::Handle, Place::MethodType, Place::Order),
            Three::Filter => (Place::Handle, Place::Number, Place::Handle),
            Three::Fold => (Place::Handle, Place::Number, Place::Handle),
            Three::Collect => (Place::Handle, Place::Number, Place::Handle),
            Three::Spread => (Place::Handle, Place::Type, Place::Number),
            Three::Gather => (Place::Handle, Place::Type, Place::Number),
            Three::Guard | Three::Counted => (Place::Handle, Place::Handle, Place::Handle),
            Three::Catch => (Place::Handle, Place::Class, Place::Handle),
        }
    }
}
