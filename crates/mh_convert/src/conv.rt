use mh_values::Ty;

/// The rules by which values are converted from one type to another.
#[derive(Clone, Copy, Debug, PartialEq, Eq)]
pub enum Rules {
    /// Those of `MethodHandle.asType`: no number loses anything.
    AsType,
    /// Those of `MethodHandles.explicitCastArguments`: a number may lose its high bits.
    Explicit,
}

/// An allowed conversion of an argument from one type to another.
#[derive(Clone, Copy, Debug, PartialEq, Eq)]
pub struct Conv {
    pub from: Ty,
    pub to: Ty,
}

/// An allowed conversion of what a method returns.
#[derive(Clone, Copy, Debug, PartialEq, Eq)]
pub enum RetConv {
    /// Both types are void.
    Keep,
    /// The result is dropped, since void is asked for.
    Discard,
    /// Void gives the default of the type: null, false or zero.
    Default(Ty),
    /// The result is converted as an argument is.
    Value(Conv),
}
