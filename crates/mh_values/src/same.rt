ghost use Rattle.std.specs.Prelude.{◌≡◌};
ghost use Rattle.mh_values.specs.Same.{is_same_type, is_same_return, are_same_types, begins_with_types, is_same_method_type};

use crate::{MethodTy, Ty};

/// Whether two types are equal.
pub fn is_same_type(a: Ty, b: Ty) -> bool
    ensures { result ≡ is_same_type a b }
{
    a == b
}

/// Whether two return types are equal; each may be void.
pub fn is_same_return(a: Option<Ty>, b: Option<Ty>) -> bool
    ensures { result ≡ is_same_return a b }
{
    a == b
}

/// Whether the first types of a list are these.
pub fn begins_with_types(types: &[Ty], front: &[Ty]) -> bool
    ensures { result ≡ begins_with_types types.now front.now }
{
    types.starts_with(front)
}

/// Whether two lists of types are equal.
pub fn are_same_types(a: &[Ty], b: &[Ty]) -> bool
    ensures { result ≡ are_same_types a.now b.now }
{
    a == b
}

/// Whether two method types are equal.
pub fn is_same_method_type(a: &MethodTy, b: &MethodTy) -> bool
    ensures { result ≡ is_same_method_type a.now b.now }
{
    are_same_types(a.params.as_slice(), b.params.as_slice()) && is_same_return(a.ret, b.ret)
}
