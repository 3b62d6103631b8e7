ghost use Rattle.std.specs.Prelude.{◌≡◌, option_map, option_copied};
ghost use Rattle.mh_leaf.specs.Outcome.{two_ints, two_longs, one_boolean, one_value, two_values, first_value, picked_value};

use mh_values::{Num, Value};

/// Two ints, if these are the arguments.
pub fn two_ints(args: &[Value]) -> Option<(i32, i32)>
    ensures { result ≡ two_ints args.now }
{
    match args {
        [Value::Prim(Num::I(a)), Value::Prim(Num::I(b))] => Some((*a, *b)),
        _ => None,
    }
}

/// Two longs, if these are the arguments.
pub fn two_longs(args: &[Value]) -> Option<(i64, i64)>
    ensures { result ≡ two_longs args.now }
{
    match args {
        [Value::Prim(Num::J(a)), Value::Prim(Num::J(b))] => Some((*a, *b)),
        _ => None,
    }
}

/// One boolean, if this is the argument.
pub fn one_boolean(args: &[Value]) -> Option<bool>
    ensures { result ≡ one_boolean args.now }
{
    match args {
        [Value::Prim(Num::Z(b))] => Some(*b),
        _ => None,
    }
}

/// One value, if this is the argument.
pub fn one_value(args: &[Value]) -> Option<&Value>
    ensures { option_copied result ≡ one_value args.now }
{
    match args {
        [value] => Some(value),
        _ => None,
    }
}

/// Two values, if these are the arguments.
pub fn two_values(args: &[Value]) -> Option<(&Value, &Value)>
    ensures { option_map (λ p. (p.0.now, p.1.now)) result ≡ two_values args.now }
{
    match args {
        [first, second] => Some((first, second)),
        _ => None,
    }
}

/// The first of two or more arguments.
pub fn first_value(args: &[Value]) -> Option<&Value>
    ensures { option_copied result ≡ first_value args.now }
{
    match args {
        [value, _, ..] => Some(value),
        _ => None,
    }
}

/// The second of three arguments if the first is true, the third if it is false.
pub fn picked_value(args: &[Value]) -> Option<&Value>
    ensures { option_copied result ≡ picked_value args.now }
{
    match args {
        [Value::Prim(Num::Z(true)), value, _] => Some(value),
        [Value::Prim(Num::Z(false)), _, value] => Some(value),
        _ => None,
    }
}
