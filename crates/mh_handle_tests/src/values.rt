use mh_base::{Copied, Frozen, NoMemory, Seq};
use mh_form::{Field, Slot};
use mh_values::{Cause, Cell, ClassId, Comp, Exc, ExcParts, Str, Value};
use std::alloc::Global;
use std::test::Fail;
use std::thread;

/// A text of this many characters.
fn text(alloc: Global, count: usize) -> Result<Str, NoMemory> {
    let mut characters = Seq::new(alloc);
    for _ in 0..count {
        characters.push('a')?;
    }
    Frozen::of(alloc, characters)
}

/// An exception with a message of five characters and a cause.
fn exception(alloc: Global) -> Result<Exc, NoMemory> {
    let message = text(alloc, 5)?;
    let cause = Cause {
        class: ClassId::ARITHMETIC,
        message: text(alloc, 2)?,
    };
    Exc::of(
        alloc,
        ExcParts {
            class: ClassId::CLASS_CAST,
            message,
            cause: Some(cause),
        },
    )
}

/// An array of texts.
fn array(alloc: Global) -> Result<Value, NoMemory> {
    let mut items = Seq::new(alloc);
    for count in 0..3 {
        items.push(Cell::Text(text(alloc, count)?))?;
    }
    let items = Frozen::of(alloc, items)?;
    Ok(Value::Array(Comp::Class(ClassId::STRING), items))
}

/// The number of characters of a text, of characters of an exception's message, or of items of an
/// array.
fn count(value: &Value) -> usize {
    match value {
        Value::Text(text) => text.len(),
        Value::Thrown(exc) => exc.message().len(),
        Value::Array(_, items) => items.len(),
        _ => 0,
    }
}

/// Each value that several owners may share, with its name and count.
fn shared_values(alloc: Global) -> Result<[(&'static str, Value, usize); 3], NoMemory> {
    let long = Value::Text(text(alloc, 4096)?);
    let thrown = Value::Thrown(exception(alloc)?);
    let array = array(alloc)?;
    Ok([
        ("a text", long, 4096),
        ("an exception", thrown, 5),
        ("an array", array, 3),
    ])
}

#[test]
fn values_go_to_other_threads(rt: HostRuntime) -> Result<(), Fail> {
    let alloc = rt.alloc();
    for (name, value, want) in shared_values(alloc)? {
        let copy = value.copy(alloc)?;
        let counts = thread::join(&rt, move || count(&value), move || count(&copy));
        assert_eq!(rt; counts, (want, want), "{name}");
    }
    Ok(())
}

/// The count of the value that a field holds.
fn count_of_field(field: &Field<'_>) -> usize {
    match field {
        Field::Val(Slot::L(value)) => count(value),
        _ => 0,
    }
}

#[test]
fn fields_go_to_other_threads(rt: HostRuntime) -> Result<(), Fail> {
    let alloc = rt.alloc();
    for (name, value, want) in shared_values(alloc)? {
        let copy = Field::Val(Slot::L(value.copy(alloc)?));
        let field = Field::Val(Slot::L(value));
        let counts = thread::join(
            &rt,
            move || count_of_field(&field),
            move || count_of_field(&copy),
        );
        assert_eq!(rt; counts, (want, want), "{name}");
    }
    Ok(())
}
