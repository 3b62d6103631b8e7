use mh_script::{End, Operation, Script, ScriptError, ScriptId, Step, read_scripts};
use std::alloc::Global;
use std::test::Fail;

/// The word of an operation.
fn operation_word(operation: &Operation) -> &'static str {
    match operation {
        Operation::Leaf(_) => "leaf",
        Operation::Constant(_, _) => "constant",
        Operation::Identity(_) => "identity",
        Operation::Throw(_, _) => "throw",
        Operation::Bind(_, _, _) => "bind",
        Operation::Drop(_, _, _) => "drop",
        Operation::Permute(_, _, _) => "permute",
        Operation::Filter(_, _, _) => "filter",
        Operation::FilterReturn(_, _) => "filterret",
        Operation::Fold(_, _, _) => "fold",
        Operation::Collect(_, _, _) => "collect",
        Operation::Spread(_, _, _) => "spread",
        Operation::Gather(_, _, _) => "gather",
        Operation::AsType(_, _) => "astype",
        Operation::Explicit(_, _) => "explicit",
        Operation::Guard(_, _, _) => "guard",
        Operation::Catch(_, _, _) => "catch",
        Operation::TryFinally(_, _) => "tryfinally",
        Operation::Switch(_, _) => "switch",
        Operation::Counted(_, _, _) => "counted",
    }
}

/// The word of a line before the last one.
fn step_word(step: &Step) -> &'static str {
    match step {
        Step::Let(_, operation) => operation_word(operation),
        Step::Serial(_) => "serial",
        Step::FailMod { .. } => "failmod",
    }
}

/// Lines, and the word of what each is read to.
static LINES: [(&str, &str); 23] = [
    ("let x leaf a.f:()V", "leaf"),
    ("let x constant I I:5", "constant"),
    ("let x identity I", "identity"),
    ("let x throw I a", "throw"),
    ("let x bind a0 0 I:1", "bind"),
    ("let x drop a0 0 IJ", "drop"),
    ("let x permute a0 type 0", "permute"),
    ("let x filter a0 0 a1", "filter"),
    ("let x filterret a0 a1", "filterret"),
    ("let x fold a0 0 a1", "fold"),
    ("let x collect a0 0 a1", "collect"),
    ("let x spread a0 [I 1", "spread"),
    ("let x gather a0 [I 1", "gather"),
    ("let x astype a0 type", "astype"),
    ("let x explicit a0 type", "explicit"),
    ("let x guard a0 a1 a2", "guard"),
    ("let x catch a0 a a1", "catch"),
    ("let x tryfinally a0 a1", "tryfinally"),
    ("let x switch a0 a1", "switch"),
    ("let x switch a0 a1 a2 a1", "switch"),
    ("let x counted a0 a1 a2", "counted"),
    ("let x serial", "serial"),
    ("failmod 2 1", "failmod"),
];

/// The words of a script's one step, if it has one, and of its end.
fn words_of(script: &Script) -> (Option<&'static str>, &'static str) {
    let step = match script.steps.as_slice() {
        [step] => Some(step_word(step)),
        _ => None,
    };
    match script.end {
        End::Return(_) => (step, "return"),
        _ => (step, "raise"),
    }
}

/// What a line before this last one is read to, and the last one.
fn read(
    alloc: Global,
    line: &str,
    last: &str,
) -> Result<(Option<&'static str>, &'static str), ScriptError> {
    let file = format!(in alloc; "script a f ()V\n{line}\n{last}\nend\n")?;
    let scripts = read_scripts(alloc, file.as_bytes())?;
    if scripts.len() != 1 {
        return Ok((None, "no script alone"));
    }
    Ok(words_of(scripts.get(ScriptId(0))))
}

#[test]
fn each_line_is_read_to_its_operation(rt: HostRuntime) -> Result<(), Fail> {
    for (line, word) in LINES.iter().copied() {
        let (returned, raised) = ((Some(word), "return"), (Some(word), "raise"));
        assert_eq!(rt; read(rt.alloc(), line, "return a0")?, returned, "{line}");
        assert_eq!(rt; read(rt.alloc(), line, "raise a s:b")?, raised, "{line}");
    }
    Ok(())
}
