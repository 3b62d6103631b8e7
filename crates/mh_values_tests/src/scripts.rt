use mh_script::{ScriptId, read_scripts};
use std::alloc::{AllocError, Global};
use std::test::Fail;

/// The owner, name and descriptor of a script, and its number.
type Row = (&'static str, &'static str, &'static str, Option<ScriptId>);

static FOUND: [Row; 8] = [
    ("a", "f", "()V", Some(ScriptId(0))),
    ("a", "f", "()I", Some(ScriptId(1))),
    ("a", "g", "()V", Some(ScriptId(2))),
    ("b", "f", "()V", Some(ScriptId(3))),
    ("b", "f", "()I", None),
    ("b", "g", "()V", None),
    ("c", "f", "()V", None),
    ("a f", "", "()V", None),
];

static HEADERS: [&str; 4] = ["a f ()V", "a f ()I", "a g ()V", "b f ()V"];

/// A file of scripts with these headers.
fn scripts_of(alloc: Global, headers: &[&str]) -> Result<String, AllocError> {
    let mut file = String::new(alloc);
    for header in headers.iter().copied() {
        file.push_str(format!(in alloc; "script {header}\nreturn a0\nend\n")?.as_str())?;
    }
    Ok(file)
}

#[test]
fn scripts_are_found_by_their_headers(rt: HostRuntime) -> Result<(), Fail> {
    let file = scripts_of(rt.alloc(), &HEADERS)?;
    let scripts = read_scripts(rt.alloc(), file.as_bytes())?;
    for row in FOUND.iter().copied() {
        let (owner, name, descriptor, want) = row;
        let found = scripts.find(owner.as_bytes(), name.as_bytes(), descriptor.as_bytes());
        assert_eq!(rt; found, want, "{owner}.{name}:{descriptor}");
    }
    Ok(())
}
