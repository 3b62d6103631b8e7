//! The program `mh_draw`. It writes the forms of call sites as a drawing in the language DOT of
//! Graphviz, or says why two call sites share a form or do not.
#![tactic(auto)]

use mh_base::NoMemory;
use mh_drawn::draw;
use mh_drawn::status::NO_MEMORY;
use mh_outside::{all_words, real_inputs, real_sink, texts_of};
use std::process::ExitCode;
use std::{env, io};

// All the words, in order. Words that are no text are refused, as an empty list of words is.
fn words_of(rt: &HostRuntime) -> Result<Vec<String>, NoMemory> {
    match env::args(rt) {
        Ok(args) => all_words(rt.alloc(), args),
        Err(error) if error.kind() == io::ErrorKind::OutOfMemory => Err(NoMemory),
        Err(_) => Ok(Vec::new(rt.alloc())),
    }
}

// The words after the first, which is the program's name.
fn after_name(words: &[String]) -> &[String] {
    match words.split_first() {
        Some((_, others)) => others,
        None => words,
    }
}

fn main(rt: HostRuntime) -> ExitCode {
    let Ok(words) = words_of(&rt) else {
        return ExitCode::from(NO_MEMORY);
    };
    let Ok(texts) = texts_of(rt.alloc(), after_name(&words)) else {
        return ExitCode::from(NO_MEMORY);
    };
    let mut inputs = real_inputs(rt.alloc(), &rt);
    let mut sink = real_sink(&rt);
    ExitCode::from(draw(&rt, rt.alloc(), &texts, &mut inputs, &mut sink))
}
