//! The program `mh_bench`: it does the work of one row a given number of times, to be timed from
//! outside, and prints the row, the number and a sum over all answers.
#![tactic(auto)]

mod cells;
mod concats;
mod constants;
mod forms;
mod measures;
mod rows;
mod scripts;
mod types;

use measures::{MEASURES, Measure, Unfinished, measured};
use std::process::ExitCode;
use std::{env, io};

/// The words are not a row and a number of turns.
const USAGE: u8 = 1;

/// No memory was left.
const NO_MEMORY: u8 = 2;

/// The row was not done to its end, though memory was left, or its sum was not written.
const FAILED: u8 = 3;

// The words after the program's name.
fn words(rt: &HostRuntime) -> io::Result<Vec<String>> {
    let mut words = Vec::new(rt.alloc());
    for word in env::args(rt)?.skip(1) {
        words.push(word)?;
    }
    Ok(words)
}

/// The row of a name.
fn measure_named(name: &str) -> Option<Measure> {
    for (word, measure) in &MEASURES {
        if *word == name {
            return Some(*measure);
        }
    }
    None
}

/// The row's name, the row and the number of turns that the words name.
fn request(words: &[String]) -> Option<(&str, Measure, u32)> {
    let [name, turns] = words else {
        return None;
    };
    let measure = measure_named(name.as_str())?;
    let turns = turns.as_str().parse::<u32>().ok()?;
    Some((name.as_str(), measure, turns))
}

fn main(rt: HostRuntime) -> ExitCode {
    let Ok(words) = words(&rt) else {
        return ExitCode::from(NO_MEMORY);
    };
    let Some((name, measure, turns)) = request(words.as_slice()) else {
        return ExitCode::from(USAGE);
    };
    let sum = match measured(&rt, rt.alloc(), measure, turns) {
        Ok(sum) => sum,
        Err(Unfinished::NoMemory) => return ExitCode::from(NO_MEMORY),
        Err(error) => {
            let _ = eprintln!(rt; "{name}: {error:?}");
            return ExitCode::from(FAILED);
        }
    };
    match println!(rt; "{name} {turns} {sum}") {
        Ok(()) => ExitCode::SUCCESS,
        Err(_) => ExitCode::from(FAILED),
    }
}
