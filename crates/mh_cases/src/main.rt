//! The program `mh_cases`: it runs the cases of the files that it is given, and says which differ.
#![tactic(auto)]

use mh_case_runs::check_files;
use mh_outside::{real_inputs, real_sink};
use std::process::ExitCode;
use std::{env, io};

// The words after the program's name.
fn words(rt: &HostRuntime) -> io::Result<Vec<String>> {
    let mut words = Vec::new(rt.alloc());
    for word in env::args(rt)?.skip(1) {
        words.push(word)?;
    }
    Ok(words)
}

fn main(rt: HostRuntime) -> ExitCode {
    let Ok(names) = words(&rt) else {
        return ExitCode::FAILURE;
    };
    let mut inputs = real_inputs(rt.alloc(), &rt);
    let mut sink = real_sink(&rt);
    if check_files(&rt, rt.alloc(), &names, &mut inputs, &mut sink) == Ok(true) {
        ExitCode::SUCCESS
    } else {
        ExitCode::FAILURE
    }
}
