//! The program `mh`: it hands its words, the files and standard output to the library.
#![tactic(auto)]

mod edge;

use edge::run;
use mh_outside::{real_inputs, real_sink};
use std::env;
use std::process::ExitCode;

fn main(rt: HostRuntime) -> ExitCode {
    let mut inputs = real_inputs(rt.alloc(), &rt);
    let mut sink = real_sink(&rt);
    run(&rt, rt.alloc(), env::args(&rt), &mut inputs, &mut sink)
}
