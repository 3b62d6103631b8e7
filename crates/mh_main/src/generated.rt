ghost use Rattle.std.specs.Prelude.{◌≡◌, IfOk, IfErr};
ghost use Rattle.mh_main.specs.Runnable.{IsRunnable};
ghost use Rattle.mh_words.specs.Words.{held_names};
ghost use Rattle.mh_main.specs.Input.{accepted, generated_input, generated_names, program};

use crate::reading::read_program;
use crate::stop::Stop;
use crate::{Output, Program};
use mh_base::NoMemory;
use mh_generated::{CLASS, LEAVES, PLAN, SCRIPTS, generate};
use mh_words::Names;
use std::alloc::Global;

// The names of the files that are made from a number.
fn names(alloc: Global) -> Result<Names<'static>, NoMemory>
    ensures { IfOk result (λ names. held_names names ≡ generated_names) }
{
    let mut classes = Vec::new(alloc);
    classes.push(CLASS)?;
    Ok(Names {
        leaves: LEAVES,
        scripts: SCRIPTS,
        plan: PLAN,
        classes,
        workers: 0,
    })
}

/// Makes the input from a number, and reads it as that of a run that writes one line. It is
/// accepted, whatever the number is, so that only memory may be wanting; no file of the outside is
/// read.
#[tactic(auto, using(crate::proofs::GeneratedInput::generated_read), unfolding(crate::specs::Input::generated_input))]
pub fn read_generated(alloc: Global, number: u32) -> Result<Program, Stop<'static>>
    ensures memory { IfErr result (λ stop. stop ≡ Stop.NoMemory) }
    ensures ok { IfOk result (λ p. generated_input number ≡ accepted (program p)) }
    ensures runnable { IfOk result IsRunnable }
{
    let names = names(alloc)?;
    let mut files = generate(alloc, number)?;
    read_program(alloc, &mut files, &names, Output::Line(number))
}
