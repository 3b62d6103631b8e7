ghost use Rattle.std.specs.Prelude.{◌≡◌, IfOk, IfSome};
ghost use Rattle.mh_words.specs.Options.{said, text, values};
ghost use Rattle.mh_words.specs.Words.{IsCommandWithinLimits, asked, command_of, commanded};
ghost use Rattle.mh_words.specs.Words.{generated_of, of_mode, run_of, sites_of, workers_of};
ghost use Rattle.mh_words.specs.Words.{workers_within};

use crate::number::read_number;
use crate::options::{Given, parse};
use crate::{Command, Names};
use mh_base::NoMemory;
use std::alloc::Global;

/// How many class files may be named.
const MOST_CLASSES: usize = 64;

/// How many digits the number of an input may have.
const NUMBER_DIGITS: usize = 6;

/// How many digits the number of workers may have.
const WORKERS_DIGITS: usize = 2;

/// How many workers there may be.
const MOST_WORKERS: u32 = 16;

// A number of workers, if there may be this many.
fn within(workers: u32) -> Option<u32>
    ensures { result ≡ workers_within workers }
{
    if 1 <= workers && workers <= MOST_WORKERS {
        Some(workers)
    } else {
        None
    }
}

// How many workers are asked for: none if nothing is said of them.
fn workers(prelink: Option<&str>) -> Option<u32>
    ensures { result ≡ workers_of (text prelink.entry) }
{
    match prelink {
        Some(text) => within(read_number(WORKERS_DIGITS, text)?),
        None => Some(0),
    }
}

// A run has its three inputs, and no number.
fn run_command<'a>(given: Given<'a>) -> Option<Command<'a>>
    ensures { commanded result ≡ run_of (values given.entry) }
{
    match (given.leaves, given.scripts, given.plan, given.number) {
        (Some(leaves), Some(scripts), Some(plan), None) => Some(Command::Run(Names {
            leaves,
            scripts,
            plan,
            classes: given.classes,
            workers: workers(given.prelink)?,
        })),
        _ => None,
    }
}

// A listing has no option except the mode.
fn sites_command<'a>(given: Given<'a>) -> Option<Command<'a>>
    ensures { commanded result ≡ sites_of (values given.entry) }
{
    match (
        given.leaves,
        given.scripts,
        given.plan,
        given.number,
        given.prelink,
    ) {
        (None, None, None, None, None) => Some(Command::Sites(given.classes)),
        _ => None,
    }
}

// A generated run has a number alone, and no class files.
fn generate_command<'a>(given: &Given<'a>) -> Option<Command<'a>>
    ensures { commanded result ≡ generated_of (values given.now) }
{
    match (
        given.leaves,
        given.scripts,
        given.plan,
        given.number,
        given.prelink,
    ) {
        (None, None, None, Some(number), None) if given.classes.is_empty() => {
            Some(Command::Generate(read_number(NUMBER_DIGITS, number)?))
        }
        _ => None,
    }
}

// The command of a mode.
fn mode_command<'a>(mode: &str, given: Given<'a>) -> Option<Command<'a>>
    ensures { commanded result ≡ of_mode mode.now (values given.entry) }
{
    match mode {
        "run" => run_command(given),
        "sites" => sites_command(given),
        "gen" => generate_command(&given),
        _ => None,
    }
}

// What options and names of class files ask for.
fn asked<'a>(given: Given<'a>) -> Option<Command<'a>>
    ensures { commanded result ≡ asked (values given.entry) }
{
    match given.mode {
        Some(mode) if given.classes.len() <= MOST_CLASSES => mode_command(mode, given),
        _ => None,
    }
}

/// What the words after the program's name ask for, or nothing if they are refused.
#[tactic(auto, using(crate::proofs::Limits::within))]
pub fn read_words<'a>(alloc: Global, words: &'a [&'a str]) -> Result<Option<Command<'a>>, NoMemory>
    ensures command { IfOk result (λ command. commanded command ≡ command_of (said words.now)) }
    ensures within { IfOk result (λ command. IfSome (commanded command) IsCommandWithinLimits) }
{
    match parse(alloc, words)? {
        Some(matches) => Ok(asked(Given::of(alloc, &matches)?)),
        None => Ok(None),
    }
}
