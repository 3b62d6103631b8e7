//! The words of the program.

ghost use Rattle.std.specs.Prelude.{◌≡◌, [], ◌∷◌, ◌++◌, drop, IfOk, OnOk, option_map};
ghost use Rattle.mh_words.specs.Options.{said};
ghost use Rattle.mh_words.specs.Words.{command_of, held_names};
ghost use Rattle.mh_drawn.specs.Words.{are_runs, asked_held, asked_of, completed, names_in, other_words, why_in, why_of, with_mode, with_plan};

use mh_base::NoMemory;
use mh_texts::read_unsigned;
use mh_words::{Command, Names, read_words};
use std::alloc::Global;

/// What is asked for: the drawing, or why two call sites share a form or do not.
#[derive(Clone, Copy, Debug)]
pub enum Asked {
    Drawing,
    Why(u32, u32),
}

// The two words after `--why` as the numbers of call sites.
fn why_in(words: &[&str]) -> Option<Asked>
    ensures { asked_held result ≡ why_in (said words.now) }
{
    match words {
        [] => None,
        [one, words @ ..] => match words {
            [] => None,
            [other, ..] => why_of(
                read_unsigned(one.as_bytes()),
                read_unsigned(other.as_bytes()),
            ),
        },
    }
}

fn why_of(one: Option<u32>, other: Option<u32>) -> Option<Asked>
    ensures { asked_held result ≡ why_of one other }
{
    match (one, other) {
        (Some(one), Some(other)) => Some(Asked::Why(one, other)),
        _ => None,
    }
}

/// What words ask for, if `--why` has its two numbers.
pub(crate) fn asked_of(words: &[&str]) -> Option<Asked>
    ensures { asked_held result ≡ asked_of (said words.now) }
{
    match words {
        [] => Some(Asked::Drawing),
        [word, words @ ..] => {
            if *word == "--why" {
                why_in(words)
            } else {
                asked_of(words)
            }
        }
    }
}

// The words after the first two.
fn after_two<'w, 'a>(words: &'w [&'a str]) -> &'w [&'a str]
    ensures { said result.now ≡ drop 2 (said words.now) }
{
    match words {
        [] => words,
        [_, words @ ..] => match words {
            [] => words,
            [_, words @ ..] => words,
        },
    }
}

// Puts words after others.
#[tactic(auto, using(crate::proofs::SaidWords::said_more))]
fn push_words<'a>(others: &mut Vec<&'a str>, words: &[&'a str]) -> Result<(), NoMemory>
    ensures { OnOk result (said others.new.items ≡ said others.old.items ++ said words.now) }
{
    others.extend_from_slice(words)?;
    Ok(())
}

// Puts a word after others.
#[tactic(auto, using(crate::proofs::SaidWords::said_more))]
fn push_word<'a>(others: &mut Vec<&'a str>, word: &'a str) -> Result<(), NoMemory>
    ensures { OnOk result (said others.new.items ≡ said others.old.items ++ word.now ∷ []) }
{
    others.push(word)?;
    Ok(())
}

// Puts the words without `--why A B` after others.
fn push_others<'a>(others: &mut Vec<&'a str>, words: &[&'a str]) -> Result<(), NoMemory>
    ensures { OnOk result
        (said others.new.items ≡ said others.old.items ++ other_words (said words.now)) }
{
    match words {
        [] => Ok(()),
        [word, words @ ..] => {
            if *word == "--why" {
                return push_words(others, after_two(words));
            }
            push_word(others, *word)?;
            push_others(others, words)
        }
    }
}

/// The words without `--why A B`.
pub(crate) fn other_words<'a>(alloc: Global, words: &[&'a str]) -> Result<Vec<&'a str>, NoMemory>
    ensures { IfOk result (λ others. said others.items ≡ other_words (said words.now)) }
{
    let mut others = Vec::new(alloc);
    push_others(&mut others, words)?;
    Ok(others)
}

// Whether words ask `mh` for a run.
fn are_runs(alloc: Global, words: &[&str]) -> Result<bool, NoMemory>
    ensures { IfOk result (λ are. are ≡ are_runs (command_of (said words.now))) }
{
    match read_words(alloc, words)? {
        Some(Command::Run(_)) => Ok(true),
        Some(Command::Sites(_)) | Some(Command::Generate(_)) | None => Ok(false),
    }
}

// Two words before others.
fn with_two<'a>(
    alloc: Global,
    one: &'a str,
    two: &'a str,
    words: &[&'a str],
) -> Result<Vec<&'a str>, NoMemory>
    ensures { IfOk result (λ all. said all.items ≡ one.now ∷ two.now ∷ said words.now) }
{
    let mut all = Vec::with_capacity(alloc, words.len().saturating_add(2))?;
    push_word(&mut all, one)?;
    push_word(&mut all, two)?;
    push_words(&mut all, words)?;
    Ok(all)
}

fn with_mode<'a>(alloc: Global, words: &[&'a str]) -> Result<Vec<&'a str>, NoMemory>
    ensures { IfOk result (λ all. said all.items ≡ with_mode (said words.now)) }
{
    with_two(alloc, "--mode", "run", words)
}

fn with_plan<'a>(alloc: Global, words: &[&'a str]) -> Result<Vec<&'a str>, NoMemory>
    ensures { IfOk result (λ all. said all.items ≡ with_plan (said words.now)) }
{
    with_two(alloc, "--plan", "-", words)
}

/// The words of a run, in which the mode and the plan may be left out, with these put in.
pub(crate) fn completed<'a>(alloc: Global, words: Vec<&'a str>) -> Result<Vec<&'a str>, NoMemory>
    ensures { IfOk result (λ all. said all.items ≡ completed (said words.entry.items)) }
{
    if are_runs(alloc, &words)? {
        return Ok(words);
    }
    let moded = with_mode(alloc, &words)?;
    if are_runs(alloc, &moded)? {
        return Ok(moded);
    }
    let planned = with_plan(alloc, &words)?;
    if are_runs(alloc, &planned)? {
        return Ok(planned);
    }
    with_plan(alloc, &moded)
}

/// The names of the inputs that the words of a run have.
pub(crate) fn names_in<'a>(
    alloc: Global,
    words: &'a [&'a str],
) -> Result<Option<Names<'a>>, NoMemory>
    ensures { IfOk result
        (λ names. option_map held_names names ≡ names_in (command_of (said words.now))) }
{
    match read_words(alloc, words)? {
        Some(Command::Run(names)) => Ok(Some(names)),
        Some(Command::Sites(_)) | Some(Command::Generate(_)) | None => Ok(None),
    }
}
