ghost use Rattle.std.specs.Prelude.{◌≡◌, IfOk, false, option_map};
ghost use Rattle.clap.specs.Words.{app_of, found_of, rows_of, rule_of};
ghost use Rattle.mh_words.specs.Options.{app, class_rule, found, given_by, option_rule, said};
ghost use Rattle.mh_words.specs.Options.{values};

use clap::error::ErrorKind;
use clap::{Arg, ArgAction, ArgMatches, Command};
use mh_base::NoMemory;
use std::alloc::{AllocError, Global};

/// What the words give: the value of each option, if it is there, and the names of class files.
#[derive(Drop)]
pub(crate) struct Given<'a> {
    pub(crate) mode: Option<&'a str>,
    pub(crate) leaves: Option<&'a str>,
    pub(crate) scripts: Option<&'a str>,
    pub(crate) plan: Option<&'a str>,
    pub(crate) number: Option<&'a str>,
    pub(crate) prelink: Option<&'a str>,
    pub(crate) classes: Vec<&'a str>,
}

impl<'a> Given<'a> {
    /// The values that a parse found.
    pub(crate) fn of(alloc: Global, matches: &ArgMatches<'a>) -> Result<Given<'a>, NoMemory>
        ensures { IfOk result (λ given. values given ≡ given_by (rows_of (found_of matches.now))) }
    {
        let classes = matches.get_strs("class").unwrap_or(&[]);
        Ok(Given {
            mode: matches.get_str("mode"),
            leaves: matches.get_str("leaves"),
            scripts: matches.get_str("scripts"),
            plan: matches.get_str("plan"),
            number: matches.get_str("number"),
            prelink: matches.get_str("prelink"),
            classes: Vec::from_slice(alloc, classes)?,
        })
    }
}

// An option that takes one value.
fn option<'a>(alloc: Global, name: &'a str) -> Arg<'a>
    ensures rule { rule_of result ≡ option_rule name.entry.now }
    ensures local { result.global ≡ false }
{
    Arg::new(alloc, name).long(name)
}

// The names of class files, each a word anywhere among the options.
fn classes<'a>(alloc: Global) -> Arg<'a>
    ensures rule { rule_of result ≡ class_rule }
    ensures local { result.global ≡ false }
{
    Arg::new(alloc, "class").action(ArgAction::Append)
}

// The command line as clap gets it.
fn command_line<'a>(alloc: Global) -> Result<Command<'a>, AllocError>
    ensures { IfOk result (λ command. app_of command ≡ app) }
{
    Command::new(alloc, "mh")
        .no_binary_name(true)
        .arg(option(alloc, "mode"))?
        .arg(option(alloc, "leaves"))?
        .arg(option(alloc, "scripts"))?
        .arg(option(alloc, "plan"))?
        .arg(option(alloc, "number"))?
        .arg(option(alloc, "prelink"))?
        .arg(classes(alloc))
}

/// What clap finds in the words, or nothing if it refuses them or they ask for help.
pub(crate) fn parse<'a>(
    alloc: Global,
    words: &'a [&'a str],
) -> Result<Option<ArgMatches<'a>>, NoMemory>
    ensures { IfOk result
        (λ matches. option_map (λ m. rows_of (found_of m)) matches ≡ found (said words.now)) }
{
    let command_line = command_line(alloc)?;
    match command_line.try_get_matches_from(words) {
        Ok(matches) => Ok(Some(matches)),
        Err(error) => match error.kind() {
            ErrorKind::OutOfMemory => Err(NoMemory),
            _ => Ok(None),
        },
    }
}
