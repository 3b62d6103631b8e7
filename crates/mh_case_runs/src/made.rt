ghost use Rattle.std.specs.Prelude.{◌≡◌, ◌≤◌, ◌<◌, ◌+◌, ◌*◌, length, sum_by, IfOk, IfSome};
ghost use Rattle.std.specs.List.{AllByRecursion};
ghost use Rattle.mh_made_class.specs.Sites.{AreMakeable, IsMakeableArgument, IsMakeableSite, IsShortAscii, argument_width, site_width};

use mh_base::{Frozen, NoMemory, Seq};
use mh_case_text::{CaseArgument, CaseSite};
use mh_made_class::{MadeArg, MadeArgs, MadeSite, MadeSites, make_class};
use mh_values::Str;
use std::alloc::Global;

/// How many static arguments a call site of a made class has at most.
const MOST_ARGUMENTS: usize = 251;

/// How many indexes of the constant pool the call sites take at most.
const MOST_INDEXES: usize = 65_000;

/// A text as a class file has it; nothing if it is too long or has a character that is not ASCII.
fn text_of(alloc: Global, text: &str) -> Result<Option<Str>, NoMemory>
    ensures { IfOk result (λ made. IfSome made IsShortAscii) }
{
    if text.len() >= 65_536 {
        return Ok(None);
    }
    let mut characters = Seq::new(alloc);
    for byte in text.as_bytes() {
        if *byte == 0 || *byte >= 128 {
            return Ok(None);
        }
        characters.push(char::from(*byte))?;
    }
    Ok(Some(Frozen::of(alloc, characters)?))
}

/// An argument as a class file has it.
fn argument_of(alloc: Global, argument: &CaseArgument) -> Result<Option<MadeArg>, NoMemory>
    ensures { IfOk result (λ made. IfSome made IsMakeableArgument) }
{
    match argument {
        CaseArgument::Integer(number) => Ok(Some(MadeArg::Integer(*number))),
        CaseArgument::Long(number) => Ok(Some(MadeArg::Long(*number))),
        CaseArgument::Text(text) => match text_of(alloc, text.as_str())? {
            Some(text) => Ok(Some(MadeArg::Str(text))),
            None => Ok(None),
        },
    }
}

fn arguments_of(alloc: Global, arguments: &[CaseArgument]) -> Result<Option<MadeArgs>, NoMemory>
    ensures each { IfOk result (λ made. IfSome made (AllByRecursion IsMakeableArgument)) }
    ensures width { IfOk result (λ made. IfSome made
        (λ m. sum_by argument_width m ≤ 2 * length arguments.now)) }
{
    let mut made = Seq::new(alloc);
    for argument in arguments {
        let Some(argument) = argument_of(alloc, argument)? else {
            return Ok(None);
        };
        made.push(argument)?;
    }
    Ok(Some(made))
}

fn site_of(alloc: Global, site: &CaseSite) -> Result<Option<MadeSite>, NoMemory>
    ensures makeable { IfOk result (λ made. IfSome made IsMakeableSite) }
    ensures width { IfOk result (λ made. IfSome made
        (λ m. site_width m ≤ 7 + 2 * length site.now.arguments.items)) }
{
    if site.arguments.len() > MOST_ARGUMENTS {
        return Ok(None);
    }
    let Some(script) = text_of(alloc, site.script.as_str())? else {
        return Ok(None);
    };
    let Some(ty) = text_of(alloc, site.ty.as_str())? else {
        return Ok(None);
    };
    let Some(args) = arguments_of(alloc, &site.arguments)? else {
        return Ok(None);
    };
    Ok(Some(MadeSite { script, ty, args }))
}

fn sites_of(alloc: Global, sites: &[CaseSite]) -> Result<Option<MadeSites>, NoMemory>
    ensures { IfOk result (λ made. IfSome made AreMakeable) }
{
    let mut made = Seq::new(alloc);
    let mut indexes = 0usize;
    for site in sites {
        let count = site.arguments.len();
        if count > MOST_ARGUMENTS || indexes + 7 + 2 * count > MOST_INDEXES {
            return Ok(None);
        }
        let Some(one) = site_of(alloc, site)? else {
            return Ok(None);
        };
        made.push(one)?;
        indexes += 7 + 2 * count;
    }
    Ok(Some(made))
}

/// The class that is made for these call sites; nothing if there is no such class.
pub(crate) fn class_of(alloc: Global, sites: &[CaseSite]) -> Result<Option<Vec<u8>>, NoMemory> {
    match sites_of(alloc, sites)? {
        Some(sites) => Ok(Some(make_class(alloc, &sites)?)),
        None => Ok(None),
    }
}
