ghost use Rattle.std.specs.Prelude.{◌≡◌, pos, IfOk};
ghost use Rattle.mh_generated.specs.Sites.{class_file, constant_of, site_of, sites_of};

use crate::counts::site_count;
use mh_base::{Frozen, NoMemory, Seq};
use mh_made_class::{MadeArg, MadeSite, MadeSites, make_class};
use mh_values::Str;
use std::alloc::Global;

/// The script that links each call site.
const SCRIPT: &[u8] = b"link";

/// The type of each call site.
const TYPE: &[u8] = b"(I)I";

/// How many different ints the static arguments can be, from 0 on.
const CONSTANTS: u64 = 1000;

/// The text of these bytes, as ASCII.
fn text(alloc: Global, word: &[u8]) -> Result<Str, NoMemory>
    ensures { IfOk result (λ text. text ≡ word.now) }
{
    let mut text = Seq::new(alloc);
    for byte in word {
        text.push(char::from(*byte))?;
    }
    Frozen::of(alloc, text)
}

/// The static argument of a call site.
fn constant(number: u32, site: u32) -> i32
    ensures { result ≡ pos (constant_of number site) }
{
    ((u64::from(number) + u64::from(site)) % CONSTANTS) as i32
}

/// A call site.
fn site(alloc: Global, number: u32, place: u32) -> Result<MadeSite, NoMemory>
    ensures { IfOk result (λ site. site ≡ site_of number place) }
{
    let mut args = Seq::new(alloc);
    args.push(MadeArg::Integer(constant(number, place)))?;
    Ok(MadeSite {
        script: text(alloc, SCRIPT)?,
        ty: text(alloc, TYPE)?,
        args,
    })
}

/// All call sites, in order.
fn all_sites(alloc: Global, number: u32) -> Result<MadeSites, NoMemory>
    ensures { IfOk result (λ sites. sites ≡ sites_of number) }
{
    let mut sites = Seq::new(alloc);
    for place in 0..site_count(number) {
        sites.push(site(alloc, number, place)?)?;
    }
    Ok(sites)
}

/// The class file of the call sites.
#[tactic(auto, using(crate::proofs::Makeable::makeable), unfolding(crate::specs::Sites::class_file))]
pub(crate) fn class_file(alloc: Global, number: u32) -> Result<Vec<u8>, NoMemory>
    ensures { IfOk result (λ file. file.items ≡ class_file number) }
{
    let sites = all_sites(alloc, number)?;
    make_class(alloc, &sites)
}
