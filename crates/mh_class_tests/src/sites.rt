ghost use Rattle.std.specs.Prelude.{◌≡◌, ◌≤◌, ◌+◌, ◌<◌, sum_by, IfOk};
ghost use Rattle.std.specs.List.{AllByRecursion};
ghost use Rattle.mh_made_class.specs.Sites.{IsMakeableArgument, IsMakeableSite, argument_width, site_width, AreMakeable};

use mh_base::{Frozen, NoMemory, Seq};
use mh_made_class::{MadeArgs, MadeSite, MadeSites};
use mh_values::Str;
use std::alloc::Global;

/// The text of these bytes, as ASCII.
pub fn text(alloc: Global, word: &[u8]) -> Result<Str, NoMemory>
    ensures { IfOk result (λ text. text ≡ word.now) }
{
    let mut text = Seq::new(alloc);
    for byte in word {
        text.push(char::from(*byte))?;
    }
    Frozen::of(alloc, text)
}

/// A call site of the script `link` and the type `(II)I`.
fn link_site(alloc: Global, args: MadeArgs) -> Result<MadeSite, NoMemory>
    requires { AllByRecursion IsMakeableArgument args }
    ensures makeable { IfOk result (λ site. IsMakeableSite site) }
    ensures width { IfOk result (λ site. site_width site ≡ 7 + sum_by argument_width args) }
{
    Ok(MadeSite {
        script: text(alloc, b"link")?,
        ty: text(alloc, b"(II)I")?,
        args,
    })
}

/// One call site of the script `link` and the type `(II)I`.
pub fn one_site(alloc: Global, args: MadeArgs) -> Result<MadeSites, NoMemory>
    requires makeable { AllByRecursion IsMakeableArgument args }
    requires few { sum_by argument_width args < 9 }
    ensures { IfOk result (λ sites. AreMakeable sites) }
{
    let mut sites = Seq::new(alloc);
    sites.push(link_site(alloc, args)?)?;
    Ok(sites)
}
