ghost use Rattle.std.specs.Prelude.{◌≡◌, ◌+◌, ◌*◌, ◌<◌, ◌^◌, length, IfOk, sum_by};
ghost use Rattle.std.specs.List.{AllByRecursion};
ghost use Rattle.mh_made_class.specs.Sites.{AreMakeable, IsMakeableArgument, argument_width, pool_count};
ghost use Rattle.mh_made_class.specs.Layout.{arguments_from, placed};

use crate::site::{MadeArg, MadeSite};
use mh_base::NoMemory;
use std::alloc::Global;
use std::marker::Model;

/// The first index of the first call site: 0 is not usable, and twelve entries come before it.
const FIRST_OF_SITES: usize = 13;

/// A static argument, and the first index of the pool that is its own.
#[derive(Drop)]
pub(crate) struct PlacedArg<'s> {
    pub(crate) first: usize,
    pub(crate) arg: &'s MadeArg,
}

impl<'s> Model for PlacedArg<'s> {
    ghost use Rattle.mh_made_class.specs.Layout.{PlacedArgument, IsPlacedArgument};

    ghost Value = { PlacedArgument };

    ghost view = { λ p. record { first = p.first; arg = p.arg.now } };

    ghost invariant = { λ p. IsPlacedArgument (record { first = p.first; arg = p.arg.now }) };
}

/// A call site, its number, and the first index of the pool that is its own.
#[derive(Drop)]
pub(crate) struct Placed<'s> {
    pub(crate) number: usize,
    pub(crate) first: usize,
    pub(crate) site: &'s MadeSite,
}

impl<'s> Model for Placed<'s> {
    ghost use Rattle.mh_made_class.specs.Layout.{PlacedSite, IsPlaced};

    ghost Value = { PlacedSite };

    ghost view = { λ p. record { number = p.number; first = p.first; site = p.site.now } };

    ghost invariant = { λ p. IsPlaced (record { number = p.number; first = p.first; site = p.site.now }) };
}

/// Static arguments, one after the other from an index on.
pub(crate) fn place_arguments<'s>(
    alloc: Global,
    first: usize,
    args: &'s [MadeArg],
) -> Result<Vec<PlacedArg<'s>>, NoMemory>
    requires makeable { AllByRecursion IsMakeableArgument args.now }
    requires fits { first + sum_by argument_width args.now < 2 ^ 16 }
    ensures { IfOk result (λ v. v.items ≡ arguments_from first args.now) }
{
    let mut placed = Vec::new(alloc);
    let mut next = first;
    for arg in args {
        placed.push(PlacedArg { first: next, arg })?;
        next += arg.width();
    }
    Ok(placed)
}

/// Call sites, one after the other, and the count of the pool.
#[derive(Drop)]
pub(crate) struct Layout<'s> {
    pub(crate) sites: Vec<Placed<'s>>,
    pub(crate) count: usize,
}

/// The places of the constants of call sites in the pool.
pub(crate) fn place<'s>(alloc: Global, sites: &'s [MadeSite]) -> Result<Layout<'s>, NoMemory>
    requires { AreMakeable sites.now }
    ensures sites { IfOk result (λ layout. layout.sites.items ≡ placed sites.now) }
    ensures count { IfOk result (λ layout. layout.count ≡ pool_count sites.now) }
    ensures few { IfOk result (λ layout. 7 * length layout.sites.items < 2 ^ 16) }
{
    let mut placed = Vec::new(alloc);
    let mut next = FIRST_OF_SITES;
    for (number, site) in sites.iter().enumerate() {
        placed.push(Placed {
            number,
            first: next,
            site,
        })?;
        next += site.width();
    }
    Ok(Layout {
        sites: placed,
        count: next,
    })
}
