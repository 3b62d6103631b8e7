ghost use Rattle.std.specs.Prelude.{◌≡◌, ◌<◌, ◌^◌, length, sum_by, IfOk, IfErr};
ghost use Rattle.std.specs.List.{AllByRecursion};
ghost use Rattle.mh_made_class.specs.Sites.{IsMakeableArgument, argument_width, AreMakeable};
ghost use Rattle.mh_class_pool.specs.declared.fault.ClassError.TheVariants as class_errors;
ghost use Rattle.mh_made_class.specs.ReadBack.{IsReadable};

use crate::sites::{one_site, text};
use mh_base::{NoMemory, Seq};
use mh_classfile::{ClassError, ClassView, Constant, read};
use mh_made_class::{MadeArg, MadeArgs, MadeSites, make_class};
use std::alloc::Global;
use std::test::*;

/// An argument of each kind.
fn each_kind(alloc: Global) -> Result<MadeArgs, NoMemory>
    ensures makeable { IfOk result (λ args. AllByRecursion IsMakeableArgument args) }
    ensures few { IfOk result (λ args. sum_by argument_width args < 9) }
{
    let mut args = Seq::new(alloc);
    args.push(MadeArg::Integer(-2))?;
    args.push(MadeArg::Long(-3))?;
    args.push(MadeArg::Str(text(alloc, b"x")?))?;
    Ok(args)
}

/// How many call sites a made class is read with: as many as it was made for, unless memory runs
/// out.
fn count_read(alloc: Global, sites: &MadeSites) -> Result<u32, ClassError>
    requires makeable { AreMakeable sites.now }
    requires readable { AllByRecursion IsReadable sites.now }
    requires few { length sites.now < 2 ^ 32 }
    ensures same { IfOk result (λ count. count ≡ length sites.now) }
    ensures no_fault { IfErr result (λ e. e ≡ class_errors.NoMemory) }
{
    let file = make_class(alloc, sites)?;
    let view = read(alloc, &file, sites.len() as u32)?;
    Ok(view.sites())
}

fn made_len(alloc: Global, sites: MadeSites) -> Result<usize, NoMemory>
    requires { AreMakeable sites }
{
    let file = make_class(alloc, &sites)?;
    Ok(file.len())
}

#[test]
fn lengths(rt: HostRuntime) -> Result<(), Fail> {
    let alloc = rt.alloc();
    assert_eq!(rt; made_len(alloc, Seq::new(alloc))?, 271);
    let one = one_site(alloc, Seq::new(alloc))?;
    assert_eq!(rt; made_len(alloc, one)?, 319);
    Ok(())
}

/// The file of a call site with an argument of each kind.
fn each_kind_file(alloc: Global) -> Result<Vec<u8>, NoMemory> {
    let args = each_kind(alloc)?;
    let sites = one_site(alloc, args)?;
    make_class(alloc, &sites)
}

/// Whether a view is of one call site with an argument of each kind.
fn has_each_kind(view: &ClassView<'_>) -> bool {
    if view.sites() != 1 || view.bootstraps() != 1 || view.arguments(0) != 3 {
        return false;
    }
    matches!(view.argument(0, 0), Constant::Integer(-2))
        && matches!(view.argument(0, 1), Constant::Long(-3))
        && matches!(view.argument(0, 2), Constant::Str(text) if text.bytes() == b"x".as_slice())
}

/// Whether the call site of a view is of the script `link` and the type `(II)I`.
fn has_link(view: &ClassView<'_>) -> bool {
    if view.sites() != 1 || view.bootstraps() != 1 {
        return false;
    }
    view.site(0).descriptor.bytes() == b"(II)I".as_slice()
        && view.bootstrap(0).name.bytes() == b"link".as_slice()
}

/// Whether a file is read with one call site, as [`each_kind_file`] has it.
fn is_read_back(alloc: Global, file: &[u8]) -> bool {
    match read(alloc, file, 1) {
        Ok(view) => has_each_kind(&view) && has_link(&view),
        Err(_) => false,
    }
}

#[test]
fn a_call_site_is_read_back(rt: HostRuntime) -> Result<(), Fail> {
    let file = each_kind_file(rt.alloc())?;
    assert!(rt; is_read_back(rt.alloc(), &file));
    Ok(())
}
