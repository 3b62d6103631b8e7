ghost use Rattle.std.specs.Prelude.{◌≡◌, ◌<◌, ◌*◌, ◌^◌, ◌++◌, length, IfOk, OnOk};
ghost use Rattle.mh_made_class.specs.Sites.{AreMakeable};
ghost use Rattle.mh_made_class.specs.Constants.{pool_of};
ghost use Rattle.mh_made_class.specs.File.{version, class_names, class_parts, made_class};
ghost use Rattle.mh_made_class.specs.ReadBack.{ReadsBack};

use crate::constants::{push_common, push_site};
use crate::layout::{Layout, place};
use crate::numbers::{push_u2, push_u4};
use crate::parts::{push_class_attributes, push_methods};
use crate::site::MadeSites;
use mh_base::NoMemory;
use std::alloc::Global;

/// The major version: Java SE 17 (JVMS SE 17, 4.1).
const MAJOR_VERSION: usize = 61;

/// The class is public, and has ACC_SUPER (JVMS SE 17, 4.1).
const CLASS_FLAGS: usize = 0x0021;

/// Magic and versions.
fn push_version(file: &mut Vec<u8>) -> Result<(), NoMemory>
    ensures { OnOk result (file.new.items ≡ file.old.items ++ version) }
{
    push_u4(file, 0xCAFE_BABE)?;
    push_u2(file, 0)?;
    push_u2(file, MAJOR_VERSION)
}

/// The class, its superclass, and no interfaces.
fn push_class_names(file: &mut Vec<u8>) -> Result<(), NoMemory>
    ensures { OnOk result (file.new.items ≡ file.old.items ++ class_names) }
{
    push_u2(file, CLASS_FLAGS)?;
    push_u2(file, 2)?;
    push_u2(file, 4)?;
    push_u2(file, 0)
}

/// The constant pool.
#[tactic(auto, unfolding(crate::specs::Constants::pool_of))]
fn push_pool(alloc: Global, file: &mut Vec<u8>, layout: &Layout<'_>) -> Result<(), NoMemory>
    requires { layout.now.count < 2 ^ 16 }
    ensures { OnOk result
        (file.new.items ≡ file.old.items ++ pool_of layout.now.count layout.now.sites.items) }
{
    push_u2(file, layout.count)?;
    push_common(file)?;
    for placed in &layout.sites {
        push_site(alloc, file, placed)?;
    }
    Ok(())
}

/// The parts of the class file, in order.
fn push_parts(alloc: Global, file: &mut Vec<u8>, layout: &Layout<'_>) -> Result<(), NoMemory>
    requires count { layout.now.count < 2 ^ 16 }
    requires few { 7 * length layout.now.sites.items < 2 ^ 16 }
    ensures { OnOk result
        (file.new.items ≡ file.old.items
        ++ class_parts layout.now.count layout.now.sites.items) }
{
    push_version(file)?;
    push_pool(alloc, file, layout)?;
    push_class_names(file)?;
    push_u2(file, 0)?;
    push_methods(alloc, file, &layout.sites)?;
    push_class_attributes(alloc, file, &layout.sites)
}

#[tactic(auto, unfolding(crate::specs::File::made_class))]
fn write_class(alloc: Global, sites: &MadeSites) -> Result<Vec<u8>, NoMemory>
    requires { AreMakeable sites.now }
    ensures { IfOk result (λ file. file.items ≡ made_class sites.now) }
{
    let layout = place(alloc, sites.as_slice())?;
    let mut file = Vec::new(alloc);
    push_parts(alloc, &mut file, &layout)?;
    Ok(file)
}

/// The class file of a class `made/Main` with these call sites, one after the other in its method
/// `run()V`, each with a bootstrap method of its own in `made/Boot`. It is made for tests and for
/// inputs that are generated, and not to be loaded: `made/Boot` need not be there.
pub fn make_class(alloc: Global, sites: &MadeSites) -> Result<Vec<u8>, NoMemory>
    requires { AreMakeable sites.now }
    ensures bytes { IfOk result (λ file. file.items ≡ made_class sites.now) }

    // If each type is a method descriptor, `mh_classfile::read` gives a class with these sites.
    ensures class { IfOk result (λ file. ReadsBack sites.now file.items) }
{
    write_class(alloc, sites)
}
