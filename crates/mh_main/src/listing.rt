ghost use Rattle.std.specs.Prelude.{◌≡◌, ◌≤◌, ◌+◌, ◌-◌, List, ℕ, IfOk, IfErr, OnOk, Some, length};
ghost use Rattle.mh_listing.specs.Listing.{listing};
ghost use Rattle.mh_outside.specs.Causes.{AreSame};
ghost use Rattle.mh_outside.specs.Kept.{KeepsInputs};
ghost use Rattle.mh_outside.specs.Reach.{ReadsOnce};
ghost use Rattle.mh_words.specs.Options.{said};
ghost use Rattle.mh_words.specs.Words.{sites};
ghost use Rattle.mh_runtime.specs.Passes.{most_sites};
ghost use Rattle.mh_main.specs.Input.{AreListed, IfAccepted, class_limit, listing_input};
ghost use Rattle.mh_main.specs.Classes.{ListsClass, ListsClasses};
ghost use Rattle.mh_main.specs.Reading.{ReadsInputs};
ghost use Rattle.mh_main.specs.Stops.{IsStopAmong, IsStopOf, ReachesClass, Refuses, StopsClass, StopsClasses};

use crate::classes::{CLASS_LIMIT, class_of};
use crate::reading::read_input;
use crate::stop::Stop;
use mh_listing::{push_count, push_sites};
use mh_outside::Inputs;
use mh_runtime::MOST_SITES;
use std::alloc::Global;

// Reads a class file, lists its call sites from number `first` on, and gives the number after the
// last.
fn list_class<'a, I: Inputs>(
    alloc: Global,
    inputs: &mut I,
    name: &'a str,
    first: u32,
    text: &mut Vec<u8>,
) -> Result<u32, Stop<'a>>
    requires { first ≤ most_sites }
    ensures keeps { KeepsInputs (I.contents inputs.old) (I.contents inputs.new)
        (I.faults inputs.old) (I.faults inputs.new) }
    ensures no_fault { OnOk result (AreSame (I.faults inputs.old) (I.faults inputs.new)) }
    ensures stop { IfErr result
        (λ stop. IsStopOf name.now (I.faults inputs.old) (I.faults inputs.new) stop) }
    ensures refuses { IfErr result
        (λ stop. StopsClass (most_sites - first) (I.contents inputs.old name.now) stop) }
    ensures ok { IfOk result
        (λ next. ListsClass (most_sites - first) (I.contents inputs.old name.now) first next
        text.old.items text.new.items) }
    ensures few { IfOk result (λ next. next ≤ most_sites) }
    ensures reads { ReadsOnce (class_limit + 1) 1 (I.reached inputs.old) (I.reached inputs.new)
        (I.starts inputs.old) (I.starts inputs.new) }
{
    let bytes = read_input(alloc, inputs, name, CLASS_LIMIT)?;
    let view = class_of(alloc, name, &bytes, MOST_SITES - first)?;
    push_sites(alloc, text, first, &view)?;
    Ok(first + view.sites())
}

// Reads class files in order, and lists their call sites from number `first` on.
fn list_classes<'a, I: Inputs>(
    alloc: Global,
    inputs: &mut I,
    names: &[&'a str],
    first: u32,
    text: &mut Vec<u8>,
) -> Result<(), Stop<'a>>
    requires { first ≤ most_sites }
    ensures keeps { KeepsInputs (I.contents inputs.old) (I.contents inputs.new)
        (I.faults inputs.old) (I.faults inputs.new) }
    ensures no_fault { OnOk result (AreSame (I.faults inputs.old) (I.faults inputs.new)) }
    ensures stop { IfErr result
        (λ stop. IsStopAmong
        (ReachesClass (most_sites - first) (said names.now) (I.contents inputs.old))
        (I.faults inputs.old) (I.faults inputs.new) stop) }
    ensures refuses { IfErr result
        (λ stop. StopsClasses (most_sites - first) (said names.now) (I.contents inputs.old) stop) }
    ensures ok { OnOk result
        (ListsClasses (most_sites - first) (said names.now) (I.contents inputs.old) first
        text.old.items text.new.items) }
    ensures reads { ReadsOnce (class_limit + 1) (length (said names.now))
        (I.reached inputs.old) (I.reached inputs.new)
        (I.starts inputs.old) (I.starts inputs.new) }
{
    let Some((name, others)) = names.split_first() else {
        return Ok(push_count(text, first)?);
    };
    let next = list_class(alloc, inputs, *name, first, text)?;
    list_classes(alloc, inputs, others, next, text)
}

/// Reads class files in order, up to the first that stops it, and lists their call sites.
pub fn list_sites<'a, I: Inputs>(
    alloc: Global,
    inputs: &mut I,
    names: &[&'a str],
) -> Result<Vec<u8>, Stop<'a>>
    ensures keeps { KeepsInputs (I.contents inputs.old) (I.contents inputs.new)
        (I.faults inputs.old) (I.faults inputs.new) }
    ensures no_fault { OnOk result (AreSame (I.faults inputs.old) (I.faults inputs.new)) }
    ensures stop { IfErr result
        (λ stop. IsStopAmong (ReachesClass most_sites (said names.now) (I.contents inputs.old))
        (I.faults inputs.old) (I.faults inputs.new) stop) }
    ensures refuses { IfErr result
        (λ stop. Refuses (listing_input most_sites (said names.now) (I.contents inputs.old)) stop) }
    ensures ok { IfOk result
        (λ text. IfAccepted (listing_input most_sites (said names.now) (I.contents inputs.old))
        (AreListed (λ classes. text.items ≡ listing classes))) }
    ensures reads { ReadsInputs (Some (sites (said names.now)))
        (I.reached inputs.old) (I.reached inputs.new)
        (I.starts inputs.old) (I.starts inputs.new) }
{
    let mut text = Vec::new(alloc);
    list_classes(alloc, inputs, names, 0, &mut text)?;
    Ok(text)
}
