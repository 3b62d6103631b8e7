//! What is asked for, of all call sites.

ghost use Rattle.std.specs.Prelude.{◌≡◌, ◌≤◌, ◌⊎◌, length, map, slice_get, IfOk, IfErr, Some};
ghost use Rattle.mh_jobs.specs.Given.{AreJobs, Found, under};
ghost use Rattle.mh_drawn.specs.Answer.{AreThere, IsShown, IsTextOf, LacksSite, StopsShowing, asked_text};
ghost use Rattle.mh_drawn.specs.Linked.{AreConstantsOf, AreLinkages};
ghost use Rattle.mh_drawn.specs.Reading.{IsGiven, most_sites};
ghost use Rattle.mh_drawn.specs.Words.{held_asked, why};

use crate::linking::sites_of;
use crate::reading::Given;
use crate::stop::Stop;
use crate::tables::{FirstSeats, Tables, first_seats, link};
use crate::words::Asked;
use mh_attempt::{ConstantsOf, Linkage};
use mh_condy::ConstTable;
use mh_drawing::{ShownForm, Site, draw_forms, say_why, shown_forms};
use mh_handle::{Form, FormTable};
use mh_intern::TypeTable;
use mh_jobs::Run;
use mh_values::Classes;
use std::alloc::Global;
use std::sync::Wait;

// The call site of a number.
fn site_at<'l, 't>(sites: &[Site<'l, 't>], number: u32) -> Result<Site<'l, 't>, Stop<'static>>
    requires few { length sites.now ≤ most_sites }
    ensures site { IfOk result (λ site. slice_get sites.now number ≡ Some site) }
    ensures stop { IfErr result (λ stop. (stop ≡ Stop.NoSite number (length sites.now))
        × (length sites.now ≤ number)) }
{
    match sites.get(number as usize) {
        Some(site) => Ok(*site),
        None => Err(Stop::NoSite(number, sites.len() as u32)),
    }
}

fn why(
    alloc: Global,
    forms: &[ShownForm<'_>],
    sites: &[Site<'_, '_>],
    classes: &Classes,
    numbers: (u32, u32),
) -> Result<Vec<u8>, Stop<'static>>
    requires few { length sites.now ≤ most_sites }
    ensures text { IfOk result (λ text. text.items ≡ asked_text classes.now forms.now sites.now
        (why numbers.0 numbers.1)) }
    ensures there { IfOk result (λ _. AreThere sites.now (why numbers.0 numbers.1)) }
    ensures stop { IfErr result (LacksSite (length sites.now) (why numbers.0 numbers.1)) }
{
    let one = site_at(sites, numbers.0)?;
    let other = site_at(sites, numbers.1)?;
    Ok(say_why(alloc, forms, classes, &one, &other)?)
}

fn asked_text(
    alloc: Global,
    forms: &[ShownForm<'_>],
    sites: &[Site<'_, '_>],
    classes: &Classes,
    asked: Asked,
) -> Result<Vec<u8>, Stop<'static>>
    requires few { length sites.now ≤ most_sites }
    ensures text { IfOk result (λ text. text.items
        ≡ asked_text classes.now forms.now sites.now (held_asked asked)) }
    ensures there { IfOk result (λ _. AreThere sites.now (held_asked asked)) }
    ensures stop { IfErr result (LacksSite (length sites.now) (held_asked asked)) }
{
    match asked {
        Asked::Drawing => Ok(draw_forms(alloc, forms, sites, classes)?),
        Asked::Why(one, other) => why(alloc, forms, sites, classes, (one, other)),
    }
}

// The text of linked call sites, and of these forms.
fn text_of<J: Run>(
    alloc: Global,
    given: &Given,
    asked: Asked,
    linkages: &[Linkage<'_, J>],
    forms: &[&Form],
) -> Result<Vec<u8>, Stop<'static>>
    requires given { IsGiven given.now J.given }
    requires few { length J.given.jobs ≤ most_sites }
    requires each { length given.now.sites.places ≡ length J.given.jobs }
    requires linkages { length linkages.now ≡ length given.now.sites.places }

    // Where constants have the values that the attempts have found.
    ensures text { IfOk result (λ text. (known : Found)
        → AreLinkages known (length given.now.sites.places) linkages.now
        → IsTextOf (under known J.given) given.now.sites.places
        (map (λ form. form.now) forms.now) (held_asked asked) text.items) }
    ensures stop { IfErr result (StopsShowing J.given (held_asked asked)) }
{
    let sites = sites_of(alloc, linkages, given.sites.places.as_slice())?;
    let forms = shown_forms(alloc, forms)?;
    asked_text(
        alloc,
        &forms,
        sites.as_slice(),
        given.leaves.classes(),
        asked,
    )
}

/// Links all call sites of what was read, and shows what is asked for.
pub(crate) fn show<J: Run, R: Wait>(
    rt: &R,
    alloc: Global,
    given: &Given,
    asked: Asked,
) -> Result<Vec<u8>, Stop<'static>>
    requires given { IsGiven given.now J.given }
    requires are_jobs { AreJobs J.given }
    requires constants { AreConstantsOf J.given }
    requires few { length J.given.jobs ≤ most_sites }
    requires each { length given.now.sites.places ≡ length J.given.jobs }
    ensures text { IfOk result
        (λ text. IsShown J.given given.now.sites.places (held_asked asked) text.items) }
    ensures stop { IfErr result (StopsShowing J.given (held_asked asked)) }
{
    let (types, type_seat) = TypeTable::new(alloc)?;
    let (forms, form_seat) = FormTable::new(alloc)?;
    let tables = Tables { types, forms };
    let (constants, serials) = ConstTable::<ConstantsOf<J>>::new(
        alloc,
        &given.sites.jobs.constants,
        &given.scripts,
        &given.leaves,
    )?;
    let first = FirstSeats {
        types: type_seat,
        forms: form_seat,
        serials,
    };
    let mut seats = first_seats::<J>(alloc, &tables, &constants, first)?;
    let linkages = link::<J, R>(rt, alloc, given, &tables, &constants, &mut seats)?;
    text_of::<J>(
        alloc,
        given,
        asked,
        linkages.as_slice(),
        seats.forms.asked(),
    )
}
