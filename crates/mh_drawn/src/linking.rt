//! The linking of all call sites, one attempt at each, in one thread.

ghost use Rattle.std.specs.Prelude.{◌≡◌, ◌+◌, ◌<◌, ◌≤◌, length, IfOk, IfErr, OnOk};
ghost use Rattle.mh_jobs.specs.Given.{AreJobs, Found, under};
ghost use Rattle.mh_condy.specs.Nodes.{Keeps, found_in};
ghost use Rattle.mh_drawn.specs.Linked.{AreAnswered, AreConstantsOf, AreLinkages, HasLinked, IsLinkageOf, IsOf, StaysLent, StopsAttempt, StopsAttempts};
ghost use Rattle.mh_drawn.specs.Reading.{IsGiven, most_sites};

use crate::reading::Given;
use mh_attempt::{ConstantsOf, Linkage, WorkError, attempt};
use mh_base::{NoMemory, Seq};
use mh_condy::{ConstPass, ConstTable};
use mh_drawing::{Place, Site};
use mh_handle::Work;
use mh_jobs::Run;
use std::alloc::Global;
use std::sync::Wait;

// Attempts to link a call site, and resolves the dynamic constants that it asks.
fn link_site<'s, 't, J: Run, R: Wait>(
    w: &mut Work<'_, 't>,
    rt: &R,
    constants: &'s ConstTable<'t, ConstantsOf<J>>,
    asked: &mut ConstPass<'s, 't, ConstantsOf<J>>,
    given: &'t Given,
    number: u32,
) -> Result<Linkage<'t, J>, WorkError>
    requires given { IsGiven given.now J.given }
    requires are_jobs { AreJobs J.given }
    requires constants { AreConstantsOf J.given }
    requires few { length J.given.jobs ≤ most_sites }
    requires site { number < length J.given.jobs }
    requires of { IsOf J.given w.old }
    requires table { asked.old.table ≡ constants.now }
    requires linked { HasLinked J.given number w.old.pass.now w.old.seat.now asked.old }
    ensures of { IsOf J.given w.new }
    ensures lent { StaysLent w.old w.new }
    ensures table { asked.new.table ≡ asked.old.table }
    ensures keeps { Keeps asked.old.known asked.new.known }
    ensures linked { OnOk result
        (HasLinked J.given (number + 1) w.new.pass.now w.new.seat.now asked.new) }
    ensures site { IfOk result (IsLinkageOf (found_in asked.new.known) number) }
    ensures stopped { IfErr result
        (StopsAttempt J.given (number + 1) w.new.pass.now w.new.seat.now asked.new) }
{
    attempt(
        w,
        rt,
        constants,
        asked,
        &given.scripts,
        given.sites.jobs.sites.get(number),
        number as u64 + 1,
    )
}

/// Links the call sites that were read, in order, up to the first attempt that stops.
#[tactic(auto, using(crate::proofs::Attempts::lent_both))]
pub(crate) fn link_all<'s, 't, J: Run, R: Wait>(
    w: &mut Work<'_, 't>,
    rt: &R,
    constants: &'s ConstTable<'t, ConstantsOf<J>>,
    asked: &mut ConstPass<'s, 't, ConstantsOf<J>>,
    given: &'t Given,
) -> Result<Seq<Linkage<'t, J>>, WorkError>
    requires given { IsGiven given.now J.given }
    requires are_jobs { AreJobs J.given }
    requires constants { AreConstantsOf J.given }
    requires few { length J.given.jobs ≤ most_sites }
    requires of { IsOf J.given w.old }
    requires table { asked.old.table ≡ constants.now }
    requires fresh { HasLinked J.given 0 w.old.pass.now w.old.seat.now asked.old }
    ensures of { IsOf J.given w.new }
    ensures lent { StaysLent w.old w.new }
    ensures linked { OnOk result
        (HasLinked J.given (length J.given.jobs) w.new.pass.now w.new.seat.now asked.new) }
    ensures linkages { IfOk result
        (AreLinkages (found_in asked.new.known) (length J.given.jobs)) }
    ensures stopped { IfErr result
        (StopsAttempts J.given w.new.pass.now w.new.seat.now asked.new) }
{
    let mut linkages = Seq::new(w.alloc);
    for number in 0..given.sites.jobs.sites.len() {
        linkages.push(link_site(w, rt, constants, asked, given, number as u32)?)?;
    }
    Ok(linkages)
}

/// The call sites at these places, as they were linked.
pub(crate) fn sites_of<'l, 't, J: Run>(
    alloc: Global,
    linkages: &'l [Linkage<'t, J>],
    places: &'l [Place],
) -> Result<Seq<Site<'l, 't>>, NoMemory>
    requires each { length linkages.now ≡ length places.now }
    requires few { length places.now ≤ most_sites }
    ensures each { IfOk result (λ sites. length sites ≡ length places.entry.now) }

    // Where constants have the values that the attempts have found, each is linked as it should be.
    ensures answered { IfOk result (λ sites. (known : Found)
        → AreLinkages known (length places.entry.now) linkages.entry.now
        → AreAnswered (under known J.given) places.entry.now sites) }
{
    let mut sites = Seq::new(alloc);
    for number in 0..places.len() {
        let linkage = &linkages[number];
        let _job = linkage.job();
        linkage.told();
        sites.push(Site {
            number: number as u32,
            place: &places[number],
            serial: linkage.serial(),
            linked: linkage.linked(),
        })?;
    }
    Ok(sites)
}
