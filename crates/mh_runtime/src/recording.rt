ghost use Rattle.std.specs.Prelude.{◌≡◌, ℕ, ◌<◌, IfOk, OnOk, Some, length, option_map};
ghost use Rattle.mh_leaf.specs.LeafTable.{LeafTable};
ghost use Rattle.mh_link.specs.Linked as meant;
ghost use Rattle.mh_attempt.specs.Linkage.{IsLinkedBy};
ghost use Rattle.mh_report.specs.Recorded.{recorded, recorded_at, shown_of};
ghost use Rattle.mh_report.specs.Results.{serial_at};
ghost use Rattle.mh_condy.specs.Nodes.{node_in};
ghost use Rattle.mh_condy.specs.Recorded.{ConstView, outcome_of};
ghost use Rattle.mh_condy.specs.Trails.{HasPutAll, trail_of};
ghost use Rattle.mh_attempt.specs.Linkage.{own_given};
ghost use Rattle.mh_runtime.specs.Attempts.{AreRecorded};
ghost use Rattle.mh_runtime.specs.Report.{AreMakers, row_in, rows_in};
ghost use Rattle.mh_runtime.specs.Values.{AtLinks};

use crate::site_pass::SitePass;
use mh_attempt::{Linkage, Linked};
use mh_base::{Copied, NoMemory, Seq};
use mh_condy::{ConstPass, ConstRun, ConstValue};
use mh_jobs::Run;
use mh_report::{ConstRow, ConstRows, Recorded, Shown, Table};
use mh_values::{Exc, Value};
use std::alloc::Global;
use std::sync::Wait;

// What is linked, as it is shown.
fn shown(alloc: Global, linked: &Linked<'_>) -> Result<Shown, NoMemory>
    ensures { (leaves : LeafTable) (link : meant.Linked) → IsLinkedBy leaves linked.now link
        → IfOk result (λ shown. shown ≡ shown_of leaves link) }
{
    match linked {
        Linked::Target(target) => Ok(Shown::Linked(target.ty().copy(alloc)?)),
        Linked::Error(exc) => Ok(Shown::Error(exc.copy(alloc)?)),
    }
}

// What an attempt recorded.
fn recorded<J: Run>(alloc: Global, linkage: &Linkage<'_, J>) -> Result<Recorded, NoMemory>
    ensures { IfOk result (λ recorded. recorded
        ≡ recorded_at (own_given linkage.now J.given) linkage.now.job.site linkage.now.serial) }
{
    Ok(Recorded {
        serial: linkage.serial(),
        shown: shown(alloc, linkage.linked())?,
    })
}

// For each site the serial of an attempt that the pass has recorded there, if it has.
fn owners<J: Run>(alloc: Global, pass: &SitePass<'_, '_, J>) -> Result<Vec<Option<u64>>, NoMemory>
    ensures count { IfOk result (λ owners. length owners.items ≡ length J.given.jobs) }
    ensures own { IfOk result (λ owners. AreRecorded pass.now owners.items) }
{
    let mut owners = vec![in alloc; None; pass.sites()]?;
    for attempt in pass.recorded() {
        owners[attempt.site as usize] = Some(attempt.serial);
    }
    Ok(owners)
}

// What is recorded at a site, by the attempt of this serial. No other attempt can have recorded
// there, but a cell does not say so: no answer is made of any other linkage.
fn recorded_site<J: Run, R: Wait>(
    rt: &R,
    alloc: Global,
    pass: &SitePass<'_, '_, J>,
    site: u32,
    owner: Option<u64>,
) -> Result<Option<Recorded>, NoMemory>
    requires { site < length J.given.jobs }
    ensures entry { IfOk result (λ entry. AtLinks J.given pass.now (λ given. entry
        ≡ option_map (recorded_at given site) (serial_at pass.now.linked site))) }
    ensures own { OnOk result ((serial : ℕ) → serial_at pass.now.linked site ≡ Some serial
        → owner ≡ Some serial) }
{
    let Some(linkage) = pass.seen(site) else {
        return Ok(None);
    };
    for _ in rt.forever() {
        if owner == Some(linkage.serial()) {
            linkage.told();
            let _job = linkage.job();
            return Ok(Some(recorded(alloc, linkage)?));
        }
    }
    unreachable!()
}

/// What is recorded at each site, by the sites' numbers, in the view of a pass that all others were
/// joined to.
pub(crate) fn table<J: Run, R: Wait>(
    rt: &R,
    alloc: Global,
    pass: &SitePass<'_, '_, J>,
) -> Result<Table, NoMemory>
    ensures table { IfOk result (λ table. AtLinks J.given pass.now (λ given. table
        ≡ recorded given pass.now.linked)) }

    // There is an entry for each site, and each is linked by an attempt that the pass has recorded.
    ensures entries { OnOk result (length pass.now.linked ≡ length J.given.jobs) }
    ensures own { OnOk result (AreRecorded pass.now pass.now.linked) }
{
    let owners = owners(alloc, pass)?;
    let mut table = Seq::from_vec(Vec::with_capacity(alloc, pass.sites())?);
    for site in 0..pass.sites() {
        let number = u32::try_from(site).map_err(|_| NoMemory)?;
        table.push(recorded_site(rt, alloc, pass, number, owners[site])?)?;
    }
    Ok(table)
}

// For each constant the serial of an attempt that the pass has recorded of it, if it has.
fn makers<J: ConstRun>(
    alloc: Global,
    pass: &ConstPass<'_, '_, J>,
) -> Result<Vec<Option<u64>>, NoMemory>
    ensures count { IfOk result (λ makers. length makers.items ≡ length J.run.jobs) }
    ensures own { IfOk result (λ makers. AreMakers pass.now makers.items) }
{
    let mut makers = vec![in alloc; None; pass.constants()]?;
    let _within = pass.attempts();
    for attempt in pass.recorded() {
        makers[attempt.constant as usize] = Some(attempt.serial);
    }
    Ok(makers)
}

// A value or an error, once more.
fn copied(alloc: Global, value: &ConstValue) -> Result<Result<Value, Exc>, NoMemory>
    ensures { IfOk result (λ copy. copy ≡ outcome_of value.now) }
{
    Ok(match value {
        ConstValue::Value(value) => Ok(value.copy(alloc)?),
        ConstValue::Error(exc) => Err(exc.copy(alloc)?),
    })
}

// What is recorded of a constant, by the attempt of this serial. No other attempt can have recorded
// it, but a cell does not say so: no answer is made of any other node.
fn row<J: ConstRun, R: Wait>(
    rt: &R,
    alloc: Global,
    pass: &ConstPass<'_, '_, J>,
    c: u32,
    maker: Option<u64>,
) -> Result<Option<ConstRow>, NoMemory>
    requires { c < length J.run.jobs }
    ensures row { IfOk result (λ row. row ≡ option_map row_in (node_in pass.now.known c)) }
    ensures own { OnOk result ((node : ConstView) → node_in pass.now.known c ≡ Some node
        → maker ≡ Some node.serial) }
{
    let Some(node) = pass.seen(c) else {
        return Ok(None);
    };
    for _ in rt.forever() {
        if maker == Some(node.serial()) {
            return Ok(Some(ConstRow {
                serial: node.serial(),
                value: copied(alloc, node.value())?,
            }));
        }
    }
    unreachable!()
}

/// What is recorded of each constant, by the constants' numbers, in the view of a pass that all
/// others were joined to.
pub(crate) fn rows<J: ConstRun, R: Wait>(
    rt: &R,
    alloc: Global,
    pass: &ConstPass<'_, '_, J>,
) -> Result<ConstRows, NoMemory>
    ensures rows { IfOk result (λ rows. rows ≡ rows_in pass.now.known) }

    // Each constant that is known is recorded by an attempt that the pass has recorded.
    ensures own { OnOk result (HasPutAll (trail_of pass.now)) }
{
    let makers = makers(alloc, pass)?;
    let mut rows = Seq::new(alloc);
    for c in 0..pass.constants() {
        let number = u32::try_from(c).map_err(|_| NoMemory)?;
        rows.push(row(rt, alloc, pass, number, makers[c])?)?;
    }
    Ok(rows)
}
