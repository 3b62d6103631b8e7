//! The reading of the inputs: leaves, scripts and class files. A plan is not read.

ghost use Rattle.std.specs.Prelude.{◌≡◌, ◌≤◌, ◌+◌, ◌-◌, ◌++◌, ℕ, List, Ok, IfOk, IfErr, OnOk, length};
ghost use Rattle.mh_outside.specs.Causes.{AreSame};
ghost use Rattle.mh_outside.specs.Contents.{IsWhole};
ghost use Rattle.mh_classfile.specs.Class.{HasDynamics};
ghost use Rattle.mh_classfile.specs.File.{class_or_fault};
ghost use Rattle.mh_leaf.specs.LeafTable.{LeafTable};
ghost use Rattle.mh_script.specs.declared.script.Script.{Script};
ghost use Rattle.mh_leaves.specs.Manifest.{manifest, kind_word as manifest_word};
ghost use Rattle.mh_script.specs.Kinds.{kind_word as script_word};
ghost use Rattle.mh_script.specs.Scripts.{scripts};
ghost use Rattle.mh_jobs.specs.RunJobs.{with_class};
ghost use Rattle.mh_words.specs.Options.{said};
ghost use Rattle.mh_words.specs.Words.{held_names};
ghost use Rattle.mh_drawing.specs.Places.{places_of};
ghost use Rattle.mh_drawn.specs.Lines.{class_word};
ghost use Rattle.mh_drawn.specs.Reading.{AddsClass, AddsClasses, AreSites, HasMeaning, IsRead, StopsBytes, StopsClass, StopsClasses, StopsFile, StopsReading, StopsText, most_sites, no_sites, text_limit};

use crate::stop::Stop;
use mh_base::Seq;
use mh_class_pool::{ClassError, ClassKind};
use mh_classfile::{ClassView, read};
use mh_drawing::{Place, push_places};
use mh_jobs::{RunJobs, push_class};
use mh_leaves::{Leaves, ManifestError, read_manifest};
use mh_outside::{Inputs, ReadWhole, read_whole};
use mh_script::{ScriptError, Scripts};
use mh_words::Names;
use std::alloc::Global;

/// How many bytes a manifest may have, and how many the scripts.
const TEXT_LIMIT: usize = 262_144;

/// How many bytes a class file may have.
const CLASS_LIMIT: usize = 1_048_576;

/// How many call sites there may be.
const MOST_SITES: u32 = 4096;

/// The call sites of class files: their jobs, and their places.
#[derive(Drop)]
pub struct Sites {
    pub jobs: RunJobs,
    pub places: Seq<Place>,
}

/// What the inputs say.
#[derive(Drop)]
pub struct Given {
    pub leaves: Leaves,
    pub scripts: Scripts,
    pub sites: Sites,
}

/// The methods that class files can name.
#[derive(Clone, Copy)]
struct Methods<'p> {
    leaves: &'p Leaves,
    scripts: &'p Scripts,
}

fn read_file<'a, I: Inputs>(
    alloc: Global,
    inputs: &mut I,
    name: &'a str,
    limit: usize,
) -> Result<Vec<u8>, Stop<'a>>
    ensures contents { (n : List ℕ) → I.contents inputs.new n ≡ I.contents inputs.old n }
    ensures no_fault { OnOk result (AreSame (I.faults inputs.old) (I.faults inputs.new)) }
    ensures stop { IfErr result
        (StopsFile name.now limit (I.contents inputs.old name.now)
        (I.faults inputs.old name.now) (I.faults inputs.new name.now)) }
    ensures file { IfOk result (λ bytes. IsWhole (I.contents inputs.old name.now) bytes.items) }
    ensures within { IfOk result (λ bytes. length bytes.items ≤ limit) }
{
    match read_whole(alloc, inputs, name, limit) {
        Ok(bytes) => Ok(bytes),
        Err(ReadWhole::NoMemory) => Err(Stop::NoMemory),
        Err(ReadWhole::ReadFault) => Err(Stop::ReadFault(name)),
        Err(ReadWhole::TooLong) => Err(Stop::TooLong(name)),
    }
}

#[tactic(auto, using(crate::proofs::Stops::text_unread))]
fn read_leaves<'a, I: Inputs>(
    alloc: Global,
    inputs: &mut I,
    name: &'a str,
) -> Result<Leaves, Stop<'a>>
    ensures contents { (n : List ℕ) → I.contents inputs.new n ≡ I.contents inputs.old n }
    ensures no_fault { OnOk result (AreSame (I.faults inputs.old) (I.faults inputs.new)) }
    ensures stop { IfErr result
        (StopsText name.now manifest_word manifest (I.contents inputs.old name.now)
        (I.faults inputs.old name.now) (I.faults inputs.new name.now)) }
    ensures ok { IfOk result
        (HasMeaning text_limit manifest (I.contents inputs.old name.now)) }
{
    let bytes = read_file(alloc, inputs, name, TEXT_LIMIT)?;
    match read_manifest(alloc, &bytes) {
        Ok(leaves) => Ok(leaves),
        Err(ManifestError::NoMemory) => Err(Stop::NoMemory),
        Err(ManifestError::Fault(fault)) => Err(Stop::Fault(name, fault.line, fault.kind.word())),
    }
}

#[tactic(auto, using(crate::proofs::Stops::text_unread))]
fn read_scripts<'a, I: Inputs>(
    alloc: Global,
    inputs: &mut I,
    name: &'a str,
) -> Result<Scripts, Stop<'a>>
    ensures contents { (n : List ℕ) → I.contents inputs.new n ≡ I.contents inputs.old n }
    ensures no_fault { OnOk result (AreSame (I.faults inputs.old) (I.faults inputs.new)) }
    ensures stop { IfErr result
        (StopsText name.now script_word scripts (I.contents inputs.old name.now)
        (I.faults inputs.old name.now) (I.faults inputs.new name.now)) }
    ensures ok { IfOk result
        (HasMeaning text_limit scripts (I.contents inputs.old name.now)) }
{
    let bytes = read_file(alloc, inputs, name, TEXT_LIMIT)?;
    match mh_script::read_scripts(alloc, &bytes) {
        Ok(scripts) => Ok(scripts),
        Err(ScriptError::NoMemory) => Err(Stop::NoMemory),
        Err(ScriptError::Fault(fault)) => Err(Stop::Fault(name, fault.line, fault.kind.word())),
    }
}

// The name of a kind of fault, as a refusal prints it.
fn class_word(kind: ClassKind) -> &'static str
    ensures { result.now ≡ class_word kind }
{
    match kind {
        ClassKind::Truncated => "Truncated",
        ClassKind::BadMagic => "BadMagic",
        ClassKind::BadVersion => "BadVersion",
        ClassKind::BadTag => "BadTag",
        ClassKind::BadIndex => "BadIndex",
        ClassKind::WrongKind => "WrongKind",
        ClassKind::BadText => "BadText",
        ClassKind::BadCode => "BadCode",
        ClassKind::BadBootstraps => "BadBootstraps",
        ClassKind::Trailing => "Trailing",
        ClassKind::TooManySites => "TooManySites",
        ClassKind::BadDescriptor => "BadDescriptor",
        ClassKind::TooManyConstants => "TooManyConstants",
    }
}

// The class that the bytes of the named file are, if it has at most `room` call sites.
fn class_of<'a, 'b>(
    alloc: Global,
    name: &'a str,
    bytes: &'b [u8],
    room: u32,
) -> Result<ClassView<'b>, Stop<'a>>
    ensures stop { IfErr result (StopsBytes name.now room bytes.now) }
    ensures ok { IfOk result (λ view. class_or_fault room bytes.now ≡ Ok view) }
    ensures few { IfOk result (λ view. length view.sites ≤ room) }
    ensures dynamics { IfOk result (λ view. HasDynamics view) }
{
    match read(alloc, bytes, room) {
        Ok(view) => Ok(view),
        Err(ClassError::NoMemory) => Err(Stop::NoMemory),
        Err(ClassError::Fault(fault)) => Err(Stop::Place(name, fault.at, class_word(fault.kind))),
    }
}

// Puts the call sites of a class after the others.
fn with_class<'a>(
    alloc: Global,
    name: &'a str,
    view: &ClassView<'_>,
    methods: &Methods<'_>,
    sites: Sites,
) -> Result<Sites, Stop<'a>>
    requires sites { AreSites methods.now.leaves.now methods.now.scripts.now sites }
    requires few { length view.now.sites ≤ most_sites - length sites.jobs.sites }
    requires dynamics { HasDynamics view.now }
    ensures jobs { IfOk result (λ all. all.jobs
        ≡ with_class methods.now.leaves.now methods.now.scripts.now sites.jobs view.now) }
    ensures places { IfOk result
        (λ all. all.places ≡ sites.places ++ places_of name.now view.now.sites) }
    ensures sites { IfOk result
        (AreSites methods.now.leaves.now methods.now.scripts.now) }
    ensures memory { IfErr result (λ stop. stop ≡ Stop.NoMemory) }
{
    let Sites {
        mut jobs,
        mut places,
    } = sites;
    push_class(alloc, &mut jobs, view, methods.scripts, methods.leaves)?;
    push_places(alloc, &mut places, name, view)?;
    Ok(Sites { jobs, places })
}

// Reads a class file, and puts its call sites after the others.
fn read_class<'a, I: Inputs>(
    alloc: Global,
    inputs: &mut I,
    name: &'a str,
    methods: &Methods<'_>,
    sites: Sites,
) -> Result<Sites, Stop<'a>>
    requires sites { AreSites methods.now.leaves.now methods.now.scripts.now sites }
    ensures contents { (n : List ℕ) → I.contents inputs.new n ≡ I.contents inputs.old n }
    ensures no_fault { OnOk result (AreSame (I.faults inputs.old) (I.faults inputs.new)) }
    ensures stop { IfErr result
        (StopsClass name.now (most_sites - length sites.jobs.sites) (I.contents inputs.old name.now)
        (I.faults inputs.old name.now) (I.faults inputs.new name.now)) }
    ensures ok { IfOk result (AddsClass methods.now.leaves.now methods.now.scripts.now
        name.now (I.contents inputs.old name.now) sites) }
    ensures sites { IfOk result
        (AreSites methods.now.leaves.now methods.now.scripts.now) }
{
    let room = MOST_SITES - sites.jobs.sites.len() as u32;
    let bytes = read_file(alloc, inputs, name, CLASS_LIMIT)?;
    let view = class_of(alloc, name, &bytes, room)?;
    with_class(alloc, name, &view, methods, sites)
}

// Reads class files in order, and puts their call sites after the others.
fn read_classes<'a, I: Inputs>(
    alloc: Global,
    inputs: &mut I,
    names: &[&'a str],
    methods: &Methods<'_>,
    sites: Sites,
) -> Result<Sites, Stop<'a>>
    requires sites { AreSites methods.now.leaves.now methods.now.scripts.now sites }
    ensures stop { IfErr result
        (StopsClasses methods.now.leaves.now methods.now.scripts.now (said names.now)
        (I.contents inputs.old) (I.faults inputs.old) (I.faults inputs.new) sites) }
    ensures ok { IfOk result (AddsClasses methods.now.leaves.now methods.now.scripts.now
        (said names.now) (I.contents inputs.old) sites) }
    ensures sites { IfOk result
        (AreSites methods.now.leaves.now methods.now.scripts.now) }
{
    let Some((name, others)) = names.split_first() else {
        return Ok(sites);
    };
    let sites = read_class(alloc, inputs, *name, methods, sites)?;
    read_classes(alloc, inputs, others, methods, sites)
}

// No call sites.
fn no_sites(alloc: Global) -> Sites
    ensures none { result ≡ no_sites }
    ensures sites { (leaves : LeafTable) (scripts : List Script) → AreSites leaves scripts result }
{
    Sites {
        jobs: RunJobs::new(alloc),
        places: Seq::new(alloc),
    }
}

/// Reads the leaves, the scripts and the class files of a run in this order, up to the first that
/// stops it.
pub(crate) fn read_given<'a, I: Inputs>(
    alloc: Global,
    inputs: &mut I,
    names: &Names<'a>,
) -> Result<Given, Stop<'a>>
    ensures stop { IfErr result
        (StopsReading (held_names names.now) (I.contents inputs.old)
        (I.faults inputs.old) (I.faults inputs.new)) }
    ensures ok { IfOk result (IsRead (held_names names.now) (I.contents inputs.old)) }
    ensures sites { IfOk result
        (λ given. AreSites given.leaves given.scripts given.sites) }
{
    let leaves = read_leaves(alloc, inputs, names.leaves)?;
    let scripts = read_scripts(alloc, inputs, names.scripts)?;
    let methods = Methods {
        leaves: &leaves,
        scripts: &scripts,
    };
    let none = no_sites(alloc);
    let sites = read_classes(alloc, inputs, &names.classes, &methods, none)?;
    Ok(Given {
        leaves,
        scripts,
        sites,
    })
}
