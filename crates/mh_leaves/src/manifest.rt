ghost use Rattle.std.specs.Prelude.{◌≡◌, ◌<◌, false, length, map, None, Ok, IfOk};
ghost use Rattle.std.specs.List.{list_all, list_any};
ghost use Rattle.mh_base.specs.Lines.{TakesLine, built_from};
ghost use Rattle.mh_values.specs.Classes.{class_named};
ghost use Rattle.mh_values.specs.Descriptor.{desc};
ghost use Rattle.mh_leaves.specs.Fault.{TellsManifest, TellsInto};
ghost use Rattle.mh_leaves.specs.Find.{has_texts};
ghost use Rattle.mh_leaves.specs.Names.{KnowsNames};
ghost use Rattle.mh_leaves.specs.Reference.{texts_of};
ghost use Rattle.mh_leaves.specs.Registered.{IsDescribed, handle_type};
ghost use Rattle.mh_leaves.specs.Manifest.{manifest, kind_word, class_added, class_line, knows_name, knows_names, has_known_classes, type_if_read, leaf_added, leaf_of_line, owned_leaf, is_leaf_text, leaf_line, three_tokens, five_tokens, is_virtual_word, tokens_meaning, line_meaning};
ghost use Rattle.mh_leaves.specs.Unknown.{TellsNames};
ghost use Rattle.mh_leaves.specs.Written.{manifest_text};
ghost use Rattle.mh_leaves.specs.declared.manifest.ManifestError.TheVariants.{NoMemory as WithoutMemory};

use crate::kinds::{is_kind_word, is_well_typed, kind_among};
use crate::leaves::MOST_LEAVES;
use crate::{Leaves, Reference, is_class_name, is_method_name};
use mh_base::{
    LineError, LineFault, NoMemory, Seq, is_passed, is_plain, split_at_byte, split_once,
};
use mh_leaf::{Kind, Leaf};
use mh_values::{
    ClassId, Classes, DescriptorError, MOST_SLOTS, MethodTy, Ty, all_slots, descriptor_text,
    read_descriptor,
};
use std::alloc::{AllocError, Global};
use std::error::Error;
use std::fmt;

/// What is wrong with a line of a manifest. If several kinds apply, the line has the first of them.
#[derive(Clone, Copy, Debug, PartialEq, Eq)]
pub enum ManifestKind {
    /// The line is no line of a manifest, or has a text in the place of a name or a kind that is
    /// none.
    BadLine,
    /// The class is declared, or the leaf registered, already.
    Twice,
    /// A class that the line names is not declared.
    UnknownClass,
    /// The descriptor is none, has a type that `mh` lacks, or gives a method handle of more than
    /// 254 slots.
    BadDescriptor,
    /// The kind does not allow the type, or throws what is no exception.
    BadKind,
    /// 1,024 classes were declared before this one, or 4,096 leaves registered.
    TooMany,
}

impl ManifestKind {
    /// The kind's name, as a refusal prints it.
    pub fn word(self) -> &'static str
        ensures { result.now ≡ kind_word self }
    {
        match self {
            ManifestKind::BadLine => "BadLine",
            ManifestKind::Twice => "Twice",
            ManifestKind::UnknownClass => "UnknownClass",
            ManifestKind::BadDescriptor => "BadDescriptor",
            ManifestKind::BadKind => "BadKind",
            ManifestKind::TooMany => "TooMany",
        }
    }
}

/// The first faulty line of a manifest, counted from 1.
pub type ManifestFault = LineFault<ManifestKind>;

/// Why a manifest was not read.
#[derive(Clone, Copy, Debug, PartialEq, Eq)]
pub enum ManifestError {
    NoMemory,
    Fault(ManifestFault),
}

impl fmt::Display for ManifestError {
    fn fmt<W: fmt::Write>(&self, f: &mut fmt::Formatter<W>) -> fmt::Result {
        match self {
            ManifestError::NoMemory => f.write_str("no memory is left"),
            ManifestError::Fault(fault) => {
                let (line, kind) = (fault.line, fault.kind.word());
                write!(f, "line {line}: {kind}")
            }
        }
    }
}

impl Error for ManifestError {}

impl From<NoMemory> for ManifestError {
    ghost from_gives = { λ _ e. e ≡ WithoutMemory };

    fn from(_: NoMemory) -> Self {
        ManifestError::NoMemory
    }
}

impl From<AllocError> for ManifestError {
    ghost from_gives = { λ _ e. e ≡ WithoutMemory };

    fn from(_: AllocError) -> Self {
        ManifestError::NoMemory
    }
}

/// How a line was taken.
type LineResult = Result<(), LineError<ManifestKind>>;

/// A leaf of a line: its owner and its kind are known, and its descriptor is not read yet.
#[derive(Clone, Copy)]
struct LeafLine<'b> {
    is_virtual: bool,
    texts: Reference<'b>,
    owner: ClassId,
    kind: Kind,
}

// Declares a class below a declared one.
fn add_class(leaves: &mut Leaves, name: &[u8], superclass: ClassId) -> LineResult
    requires new { class_named leaves.old.classes name.now ≡ None }
    requires superclass { superclass.0 < length leaves.old.classes }
    ensures { TakesLine leaves.new result (class_added leaves.old name.now superclass) }
{
    if leaves.has_most_classes() {
        return Err(LineError::Kind(ManifestKind::TooMany));
    }
    leaves.add_class(name, superclass)?;
    Ok(())
}

// Takes a line `class NAME SUPER`.
fn read_class(leaves: &mut Leaves, name: &[u8], superclass: &[u8]) -> LineResult
    ensures { TakesLine leaves.new result (class_line leaves.old name.now superclass.now) }
{
    if !(is_class_name(name) && is_class_name(superclass)) {
        return Err(LineError::Kind(ManifestKind::BadLine));
    }
    if leaves.class_of(name).is_some() {
        return Err(LineError::Kind(ManifestKind::Twice));
    }
    let Some(superclass) = leaves.class_of(superclass) else {
        return Err(LineError::Kind(ManifestKind::UnknownClass));
    };
    add_class(leaves, name, superclass)
}

// The type of a leaf's method handle: a receiver comes first.
fn handle_type(
    alloc: Global,
    is_virtual: bool,
    owner: ClassId,
    ty: MethodTy,
) -> Result<MethodTy, NoMemory>
    ensures { IfOk result (λ t. t ≡ handle_type is_virtual owner ty) }
{
    if !is_virtual {
        return Ok(ty);
    }
    let mut params = Seq::new(alloc);
    params.push(Ty::Class(owner))?;
    params.append(ty.params)?;
    Ok(MethodTy {
        params,
        ret: ty.ret,
    })
}

// Registers a leaf.
fn add_leaf(alloc: Global, leaves: &mut Leaves, leaf: Leaf) -> LineResult
    requires owner { leaf.owner.0 < length leaves.old.classes }
    requires new { list_any (has_texts leaf.owner leaf.name leaf.descriptor) leaves.old.leaves
        ≡ false }
    requires described { IsDescribed leaves.old.classes leaf }
    ensures { TakesLine leaves.new result (leaf_added leaves.old leaf) }
{
    if all_slots(leaf.ty.params.as_slice()) > MOST_SLOTS {
        return Err(LineError::Kind(ManifestKind::BadDescriptor));
    }
    if !is_well_typed(&leaf, leaves.classes()) {
        return Err(LineError::Kind(ManifestKind::BadKind));
    }
    if leaves.count() == MOST_LEAVES {
        return Err(LineError::Kind(ManifestKind::TooMany));
    }
    leaves.add_leaf(alloc, leaf)?;
    Ok(())
}

// Whether the class that a piece of a descriptor names is declared, if it names one.
fn knows_name(classes: &Classes, piece: &[u8]) -> bool
    ensures { result ≡ knows_name classes.now piece.now }
{
    match split_once(piece, b'L') {
        Some((_, name)) => classes.find(name).is_some(),
        None => true,
    }
}

// Whether the classes that pieces of a descriptor name are declared.
fn knows_each(classes: &Classes, pieces: &[&[u8]]) -> bool
    ensures { result ≡ list_all (λ piece. knows_name classes.now piece.now) pieces.now }
{
    pieces.iter().all(|piece| knows_name(classes, piece))
}

// Whether the classes that a descriptor names are declared.
fn knows_names(alloc: Global, classes: &Classes, descriptor: &[u8]) -> Result<bool, NoMemory>
    ensures { IfOk result (λ known. known ≡ knows_names classes.now descriptor.now) }
{
    let pieces = split_at_byte(alloc, descriptor, b';')?;
    Ok(knows_each(classes, &pieces))
}

// Whether each class that a text names is declared, if the text is a descriptor.
fn has_known_classes(alloc: Global, classes: &Classes, descriptor: &[u8]) -> Result<bool, NoMemory>
    ensures names { IfOk result (λ known. KnowsNames classes.now descriptor.now known) }
    ensures is { IfOk result (λ known. known ≡ has_known_classes classes.now descriptor.now) }
{
    if descriptor_text(descriptor).is_err() {
        return Ok(true);
    }
    knows_names(alloc, classes, descriptor)
}

/// The type of a descriptor, if it is one and all its types can be read.
pub fn type_of(
    alloc: Global,
    classes: &Classes,
    descriptor: &[u8],
) -> Result<Option<MethodTy>, NoMemory>
    ensures { IfOk result (λ t. t ≡ type_if_read (desc classes.now descriptor.now)) }
{
    match read_descriptor(alloc, descriptor, classes) {
        Ok(ty) => Ok(Some(ty)),
        Err(DescriptorError::NoMemory) => Err(NoMemory),
        Err(_) => Ok(None),
    }
}

// The leaf of a line with a type, which lacks the receiver.
fn leaf_of(alloc: Global, line: LeafLine<'_>, ty: MethodTy) -> Result<Leaf, NoMemory>
    ensures { IfOk result
        (λ leaf. leaf ≡ leaf_of_line line.entry.is_virtual (texts_of line.entry.texts)
        line.entry.owner line.entry.kind ty) }
{
    let ty = handle_type(alloc, line.is_virtual, line.owner, ty)?;
    let name = Seq::copy_of(alloc, line.texts.name)?;
    let descriptor = Seq::copy_of(alloc, line.texts.descriptor)?;
    Ok(Leaf {
        owner: line.owner,
        name,
        descriptor,
        is_virtual: line.is_virtual,
        ty,
        kind: line.kind,
    })
}

// Registers the leaf of a line.
fn read_owned(alloc: Global, leaves: &mut Leaves, line: LeafLine<'_>) -> LineResult
    requires owner { line.owner.0 < length leaves.old.classes }
    requires new { list_any (has_texts line.owner line.texts.name.now line.texts.descriptor.now)
        leaves.old.leaves ≡ false }
    ensures { TakesLine leaves.new result
        (owned_leaf leaves.old line.entry.is_virtual (texts_of line.entry.texts)
        line.entry.owner line.entry.kind) }
{
    if !has_known_classes(alloc, leaves.classes(), line.texts.descriptor)? {
        return Err(LineError::Kind(ManifestKind::UnknownClass));
    }
    let Some(ty) = type_of(alloc, leaves.classes(), line.texts.descriptor)? else {
        return Err(LineError::Kind(ManifestKind::BadDescriptor));
    };
    let leaf = leaf_of(alloc, line, ty)?;
    add_leaf(alloc, leaves, leaf)
}

// Whether the texts of a leaf's line are of the right form.
fn is_leaf_text(texts: Reference<'_>, word: &[u8]) -> bool
    ensures { result ≡ is_leaf_text (texts_of texts.entry) word.now }
{
    is_class_name(texts.owner)
        && is_method_name(texts.name)
        && !texts.descriptor.is_empty()
        && is_kind_word(word)
}

// Takes a line of a leaf.
fn read_leaf(
    alloc: Global,
    leaves: &mut Leaves,
    is_virtual: bool,
    texts: Reference<'_>,
    word: &[u8],
) -> LineResult
    ensures { TakesLine leaves.new result
        (leaf_line leaves.old is_virtual (texts_of texts.entry) word.now) }
{
    if !is_leaf_text(texts, word) {
        return Err(LineError::Kind(ManifestKind::BadLine));
    }
    let Some(owner) = leaves.class_of(texts.owner) else {
        return Err(LineError::Kind(ManifestKind::UnknownClass));
    };
    if leaves.is_registered(owner, texts.name, texts.descriptor) {
        return Err(LineError::Kind(ManifestKind::Twice));
    }
    let Some(kind) = kind_among(word, leaves.classes()) else {
        return Err(LineError::Kind(ManifestKind::UnknownClass));
    };
    let line = LeafLine {
        is_virtual,
        texts,
        owner,
        kind,
    };
    read_owned(alloc, leaves, line)
}

// Whether a leaf of a line that begins with this word has a receiver.
fn is_virtual_word(word: &[u8]) -> Option<bool>
    ensures { result ≡ is_virtual_word word.now }
{
    if word == b"static".as_slice() {
        Some(false)
    } else if word == b"virtual".as_slice() {
        Some(true)
    } else {
        None
    }
}

// Takes a line of three tokens.
fn read_three(leaves: &mut Leaves, word: &[u8], name: &[u8], superclass: &[u8]) -> LineResult
    ensures { TakesLine leaves.new result
        (three_tokens leaves.old word.now name.now superclass.now) }
{
    if word != b"class".as_slice() {
        return Err(LineError::Kind(ManifestKind::BadLine));
    }
    read_class(leaves, name, superclass)
}

// Takes a line of five tokens.
fn read_five(
    alloc: Global,
    leaves: &mut Leaves,
    word: &[u8],
    texts: Reference<'_>,
    kind: &[u8],
) -> LineResult
    ensures { TakesLine leaves.new result
        (five_tokens leaves.old word.now (texts_of texts.entry) kind.now) }
{
    let Some(is_virtual) = is_virtual_word(word) else {
        return Err(LineError::Kind(ManifestKind::BadLine));
    };
    read_leaf(alloc, leaves, is_virtual, texts, kind)
}

// Takes the tokens of a line.
fn read_tokens(alloc: Global, leaves: &mut Leaves, tokens: &[&[u8]]) -> LineResult
    ensures { TakesLine leaves.new result
        (tokens_meaning leaves.old (map (λ t. t.now) tokens.now)) }
{
    match tokens {
        [word, name, superclass] => read_three(leaves, word, name, superclass),
        [word, owner, name, descriptor, kind] => {
            let texts = Reference {
                owner: *owner,
                name: *name,
                descriptor: *descriptor,
            };
            read_five(alloc, leaves, word, texts, kind)
        }
        _ => Err(LineError::Kind(ManifestKind::BadLine)),
    }
}

// Takes a line.
fn read_line(alloc: Global, leaves: &mut Leaves, line: &[u8]) -> LineResult
    ensures { TakesLine leaves.new result (line_meaning leaves.old line.now) }
{
    if !is_plain(line) {
        return Err(LineError::Kind(ManifestKind::BadLine));
    }
    if is_passed(line) {
        return Ok(());
    }
    let tokens = split_at_byte(alloc, line, b' ')?;
    read_tokens(alloc, leaves, &tokens)
}

// Takes lines, numbered from 1, up to the first faulty one.
fn read_lines(alloc: Global, leaves: &mut Leaves, lines: &[&[u8]]) -> Result<(), ManifestError>
    ensures { TellsInto leaves.new result
        (built_from line_meaning 1 leaves.old (map (λ l. l.now) lines.now)) }
{
    let mut number = 1u32;
    for line in lines {
        match read_line(alloc, leaves, line) {
            Ok(()) => {}
            Err(LineError::NoMemory) => return Err(ManifestError::NoMemory),
            Err(LineError::Kind(kind)) => {
                return Err(ManifestError::Fault(LineFault { line: number, kind }));
            }
        }
        number = number.checked_add(1).ok_or(NoMemory)?;
    }
    Ok(())
}

// Reads a manifest.
fn read_all(alloc: Global, bytes: &[u8]) -> Result<Leaves, ManifestError>
    ensures { TellsManifest result (manifest bytes.now) }
{
    let lines = split_at_byte(alloc, bytes, b'\n')?;
    let mut leaves = Leaves::new(alloc)?;
    read_lines(alloc, &mut leaves, &lines)?;
    Ok(leaves)
}

/// Reads a manifest, or gives its first faulty line. A line that no `u32` can number counts as lack
/// of memory.
pub fn read_manifest(alloc: Global, bytes: &[u8]) -> Result<Leaves, ManifestError>
    ensures meaning { TellsManifest result (manifest bytes.now) }
    ensures names { TellsNames bytes.now result }
    ensures again { IfOk result (λ leaves. manifest (manifest_text leaves) ≡ Ok leaves) }
{
    read_all(alloc, bytes)
}
