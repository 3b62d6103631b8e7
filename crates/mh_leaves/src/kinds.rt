ghost use Rattle.std.specs.Prelude.{◌≡◌, option_copied};
ghost use Rattle.mh_leaf.specs.Outcome.{is_well_typed};
ghost use Rattle.mh_leaves.specs.Kinds.{rows_of, kind_of_row, word_kind};
ghost use Rattle.mh_leaves.specs.Manifest.{thrown_name, is_kind_word, throw_kind, kind_among};

use crate::reference::is_class_name;
use mh_leaf::{Kind, Leaf, is_kind_type, throws_exceptions};
use mh_values::Classes;

/// The kinds of a word alone, each after its word.
const WORD_KINDS: [(&str, Kind); 15] = [
    ("iadd", Kind::Iadd),
    ("isub", Kind::Isub),
    ("imul", Kind::Imul),
    ("idiv", Kind::Idiv),
    ("ladd", Kind::Ladd),
    ("ieq", Kind::Ieq),
    ("ilt", Kind::Ilt),
    ("not", Kind::Not),
    ("concat", Kind::Concat),
    ("length", Kind::Length),
    ("same", Kind::Same),
    ("first", Kind::First),
    ("pick", Kind::Pick),
    ("tick", Kind::Tick),
    ("note", Kind::Note),
];

/// The kind of a word among rows: that of the first row with the word.
fn kind_of_row(rows: &[(&str, Kind)], word: &[u8]) -> Option<Kind>
    ensures { result ≡ kind_of_row (rows_of rows.now) word.now }
{
    for (own, kind) in rows {
        if word == own.as_bytes() {
            return Some(*kind);
        }
    }
    None
}

/// The kind of a word alone.
fn word_kind(word: &[u8]) -> Option<Kind>
    ensures { result ≡ word_kind word.now }
{
    kind_of_row(&WORD_KINDS, word)
}

/// The class name of `throw:CLASS`.
fn thrown_name(word: &[u8]) -> Option<&[u8]>
    ensures { option_copied result ≡ thrown_name word.now }
{
    let name = word.strip_prefix(b"throw:")?;
    if is_class_name(name) {
        Some(name)
    } else {
        None
    }
}

/// Whether a word is that of a kind.
pub(crate) fn is_kind_word(word: &[u8]) -> bool
    ensures { result ≡ is_kind_word word.now }
{
    word_kind(word).is_some() || thrown_name(word).is_some()
}

/// The kind that throws an exception of a class of this name.
fn throw_kind(word: &[u8], classes: &Classes) -> Option<Kind>
    ensures { result ≡ throw_kind classes.now word.now }
{
    let name = thrown_name(word)?;
    let class = classes.find(name)?;
    Some(Kind::Throw(class))
}

/// The kind of a word; `None` also if its class is not declared.
pub(crate) fn kind_among(word: &[u8], classes: &Classes) -> Option<Kind>
    ensures { result ≡ kind_among classes.now word.now }
{
    if let Some(kind) = word_kind(word) {
        return Some(kind);
    }
    throw_kind(word, classes)
}

/// Whether the kind of a leaf allows its type.
pub(crate) fn is_well_typed(leaf: &Leaf, classes: &Classes) -> bool
    ensures { result ≡ is_well_typed classes.now leaf.now }
{
    is_kind_type(leaf.kind, &leaf.ty) && throws_exceptions(leaf.kind, classes)
}
