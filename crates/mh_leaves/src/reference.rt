ghost use Rattle.std.specs.Prelude.{◌≡◌, option_map};
ghost use Rattle.std.specs.List.{list_all};
ghost use Rattle.mh_leaves.specs.Reference.{ends_names, is_of_class_name, is_of_method_name, is_class_name, is_method_name, texts_of, reference_of};

use mh_base::split_once;

/// The texts by which a leaf is named: those of its owner and its name, and its descriptor as the
/// manifest writes it.
#[derive(Clone, Copy, Debug)]
pub struct Reference<'b> {
    pub owner: &'b [u8],
    pub name: &'b [u8],
    pub descriptor: &'b [u8],
}

impl<'b> Reference<'b> {
    ghost use Rattle.mh_leaves.specs.Reference.{if_named, texts_of};

    /// The same texts, if the first two are names.
    fn if_named(self) -> Option<Reference<'b>>
        ensures { option_map texts_of result ≡ if_named (texts_of self.entry) }
    {
        if is_class_name(self.owner) && is_method_name(self.name) {
            Some(self)
        } else {
            None
        }
    }
}

/// Whether a character is in no name: a space or one of `. ; [ : ,`.
fn ends_names(byte: u8) -> bool
    ensures { result ≡ ends_names byte }
{
    matches!(byte, b' ' | b'.' | b';' | b'[' | b':' | b',')
}

fn is_of_class_name(byte: u8) -> bool
    ensures { result ≡ is_of_class_name byte }
{
    !(ends_names(byte) || byte == b'#')
}

fn is_of_method_name(byte: u8) -> bool
    ensures { result ≡ is_of_method_name byte }
{
    !(ends_names(byte) || byte == b'/')
}

fn are_of_class_name(name: &[u8]) -> bool
    ensures { result ≡ list_all is_of_class_name name.now }
{
    name.iter().all(|byte| is_of_class_name(*byte))
}

fn are_of_method_name(name: &[u8]) -> bool
    ensures { result ≡ list_all is_of_method_name name.now }
{
    name.iter().all(|byte| is_of_method_name(*byte))
}

/// Whether a text may name a class: it has one or more characters, none of them a space or one of
/// `. ; [ : # ,`.
pub fn is_class_name(name: &[u8]) -> bool
    ensures { result ≡ is_class_name name.now }
{
    !name.is_empty() && are_of_class_name(name)
}

/// Whether a text may name a method: it has one or more characters, none of them a space or one of
/// `. ; [ / : ,`.
pub fn is_method_name(name: &[u8]) -> bool
    ensures { result ≡ is_method_name name.now }
{
    !name.is_empty() && are_of_method_name(name)
}

/// The texts of a reference `OWNER.NAME:DESC`: the owner ends at the first `.`, the name at the
/// next `:`, and the rest is the descriptor, whatever it is. `None` if the owner or the name is
/// none.
pub fn read_reference(text: &[u8]) -> Option<Reference<'_>>
    ensures { option_map texts_of result ≡ reference_of text.now }
{
    let (owner, rest) = split_once(text, b'.')?;
    let (name, descriptor) = split_once(rest, b':')?;
    Reference {
        owner,
        name,
        descriptor,
    }
    .if_named()
}
