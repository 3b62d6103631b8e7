ghost use Rattle.std.specs.Prelude.{◌≡◌, ◌<◌, ◌^◌, ℕ, List, IfOk, OnOk, OnErr, None, Some};
ghost use Rattle.mh_values.specs.declared.class.ClassId.{ClassId as Class};
ghost use Rattle.std.specs.BTreeMap.{btree_map_len};
ghost use Rattle.mh_leaves.specs.Numbers.{text_number, AreNumbered, AreGrown, AreByTexts};

use mh_base::NoMemory;
use mh_values::ClassId;
use std::alloc::Global;
use std::collections::BTreeMap;

/// The number of a text, which it gets if it has none.
fn number_text(
    alloc: Global,
    texts: &mut BTreeMap<Vec<u8>, usize>,
    text: &[u8],
) -> Result<usize, NoMemory>
    requires { AreNumbered texts.old }
    ensures number { IfOk result (λ n. text_number texts.new text.now ≡ Some n) }
    ensures grown { AreGrown texts.old texts.new }
    ensures numbered { AreNumbered texts.new }
{
    if let Some(number) = texts.get(text) {
        return Ok(*number);
    }
    let number = texts.len();
    texts.insert(Vec::from_slice(alloc, text)?, number)?;
    Ok(number)
}

/// The leaves of a list by their owners, names and descriptors. Each text has a number, so that a
/// key is three numbers, and a look-up takes no memory.
#[derive(Drop)]
pub(crate) struct Index {
    texts: BTreeMap<Vec<u8>, usize>,
    leaves: BTreeMap<(u32, usize, usize), u32>,
    ghost numbered: { AreNumbered texts },
    ghost by_texts: { AreByTexts texts leaves },
}

impl Index {
    ghost use Rattle.mh_leaves.specs.Index.{found_at, FindsSame, FindsOneMore};

    /// No leaf.
    pub(crate) fn new(alloc: Global) -> Index
        ensures { (owner : Class) (name descriptor : List ℕ) →
            found_at result owner name descriptor ≡ None }
    {
        Index {
            texts: BTreeMap::new(alloc),
            leaves: BTreeMap::new(alloc),
        }
    }

    /// The number of the leaf of an owner with a name and a descriptor.
    pub(crate) fn find(&self, owner: ClassId, name: &[u8], descriptor: &[u8]) -> Option<u32>
        ensures { result ≡ found_at self.now owner name.now descriptor.now }
    {
        let name = self.texts.get(name)?;
        let descriptor = self.texts.get(descriptor)?;
        self.leaves.get(&(owner.0, *name, *descriptor)).copied()
    }

    /// Gives the leaf of an owner with a name and a descriptor its number.
    pub(crate) fn add(
        &mut self,
        alloc: Global,
        owner: ClassId,
        name: &[u8],
        descriptor: &[u8],
        number: u32,
    ) -> Result<(), NoMemory>
        ensures ok { OnOk result
            (FindsOneMore self.old self.new owner name.now descriptor.now number) }
        ensures err { OnErr result (FindsSame self.old self.new) }
    {
        let name = number_text(alloc, &mut self.texts, name)?;
        let descriptor = number_text(alloc, &mut self.texts, descriptor)?;
        self.leaves.insert((owner.0, name, descriptor), number)?;
        Ok(())
    }
}
