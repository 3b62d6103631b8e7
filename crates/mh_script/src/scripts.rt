ghost use Rattle.std.specs.Prelude.{◌≡◌, ◌<◌, [], ◌∷◌, ◌++◌, length, slice_get, Some, IfOk, IfSome};
ghost use Rattle.mh_script.specs.Find.{script_named, has_owner};
ghost use Rattle.mh_script.specs.Limits.{CanRun};

use crate::Script;
use crate::index::{ByOwner, owned, with_number};
use mh_base::NoMemory;
use mh_leaves::Reference;
use std::alloc::Global;
use std::collections::BTreeMap;
use std::marker::Model;

/// A script, by its number in the file, from 0.
#[derive(Clone, Copy, Debug, PartialEq, Eq)]
pub struct ScriptId(pub u32);

/// The scripts of a file, in their order. Contracts see the list of them; each can run.
#[derive(Drop)]
pub struct Scripts {
    scripts: Vec<Script>,
    places: ByOwner,
}

impl Model for Scripts {
    ghost use Rattle.std.specs.Prelude.{List, All};
    ghost use Rattle.mh_script.specs.declared.script.Script.{Script as OneScript};
    ghost use Rattle.mh_script.specs.Find.{ArePlaces};
    ghost use Rattle.mh_script.specs.Limits.{CanRun};

    ghost Value = { List OneScript };

    ghost view = { λ s. s.scripts.items };

    ghost invariant = { λ s. ArePlaces s.places s.scripts.items × All CanRun s.scripts.items };
}

// The number of a script after this many others.
fn next_number(count: usize) -> Result<u32, NoMemory>
    ensures { IfOk result (λ number. number ≡ count) }
{
    u32::try_from(count).or(Err(NoMemory))
}

impl Scripts {
    /// No script.
    pub(crate) fn new(alloc: Global) -> Scripts
        ensures { result ≡ [] }
    {
        Scripts {
            scripts: Vec::new(alloc),
            places: BTreeMap::new(alloc),
        }
    }

    /// These scripts and one more. A script that no `u32` can number counts as lack of memory.
    pub(crate) fn with(self, alloc: Global, script: Script) -> Result<Scripts, NoMemory>
        requires { CanRun script }
        ensures { IfOk result (λ more. more ≡ self ++ script ∷ []) }
    {
        let Scripts {
            mut scripts,
            places,
        } = self;
        let number = next_number(scripts.len())?;
        let texts = Reference {
            owner: script.method.owner.as_slice(),
            name: script.method.name.as_slice(),
            descriptor: script.method.descriptor.as_slice(),
        };
        let places = with_number(alloc, places, texts, number)?;
        scripts.push(script)?;
        Ok(Scripts { scripts, places })
    }

    /// The number of scripts.
    pub fn len(&self) -> usize
        ensures { result ≡ length self.now }
    {
        self.scripts.len()
    }

    /// The script of a number.
    pub fn get(&self, id: ScriptId) -> &Script
        requires { id.0 < length self.now }
        ensures script { slice_get self.now id.0 ≡ Some result.now }
        ensures runs { CanRun result.now }
    {
        &self.scripts[id.0 as usize]
    }

    /// The script with this owner, name and descriptor. It takes no memory, and about the same time
    /// for any number of scripts.
    pub fn find(&self, owner: &[u8], name: &[u8], descriptor: &[u8]) -> Option<ScriptId>
        ensures found { result ≡ script_named self.now owner.now name.now descriptor.now }
        ensures within { IfSome result (λ id. id.0 < length self.now) }
    {
        let texts = Reference {
            owner,
            name,
            descriptor,
        };
        let at = owned(&self.places, texts)?;
        Some(ScriptId(at))
    }

    /// Whether some script has this owner. It takes no memory.
    pub fn has_owner(&self, owner: &[u8]) -> bool
        ensures { result ≡ has_owner self.now owner.now }
    {
        self.places.get(owner).is_some()
    }
}
