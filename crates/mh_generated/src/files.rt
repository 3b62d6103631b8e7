ghost use Rattle.std.specs.Prelude.{◌≡◌, IfOk};
ghost use Rattle.mh_generated.specs.Files.{bytes_of, files_of};
ghost use Rattle.mh_generated.specs.Sites.{class_file};
ghost use Rattle.mh_generated.specs.Plan.{generated_plan};

use crate::plan::plan_file;
use crate::sites::class_file;
use crate::texts::{manifest, scripts};
use mh_base::NoMemory;
use mh_outside::{Failed, Inputs, copy_from};
use std::alloc::Global;

/// The name of the manifest.
pub const LEAVES: &str = "leaves";

/// The name of the scripts.
pub const SCRIPTS: &str = "scripts";

/// The name of the class file.
pub const CLASS: &str = "class";

/// The name of the plan.
pub const PLAN: &str = "plan";

/// The input of a run that is made from a number, as four files in memory that can always be read.
/// A file of any other name is empty.
#[derive(Drop)]
pub struct GeneratedFiles {
    pub number: u32,
    class: Vec<u8>,
    plan: Vec<u8>,
    ghost class_made: { class.items ≡ class_file number },
    ghost plan_made: { plan.items ≡ generated_plan number },
}

/// Makes the input from a number.
pub fn generate(alloc: Global, number: u32) -> Result<GeneratedFiles, NoMemory>
    ensures { IfOk result (λ files. files.number ≡ number) }
{
    Ok(GeneratedFiles {
        number,
        class: class_file(alloc, number)?,
        plan: plan_file(alloc, number)?,
    })
}

impl GeneratedFiles {
    // The bytes of a file.
    fn bytes(&self, name: &str) -> &[u8]
        ensures { result.now ≡ bytes_of self.now.number name.now }
    {
        match name {
            "leaves" => manifest(),
            "scripts" => scripts(),
            "class" => &self.class,
            "plan" => &self.plan,
            _ => &[],
        }
    }
}

impl Inputs for GeneratedFiles {
    ghost contents = { λ s. files_of s.number };

    ghost faults = { λ _ _. 0 };

    ghost reached = { λ _ _. 0 };

    ghost starts = { λ _. 0 };

    fn read(&mut self, name: &str, at: u64, buf: &mut [u8]) -> Result<usize, Failed> {
        Ok(copy_from(self.bytes(name), at, buf))
    }
}
