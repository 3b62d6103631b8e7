ghost use Rattle.std.specs.Prelude.{◌≡◌, ◌++◌, ◌≤◌, ◌<◌, IfOk, OnOk};
ghost use Rattle.std.specs.Fmt.{decimal};
ghost use Rattle.mh_generated.specs.Plan.{call_text, generated_plan, thread_text};

use crate::counts::{CALLS_OF_THREAD, site_count, thread_count};
use itoa::Buffer;
use mh_base::NoMemory;
use std::alloc::Global;

fn push_number(text: &mut Vec<u8>, number: u32) -> Result<(), NoMemory>
    ensures { OnOk result (text.new.items ≡ text.old.items ++ decimal number) }
{
    text.extend_from_slice(Buffer::new().format(number).as_bytes())?;
    Ok(())
}

// The line of a call: the site that it calls, and its number as the argument.
#[tactic(auto, unfolding(crate::specs::Plan::call_text))]
fn push_call(text: &mut Vec<u8>, sites: u32, thread: u32, call: u32) -> Result<(), NoMemory>
    requires some { 1 ≤ sites }
    requires thread { thread < 8 }
    requires call { call < 1000 }
    ensures { OnOk result (text.new.items ≡ text.old.items ++ call_text sites thread call) }
{
    text.extend_from_slice(b"indy ")?;
    push_number(text, (thread + call) % sites)?;
    text.extend_from_slice(b" i:")?;
    push_number(text, call)?;
    text.extend_from_slice(b"\n")?;
    Ok(())
}

// The lines of a thread.
fn push_thread(text: &mut Vec<u8>, sites: u32, thread: u32) -> Result<(), NoMemory>
    requires some { 1 ≤ sites }
    requires thread { thread < 8 }
    ensures { OnOk result (text.new.items ≡ text.old.items ++ thread_text sites thread) }
{
    text.extend_from_slice(b"thread\n")?;
    for call in 0..CALLS_OF_THREAD {
        push_call(text, sites, thread, call)?;
    }
    Ok(())
}

/// The plan.
pub(crate) fn plan_file(alloc: Global, number: u32) -> Result<Vec<u8>, NoMemory>
    ensures { IfOk result (λ text. text.items ≡ generated_plan number) }
{
    let sites = site_count(number);
    let mut text = Vec::new(alloc);
    for thread in 0..thread_count(number) {
        push_thread(&mut text, sites, thread)?;
    }
    Ok(text)
}
