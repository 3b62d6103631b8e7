ghost use Rattle.std.specs.Prelude.{◌≡◌, ◌<◌, [], ◌∷◌, ◌++◌, map, length, OnOk};
ghost use Rattle.mh_base.specs.Lines.{TakesLine, TellsLine, built_from};
ghost use Rattle.mh_plan.specs.Plan.{leaf_named, call_by, leaf_call, site_numbered, indy_call, call_meaning, with_call, tokens_meaning, line_meaning};
ghost use Rattle.mh_plan.specs.Fault.{TellsLines};

use crate::arguments::read_arguments;
use crate::call::params_at;
use crate::grammar::leaf_texts;
use crate::kinds::LineResult;
use crate::{Call, PlanError, PlanKind, ThreadCalls};
use mh_base::{LineError, LineFault, NoMemory, Seq, is_passed, split_at_byte};
use mh_jobs::Jobs;
use mh_leaves::{How, Leaves, type_of};
use mh_texts::read_unsigned;
use mh_values::{Classes, Items, LeafId, MethodTy};
use std::alloc::Global;

/// What the calls of a plan may call: leaves and call sites.
#[derive(Clone, Copy)]
pub(crate) struct Callees<'a> {
    pub leaves: &'a Leaves,
    pub jobs: &'a Jobs,
}

// The tokens of a call.
#[derive(Clone, Copy)]
struct CallTokens<'b> {
    word: &'b [u8],
    subject: &'b [u8],
    rest: &'b [&'b [u8]],
}

// The leaf of a reference.
fn leaf_named(leaves: &Leaves, token: &[u8]) -> Option<LeafId>
    ensures { result ≡ leaf_named leaves.now token.now }
{
    let texts = leaf_texts(token)?;
    leaves
        .find(texts.owner, texts.name, texts.descriptor, How::Any)
        .ok()
}

// The call that a word begins.
fn call_by(word: &[u8], leaf: LeafId, ty: MethodTy, values: Items) -> Call
    ensures { result ≡ call_by word.now leaf ty values }
{
    if word == b"exact".as_slice() {
        Call::Exact(leaf, ty, values)
    } else {
        Call::Generic(leaf, ty, values)
    }
}

// The call of a leaf by a type, with arguments.
fn read_leaf_call(
    alloc: Global,
    leaves: &Leaves,
    line: CallTokens<'_>,
) -> Result<Call, LineError<PlanKind>>
    ensures { TellsLine result (leaf_call leaves.now line.entry.word.now line.entry.subject.now
        (map (λ t. t.now) line.entry.rest.now)) }
{
    let [asked, args @ ..] = line.rest else {
        return Err(LineError::Kind(PlanKind::BadType));
    };
    let Some(leaf) = leaf_named(leaves, line.subject) else {
        return Err(LineError::Kind(PlanKind::NoLeaf));
    };
    let Some(ty) = type_of(alloc, leaves.classes(), asked)? else {
        return Err(LineError::Kind(PlanKind::BadType));
    };
    let params = ty.params.as_slice();
    let Some(values) = read_arguments(alloc, leaves.classes(), args, params)? else {
        return Err(LineError::Kind(PlanKind::BadArguments));
    };
    Ok(call_by(line.word, leaf, ty, values))
}

// The call site of a number.
fn site_numbered(jobs: &Jobs, token: &[u8]) -> Option<u32>
    ensures { result ≡ site_numbered jobs.now token.now }
{
    let number = read_unsigned(token)?;
    if (number as usize) < jobs.len() {
        Some(number)
    } else {
        None
    }
}

// The call of a call site.
fn read_site_call(
    alloc: Global,
    classes: &Classes,
    jobs: &Jobs,
    line: CallTokens<'_>,
) -> Result<Call, LineError<PlanKind>>
    ensures { TellsLine result (indy_call classes.now jobs.now line.entry.subject.now
        (map (λ t. t.now) line.entry.rest.now)) }
{
    let Some(site) = site_numbered(jobs, line.subject) else {
        return Err(LineError::Kind(PlanKind::NoSite));
    };
    let params = params_at(jobs, site);
    let Some(values) = read_arguments(alloc, classes, line.rest, params)? else {
        return Err(LineError::Kind(PlanKind::BadArguments));
    };
    Ok(Call::Indy(site, values))
}

// The call that a word begins.
fn read_call(
    alloc: Global,
    of: &Callees<'_>,
    line: CallTokens<'_>,
) -> Result<Call, LineError<PlanKind>>
    ensures { TellsLine result (call_meaning of.now.leaves.now of.now.jobs.now
        line.entry.word.now line.entry.subject.now (map (λ t. t.now) line.entry.rest.now)) }
{
    if line.word == b"indy".as_slice() {
        read_site_call(alloc, of.leaves.classes(), of.jobs, line)
    } else {
        read_leaf_call(alloc, of.leaves, line)
    }
}

// Begins a thread after the others, without calls.
fn add_thread(alloc: Global, threads: &mut Vec<ThreadCalls>) -> Result<(), NoMemory>
    ensures { OnOk result (threads.new.items ≡ threads.old.items ++ [] ∷ []) }
{
    threads.push(Seq::new(alloc))?;
    Ok(())
}

// Appends a call to those of the last thread.
fn add_call(threads: &mut Vec<ThreadCalls>, call: Call) -> Result<(), NoMemory>
    ensures { OnOk result (threads.new.items ≡ with_call threads.old.items call) }
{
    let Some(mut calls) = threads.pop() else {
        return Ok(());
    };
    calls.push(call)?;
    threads.push(calls)?;
    Ok(())
}

// Takes the tokens of a line.
fn read_tokens(
    alloc: Global,
    of: &Callees<'_>,
    threads: &mut Vec<ThreadCalls>,
    tokens: &[&[u8]],
) -> LineResult
    ensures { TakesLine threads.new.items result (tokens_meaning of.now.leaves.now
        of.now.jobs.now threads.old.items (map (λ t. t.now) tokens.now)) }
{
    let [word, subject, rest @ ..] = tokens else {
        add_thread(alloc, threads)?;
        return Ok(());
    };
    let line = CallTokens {
        word: *word,
        subject: *subject,
        rest,
    };
    let call = read_call(alloc, of, line)?;
    add_call(threads, call)?;
    Ok(())
}

// Takes a line.
fn read_line(
    alloc: Global,
    of: &Callees<'_>,
    threads: &mut Vec<ThreadCalls>,
    line: &[u8],
) -> LineResult
    ensures { TakesLine threads.new.items result
        (line_meaning of.now.leaves.now of.now.jobs.now threads.old.items line.now) }
{
    if is_passed(line) {
        return Ok(());
    }
    let tokens = split_at_byte(alloc, line, b' ')?;
    read_tokens(alloc, of, threads, &tokens)
}

/// The calls of lines whose form was checked.
pub(crate) fn read_lines(
    alloc: Global,
    of: &Callees<'_>,
    lines: &[&[u8]],
) -> Result<Seq<ThreadCalls>, PlanError>
    ensures { TellsLines result (built_from (line_meaning of.now.leaves.now of.now.jobs.now)
        1 [] (map (λ l. l.now) lines.now)) }
{
    let mut threads = Vec::new(alloc);
    let mut number = 1u32;
    for line in lines {
        match read_line(alloc, of, &mut threads, line) {
            Ok(()) => {}
            Err(LineError::NoMemory) => return Err(PlanError::NoMemory),
            Err(LineError::Kind(kind)) => {
                return Err(PlanError::Fault(LineFault { line: number, kind }));
            }
        }
        number = number.checked_add(1).ok_or(NoMemory)?;
    }
    Ok(Seq::from_vec(threads))
}
