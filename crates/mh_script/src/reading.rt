ghost use Rattle.std.specs.Prelude.{◌≡◌, ◌<◌, drop, length, map, Ok, IfOk};
ghost use Rattle.std.specs.List.{list_all};
ghost use Rattle.mh_base.specs.Lines.{TellsLine, is_full};
ghost use Rattle.mh_leaves.specs.Reference.{texts_of};
ghost use Rattle.mh_script.specs.Limits.{AreBegun, AreRunnable, MayStand};
ghost use Rattle.mh_script.specs.Scripts.{following, is_ending, is_end_line, standing_fault, body_line, with_line, within_line, header_line, outside_line, ended_line, counting_line, line_meaning, scripts_from, scripts};
ghost use Rattle.mh_script.specs.Told.{TellsReading, TellsScripts};
ghost use Rattle.mh_script.specs.Written.{scripts_text};

use crate::fault::{bad_method, body_fault};
use crate::kinds::{fault_unless, lower};
use crate::line::{Line, line_of, method_name};
use crate::{MethodName, Script, ScriptError, ScriptKind, Scripts, Step};
use mh_base::{LineError, LineFault, NoMemory, Seq, is_passed, is_plain, split_at_byte};
use mh_leaves::{Reference, is_class_name, is_method_name};
use mh_values::Classes;
use std::alloc::Global;

/// How many lines a script has at most.
const MOST_LINES: usize = 64;

/// What the next line that counts is.
#[derive(Clone, Copy)]
enum Next {
    /// There is none.
    Nothing,
    /// `end`
    End,
    /// Any other line.
    Line,
}

/// A line that counts, and what follows it.
#[derive(Clone, Copy)]
struct Counting<'b> {
    tokens: &'b [&'b [u8]],
    following: Next,
}

/// A script that is begun: its header, and its lines so far.
#[derive(Drop)]
struct Begun {
    method: MethodName,
    steps: Seq<Step>,
}

/// The part of a file in which a line is.
#[derive(Drop)]
enum Stage {
    /// Outside of scripts.
    Outside,
    /// Within a script, before its last line.
    Within(Begun),
    /// After the last line of a script, before `end`.
    Ended,
}

/// What was read so far: the scripts that have their last line, and the part of the file in which
/// the next line is.
#[derive(Drop)]
struct Reading {
    scripts: Scripts,
    stage: Stage,
}

/// What is read after a line, or what is wrong with it.
type After = Result<Reading, LineError<ScriptKind>>;

fn is_full(token: &[u8]) -> bool
    ensures { result ≡ is_full token.now }
{
    !token.is_empty()
}

fn each_is_full(tokens: &[&[u8]]) -> bool
    ensures { result ≡ list_all (λ token. is_full token.now) tokens.now }
{
    tokens.iter().all(|token| is_full(token))
}

// Whether no token is empty.
fn are_full(tokens: &[&[u8]]) -> bool
    ensures { result ≡ list_all is_full (map (λ t. t.now) tokens.now) }
{
    each_is_full(tokens)
}

// What the first of these lines is that counts.
fn following(lines: &[&[u8]]) -> Next
    ensures { result ≡ following (map (λ l. l.now) lines.now) }
{
    for line in lines {
        if !is_passed(line) {
            return if *line == b"end".as_slice() {
                Next::End
            } else {
                Next::Line
            };
        }
    }
    Next::Nothing
}

// Whether these are the tokens of a line that must be the last of its script.
fn is_ending(tokens: &[&[u8]]) -> bool
    ensures { result ≡ is_ending (map (λ t. t.now) tokens.now) }
{
    match tokens {
        [] => false,
        [word, ..] => {
            *word == b"return".as_slice()
                || *word == b"raise".as_slice()
                || *word == b"value".as_slice()
        }
    }
}

// Whether this is the one token `end`.
fn is_end_line(tokens: &[&[u8]]) -> bool
    ensures { result ≡ is_end_line (map (λ t. t.now) tokens.now) }
{
    match tokens {
        [word] => *word == b"end".as_slice(),
        _ => false,
    }
}

// What is wrong with the place of a line within a script: it comes after this many lines, and
// before what follows.
fn standing_fault(count: usize, is_ending: bool, following: Next) -> Option<ScriptKind>
    ensures { result ≡ standing_fault count is_ending following }
{
    let long = fault_unless(count != MOST_LINES, ScriptKind::TooLong);
    match following {
        Next::Nothing => Some(ScriptKind::BadLine),
        Next::End => lower(long, fault_unless(is_ending, ScriptKind::NoReturn)),
        Next::Line => lower(long, fault_unless(!is_ending, ScriptKind::NoReturn)),
    }
}

// What a line says after these lines of its script.
fn body_line(
    alloc: Global,
    classes: &Classes,
    steps: &[Step],
    line: Counting<'_>,
) -> Result<Line, LineError<ScriptKind>>
    ensures { TellsLine result (body_line classes.now steps.now
        (map (λ t. t.now) line.entry.tokens.now) line.entry.following) }
{
    let said = body_fault(alloc, classes, steps, line.tokens)?;
    let stands = standing_fault(steps.len(), is_ending(line.tokens), line.following);
    if let Some(kind) = lower(said, stands) {
        return Err(LineError::Kind(kind));
    }
    line_of(alloc, classes, line.tokens)
}

// Puts a line after those of its script.
fn with_line(alloc: Global, scripts: Scripts, begun: Begun, line: Line) -> Result<Reading, NoMemory>
    requires { AreRunnable begun.steps }
    ensures { IfOk result (λ reading. reading ≡ with_line scripts begun line) }
{
    let Begun { method, mut steps } = begun;
    match line {
        Line::Step(step) => {
            steps.push(step)?;
            Ok(Reading {
                scripts,
                stage: Stage::Within(Begun { method, steps }),
            })
        }
        Line::End(end) => Ok(Reading {
            scripts: scripts.with(alloc, Script { method, steps, end })?,
            stage: Stage::Ended,
        }),
    }
}

// Takes a line within a script.
fn read_within(
    alloc: Global,
    classes: &Classes,
    scripts: Scripts,
    begun: Begun,
    line: Counting<'_>,
) -> After
    requires { AreBegun begun.steps }
    ensures { TellsLine result (within_line classes.now scripts begun
        (map (λ t. t.now) line.entry.tokens.now) line.entry.following) }
{
    let said = body_line(alloc, classes, begun.steps.as_slice(), line)?;
    Ok(with_line(alloc, scripts, begun, said)?)
}

// Takes a header.
fn read_header(
    alloc: Global,
    scripts: Scripts,
    word: &[u8],
    texts: Reference<'_>,
    following: Next,
) -> After
    ensures { TellsLine result
        (header_line scripts word.now (texts_of texts.entry) following) }
{
    if !(word == b"script".as_slice()
        && is_class_name(texts.owner)
        && is_method_name(texts.name)
        && !matches!(following, Next::Nothing))
    {
        return Err(LineError::Kind(ScriptKind::BadLine));
    }
    if scripts
        .find(texts.owner, texts.name, texts.descriptor)
        .is_some()
    {
        return Err(LineError::Kind(ScriptKind::Twice));
    }
    if bad_method(texts.descriptor).is_some() {
        return Err(LineError::Kind(ScriptKind::BadDescriptor));
    }
    let method = method_name(alloc, texts)?;
    let steps = Seq::new(alloc);
    Ok(Reading {
        scripts,
        stage: Stage::Within(Begun { method, steps }),
    })
}

// Takes a line outside of scripts.
fn read_outside(alloc: Global, scripts: Scripts, line: Counting<'_>) -> After
    ensures { TellsLine result (outside_line scripts
        (map (λ t. t.now) line.entry.tokens.now) line.entry.following) }
{
    match line.tokens {
        [word, owner, name, descriptor] => {
            let texts = Reference {
                owner: *owner,
                name: *name,
                descriptor: *descriptor,
            };
            read_header(alloc, scripts, word, texts, line.following)
        }
        _ => Err(LineError::Kind(ScriptKind::BadLine)),
    }
}

// Takes a line after the last one of a script.
fn read_ended(scripts: Scripts, tokens: &[&[u8]]) -> After
    ensures { TellsLine result (ended_line scripts (map (λ t. t.now) tokens.now)) }
{
    if !is_end_line(tokens) {
        return Err(LineError::Kind(ScriptKind::BadLine));
    }
    Ok(Reading {
        scripts,
        stage: Stage::Outside,
    })
}

// Takes a line that counts.
fn read_counting(alloc: Global, classes: &Classes, reading: Reading, line: Counting<'_>) -> After
    requires { MayStand reading.stage }
    ensures { TellsLine result (counting_line classes.now reading
        (map (λ t. t.now) line.entry.tokens.now) line.entry.following) }
{
    if !are_full(line.tokens) {
        return Err(LineError::Kind(ScriptKind::BadLine));
    }
    let Reading { scripts, stage } = reading;
    match stage {
        Stage::Outside => read_outside(alloc, scripts, line),
        Stage::Within(begun) => read_within(alloc, classes, scripts, begun, line),
        Stage::Ended => read_ended(scripts, line.tokens),
    }
}

// Takes a line, which these lines follow.
fn read_line(
    alloc: Global,
    classes: &Classes,
    reading: Reading,
    line: &[u8],
    rest: &[&[u8]],
) -> After
    requires { MayStand reading.stage }
    ensures { TellsLine result
        (line_meaning classes.now (map (λ l. l.now) rest.now) reading line.now) }
{
    if !is_plain(line) {
        return Err(LineError::Kind(ScriptKind::BadLine));
    }
    if is_passed(line) {
        return Ok(reading);
    }
    let tokens = split_at_byte(alloc, line, b' ')?;
    let line = Counting {
        tokens: &tokens,
        following: following(rest),
    };
    read_counting(alloc, classes, reading, line)
}

// Takes lines, numbered from 1, up to the first faulty one.
fn read_lines(
    alloc: Global,
    classes: &Classes,
    start: Reading,
    lines: &[&[u8]],
) -> Result<Reading, ScriptError>
    requires { MayStand start.stage }
    ensures { TellsReading result
        (scripts_from classes.now 1 start (map (λ l. l.now) lines.now)) }
{
    let mut reading = start;
    let mut number = 1u32;
    for at in 0..lines.len() {
        match read_line(alloc, classes, reading, lines[at], &lines[at + 1..]) {
            Ok(next) => reading = next,
            Err(LineError::NoMemory) => return Err(ScriptError::NoMemory),
            Err(LineError::Kind(kind)) => {
                return Err(ScriptError::Fault(LineFault { line: number, kind }));
            }
        }
        number = number.checked_add(1).ok_or(NoMemory)?;
    }
    Ok(reading)
}

// Reads scripts.
fn read_all(alloc: Global, bytes: &[u8]) -> Result<Scripts, ScriptError>
    ensures { TellsScripts result (scripts bytes.now) }
{
    let lines = split_at_byte(alloc, bytes, b'\n')?;
    let classes = Classes::builtin(alloc)?;
    let start = Reading {
        scripts: Scripts::new(alloc),
        stage: Stage::Outside,
    };
    let Reading { scripts, .. } = read_lines(alloc, &classes, start, &lines)?;
    Ok(scripts)
}

/// Reads scripts, or gives the first faulty line. A line or a script that no `u32` can number
/// counts as lack of memory.
pub fn read_scripts(alloc: Global, bytes: &[u8]) -> Result<Scripts, ScriptError>
    ensures meaning { TellsScripts result (scripts bytes.now) }
    ensures again { IfOk result (λ all. scripts (scripts_text all) ≡ Ok all) }
{
    read_all(alloc, bytes)
}
