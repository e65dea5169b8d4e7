//! The lines of a table of cases, in bytes: a word and texts, with tabs between. The texts have the escapes of `case_text`.
use crate::case::Case;
use crate::every::{Found, START, every_step, least_calls};
use crate::parts::{number, take_part};
use crate::runs::{Allowed, Ended, end_of};
use crate::shown::{Out, put_bytes};
use crate::starts::{start_apart, start_together};
use lua_code::{List, NoMemory};
use std::alloc::Global;
use std::hash::RandomState;

/// What a line has run, and what it wants to see.
#[derive(Clone, Copy)]
enum Run {
    /// One run: its end.
    Once,
    /// Its end, and the steps that are left.
    Exact,
    /// Its end, and the steps that it took.
    Took,
    /// Runs with each number of steps.
    All,
    /// Runs with each number of steps that a start lets be, and with some below.
    Every,
    /// Runs with each number of calls.
    Levels,
    /// So many starts in one store.
    Starts,
    /// So many starts, each in a store of its own.
    Stores,
}

/// What a word has run, if it is such a word.
fn run_named(word: &[u8]) -> Option<Run> {
    match word {
        b"run" => Some(Run::Once),
        b"exact" => Some(Run::Exact),
        b"took" => Some(Run::Took),
        b"all" => Some(Run::All),
        b"every" => Some(Run::Every),
        b"levels" => Some(Run::Levels),
        b"starts" => Some(Run::Starts),
        b"stores" => Some(Run::Stores),
        _ => None,
    }
}

/// What stands before the first tab, and what behind it; without a tab the whole, and nothing.
fn cut(line: &[u8]) -> (&[u8], &[u8]) {
    for (at, byte) in line.iter().enumerate() {
        if *byte == b'\t' {
            return (&line[..at], &line[at + 1..]);
        }
    }
    (line, b"")
}

/// A number behind words.
fn put_counted(out: &mut Out, before: &str, n: u64, behind: &str) {
    out.put(before);
    out.put_number(n);
    out.put(behind);
}

/// How a run ended, and what it took or left where that is wanted.
fn put_ended(out: &mut Out, run: Run, allowed: Allowed, end: &Ended) {
    out.put(end.said.text.as_str());
    match run {
        Run::Exact => put_counted(out, ", ", end.steps, " left"),
        Run::Took => {
            let taken = allowed.steps.saturating_sub(end.steps);
            put_counted(out, ", ", taken, " taken")
        }
        _ => {}
    }
}

/// One run.
fn put_run(
    alloc: Global,
    seed: RandomState,
    out: &mut Out,
    case: &Case,
    run: Run,
    allowed: Allowed,
) -> Result<(), NoMemory> {
    let end = end_of(alloc, seed, case, allowed)?;
    put_ended(out, run, allowed, &end);
    Ok(())
}

fn put_found(out: &mut Out, found: Found) {
    match found {
        Found::From(from) => put_counted(out, ": from ", from, " on"),
        Found::Differs(at) => put_counted(out, ": differs at ", at, ""),
        Found::Endless => out.put(": endless"),
    }
}

/// What many runs come to.
fn put_many(out: &mut Out, word: &str, found: Result<Found, NoMemory>) -> Result<(), NoMemory> {
    out.put(word);
    match found {
        Ok(found) => {
            put_found(out, found);
            Ok(())
        }
        Err(NoMemory) => Err(NoMemory),
    }
}

fn put_started(out: &mut Out, started: Result<(), NoMemory>) -> Result<(), NoMemory> {
    out.put("started");
    started
}

/// What a line that has a case run wants to see, behind the case's name.
fn put_said(
    alloc: Global,
    seed: RandomState,
    out: &mut Out,
    case: &Case,
    run: Run,
    allowed: Allowed,
) -> Result<(), NoMemory> {
    put_bytes(out, case.name.as_slice());
    out.put(": ");
    match run {
        Run::All => put_many(out, "all", every_step(alloc, seed, case, allowed, 0)),
        Run::Every => put_many(out, "every", every_step(alloc, seed, case, allowed, START)),
        Run::Levels => put_many(out, "levels", least_calls(alloc, seed, case, allowed)),
        Run::Starts => put_started(out, start_together(alloc, seed, case, allowed.steps)),
        Run::Stores => put_started(out, start_apart(alloc, seed, case, allowed.steps)),
        _ => put_run(alloc, seed, out, case, run, allowed),
    }
}

/// A line that has a case run, with the answers before it.
fn take_run(
    alloc: Global,
    seed: RandomState,
    case: &mut Case,
    said: &mut Out,
    run: Run,
    allowed: Allowed,
) -> Result<(), NoMemory> {
    let ran = put_said(alloc, seed, said, case, run, allowed);
    case.replies = List::new(alloc);
    ran
}

/// A line that says something.
fn take_words(
    alloc: Global,
    seed: RandomState,
    case: &mut Case,
    said: &mut Out,
    line: &[u8],
) -> Result<(), NoMemory> {
    let (word, rest) = cut(line);
    let (first, second) = cut(rest);
    let allowed = Allowed {
        steps: number(first),
        calls: number(second),
    };
    match run_named(word) {
        Some(run) => take_run(alloc, seed, case, said, run, allowed),
        None => take_part(alloc, seed, case, said, word, first, second),
    }
}

/// Takes a line of a table: a part of the case, or a word that has it run, of which it tells what it came to. A line that begins with `#`,
/// and an empty one, say nothing.
///
/// - `case NAME`: a new case of that name, with nothing in it, on a page `P`
/// - `module NAME TEXT`: a module, `Module:NAME`
/// - `invoke NAME FUNCTION`, or `load NAME`: what is to be done with `Module:NAME`
/// - `arg NAME VALUE`: an argument of the invocation
/// - `parent TITLE`: the invocation stands in the body of that template; `of NAME VALUE`: an argument of it
/// - `text TEXT LEFT`, `none LEFT`, `failed MESSAGE LEFT`, `table LEFT`: an answer to a question, for the next run alone: an expanded
///   text, that there is no such page, that a load failed, and a read-only table with the entries `entry KEY VALUE` before it (`#5` is
///   a number, also as a key, `@` the table itself, all else a text). LEFT is how many steps are left behind it, or with `-` in front what it takes
/// - `run STEPS CALLS`: runs it, and tells its end; `exact STEPS CALLS`: and the steps that are left; `took STEPS CALLS`: and the
///   steps that it took
/// - `all STEPS CALLS`: runs it with those, then with each number of steps below what it took, with as many, and with some more
/// - `every STEPS CALLS`: so with each number of steps from 1,000 on, which a start takes at once, and with some below them
/// - `levels STEPS CALLS`: the least number of calls with which it isn't spent, and whether all above it give the same end
/// - `starts COUNT`, `stores COUNT`: starts so many machines, in one store, and each in a store of its own
pub fn take_line(
    alloc: Global,
    seed: RandomState,
    case: &mut Case,
    said: &mut Out,
    line: &[u8],
) -> Result<(), NoMemory> {
    match line {
        [] | [b'#', ..] => Ok(()),
        _ => take_words(alloc, seed, case, said, line),
    }
}
