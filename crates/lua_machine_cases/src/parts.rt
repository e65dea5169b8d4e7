//! The lines of a table that make a case. `take_line` in `lines` says what they may be.
use crate::case::{Aim, Case, add_module, argument};
use crate::replies::{Change, Entry, Reply, Told};
use crate::shown::{Out, put_bytes};
use case_text::unescaped;
use lua_code::{List, Namespace, NoMemory, Title};
use lua_machine::ArgText;
use mw_frame::TitleFault;
use std::alloc::Global;
use std::hash::RandomState;
use std::mem::replace;

/// A text of the table.
fn plain(alloc: Global, text: &[u8]) -> Result<Vec<u8>, NoMemory> {
    match unescaped(alloc, text) {
        Ok(bytes) => Ok(bytes),
        Err(_) => Err(NoMemory),
    }
}

/// The number that digits write; other bytes are passed over.
pub fn number(text: &[u8]) -> u64 {
    let mut value = 0u64;
    for byte in text.iter().copied() {
        if byte.is_ascii_digit() {
            value = value
                .saturating_mul(10)
                .saturating_add(u64::from(byte - b'0'));
        }
    }
    value
}

/// What becomes of the steps: a number that are left, or behind a `-` that are taken.
fn change(text: &[u8]) -> Change {
    match text {
        [b'-', taken @ ..] => Change::Takes(number(taken)),
        _ => Change::Leaves(number(text)),
    }
}

/// An answer more to the questions of the next run.
fn add_reply(case: &mut Case, told: Told, left: &[u8]) -> Result<(), NoMemory> {
    let change = change(left);
    case.replies.push(Reply { told, change })
}

fn take_text(alloc: Global, case: &mut Case, text: &[u8], left: &[u8]) -> Result<(), NoMemory> {
    let text = plain(alloc, text)?;
    add_reply(case, Told::Text(text), left)
}

fn take_failure(
    alloc: Global,
    case: &mut Case,
    message: &[u8],
    left: &[u8],
) -> Result<(), NoMemory> {
    let message = plain(alloc, message)?;
    add_reply(case, Told::Failed(message), left)
}

fn take_entry(alloc: Global, case: &mut Case, key: &[u8], value: &[u8]) -> Result<(), NoMemory> {
    let key = plain(alloc, key)?;
    let value = plain(alloc, value)?;
    case.entries.push(Entry { key, value })
}

fn take_table(alloc: Global, case: &mut Case, left: &[u8]) -> Result<(), NoMemory> {
    let entries = replace(&mut case.entries, List::new(alloc));
    add_reply(case, Told::Table(entries), left)
}

/// Tells of a line that is none of the table.
fn complain(said: &mut Out, word: &[u8]) -> Result<(), NoMemory> {
    said.put("no such word: ");
    put_bytes(said, word);
    Ok(())
}

/// A line with an answer.
fn take_answer(
    alloc: Global,
    case: &mut Case,
    said: &mut Out,
    word: &[u8],
    first: &[u8],
    second: &[u8],
) -> Result<(), NoMemory> {
    match word {
        b"text" => take_text(alloc, case, first, second),
        b"none" => add_reply(case, Told::NoPage, first),
        b"failed" => take_failure(alloc, case, first, second),
        b"entry" => take_entry(alloc, case, first, second),
        b"table" => take_table(alloc, case, first),
        _ => complain(said, word),
    }
}

fn begin(alloc: Global, seed: RandomState, case: &mut Case, name: &[u8]) -> Result<(), NoMemory> {
    *case = Case::new(alloc, seed, name)?;
    Ok(())
}

fn take_module(
    alloc: Global,
    seed: RandomState,
    case: &mut Case,
    name: &[u8],
    text: &[u8],
) -> Result<(), NoMemory> {
    let name = plain(alloc, name)?;
    let text = plain(alloc, text)?;
    add_module(alloc, seed, &mut case.modules, &name, &text)
}

fn take_invocation(
    alloc: Global,
    case: &mut Case,
    name: &[u8],
    function: &[u8],
) -> Result<(), NoMemory> {
    let name = plain(alloc, name)?;
    let function = plain(alloc, function)?;
    case.aim = Aim::Invoke(name, function);
    Ok(())
}

fn take_load(alloc: Global, case: &mut Case, name: &[u8]) -> Result<(), NoMemory> {
    case.aim = Aim::Load(plain(alloc, name)?);
    Ok(())
}

fn add_argument(
    alloc: Global,
    args: &mut List<ArgText<'static>>,
    name: &[u8],
    value: &[u8],
) -> Result<(), NoMemory> {
    let name = plain(alloc, name)?;
    let value = plain(alloc, value)?;
    args.push(argument(name, value))
}

/// The title of a template around the invocation, where it is one.
fn take_parent(alloc: Global, case: &mut Case, title: &[u8]) -> Result<(), NoMemory> {
    match Title::read(alloc, title, Namespace::Template) {
        Ok(title) => case.parent = Some(title),
        Err(TitleFault::NoMemory) => return Err(NoMemory),
        Err(_) => case.parent = None,
    }
    Ok(())
}

/// A line with modules or what is to be done with them, or with an answer.
pub fn take_part(
    alloc: Global,
    seed: RandomState,
    case: &mut Case,
    said: &mut Out,
    word: &[u8],
    first: &[u8],
    second: &[u8],
) -> Result<(), NoMemory> {
    match word {
        b"case" => begin(alloc, seed, case, first),
        b"module" => take_module(alloc, seed, case, first, second),
        b"invoke" => take_invocation(alloc, case, first, second),
        b"load" => take_load(alloc, case, first),
        b"arg" => add_argument(alloc, &mut case.args, first, second),
        b"parent" => take_parent(alloc, case, first),
        b"of" => add_argument(alloc, &mut case.parent_args, first, second),
        _ => take_answer(alloc, case, said, word, first, second),
    }
}
