//! What the modules of calls have in common: the words of a row's text, which have tabs between, and answers that are no texts by
//! themselves.

use crate::out::Out;
use case_text::unescaped;
use mw_frame::List;
use mw_text::PatternFault;
use std::alloc::Global;
use wiki_markup::NoMemory;

/// The word with this number, from 0 on; nothing where there are fewer.
pub(crate) fn word(text: &str, at: usize) -> &str {
    text.split('\t').nth(at).unwrap_or("")
}

/// The bytes of a text, its escapes read.
pub(crate) fn escaped(alloc: Global, text: &str) -> Result<Vec<u8>, NoMemory> {
    match unescaped(alloc, text.as_bytes()) {
        Ok(bytes) => Ok(bytes),
        Err(_) => Err(NoMemory),
    }
}

/// The bytes of a word, its escapes read.
pub(crate) fn bytes(alloc: Global, text: &str, at: usize) -> Result<Vec<u8>, NoMemory> {
    escaped(alloc, word(text, at))
}

/// The number that a word is; 0 for any other word.
pub(crate) fn number(text: &str, at: usize) -> i64 {
    word(text, at).parse().unwrap_or(0)
}

/// The place that a word is; 0 for any other word.
pub(crate) fn place(text: &str, at: usize) -> usize {
    word(text, at).parse().unwrap_or(0)
}

/// The budget that a word is; as much as there can be for any other word.
pub(crate) fn budget(text: &str, at: usize) -> u64 {
    word(text, at).parse().unwrap_or(u64::MAX)
}

/// Bytes as an answer.
pub(crate) fn copied(alloc: Global, bytes: &[u8]) -> Result<Vec<u8>, NoMemory> {
    match Vec::from_slice(alloc, bytes) {
        Ok(copy) => Ok(copy),
        Err(_) => Err(NoMemory),
    }
}

/// A number between two texts as an answer.
pub(crate) fn numbered(
    alloc: Global,
    before: &[u8],
    number: u64,
    behind: &[u8],
) -> Result<Vec<u8>, NoMemory> {
    let mut out = Out::new(alloc);
    out.put(before);
    out.put_sum(number);
    out.put(behind);
    out.given()
}

/// Where a match is, as Lua counts, and its tries.
pub(crate) fn between(
    alloc: Global,
    before: usize,
    last: usize,
    tries: u64,
) -> Result<Vec<u8>, NoMemory> {
    let mut out = Out::new(alloc);
    out.put_count(before.saturating_add(1));
    out.put(b" ");
    out.put_count(last);
    put_tries(&mut out, tries);
    out.given()
}

/// The tries behind what was found.
pub(crate) fn put_tries(out: &mut Out, tries: u64) {
    out.put(b", ");
    out.put_sum(tries);
    out.put(b" tries");
}

/// A fault of a pattern as an answer.
pub(crate) fn fault(alloc: Global, fault: PatternFault) -> Result<Vec<u8>, NoMemory> {
    match fault {
        PatternFault::At(number) => numbered(alloc, b"fault ", u64::from(number), b""),
        PatternFault::NoMemory => Err(NoMemory),
    }
}

/// The numbers that the words behind the first are.
pub(crate) fn numbers(alloc: Global, text: &str) -> Result<List<i64>, NoMemory> {
    let mut numbers = List::new(alloc);
    for word in text.split('\t').skip(1) {
        numbers.push(word.parse().unwrap_or(0))?;
    }
    Ok(numbers)
}

/// Whether something holds, as an answer.
pub(crate) fn truth(alloc: Global, holds: bool) -> Result<Vec<u8>, NoMemory> {
    if holds {
        copied(alloc, b"true")
    } else {
        copied(alloc, b"false")
    }
}

/// A number as an answer.
pub(crate) fn shown(alloc: Global, number: u64) -> Result<Vec<u8>, NoMemory> {
    numbered(alloc, b"", number, b"")
}

/// A place as an answer; `none` where there is none.
pub(crate) fn place_or_none(alloc: Global, place: Option<usize>) -> Result<Vec<u8>, NoMemory> {
    match place {
        Some(place) => shown(alloc, place as u64),
        None => copied(alloc, b"none"),
    }
}

/// A text as an answer; `none` where there is none.
pub(crate) fn text_or_none(
    alloc: Global,
    made: Result<Option<Vec<u8>>, NoMemory>,
) -> Result<Vec<u8>, NoMemory> {
    match made {
        Ok(Some(made)) => Ok(made),
        Ok(None) => copied(alloc, b"none"),
        Err(NoMemory) => Err(NoMemory),
    }
}
