//! The kind `pattern`: what `lua_pattern` gives. The first word says what is asked:
//!
//! - `bytes`, `points` or `plain ^` (bytes, and a first `^` as a plain character), then a place, a pattern and a subject: the first
//!   match from that place on, as `START END`, then ` FROM-TO` or ` @PLACE` for each capture, and `, N tries`; all places are bytes
//!   from 0. Else `none, N tries`, `spent`, `fault N` or `no such place`. A fifth word is the budget, 10,000,000 where it is missing.
//!   Each case is searched again with a budget of exactly its tries, which has to do, and of one try less, which must not.
//! - `set bytes` or `set points`, then the text of a set and a character: whether the set has it
//! - `prepared`: whether the set of all that isn't behind `%U` has `A`
//! - `symbol bytes` or `symbol points`, then a subject and a place: the symbol that stands there, and its bytes
//! - `text from`, then a subject and a place: what stands there and behind

use crate::out::Out;
use crate::words::{bytes, copied, fault, numbered, place, put_tries, truth, word};
use mw_frame::List;
use mw_text::{
    Alphabet, Capture, Class, LuaPatternItemPart as Part, Match, OneByte, OnePoint, Pattern,
    PatternFault, PreparedSet, Search, Set, read_set, symbol_at, text_from,
};
use std::alloc::Global;
use wiki_markup::NoMemory;

/// What a case comes to.
pub(crate) fn answer(alloc: Global, text: &str) -> Result<Vec<u8>, NoMemory> {
    let first = word(text, 0);
    match first {
        "bytes" | "points" | "plain ^" => with_pattern(alloc, first, text),
        "prepared" => truth(alloc, has_capital(alloc)),
        _ => with_subject(alloc, first, text),
    }
}

fn with_subject(alloc: Global, first: &str, text: &str) -> Result<Vec<u8>, NoMemory> {
    let subject = bytes(alloc, text, 1)?;
    match first {
        "set bytes" => has::<OneByte>(alloc, &subject, word(text, 2)),
        "set points" => has::<OnePoint>(alloc, &subject, word(text, 2)),
        "symbol bytes" => symbol::<OneByte>(alloc, &subject, place(text, 2)),
        "symbol points" => symbol::<OnePoint>(alloc, &subject, place(text, 2)),
        "text from" => copied(alloc, text_from(&subject, place(text, 2))),
        _ => copied(alloc, b"no such call"),
    }
}

/// Whether the set that a text writes has a character.
fn has<A: Alphabet>(alloc: Global, text: &[u8], symbol: &str) -> Result<Vec<u8>, NoMemory> {
    match read_set::<A>(alloc, text) {
        Ok(set) => truth(alloc, set.has::<A>(symbol.chars().next().unwrap_or('\0'))),
        Err(it) => fault(alloc, it),
    }
}

fn capitals(alloc: Global) -> Result<Set, NoMemory> {
    let mut parts = List::new(alloc);
    parts.push(Part::Kind(Class::Upper, true))?;
    Ok(Set {
        negated: true,
        parts,
    })
}

fn prepared(alloc: Global) -> Result<PreparedSet, NoMemory> {
    match capitals(alloc) {
        Ok(set) => PreparedSet::new(alloc, set),
        Err(NoMemory) => Err(NoMemory),
    }
}

fn has_capital(alloc: Global) -> bool {
    match prepared(alloc) {
        Ok(set) => set.set().negated && set.has::<OneByte>('A'),
        Err(_) => false,
    }
}

fn symbol<A: Alphabet>(alloc: Global, subject: &[u8], at: usize) -> Result<Vec<u8>, NoMemory> {
    match symbol_at::<A>(subject, at) {
        Some((symbol, size)) => sized(alloc, symbol, size),
        None => copied(alloc, b"none"),
    }
}

fn sized(alloc: Global, symbol: char, size: usize) -> Result<Vec<u8>, NoMemory> {
    match format!(in alloc; "{symbol} {size}") {
        Ok(text) => Ok(text.into_bytes()),
        Err(_) => Err(NoMemory),
    }
}

/// The tries that a case may take where it doesn't say.
const BUDGET: u64 = 10_000_000;

fn with_pattern(alloc: Global, alphabet: &str, text: &str) -> Result<Vec<u8>, NoMemory> {
    let pattern = bytes(alloc, text, 2)?;
    match alphabet {
        "bytes" => by_read(alloc, &Pattern::<OneByte>::read(alloc, &pattern), text),
        "points" => by_read(alloc, &Pattern::<OnePoint>::read(alloc, &pattern), text),
        _ => by_read(
            alloc,
            &Pattern::<OneByte>::read_unanchored(alloc, &pattern),
            text,
        ),
    }
}

fn by_read<A: Alphabet>(
    alloc: Global,
    read: &Result<Pattern<A>, PatternFault>,
    text: &str,
) -> Result<Vec<u8>, NoMemory> {
    match read {
        Ok(pattern) => by_pattern(alloc, pattern, text),
        Err(it) => fault(alloc, *it),
    }
}

fn by_pattern<A: Alphabet>(
    alloc: Global,
    pattern: &Pattern<A>,
    text: &str,
) -> Result<Vec<u8>, NoMemory> {
    let subject = bytes(alloc, text, 3)?;
    let from = place(text, 1);
    if subject.len() < from {
        return copied(alloc, b"no such place");
    }
    let budget = word(text, 4).parse().unwrap_or(BUDGET);
    match search(alloc, pattern, &subject, from, budget) {
        Ok(found) => judged(
            alloc,
            &found,
            is_exact(alloc, pattern, &subject, from, &found),
        ),
        Err(_) => Err(NoMemory),
    }
}

/// A search from a place that the subject has.
fn search<A: Alphabet>(
    alloc: Global,
    pattern: &Pattern<A>,
    subject: &[u8],
    from: usize,
    budget: u64,
) -> Result<Search, NoMemory> {
    if subject.len() < from {
        return Err(NoMemory);
    }
    pattern.search(alloc, subject, from, budget)
}

fn is_spent<A: Alphabet>(
    alloc: Global,
    pattern: &Pattern<A>,
    subject: &[u8],
    from: usize,
    budget: u64,
) -> bool {
    matches!(
        search(alloc, pattern, subject, from, budget),
        Ok(Search::Spent)
    )
}

/// Whether so many tries suffice for a search, and one less doesn't.
fn is_least<A: Alphabet>(
    alloc: Global,
    pattern: &Pattern<A>,
    subject: &[u8],
    from: usize,
    tries: u64,
) -> bool {
    !is_spent(alloc, pattern, subject, from, tries)
        && (tries == 0 || is_spent(alloc, pattern, subject, from, tries - 1))
}

/// Whether what a search found took the tries that it tells; true where it was spent.
fn is_exact<A: Alphabet>(
    alloc: Global,
    pattern: &Pattern<A>,
    subject: &[u8],
    from: usize,
    found: &Search,
) -> bool {
    match found {
        Search::Found(_, tries) => is_least(alloc, pattern, subject, from, *tries),
        Search::NotFound(tries) => is_least(alloc, pattern, subject, from, *tries),
        Search::Spent => true,
    }
}

fn judged(alloc: Global, found: &Search, exact: bool) -> Result<Vec<u8>, NoMemory> {
    if exact {
        search_text(alloc, found)
    } else {
        copied(alloc, b"its tries are not what it takes")
    }
}

/// What a search found, as the head of this file says.
pub(crate) fn search_text(alloc: Global, found: &Search) -> Result<Vec<u8>, NoMemory> {
    match found {
        Search::Found(it, tries) => match_text(alloc, it, *tries),
        Search::NotFound(tries) => numbered(alloc, b"none, ", *tries, b" tries"),
        Search::Spent => copied(alloc, b"spent"),
    }
}

fn match_text(alloc: Global, found: &Match, tries: u64) -> Result<Vec<u8>, NoMemory> {
    let mut out = Out::new(alloc);
    put_places(&mut out, b"", found.start, b" ", found.end);
    put_captures(&mut out, found.captures.as_slice());
    put_tries(&mut out, tries);
    out.given()
}

fn put_captures(out: &mut Out, captures: &[Capture]) {
    for capture in captures {
        put_capture(out, *capture);
    }
}

fn put_capture(out: &mut Out, capture: Capture) {
    match capture {
        Capture::Span(from, to) => put_places(out, b" ", from, b"-", to),
        Capture::Place(at) => put_place(out, at),
    }
}

/// Two places, each with a text before it.
fn put_places(out: &mut Out, first: &[u8], from: usize, second: &[u8], to: usize) {
    out.put(first);
    out.put_count(from);
    out.put(second);
    out.put_count(to);
}

fn put_place(out: &mut Out, at: usize) {
    out.put(b" @");
    out.put_count(at);
}
