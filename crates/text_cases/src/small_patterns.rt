//! The kind `small patterns`: all patterns of up to four items over a small alphabet against all subjects of up to five bytes, by
//! the search and by the definition as a plain program. The answer is how many there are, and in how many the two differ.

use crate::out::Out;
use crate::plain_patterns::{Marks, Plain, first};
use mw_text::{Capture, OneByte, Pattern, PatternFault, Search, Slot};
use std::alloc::Global;
use wiki_markup::NoMemory;

const ITEMS: [&[u8]; 13] = [
    b"a", b"b*", b"a-", b".?", b".+", b"[^a]*", b"(", b")", b"()", b"%1", b"%bab", b"%f[b]", b"$",
];

/// What is counted over all pairs of a pattern and a subject, and whether memory ran out.
#[derive(Clone, Copy)]
struct Totals {
    patterns: u64,
    found: u64,
    tries: u64,
    differ: u64,
    is_lacking: bool,
}

/// Puts a number in a base: `length` digits, each of which is a word.
fn put_spelled(out: &mut Out, words: &[&[u8]], number: usize, length: usize) {
    let mut left = number;
    for _ in 0..length {
        if words.is_empty() {
            return;
        }
        if let Some(word) = words.get(left % words.len()) {
            out.put(word);
        }
        left /= words.len();
    }
}

fn is_kept(slot: Slot, marks: &Marks, capture: Capture) -> bool {
    match (slot, capture) {
        (Slot::Text(first, last), Capture::Span(from, to)) => {
            marks.get(first) == Some(from) && marks.get(last) == Some(to)
        }
        (Slot::Point(mark), Capture::Place(at)) => marks.get(mark) == Some(at),
        _ => false,
    }
}

fn is_same(slots: &[Slot], marks: &Marks, captures: &[Capture]) -> bool {
    let mut same = slots.len() == captures.len();
    for (slot, capture) in slots.iter().zip(captures) {
        same = same && is_kept(*slot, marks, *capture);
    }
    same
}

/// Whether a search gave what the plain program gave.
fn agrees(
    slots: &[Slot],
    search: &Search,
    plain: &Option<(usize, usize, Marks)>,
    tries: u64,
) -> bool {
    match (search, plain) {
        (Search::Found(found, count), Some((start, end, marks))) => {
            *count == tries
                && found.start == *start
                && found.end == *end
                && is_same(slots, marks, found.captures.as_slice())
        }
        (Search::NotFound(count), None) => *count == tries,
        _ => false,
    }
}

fn compare(alloc: Global, pattern: &Pattern<OneByte>, subject: &[u8], totals: &mut Totals) {
    let mut plain = Plain { subject, tries: 0 };
    let found = first(&mut plain, pattern.anchored, pattern.items.as_slice());
    totals.tries = totals.tries.saturating_add(plain.tries);
    if found.is_some() {
        totals.found = totals.found.saturating_add(1);
    }
    let same = match pattern.search(alloc, subject, 0, plain.tries) {
        Ok(search) => agrees(pattern.slots.as_slice(), &search, &found, plain.tries),
        Err(_) => false,
    };
    if !same {
        totals.differ = totals.differ.saturating_add(1);
    }
}

/// Compares over the subject with this number among those of so many bytes.
fn against(
    alloc: Global,
    pattern: &Pattern<OneByte>,
    number: usize,
    length: usize,
    totals: &mut Totals,
) {
    let mut subject = Out::new(alloc);
    put_spelled(&mut subject, &[b"a", b"b"], number, length);
    totals.is_lacking |= subject.is_lacking;
    compare(alloc, pattern, &subject.text, totals);
}

fn against_all(alloc: Global, pattern: &Pattern<OneByte>, totals: &mut Totals) {
    let mut count: usize = 1;
    for length in 0..6 {
        for number in 0..count {
            against(alloc, pattern, number, length, totals);
        }
        count = count.saturating_mul(2);
    }
}

fn count_read(alloc: Global, read: &Result<Pattern<OneByte>, PatternFault>, totals: &mut Totals) {
    match read {
        Ok(pattern) => {
            totals.patterns = totals.patterns.saturating_add(1);
            against_all(alloc, pattern, totals)
        }
        Err(_) => {}
    }
}

/// Compares over the pattern with this number among those of so many items, where it is one.
fn pattern_against_all(alloc: Global, number: usize, length: usize, totals: &mut Totals) {
    let mut text = Out::new(alloc);
    put_spelled(&mut text, &ITEMS, number, length);
    totals.is_lacking |= text.is_lacking;
    count_read(alloc, &Pattern::read(alloc, &text.text), totals);
}

fn count_all(alloc: Global, totals: &mut Totals) {
    let mut count: usize = 1;
    for length in 0..5 {
        for number in 0..count {
            pattern_against_all(alloc, number, length, totals);
        }
        count = count.saturating_mul(ITEMS.len());
    }
}

fn put_counted(out: &mut Out, number: u64, what: &[u8]) {
    out.put_sum(number);
    out.put(what);
}

fn text_of(alloc: Global, totals: &Totals) -> Result<Vec<u8>, NoMemory> {
    let mut out = Out::new(alloc);
    put_counted(&mut out, totals.patterns, b" patterns, ");
    put_counted(&mut out, totals.found, b" found, ");
    put_counted(&mut out, totals.tries, b" tries, ");
    put_counted(&mut out, totals.differ, b" differ");
    out.is_lacking |= totals.is_lacking;
    out.given()
}

/// The totals, as a text.
pub(crate) fn answer(alloc: Global) -> Result<Vec<u8>, NoMemory> {
    let mut totals = Totals {
        patterns: 0,
        found: 0,
        tries: 0,
        differ: 0,
        is_lacking: false,
    };
    count_all(alloc, &mut totals);
    text_of(alloc, &totals)
}
