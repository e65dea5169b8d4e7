//! `split`, and the step of `gsplit`, within a budget of steps (Scribunto manual, mw.text.split, mw.text.gsplit).
ghost use Rattle.std.specs.Prelude.{◌≡◌, ◌+◌, ◌<◌, ◌≤◌, Ok, true, length, drop, IsUtf8, IsCharBoundary, IfOk, MatchResult};
ghost use Rattle.mw_ustring.specs.LuaPatternPlaces.{HasPlaces};
ghost use Rattle.mw_ustring.specs.LuaPatternTexts.{points};
ghost use Rattle.mw_text.specs.Split.{sought_by, sought_of, IsSeparator, IsSoughtFault, found_from, IsMet, after_empty, cut_at, part_from, IsPart, IsNext, HasEnds, IsNextPart, parts_of, IsSplit};
ghost use Rattle.mw_text.specs.Answers.{IsParts};

use crate::answers::PartsAnswer;
use mw_ustring::{
    Bytes, List, NoMemory, OnePoint, Pattern, PatternFault, Search, plain_find, symbol_at,
};
use std::alloc::Global;

/// What stands between the parts of a text: these bytes, or what a pattern over code points matches.
#[derive(Drop)]
pub enum Separator<'p> {
    Plain(&'p [u8]),
    Pattern(Pattern<OnePoint>),
}

/// Where a part ends, and where the next one begins, if there is one; in bytes from 0. With the tries that found its end.
#[derive(Clone, Copy, Debug, PartialEq, Eq)]
pub struct Part {
    pub stop: usize,
    pub next: Option<usize>,
    pub tries: u64,
}

/// One part of a text.
#[derive(Clone, Copy, Debug, PartialEq, Eq)]
pub enum PartAnswer {
    Part(Part),
    /// Tries and bytes together exceed the budget.
    Spent,
}

/// The part behind an empty match: it ends behind the code point that follows.
#[tactic(auto, using(crate::proofs::Edges::step_boundary))]
fn after_an_empty_match(s: &[u8], place: usize, tries: u64) -> Part
    requires text { IsUtf8 s.now }
    requires place { IsCharBoundary s.now place }
    ensures part { result ≡ after_empty place tries (points.symbols (drop place s.now)) }
    ensures stop { (place ≤ result.stop) × IsCharBoundary s.now result.stop }
    ensures next { IsNext s.now place result.next }
{
    let Some((_, size)) = symbol_at::<OnePoint>(s, place) else {
        return Part {
            stop: place,
            next: None,
            tries,
        };
    };
    let stop = place + size;
    match symbol_at::<OnePoint>(s, stop) {
        Some(_) => Part {
            stop,
            next: Some(stop),
            tries,
        },
        None => Part {
            stop,
            next: None,
            tries,
        },
    }
}

/// The part that ends at a match.
fn before_a_match(s: &[u8], start: usize, end: usize, tries: u64) -> Part
    requires text { IsUtf8 s.now }
    requires start { IsCharBoundary s.now start }
    requires end { IsCharBoundary s.now end }
    ensures part { result ≡ cut_at s.now start end tries }
    ensures stop { (start ≤ result.stop) × IsCharBoundary s.now result.stop }
    ensures next { IsNext s.now start result.next }
{
    if start < end {
        return Part {
            stop: start,
            next: Some(end),
            tries,
        };
    }
    after_an_empty_match(s, start, tries)
}

/// A part, where its tries and bytes are covered.
fn priced(s: &[u8], from: usize, part: Part, budget: u64) -> PartAnswer
    requires tries { part.tries ≤ budget }
    requires places { (from ≤ part.stop) × (part.stop ≤ length s.now) }
    ensures { IsPart budget s.now from part result }
{
    let text = &s[from..part.stop];
    if budget - part.tries < text.len() as u64 {
        return PartAnswer::Spent;
    }
    PartAnswer::Part(part)
}

impl<'p> Separator<'p> {
    /// Reads a separator: a pattern over code points, or with `plain` the text itself.
    pub fn read(
        alloc: Global,
        pattern: &'p [u8],
        plain: bool,
    ) -> Result<Separator<'p>, PatternFault>
        requires pattern { IsUtf8 pattern.now }
        ensures sought { MatchResult result (λ made. sought_by plain pattern.now ≡ Ok (sought_of made)) (λ e. IsSoughtFault (sought_by plain pattern.now) e) }
        ensures text { IfOk result (λ made. IsSeparator (sought_of made)) }
    {
        if plain {
            return Ok(Separator::Plain(pattern));
        }
        match Pattern::<OnePoint>::read(alloc, pattern) {
            Ok(pattern) => Ok(Separator::Pattern(pattern)),
            Err(fault) => Err(fault),
        }
    }

    /// The first place from a byte on where it stands, within a budget of tries.
    fn search(&self, alloc: Global, s: &[u8], from: usize, budget: u64) -> Result<Search, NoMemory>
        requires text { IsUtf8 s.now }
        requires separator { IsSeparator (sought_of self.now) }
        requires place { IsCharBoundary s.now from }
        ensures met { IfOk result (λ met. IsMet budget (found_from (sought_of self.now) s.now from) met) }
        ensures places { IfOk result (λ met. HasPlaces (IsCharBoundary s.now) from met) }
    {
        match self {
            Separator::Plain(needle) => Ok(plain_find(alloc, s, needle, from)),
            Separator::Pattern(pattern) => pattern.search(alloc, s, from, budget),
        }
    }

    /// The part of a text that begins at a byte. It is `Spent` exactly where the tries up to its end and its bytes together
    /// exceed the budget. Code points begin at its ends, and the next part begins behind this one's beginning.
    pub fn part_at(
        &self,
        alloc: Global,
        s: &[u8],
        from: usize,
        budget: u64,
    ) -> Result<PartAnswer, NoMemory>
        requires text { IsUtf8 s.now }
        requires separator { IsSeparator (sought_of self.now) }
        requires place { IsCharBoundary s.now from }
        ensures part { IfOk result (λ given. IsPart budget s.now from (part_from (sought_of self.now) s.now from) given) }
        ensures ends { IfOk result (λ given. HasEnds s.now from given) }
    {
        match self.search(alloc, s, from, budget)? {
            Search::Found(found, tries) => {
                let part = before_a_match(s, found.start, found.end, tries);
                Ok(priced(s, from, part, budget))
            }
            Search::NotFound(tries) => {
                let part = Part {
                    stop: s.len(),
                    next: None,
                    tries,
                };
                Ok(priced(s, from, part, budget))
            }
            Search::Spent => Ok(PartAnswer::Spent),
        }
    }

    /// All parts of a text.
    fn parts(&self, alloc: Global, s: &[u8], budget: u64) -> Result<PartsAnswer, NoMemory>
        requires text { IsUtf8 s.now }
        requires separator { IsSeparator (sought_of self.now) }
        ensures { IfOk result (λ given. IsParts budget (parts_of (sought_of self.now) s.now) given) }
    {
        let mut made = List::new(alloc);
        let mut left = budget;
        let mut tries: u64 = 0;
        let mut from = 0;
        'parts: loop {
            match self.part_at(alloc, s, from, left)? {
                PartAnswer::Spent => return Ok(PartsAnswer::Spent),
                PartAnswer::Part(part) => {
                    let text = &s[from..part.stop];
                    made.push(Bytes::of(alloc, text)?)?;
                    tries += part.tries;
                    left = left - part.tries - text.len() as u64;
                    match part.next {
                        Some(next) => from = next,
                        None => return Ok(PartsAnswer::Parts(made, tries)),
                    }
                }
            }
        }
    }
}

/// What the iterator of `mw.text.gsplit(s, pattern, plain)` gives at a byte: the part that begins there, and where it goes on.
///
/// It is `Spent` exactly where the tries up to the part's end and its bytes together exceed the budget; a plain separator
/// makes no tries. The fault is that of the pattern, whatever the budget is.
pub fn next_part(
    alloc: Global,
    s: &[u8],
    pattern: &[u8],
    plain: bool,
    from: usize,
    budget: u64,
) -> Result<PartAnswer, PatternFault>
    requires text { IsUtf8 s.now }
    requires pattern { IsUtf8 pattern.now }
    requires place { IsCharBoundary s.now from }
    ensures part { MatchResult result (λ given. IsNextPart budget s.now from (sought_by plain pattern.now) given) (λ e. IsSoughtFault (sought_by plain pattern.now) e) }
    ensures ends { IfOk result (λ given. HasEnds s.now from given) }
{
    let separator = match Separator::read(alloc, pattern, plain) {
        Ok(separator) => separator,
        Err(fault) => return Err(fault),
    };
    match separator.part_at(alloc, s, from, budget) {
        Ok(given) => Ok(given),
        Err(_) => Err(PatternFault::NoMemory),
    }
}

/// `mw.text.split(s, pattern, plain)`: the parts between the matches of a pattern over code points, or with `plain` between
/// the places where the text `pattern` stands. They are what `next_part` gives from place to place.
///
/// It is `Spent` exactly where the tries and the bytes of all parts together exceed the budget; a plain separator makes no
/// tries. The fault is that of the pattern, whatever the budget is.
pub fn split(
    alloc: Global,
    s: &[u8],
    pattern: &[u8],
    plain: bool,
    budget: u64,
) -> Result<PartsAnswer, PatternFault>
    requires text { IsUtf8 s.now }
    requires pattern { IsUtf8 pattern.now }
    ensures { MatchResult result (λ given. IsSplit budget s.now (sought_by plain pattern.now) given) (λ e. IsSoughtFault (sought_by plain pattern.now) e) }
{
    let separator = match Separator::read(alloc, pattern, plain) {
        Ok(separator) => separator,
        Err(fault) => return Err(fault),
    };
    match separator.parts(alloc, s, budget) {
        Ok(given) => Ok(given),
        Err(_) => Err(PatternFault::NoMemory),
    }
}
