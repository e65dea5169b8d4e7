//! `find` and `match`, within a budget of steps (Lua 5.1 manual, 5.4).
ghost use Rattle.std.specs.Prelude.{◌≡◌, ◌≤◌, ◌+◌, nat_le, length, drop, MatchResult, IfSome};
ghost use Rattle.lua_pattern.specs.Sizes.{capture_bytes, captures_bytes, find_bytes, match_bytes};
ghost use Rattle.lua_pattern.specs.Texts.{bytes};
ghost use Rattle.lua_pattern.specs.Read.{read_of, codes};
ghost use Rattle.lua_pattern.specs.Reads.{IsReadFault};
ghost use Rattle.lua_string.specs.Finds.{place_of, Finds, Answers, IsFindFault, IsPlain};

use crate::place::first_place;
use lua_pattern::{Capture, List, Match, OneByte, Pattern, PatternFault, Search};
use memchr::memmem;
use std::alloc::Global;

fn capture_len(capture: Capture) -> u64
    ensures { result ≡ capture_bytes capture }
{
    match capture {
        Capture::Span(from, to) => to.saturating_sub(from) as u64,
        Capture::Place(_) => 0,
    }
}

/// Whether captures have at most so many bytes.
#[tactic(auto, using(crate::proofs::Prices::fits_more, crate::proofs::Prices::fits_not))]
fn captures_fit(captures: &[Capture], room: u64) -> bool
    ensures { result ≡ nat_le (captures_bytes captures.now) room }
{
    let mut left = room;
    let mut rest = captures;
    'captures: while let [capture, behind @ ..] = rest {
        let len = capture_len(*capture);
        if left < len {
            return false;
        }
        left -= len;
        rest = behind;
    }
    true
}

/// Whether what `find` gives of a match has at most so many bytes.
pub fn find_fits(found: &Match, room: u64) -> bool
    ensures { result ≡ nat_le (find_bytes found.now) room }
{
    captures_fit(found.captures.as_slice(), room)
}

/// Whether what `match` gives of a match has at most so many bytes.
pub fn match_fits(found: &Match, room: u64) -> bool
    ensures { result ≡ nat_le (match_bytes found.now) room }
{
    match found.captures.as_slice() {
        [] => found.end.saturating_sub(found.start) as u64 <= room,
        captures => captures_fit(captures, room),
    }
}

/// The first place at which a text has a needle.
#[tactic(auto, using(crate::proofs::Plain::place_found, crate::proofs::Plain::found_within))]
fn plain_place(needle: &[u8], text: &[u8]) -> Option<usize>
    ensures place { result ≡ place_of needle.now text.now }
    ensures within { IfSome result (λ k. k + length needle.now ≤ length text.now) }
{
    memmem::find(text, needle)
}

/// A plain search: no tries, no captures.
fn plain_find(alloc: Global, s: &[u8], needle: &[u8], from: usize) -> Search
    requires { from ≤ length s.now }
    ensures { IsPlain from (length needle.now) (place_of needle.now (drop from s.now)) result }
{
    match plain_place(needle, &s[from..]) {
        None => Search::NotFound(0),
        Some(place) => {
            let start = from + place;
            Search::Found(
                Match {
                    start,
                    end: start + needle.len(),
                    captures: List::new(alloc),
                },
                0,
            )
        }
    }
}

/// `string.find(s, pattern, init, plain)`: the first match from a place of Lua on, with its places from 0.
///
/// It is `Spent` exactly where the tries and the bytes of the captures together exceed the budget. A fault of the pattern
/// comes whatever the budget is. A plain search makes no tries.
pub fn find(
    alloc: Global,
    s: &[u8],
    pattern: &[u8],
    init: i64,
    plain: bool,
    budget: u64,
) -> Result<Search, PatternFault>
    ensures { MatchResult result (λ found. Finds find_bytes plain budget s.now pattern.now init found) (λ e. IsFindFault plain pattern.now e) }
{
    let from = first_place(s.len(), init);
    if plain {
        return Ok(plain_find(alloc, s, pattern, from));
    }
    let pattern = match Pattern::<OneByte>::read(alloc, pattern) {
        Ok(pattern) => pattern,
        Err(fault) => return Err(fault),
    };
    match pattern.search(alloc, s, from, budget) {
        Err(_) => Err(PatternFault::NoMemory),
        Ok(Search::Found(found, tries)) => {
            if !find_fits(&found, budget - tries) {
                return Ok(Search::Spent);
            }
            Ok(Search::Found(found, tries))
        }
        Ok(Search::NotFound(tries)) => Ok(Search::NotFound(tries)),
        Ok(Search::Spent) => Ok(Search::Spent),
    }
}

/// `string.match(s, pattern, init)`: as `find`, but that the whole match is given where the pattern has no captures, and
/// its bytes count then.
pub fn match_from(
    alloc: Global,
    s: &[u8],
    pattern: &[u8],
    init: i64,
    budget: u64,
) -> Result<Search, PatternFault>
    ensures { MatchResult result (λ found. Answers match_bytes budget s.now pattern.now init found) (λ e. IsReadFault (read_of (codes bytes pattern.now)) e) }
{
    let from = first_place(s.len(), init);
    let pattern = match Pattern::<OneByte>::read(alloc, pattern) {
        Ok(pattern) => pattern,
        Err(fault) => return Err(fault),
    };
    match pattern.search(alloc, s, from, budget) {
        Err(_) => Err(PatternFault::NoMemory),
        Ok(Search::Found(found, tries)) => {
            if !match_fits(&found, budget - tries) {
                return Ok(Search::Spent);
            }
            Ok(Search::Found(found, tries))
        }
        Ok(Search::NotFound(tries)) => Ok(Search::NotFound(tries)),
        Ok(Search::Spent) => Ok(Search::Spent),
    }
}
