//! `find` and `match` over code points, within a budget of steps (Scribunto, Ustring library).
ghost use Rattle.std.specs.Prelude.{◌≡◌, ◌≤◌, ◌+◌, length, drop, IsUtf8, IsCharBoundary, MatchResult, IfOk, IfSome};
ghost use Rattle.lua_string.specs.LuaPatternSizes.{find_bytes, match_bytes};
ghost use Rattle.lua_string.specs.LuaPatternPlaces.{HasPlaces};
ghost use Rattle.lua_string.specs.LuaPatternTexts.{points};
ghost use Rattle.lua_string.specs.LuaPatternRead.{read_of, codes};
ghost use Rattle.lua_string.specs.LuaPatternReads.{IsReadFault};
ghost use Rattle.lua_string.specs.Finds.{place_of, IsPlain};
ghost use Rattle.mw_ustring.specs.Finds.{start_of, Answers, Finds, IsFindFault};

use crate::points::{count_points, offset};
use lua_string::finding::{find_fits, match_fits};
use lua_string::place::first_place;
use lua_string::{List, Match, OnePoint, Pattern, PatternFault, Search};
use memchr::memmem;
use std::alloc::Global;

/// The byte, from 0, at which a search from a place of Lua begins.
pub fn start(s: &[u8], init: i64) -> usize
    requires text { IsUtf8 s.now }
    ensures value { result ≡ start_of s.now init }
    ensures boundary { IsCharBoundary s.now result }
{
    offset(s, first_place(count_points(s), init))
}

/// The first place at which a text has a needle. There and behind it code points begin.
fn plain_place(needle: &[u8], text: &[u8]) -> Option<usize>
    requires text { IsUtf8 text.now }
    requires needle { IsUtf8 needle.now }
    ensures place { result ≡ place_of needle.now text.now }
    ensures within { IfSome result (λ k. k + length needle.now ≤ length text.now) }
    ensures boundaries { IfSome result (λ k. IsCharBoundary text.now k × IsCharBoundary text.now (k + length needle.now)) }
{
    memmem::find(text, needle)
}

/// A plain search from a byte on: no tries, no captures. Code points begin at both ends of what is found.
pub fn plain_find(alloc: Global, s: &[u8], needle: &[u8], from: usize) -> Search
    requires text { IsUtf8 s.now }
    requires needle { IsUtf8 needle.now }
    requires place { IsCharBoundary s.now from }
    ensures found { IsPlain from (length needle.now) (place_of needle.now (drop from s.now)) result }
    ensures places { HasPlaces (IsCharBoundary s.now) from result }
{
    match plain_place(needle, &s[from..]) {
        None => Search::NotFound(0),
        Some(place) => {
            let start = from + place;
            Search::Found(
                Match {
                    start,
                    end: start + needle.len(),
                    captures: List::new(alloc),
                },
                0,
            )
        }
    }
}

/// The first match of a pattern from a byte on, if `find` can give it within the budget.
fn pattern_find(
    alloc: Global,
    s: &[u8],
    pattern: &[u8],
    from: usize,
    budget: u64,
) -> Result<Search, PatternFault>
    requires text { IsUtf8 s.now }
    requires place { IsCharBoundary s.now from }
    ensures found { MatchResult result (λ found. Answers find_bytes budget s.now pattern.now from found) (λ e. IsReadFault (read_of (codes points pattern.now)) e) }
    ensures places { IfOk result (λ found. HasPlaces (IsCharBoundary s.now) from found) }
{
    let pattern = match Pattern::<OnePoint>::read(alloc, pattern) {
        Ok(pattern) => pattern,
        Err(fault) => return Err(fault),
    };
    match pattern.search(alloc, s, from, budget) {
        Err(_) => Err(PatternFault::NoMemory),
        Ok(Search::Found(found, tries)) => {
            if !find_fits(&found, budget - tries) {
                return Ok(Search::Spent);
            }
            Ok(Search::Found(found, tries))
        }
        Ok(Search::NotFound(tries)) => Ok(Search::NotFound(tries)),
        Ok(Search::Spent) => Ok(Search::Spent),
    }
}

/// The first match of a pattern from a byte on, if `match` can give it within the budget.
fn pattern_match(
    alloc: Global,
    s: &[u8],
    pattern: &[u8],
    from: usize,
    budget: u64,
) -> Result<Search, PatternFault>
    requires text { IsUtf8 s.now }
    requires place { IsCharBoundary s.now from }
    ensures found { MatchResult result (λ found. Answers match_bytes budget s.now pattern.now from found) (λ e. IsReadFault (read_of (codes points pattern.now)) e) }
    ensures places { IfOk result (λ found. HasPlaces (IsCharBoundary s.now) from found) }
{
    let pattern = match Pattern::<OnePoint>::read(alloc, pattern) {
        Ok(pattern) => pattern,
        Err(fault) => return Err(fault),
    };
    match pattern.search(alloc, s, from, budget) {
        Err(_) => Err(PatternFault::NoMemory),
        Ok(Search::Found(found, tries)) => {
            if !match_fits(&found, budget - tries) {
                return Ok(Search::Spent);
            }
            Ok(Search::Found(found, tries))
        }
        Ok(Search::NotFound(tries)) => Ok(Search::NotFound(tries)),
        Ok(Search::Spent) => Ok(Search::Spent),
    }
}

/// `mw.ustring.find(s, pattern, init, plain)`: the first match from a place of Lua on, with its places in bytes from 0.
///
/// It is `Spent` exactly where the tries and the bytes of the captures together exceed the budget. A fault of the pattern
/// comes whatever the budget is. A plain search makes no tries. Code points begin at all places.
pub fn find(
    alloc: Global,
    s: &[u8],
    pattern: &[u8],
    init: i64,
    plain: bool,
    budget: u64,
) -> Result<Search, PatternFault>
    requires text { IsUtf8 s.now }
    requires pattern { IsUtf8 pattern.now }
    ensures found { MatchResult result (λ found. Finds find_bytes plain budget s.now pattern.now (start_of s.now init) found) (λ e. IsFindFault plain pattern.now e) }
    ensures places { IfOk result (λ found. HasPlaces (IsCharBoundary s.now) (start_of s.now init) found) }
{
    let from = start(s, init);
    if plain {
        return Ok(plain_find(alloc, s, pattern, from));
    }
    pattern_find(alloc, s, pattern, from, budget)
}

/// `mw.ustring.match(s, pattern, init)`: as `find`, but that the whole match is given where the pattern has no captures, and
/// its bytes count then.
pub fn match_from(
    alloc: Global,
    s: &[u8],
    pattern: &[u8],
    init: i64,
    budget: u64,
) -> Result<Search, PatternFault>
    requires text { IsUtf8 s.now }
    ensures found { MatchResult result (λ found. Answers match_bytes budget s.now pattern.now (start_of s.now init) found) (λ e. IsReadFault (read_of (codes points pattern.now)) e) }
    ensures places { IfOk result (λ found. HasPlaces (IsCharBoundary s.now) (start_of s.now init) found) }
{
    pattern_match(alloc, s, pattern, start(s, init), budget)
}
