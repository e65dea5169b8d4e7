//! A text as the replacement (manual 5.4, `string.gsub`): matches are replaced one after another, each for its tries and the bytes that
//! are put into the text.
ghost use Rattle.std.specs.Prelude.{◌≡◌, ◌≤◌, ℕ, suc, drop, length, Some, IfOk, OnOk};
ghost use Rattle.std.specs.Option.{option_map};
ghost use Rattle.lua_number.specs.WkBaseDeclaredLeftLeft.{Left as Allowance};
ghost use Rattle.lua_replacing.specs.LuaStringWalk.{span as span_of};
ghost use Rattle.lua_replacing.specs.LuaMeaningGsub as meaning;
ghost use Rattle.lua_replacing.specs.Seen.{far_seen, stand_seen, StandWithin};
ghost use Rattle.lua_gsubs.specs.Met.{PlaceWithin};
ghost use Rattle.lua_gsubs.specs.Parts.{halt_in, IsPart, IsReplaced, GoesOn, IsRest, IsTail, IsPaidText};

use crate::filling::{Halt, capture_texts, put_filled};
use crate::meeting::{Met, meet, next_stand};
use lua_iterators::{Left, Stop, pay, span};
use lua_number::NoMemory;
use lua_pattern::{Alphabet, Match, Pattern};
use lua_replacing::{Far, Stand};
use mw_text::push_all;
use std::alloc::Global;

/// One match more. So many do not fit in memory that they could not be counted.
pub fn one_more(count: usize) -> Result<usize, NoMemory>
    ensures { IfOk result (λ n. n ≡ suc count) }
{
    match count.checked_add(1) {
        Some(more) => Ok(more),
        None => Err(NoMemory),
    }
}

/// A match is replaced: what stands between, and what the replacement stands for, are put behind the text.
fn put_match<A: Alphabet>(
    alloc: Global,
    left: &mut Left,
    s: &[u8],
    replacement: &[u8],
    far: &mut Far,
    stand: Stand,
    found: &Match,
    next: Option<usize>,
) -> Result<(), Halt>
    requires { PlaceWithin (length s.now) next }
    ensures replaced { IsReplaced
        (meaning.filled_at A.letters s.now (stand_seen stand) replacement.now found.now)
        (span_of s.now far.old.copied found.now.start) found.now.end
        (meaning.next_stand A.letters s.now (stand_seen stand) next) far.old left.old far.new
        left.new result }
    ensures within { OnOk result (StandWithin (length s.now) far.new.next) }
{
    let next = next_stand::<A>(s, stand, next)?;
    let count = one_more(far.count)?;
    let captures = capture_texts::<A>(alloc, s, stand, found.captures.as_slice())?;
    let between = span(s, far.copied, found.start);
    let whole = span(s, found.start, found.end);
    put_filled(
        alloc,
        left,
        &mut far.text,
        between,
        replacement,
        whole,
        captures.as_slice(),
    )?;
    far.copied = found.end;
    far.count = count;
    far.next = next;
    Ok(())
}

/// The next match is replaced, if there is one.
fn replace_next<A: Alphabet>(
    alloc: Global,
    left: &mut Left,
    pattern: &Pattern<A>,
    s: &[u8],
    replacement: &[u8],
    far: &mut Far,
    stand: Stand,
) -> Result<(), Halt>
    requires { stand.at ≤ length s.now }
    ensures part { (whole : meaning.Replaced) (l : Allowance) (limit : ℕ)
        → IsPart whole l left.old far.old (meaning.replaced_from A.letters pattern.now.anchored pattern.now.items pattern.now.slots s.now replacement.now (suc limit) far.old.copied (Some (stand_seen stand)))
        → GoesOn whole l left.new far.new (meaning.replaced_from A.letters pattern.now.anchored pattern.now.items pattern.now.slots s.now replacement.now limit far.new.copied (option_map stand_seen far.new.next)) result }
    ensures within { OnOk result (StandWithin (length s.now) far.new.next) }
{
    match meet::<A>(alloc, left, pattern, s, stand.at) {
        Err(stop) => Err(halt_of(stop)),
        Ok(Met::Nothing) => {
            far.next = None;
            Ok(())
        }
        Ok(Met::Found(found, next)) => {
            put_match::<A>(alloc, left, s, replacement, far, stand, &found, next)
        }
    }
}

/// Why a search ended early.
fn halt_of(stop: Stop) -> Halt
    ensures { result ≡ halt_in stop }
{
    match stop {
        Stop::Spent => Halt::Spent,
        Stop::Raised(_, _) => Halt::NoMemory,
        Stop::NoMemory => Halt::NoMemory,
    }
}

/// Nothing is looked at yet, with room for as many bytes as the subject has: most texts that are made are about as long.
fn begin_far(alloc: Global, s: &[u8]) -> Result<Far, NoMemory>
    ensures nothing { IfOk result (λ f. far_seen f ≡ meaning.nothing_yet) }
    ensures within { IfOk result (λ f. (size : ℕ) → StandWithin size f.next) }
{
    let mut far = Far::new(alloc);
    match far.text.reserve(s.len()) {
        Ok(_) => Ok(far),
        Err(_) => Err(NoMemory),
    }
}

/// At most so many matches are replaced.
fn replace_matches<A: Alphabet>(
    alloc: Global,
    left: &mut Left,
    pattern: &Pattern<A>,
    s: &[u8],
    replacement: &[u8],
    limit: u64,
) -> Result<Far, Halt>
    ensures { IsRest
        (meaning.replaced_from A.letters pattern.now.anchored pattern.now.items pattern.now.slots
        s.now replacement.now limit 0 (Some meaning.at_head))
        s.now left.old left.new result }
{
    let mut far = begin_far(alloc, s)?;
    'matches: for _turn in 0..limit {
        let Some(stand) = far.next else {
            return Ok(far);
        };
        replace_next::<A>(alloc, left, pattern, s, replacement, &mut far, stand)?;
    }
    Ok(far)
}

/// The bytes behind a place.
pub fn behind(s: &[u8], place: usize) -> &[u8]
    ensures { result.now ≡ drop place s.now }
{
    if s.len() <= place {
        return &[];
    }
    &s[place..]
}

/// The rest of the subject is put behind the text, for a step a byte.
pub fn put_rest(left: &mut Left, text: &mut Vec<u8>, rest: &[u8]) -> Result<(), Halt>
    ensures { IsTail rest.now text.old.items left.old text.new.items left.new result }
{
    match pay(left, rest.len() as u64) {
        Err(_) => Err(Halt::Spent),
        Ok(_) => {
            push_all(text, rest)?;
            Ok(())
        }
    }
}

/// The text in which at most so many matches are replaced, with their number.
pub fn replace_all<A: Alphabet>(
    alloc: Global,
    left: &mut Left,
    pattern: &Pattern<A>,
    s: &[u8],
    replacement: &[u8],
    limit: u64,
) -> Result<Far, Halt>
    ensures { IsPaidText
        (meaning.replaced_from A.letters pattern.now.anchored pattern.now.items pattern.now.slots
        s.now replacement.now limit 0 (Some meaning.at_head))
        left.old left.new result }
{
    let mut far = replace_matches::<A>(alloc, left, pattern, s, replacement, limit)?;
    put_rest(left, &mut far.text, behind(s, far.copied))?;
    Ok(far)
}
