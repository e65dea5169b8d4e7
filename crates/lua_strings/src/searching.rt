//! `string.find` and `string.match` (manual 5.4), within the steps that are left.
ghost use Rattle.std.specs.Prelude.{◌≡◌, ◌+◌, ◌≤◌, ◌<◌, ◌^◌, ◌∷◌, [], List as Items, length, drop, MatchResult, IfOk};
ghost use Rattle.lua_pattern.specs.declared.slots.Slot.{Slot as AnySlot};
ghost use Rattle.lua_pattern.specs.Way.{Answer};
ghost use Rattle.lua_pattern.specs.Texts.{bytes};
ghost use Rattle.lua_pattern.specs.Read.{read_of, codes as symbol_codes};
ghost use Rattle.lua_pattern.specs.Reads.{IsReadFault};
ghost use Rattle.lua_string.specs.Places.{first_place as first_of};
ghost use Rattle.lua_string.specs.Finds.{Answers, IsPriced, place_of};
ghost use Rattle.lua_basic.specs.LuaHeapValue as kind;
ghost use Rattle.lua_basic.specs.LuaMeaningArguments.{costs};
ghost use Rattle.lua_basic.specs.LuaStoreSeen.{StoreView};
ghost use Rattle.lua_basic.specs.LuaStoreParts.{IsLater};
ghost use Rattle.lua_basic.specs.Seen.{values_seen, AllOf, Paid, AnswerOf};
ghost use Rattle.lua_basic.specs.LuaMeaningSearches as meaning;
ghost use Rattle.lua_strings.specs.Found.{bytes_of, values_of, IsCovered};

use crate::captures::{captures_size, find_values, match_size, match_values};
use crate::messages::refuse_pattern;
use crate::paying::{spend, take, take_sum};
use lua_basic::arguments::{a_text, number_or};
use lua_basic::values::{is_true, rest, single, third};
use lua_basic::{Left, Stop, Store, Value};
use lua_pattern::{List, Match, PatternFault, Search};
use lua_string::NoMemory;
use lua_string::place::first_place;
use std::alloc::Global;

/// What is wanted of a match.
#[derive(Clone, Copy)]
pub enum Wanted {
    Find,
    Match,
}

/// The bytes of the texts that are wanted.
fn wanted_size(which: Wanted, found: &Match) -> u64
    requires { bytes_of which found.now < 2 ^ 64 }
    ensures { result ≡ bytes_of which found.now }
{
    match which {
        Wanted::Find => captures_size(found.captures.as_slice()),
        Wanted::Match => match_size(found),
    }
}

/// The values that are wanted.
fn wanted_values(
    alloc: Global,
    store: &mut Store,
    which: Wanted,
    s: &[u8],
    found: &Match,
) -> Result<List<Value>, NoMemory>
    ensures values { IfOk result (λ values.
        values_seen store.new.texts values ≡ values_of which s.now found.now) }
    ensures of { IfOk result (AllOf store.new) }
    ensures heap { store.new.heap ≡ store.old.heap }
    ensures later { IsLater store.old store.new }
{
    match which {
        Wanted::Find => find_values(alloc, store, s, found),
        Wanted::Match => match_values(alloc, store, s, found),
    }
}

/// The first match from a place on, within a budget of tries and bytes.
fn search(
    alloc: Global,
    which: Wanted,
    s: &[u8],
    pattern: &[u8],
    init: i64,
    budget: u64,
) -> Result<Search, PatternFault>
    ensures { MatchResult result
        (λ found. Answers (bytes_of which) budget s.now pattern.now init found)
        (λ e. IsReadFault (read_of (symbol_codes bytes pattern.now)) e) }
{
    match which {
        Wanted::Find => lua_string::find(alloc, s, pattern, init, false, budget),
        Wanted::Match => lua_string::match_from(alloc, s, pattern, init, budget),
    }
}

/// Nil is given, for so many steps.
fn give_nil(
    alloc: Global,
    store: &mut Store,
    left: &mut Left,
    steps: u64,
) -> Result<List<Value>, Stop>
    ensures answer { Paid (costs steps store.old.heap (kind.Nil ∷ [])) store.old left.old
        store.new left.new result }
    ensures of { AnswerOf store.new result }
    ensures later { IsLater store.old store.new }
{
    take(left, steps)?;
    let values = single(alloc, Value::Nil)?;
    Ok(values)
}

/// What is wanted of a match is given, for its tries and bytes.
fn give_match(
    alloc: Global,
    store: &mut Store,
    left: &mut Left,
    which: Wanted,
    s: &[u8],
    found: &Match,
    tries: u64,
) -> Result<List<Value>, Stop>
    requires { tries + bytes_of which found.now ≤ left.old.steps }
    ensures answer { Paid
        (costs (tries + bytes_of which found.now) store.old.heap (values_of which s.now found.now))
        store.old left.old store.new left.new result }
    ensures of { AnswerOf store.new result }
    ensures later { IsLater store.old store.new }
{
    let _steps = left.steps;
    let size = wanted_size(which, found);
    take_sum(left, tries, size)?;
    let values = wanted_values(alloc, store, which, s, found)?;
    Ok(values)
}

/// What a search found is given.
fn give_found(
    alloc: Global,
    store: &mut Store,
    left: &mut Left,
    which: Wanted,
    s: &[u8],
    found: &Search,
) -> Result<List<Value>, Stop>
    requires { IsCovered (bytes_of which) left.old.steps found.now }
    ensures answer { (slots : Items AnySlot) (answer : Answer)
        → IsPriced (bytes_of which) left.old.steps slots answer found.now
        → Paid
        (meaning.answered (bytes_of which) (values_of which s.now) slots answer store.old.heap)
        store.old left.old store.new left.new result }
    ensures of { AnswerOf store.new result }
    ensures later { IsLater store.old store.new }
{
    match found {
        Search::Found(found, tries) => give_match(alloc, store, left, which, s, found, *tries),
        Search::NotFound(tries) => give_nil(alloc, store, left, *tries),
        Search::Spent => Err(spend(left)),
    }
}

/// A search of a pattern, behind what the pattern costs.
fn answered(
    alloc: Global,
    store: &mut Store,
    left: &mut Left,
    which: Wanted,
    s: &[u8],
    pattern: &[u8],
    init: i64,
) -> Result<List<Value>, Stop>
    ensures answer { Paid
        (meaning.by_pattern (bytes_of which) (values_of which s.now) s.now
        (first_of (length s.now) init) (read_of (symbol_codes bytes pattern.now))
        store.old.heap)
        store.old left.old store.new left.new result }
    ensures of { AnswerOf store.new result }
    ensures later { IsLater store.old store.new }
{
    match search(alloc, which, s, pattern, init, left.steps) {
        Ok(found) => give_found(alloc, store, left, which, s, &found),
        Err(PatternFault::At(n)) => Err(refuse_pattern(alloc, store, n)),
        Err(PatternFault::NoMemory) => Err(Stop::NoMemory),
    }
}

/// A search of a pattern, which costs its bytes.
fn searched(
    alloc: Global,
    store: &mut Store,
    left: &mut Left,
    which: Wanted,
    s: &[u8],
    pattern: &[u8],
    init: i64,
) -> Result<List<Value>, Stop>
    ensures answer { Paid
        (meaning.searched (bytes_of which) (values_of which s.now) s.now pattern.now init
        store.old.heap)
        store.old left.old store.new left.new result }
    ensures of { AnswerOf store.new result }
    ensures later { IsLater store.old store.new }
{
    take(left, pattern.len() as u64)?;
    answered(alloc, store, left, which, s, pattern, init)
}

/// The values of a plain search from a place on.
fn plain_values(
    alloc: Global,
    store: &mut Store,
    s: &[u8],
    needle: &[u8],
    init: i64,
) -> Result<List<Value>, NoMemory>
    ensures values { IfOk result (λ values.
        values_seen store.new.texts values
        ≡ meaning.plain_values (first_of (length s.now) init) (length needle.now)
        (place_of needle.now (drop (first_of (length s.now) init) s.now))) }
    ensures of { IfOk result (AllOf store.new) }
    ensures heap { store.new.heap ≡ store.old.heap }
    ensures later { IsLater store.old store.new }
{
    match lua_string::find(alloc, s, needle, init, true, 0) {
        Ok(Search::Found(found, _)) => find_values(alloc, store, s, &found),
        Ok(Search::NotFound(_)) => single(alloc, Value::Nil),
        Ok(Search::Spent) => unreachable!(),
        Err(_) => Err(NoMemory),
    }
}

/// A plain search, which costs the bytes of the subject from its start, and those of the needle.
fn plain_searched(
    alloc: Global,
    store: &mut Store,
    left: &mut Left,
    s: &[u8],
    needle: &[u8],
    init: i64,
) -> Result<List<Value>, Stop>
    ensures answer { Paid
        (meaning.plain_searched s.now needle.now (first_of (length s.now) init) store.old.heap)
        store.old left.old store.new left.new result }
    ensures of { AnswerOf store.new result }
    ensures later { IsLater store.old store.new }
{
    let from = first_place(s.len(), init);
    take_sum(left, (s.len() - from) as u64, needle.len() as u64)?;
    let values = plain_values(alloc, store, s, needle, init)?;
    Ok(values)
}

/// A plain search, or one of a pattern.
fn find_in(
    alloc: Global,
    store: &mut Store,
    left: &mut Left,
    plain: bool,
    s: &[u8],
    pattern: &[u8],
    init: i64,
) -> Result<List<Value>, Stop>
    ensures answer { Paid (meaning.find_in plain s.now pattern.now init store.old.heap) store.old
        left.old store.new left.new result }
    ensures of { AnswerOf store.new result }
    ensures later { IsLater store.old store.new }
{
    if plain {
        return plain_searched(alloc, store, left, s, pattern, init);
    }
    searched(alloc, store, left, Wanted::Find, s, pattern, init)
}

/// `string.find(s, pattern, init, plain)`: the first place and the last one of the first match, and its captures; or nil.
pub fn find(
    alloc: Global,
    store: &mut Store,
    left: &mut Left,
    args: &[Value],
) -> Result<List<Value>, Stop>
    requires { AllOf store.old args.now }
    ensures answer { Paid (meaning.find (values_seen store.old.texts args.now) store.old.heap)
        store.old left.old store.new left.new result }
    ensures of { AnswerOf store.new result }
    ensures later { IsLater store.old store.new }
{
    let text = a_text(alloc, store, 1, b"find", args)?;
    let others = rest(args);
    let pattern = a_text(alloc, store, 2, b"find", others)?;
    let init = number_or(alloc, store, 1, 3, b"find", rest(others))?;
    let plain = is_true(third(others));
    find_in(
        alloc,
        store,
        left,
        plain,
        text.as_slice(),
        pattern.as_slice(),
        init,
    )
}

/// `string.match(s, pattern, init)`: the captures of the first match, or all of it where there are none; or nil.
pub fn match_from(
    alloc: Global,
    store: &mut Store,
    left: &mut Left,
    args: &[Value],
) -> Result<List<Value>, Stop>
    requires { AllOf store.old args.now }
    ensures answer { Paid (meaning.match_from (values_seen store.old.texts args.now) store.old.heap)
        store.old left.old store.new left.new result }
    ensures of { AnswerOf store.new result }
    ensures later { IsLater store.old store.new }
{
    let text = a_text(alloc, store, 1, b"match", args)?;
    let others = rest(args);
    let pattern = a_text(alloc, store, 2, b"match", others)?;
    let init = number_or(alloc, store, 1, 3, b"match", rest(others))?;
    searched(
        alloc,
        store,
        left,
        Wanted::Match,
        text.as_slice(),
        pattern.as_slice(),
        init,
    )
}
