//! `find` and `match` (Scribunto, Ustring library).
ghost use Rattle.std.specs.Prelude.{◌≡◌, ◌+◌, All, IsUtf8, IsCharBoundary};
ghost use Rattle.lua_pattern.specs.Places.{IsCaptureAt};
ghost use Rattle.lua_pattern.specs.Read.{read_of, codes};
ghost use Rattle.lua_pattern.specs.Sizes.{find_bytes, match_bytes};
ghost use Rattle.lua_pattern.specs.Texts.{points};
ghost use Rattle.mw_text.specs.MwUstringFinds.{start_of};
ghost use Rattle.mw_frame_texts.specs.LuaMeaningArguments.{costs};
ghost use Rattle.mw_frame_texts.specs.LuaStoreParts.{IsLater};
ghost use Rattle.mw_frame_texts.specs.LuaBasicSeen.{values_seen, AllOf, Paid, AnswerOf};
ghost use Rattle.mw_frame_texts.specs.LuaMeaningUstring as meaning;

use crate::arguments::{refuse_pattern, utf8_text};
use crate::captures::{find_values, match_places, match_values, pay_captures, pay_match};
use crate::giving::{give_nothing, spend};
use lua_pattern::{List, Match, Search};
use mw_frame_texts::{Left, Stop, Store, Value, is_true, number_or, pay, rest, single, third};
use mw_text::{plain_find, start};
use std::alloc::Global;

/// The places and captures of a match are given, for a step a try, and a byte of the captures.
fn give_found(
    alloc: Global,
    store: &mut Store,
    left: &mut Left,
    s: &[u8],
    found: &Match,
    tries: u64,
) -> Result<List<Value>, Stop>
    requires text { IsUtf8 s.now }
    requires start { IsCharBoundary s.now found.now.start }
    requires end { IsCharBoundary s.now found.now.end }
    requires captures { All (IsCaptureAt (IsCharBoundary s.now)) found.now.captures }
    ensures answer { Paid
        (costs (tries + find_bytes found.now) store.old.heap (meaning.find_values s.now found.now))
        store.old left.old store.new left.new result }
    ensures of { AnswerOf store.new result }
    ensures later { IsLater store.old store.new }
{
    pay(left, tries)?;
    pay_captures(left, found.captures.as_slice())?;
    let values = find_values(alloc, store, s, found)?;
    Ok(values)
}

/// The same for `match`.
fn give_match(
    alloc: Global,
    store: &mut Store,
    left: &mut Left,
    s: &[u8],
    found: &Match,
    tries: u64,
) -> Result<List<Value>, Stop>
    requires text { IsUtf8 s.now }
    requires captures { All (IsCaptureAt (IsCharBoundary s.now)) found.now.captures }
    ensures answer { Paid
        (costs (tries + match_bytes found.now) store.old.heap
        (meaning.match_values s.now found.now))
        store.old left.old store.new left.new result }
    ensures of { AnswerOf store.new result }
    ensures later { IsLater store.old store.new }
{
    pay(left, tries)?;
    pay_match(left, found)?;
    let values = match_values(alloc, store, s, found)?;
    Ok(values)
}

/// A search by a pattern, which has been paid for.
fn find_pattern(
    alloc: Global,
    store: &mut Store,
    left: &mut Left,
    s: &[u8],
    pattern: &[u8],
    init: i64,
) -> Result<List<Value>, Stop>
    requires text { IsUtf8 s.now }
    requires pattern { IsUtf8 pattern.now }
    ensures answer { Paid
        (meaning.searches store.old.heap find_bytes (meaning.find_values s.now) s.now
        (start_of s.now init) (read_of (codes points pattern.now)))
        store.old left.old store.new left.new result }
    ensures of { AnswerOf store.new result }
    ensures later { IsLater store.old store.new }
{
    match mw_text::mw_ustring_find(alloc, s, pattern, init, false, left.steps) {
        Err(fault) => Err(refuse_pattern(alloc, store, fault)),
        Ok(Search::Spent) => Err(spend(left)),
        Ok(Search::NotFound(tries)) => give_nothing(alloc, store, left, tries),
        Ok(Search::Found(found, tries)) => give_found(alloc, store, left, s, &found, tries),
    }
}

/// The same for `match`.
fn match_pattern(
    alloc: Global,
    store: &mut Store,
    left: &mut Left,
    s: &[u8],
    pattern: &[u8],
    init: i64,
) -> Result<List<Value>, Stop>
    requires { IsUtf8 s.now }
    ensures answer { Paid
        (meaning.searches store.old.heap match_bytes (meaning.match_values s.now) s.now
        (start_of s.now init) (read_of (codes points pattern.now)))
        store.old left.old store.new left.new result }
    ensures of { AnswerOf store.new result }
    ensures later { IsLater store.old store.new }
{
    match mw_text::mw_ustring_match_from(alloc, s, pattern, init, left.steps) {
        Err(fault) => Err(refuse_pattern(alloc, store, fault)),
        Ok(Search::Spent) => Err(spend(left)),
        Ok(Search::NotFound(tries)) => give_nothing(alloc, store, left, tries),
        Ok(Search::Found(found, tries)) => give_match(alloc, store, left, s, &found, tries),
    }
}

/// A plain search, for a step a byte of the text from its start on, and a byte of the needle.
fn find_plain(
    alloc: Global,
    store: &mut Store,
    left: &mut Left,
    s: &[u8],
    needle: &[u8],
    from: usize,
) -> Result<List<Value>, Stop>
    requires text { IsUtf8 s.now }
    requires needle { IsUtf8 needle.now }
    requires place { IsCharBoundary s.now from }
    ensures answer { Paid (meaning.by_text store.old.heap s.now needle.now from) store.old left.old
        store.new left.new result }
    ensures of { AnswerOf store.new result }
    ensures same { store.new ≡ store.old }
{
    pay(left, s.len().saturating_sub(from) as u64)?;
    pay(left, needle.len() as u64)?;
    match plain_find(alloc, s, needle, from) {
        Search::Found(found, _) => {
            let values = match_places(alloc, s, found.start, found.end)?;
            Ok(values)
        }
        Search::NotFound(_) => {
            let values = single(alloc, Value::Nil)?;
            Ok(values)
        }
        Search::Spent => Err(spend(left)),
    }
}

/// The search that `find` makes.
fn find_from(
    alloc: Global,
    store: &mut Store,
    left: &mut Left,
    plain: bool,
    s: &[u8],
    pattern: &[u8],
    init: i64,
) -> Result<List<Value>, Stop>
    requires text { IsUtf8 s.now }
    requires pattern { IsUtf8 pattern.now }
    ensures answer { Paid
        (meaning.find_from store.old.heap plain s.now pattern.now (start_of s.now init)) store.old
        left.old store.new left.new result }
    ensures of { AnswerOf store.new result }
    ensures later { IsLater store.old store.new }
{
    if plain {
        return find_plain(alloc, store, left, s, pattern, start(s, init));
    }
    pay(left, pattern.len() as u64)?;
    find_pattern(alloc, store, left, s, pattern, init)
}

/// `mw.ustring.find(s, pattern, init, plain)`: the first and the last code point of the first match from place init on, by default
/// 1, with the captures; or nil. With `plain` the text `pattern` itself is searched.
pub fn find(
    alloc: Global,
    store: &mut Store,
    left: &mut Left,
    args: &[Value],
) -> Result<List<Value>, Stop>
    requires { AllOf store.old args.now }
    ensures answer { Paid (meaning.find (values_seen store.old.texts args.now) store.old.heap)
        store.old left.old store.new left.new result }
    ensures of { AnswerOf store.new result }
    ensures later { IsLater store.old store.new }
{
    let text = utf8_text(alloc, store, 1, b"find", args)?;
    let others = rest(args);
    let pattern = utf8_text(alloc, store, 2, b"find", others)?;
    let init = number_or(alloc, store, 1, 3, b"find", rest(others))?;
    let plain = is_true(third(others));
    find_from(
        alloc,
        store,
        left,
        plain,
        text.as_slice(),
        pattern.as_slice(),
        init,
    )
}

/// The search that `match` makes.
fn match_by(
    alloc: Global,
    store: &mut Store,
    left: &mut Left,
    s: &[u8],
    pattern: &[u8],
    init: i64,
) -> Result<List<Value>, Stop>
    requires { IsUtf8 s.now }
    ensures answer { Paid
        (meaning.by_pattern store.old.heap match_bytes (meaning.match_values s.now) s.now
        pattern.now (start_of s.now init))
        store.old left.old store.new left.new result }
    ensures of { AnswerOf store.new result }
    ensures later { IsLater store.old store.new }
{
    pay(left, pattern.len() as u64)?;
    match_pattern(alloc, store, left, s, pattern, init)
}

/// `mw.ustring.match(s, pattern, init)`: the captures of the first match from place init on, by default 1, or the whole match where
/// the pattern has none; or nil.
pub fn match_from(
    alloc: Global,
    store: &mut Store,
    left: &mut Left,
    args: &[Value],
) -> Result<List<Value>, Stop>
    requires { AllOf store.old args.now }
    ensures answer { Paid (meaning.match_from (values_seen store.old.texts args.now) store.old.heap)
        store.old left.old store.new left.new result }
    ensures of { AnswerOf store.new result }
    ensures later { IsLater store.old store.new }
{
    let text = utf8_text(alloc, store, 1, b"match", args)?;
    let others = rest(args);
    let pattern = utf8_text(alloc, store, 2, b"match", others)?;
    let init = number_or(alloc, store, 1, 3, b"match", rest(others))?;
    match_by(
        alloc,
        store,
        left,
        text.as_slice(),
        pattern.as_slice(),
        init,
    )
}
