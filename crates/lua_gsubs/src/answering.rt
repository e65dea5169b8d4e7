//! What `gsub` gives where a text replaces: the text that is made, and how many matches were replaced.
ghost use Rattle.std.specs.Prelude.{◌≡◌, ◌∷◌, [], pos, Some, IfOk};
ghost use Rattle.lua_iterators.specs.LuaHeapValue as kind;
ghost use Rattle.lua_replacing.specs.LuaMeaningGsub as meaning;
ghost use Rattle.lua_replacing.specs.LuaStoreParts.{IsLater};
ghost use Rattle.lua_iterators.specs.LuaBasicSeen.{values_seen, AllOf, Paid, AnswerOf, StopOf};
ghost use Rattle.lua_replacing.specs.Seen.{alphabet_in, anchored_in, items_in, slots_in};
ghost use Rattle.lua_gsubs.specs.Parts.{HaltStops};

use crate::filling::Halt;
use crate::replacing::replace_all;
use lua_iterators::{Left, Stop, Store, number, pair, refuse_pattern};
use lua_number::NoMemory;
use lua_pattern::{Alphabet, List, OneByte, OnePoint, Pattern, PatternFault};
use lua_replacing::{AnyPattern, Value};
use std::alloc::Global;

/// A text that is made, and how many matches were replaced.
pub fn made_values(
    alloc: Global,
    store: &mut Store,
    text: &[u8],
    count: usize,
) -> Result<List<Value>, NoMemory>
    ensures values { IfOk result (λ values.
        values_seen store.new.texts values ≡ kind.Text text.now ∷ kind.Number (pos count) ∷ []) }
    ensures of { IfOk result (AllOf store.new) }
    ensures heap { store.new.heap ≡ store.old.heap }
    ensures later { IsLater store.old store.new }
{
    let count = number(count)?;
    let text = store.text(text)?;
    let values = pair(alloc, Value::Text(text), count)?;
    Ok(values)
}

/// Why a text is not replaced, as its function ends.
fn halted(alloc: Global, store: &mut Store, halt: Halt) -> Stop
    ensures stops { HaltStops store.old store.new halt result }
    ensures of { StopOf store.new result }
    ensures later { IsLater store.old store.new }
{
    match halt {
        Halt::NoCapture => refuse_pattern(alloc, store, PatternFault::At(7)),
        Halt::Spent => Stop::Spent,
        Halt::NoMemory => Stop::NoMemory,
    }
}

/// The matches of a pattern are replaced by what a text stands for.
fn answer_over<A: Alphabet>(
    alloc: Global,
    store: &mut Store,
    left: &mut Left,
    pattern: &Pattern<A>,
    s: &[u8],
    replacement: &[u8],
    limit: u64,
) -> Result<List<Value>, Stop>
    ensures answer { Paid
        (meaning.replaced_answer store.old.heap
        (meaning.replaced_from A.letters pattern.now.anchored pattern.now.items
        pattern.now.slots s.now replacement.now limit 0 (Some meaning.at_head)))
        store.old left.old store.new left.new result }
    ensures of { AnswerOf store.new result }
    ensures later { IsLater store.old store.new }
{
    match replace_all::<A>(alloc, left, pattern, s, replacement, limit) {
        Err(halt) => Err(halted(alloc, store, halt)),
        Ok(far) => {
            let values = made_values(alloc, store, far.text.as_slice(), far.count)?;
            Ok(values)
        }
    }
}

/// The matches of a pattern are replaced by what a text stands for, over bytes or code points.
pub fn answer_by_text(
    alloc: Global,
    store: &mut Store,
    left: &mut Left,
    pattern: &AnyPattern,
    s: &[u8],
    replacement: &[u8],
    limit: u64,
) -> Result<List<Value>, Stop>
    ensures answer { Paid
        (meaning.replaced_answer store.old.heap
        (meaning.replaced_from (meaning.letters (alphabet_in pattern.now))
        (anchored_in pattern.now) (items_in pattern.now) (slots_in pattern.now) s.now
        replacement.now limit 0 (Some meaning.at_head)))
        store.old left.old store.new left.new result }
    ensures of { AnswerOf store.new result }
    ensures later { IsLater store.old store.new }
{
    match pattern {
        AnyPattern::Bytes(pattern) => {
            answer_over::<OneByte>(alloc, store, left, pattern, s, replacement, limit)
        }
        AnyPattern::Points(pattern) => {
            answer_over::<OnePoint>(alloc, store, left, pattern, s, replacement, limit)
        }
    }
}
