//! `string.byte` and `string.sub` (manual 5.4).
ghost use Rattle.std.specs.Prelude.{◌≡◌, ◌∷◌, [], ℕ, List as Items, pos, IfOk, MatchOption};
ghost use Rattle.lua_basic.specs.LuaStoreSeen.{StoreView};
ghost use Rattle.lua_basic.specs.LuaStoreParts.{IsLater};
ghost use Rattle.lua_basic.specs.LuaStoreDeclaredValueValueTheVariants as own;
ghost use Rattle.lua_basic.specs.Seen.{values_seen, AllOf, Paid, AnswerOf};
ghost use Rattle.lua_basic.specs.LuaMeaningStrings as meaning;
ghost use Rattle.lua_strings.specs.Alone.{alone};

use crate::paying::{give_one_text, take};
use lua_basic::arguments::{a_number, a_text, number_or};
use lua_basic::values::rest;
use lua_basic::{Left, Stop, Store, Value};
use lua_pattern::List;
use lua_string::{NoMemory, part};
use std::alloc::Global;

/// The first of bytes, and those behind it.
fn split_bytes(bytes: &[u8]) -> Option<(u8, &[u8])>
    ensures { MatchOption result (bytes.now ≡ []) (λ p. bytes.now ≡ p.0 ∷ p.1.now) }
{
    match bytes {
        [byte, more @ ..] => Some((*byte, more)),
        [] => None,
    }
}

/// The code of a byte as a value.
fn code_value(byte: u8) -> Value
    ensures { result ≡ own.Number (pos byte) }
{
    Value::Number(i64::from(byte))
}

/// The codes of bytes as values.
fn code_values(alloc: Global, bytes: &[u8]) -> Result<List<Value>, NoMemory>
    ensures values { IfOk result (λ values.
        (texts : Items (Items ℕ)) → values_seen texts values ≡ meaning.code_values bytes.now) }
    ensures of { IfOk result (λ values. (s : StoreView) → AllOf s values) }
{
    let mut values = List::new(alloc);
    let mut rest = bytes;
    'bytes: while let Some((byte, more)) = split_bytes(rest) {
        values.push(code_value(byte))?;
        rest = more;
    }
    Ok(values)
}

/// The codes of bytes are given, each for a step.
fn give_codes(
    alloc: Global,
    store: &mut Store,
    left: &mut Left,
    bytes: &[u8],
) -> Result<List<Value>, Stop>
    ensures answer { Paid (meaning.give_codes store.old.heap bytes.now) store.old left.old
        store.new left.new result }
    ensures of { AnswerOf store.new result }
    ensures later { IsLater store.old store.new }
{
    take(left, bytes.len() as u64)?;
    let values = code_values(alloc, bytes)?;
    Ok(values)
}

/// `string.byte(s, i, j)`: the codes from place i to place j, each for a step.
pub fn byte(
    alloc: Global,
    store: &mut Store,
    left: &mut Left,
    args: &[Value],
) -> Result<List<Value>, Stop>
    requires { AllOf store.old args.now }
    ensures answer { Paid (meaning.byte (values_seen store.old.texts args.now) store.old.heap)
        store.old left.old store.new left.new result }
    ensures of { AnswerOf store.new result }
    ensures later { IsLater store.old store.new }
{
    let text = a_text(alloc, store, 1, b"byte", args)?;
    let others = rest(args);
    let from = number_or(alloc, store, 1, 2, b"byte", others)?;
    let to = number_or(alloc, store, from, 3, b"byte", rest(others))?;
    give_codes(alloc, store, left, part(text.as_slice(), from, to))
}

/// `string.sub(s, i, j)`: the bytes from place i to place j. Each answer is one value, which needs no list.
pub fn sub(alloc: Global, store: &mut Store, left: &mut Left, args: &[Value]) -> Result<Value, Stop>
    requires { AllOf store.old args.now }
    ensures answer { Paid (meaning.sub (values_seen store.old.texts args.now) store.old.heap)
        store.old left.old store.new left.new (alone result) }
    ensures of { AnswerOf store.new (alone result) }
    ensures later { IsLater store.old store.new }
{
    let text = a_text(alloc, store, 1, b"sub", args)?;
    let others = rest(args);
    let from = a_number(alloc, store, 2, b"sub", others)?;
    let to = number_or(alloc, store, -1, 3, b"sub", rest(others))?;
    give_one_text(store, left, part(text.as_slice(), from, to))
}
