//! `tonumber` (manual 5.1).
ghost use Rattle.std.specs.Prelude.{◌≡◌, ℕ, List};
ghost use Rattle.lua_meaning.specs.Basic as meaning;
ghost use Rattle.lua_store.specs.Seen.{StoreView, seen};
ghost use Rattle.lua_store.specs.Parts.{IsOf, IsLater};
ghost use Rattle.lua_basic.specs.Seen.{values_seen, AllOf, Free, AnswerOf};

use crate::arguments::{a_text, number_or};
use crate::messages::refuse;
use crate::stop::Stop;
use crate::values::{first, number_in, rest, single};
use lua_number::read_in_base;
use lua_store::{List, Store, Value};
use std::alloc::Global;

/// The value of a number, or nil for none.
fn number_or_nil(number: Option<i64>) -> Value
    ensures of { (s : StoreView) → IsOf s result }
    ensures value { (texts : List (List ℕ)) → seen texts result ≡ meaning.number_or_nil number }
{
    match number {
        Some(number) => Value::Number(number),
        None => Value::Nil,
    }
}

/// The number that a text writes in a base, or nil.
fn digits_in(alloc: Global, store: &mut Store, text: &[u8], base: i64) -> Result<List<Value>, Stop>
    ensures answer { Free (meaning.digits_in text.now base store.old.heap) store.new result }
    ensures of { AnswerOf store.new result }
    ensures later { IsLater store.old store.new }
{
    if base < 2 || base > 36 {
        return Err(refuse(alloc, store, 2, b"tonumber", b"out of range"));
    }
    let number = read_in_base(text, base as u32);
    let values = single(alloc, number_or_nil(number))?;
    Ok(values)
}

/// The number that a value is in a base: any value in base 10, a text in another one.
fn in_base(alloc: Global, store: &mut Store, args: &[Value], base: i64) -> Result<List<Value>, Stop>
    requires { AllOf store.old args.now }
    ensures answer { Free
        (meaning.in_base (values_seen store.old.texts args.now) base store.old.heap)
        store.new result }
    ensures of { AnswerOf store.new result }
    ensures later { IsLater store.old store.new }
{
    if base == 10 {
        let number = number_in(store, first(args));
        let values = single(alloc, number_or_nil(number))?;
        return Ok(values);
    }
    let text = a_text(alloc, store, 1, b"tonumber", args)?;
    digits_in(alloc, store, text.as_slice(), base)
}

/// `tonumber(v, base)`: the number, or nil where the value is none in that base.
pub fn to_number(alloc: Global, store: &mut Store, args: &[Value]) -> Result<List<Value>, Stop>
    requires { AllOf store.old args.now }
    ensures answer { Free (meaning.to_number (values_seen store.old.texts args.now) store.old.heap)
        store.new result }
    ensures of { AnswerOf store.new result }
    ensures later { IsLater store.old store.new }
{
    let base = number_or(alloc, store, 10, 2, b"tonumber", rest(args))?;
    in_base(alloc, store, args, base)
}
