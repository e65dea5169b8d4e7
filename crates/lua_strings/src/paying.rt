//! Steps that are taken, and texts that are paid for.
ghost use Rattle.std.specs.Prelude.{◌≡◌, ◌+◌, ◌<◌, ◌^◌, ◌∷◌, [], List as Items, length, IfOk, MatchOption};
ghost use Rattle.lua_basic.specs.LuaHeapValue as kind;
ghost use Rattle.lua_basic.specs.LuaMeaningArguments.{gives_text, text_charge};
ghost use Rattle.lua_basic.specs.LuaStoreSeen.{seen};
ghost use Rattle.lua_basic.specs.LuaStoreParts.{IsOf, IsLater};
ghost use Rattle.lua_basic.specs.Seen.{values_seen, AllOf, Paid, AnswerOf};
ghost use Rattle.lua_basic.specs.declared.stop.Stop.TheVariants as stop;
ghost use Rattle.lua_strings.specs.Alone.{alone, IsListed};
ghost use Rattle.lua_strings.specs.Costs.{Pays};

use lua_basic::stop::pay;
use lua_basic::values::single;
use lua_basic::{Left, Stop, Store, Value};
use lua_pattern::List;
use lua_string::NoMemory;
use std::alloc::Global;

/// Takes so many steps, or all that are left where that is fewer.
pub fn take(left: &mut Left, steps: u64) -> Result<(), Stop>
    ensures { Pays steps left.old left.new result }
{
    pay(left, steps)
}

/// Takes a sum of steps, which need not fit a number.
pub fn take_sum(left: &mut Left, a: u64, b: u64) -> Result<(), Stop>
    ensures { Pays (a + b) left.old left.new result }
{
    take(left, a)?;
    take(left, b)
}

/// More was wanted than is left: no step stays.
pub fn spend(left: &mut Left) -> Stop
    ensures spent { result ≡ stop.Spent }
    ensures rest { left.new ≡ record left.old { steps = 0 } }
{
    left.steps = 0;
    Stop::Spent
}

/// The first of a list, and those behind it.
pub fn split_values(values: &[Value]) -> Option<(Value, &[Value])>
    ensures { MatchOption result (values.now ≡ []) (λ p. values.now ≡ p.0 ∷ p.1.now) }
{
    match values {
        [value, more @ ..] => Some((*value, more)),
        [] => None,
    }
}

/// What a value costs as an argument: its bytes, where it is a text.
fn text_cost(store: &Store, value: Value) -> u64
    requires { IsOf store.now value }
    ensures { (more : Items kind.Value)
        → text_charge (seen store.now.texts value ∷ more) ≡ result + text_charge more }
{
    match value {
        Value::Text(text) => store.bytes(text).len() as u64,
        Value::Nil => 0,
        Value::Bool(_) => 0,
        Value::Number(_) => 0,
        Value::Table(_) => 0,
        Value::Closure(_) => 0,
        Value::Builtin(_) => 0,
        Value::Markup(_) => 0,
    }
}

/// Takes a step for each byte of the arguments that are texts.
pub fn take_texts(store: &Store, left: &mut Left, args: &[Value]) -> Result<(), Stop>
    requires { AllOf store.now args.now }
    ensures { Pays (text_charge (values_seen store.now.texts args.now)) left.old left.new result }
{
    let mut rest = args;
    'values: while let Some((value, more)) = split_values(rest) {
        take(left, text_cost(store, value))?;
        rest = more;
    }
    Ok(())
}

/// A text as the only value of a list. It is paid for already.
pub fn text_value(alloc: Global, store: &mut Store, bytes: &[u8]) -> Result<List<Value>, NoMemory>
    ensures value { IfOk result (λ values.
        values_seen store.new.texts values ≡ kind.Text bytes.now ∷ []) }
    ensures of { IfOk result (AllOf store.new) }
    ensures heap { store.new.heap ≡ store.old.heap }
    ensures later { IsLater store.old store.new }
    ensures few { length bytes.now < 2 ^ 64 }
{
    let _size = bytes.len();
    let text = store.text(bytes)?;
    let values = single(alloc, Value::Text(text))?;
    Ok(values)
}

/// A text is given as one value with no list around it, after a step for each of its bytes.
pub fn give_one_text(store: &mut Store, left: &mut Left, bytes: &[u8]) -> Result<Value, Stop>
    ensures answer { Paid (gives_text store.old.heap bytes.now) store.old left.old
        store.new left.new (alone result) }
    ensures of { AnswerOf store.new (alone result) }
    ensures later { IsLater store.old store.new }
{
    take(left, bytes.len() as u64)?;
    let text = store.text(bytes)?;
    Ok(Value::Text(text))
}

/// The answer of a function that gives one value, as a list.
pub fn listed(alloc: Global, answer: Result<Value, Stop>) -> Result<List<Value>, Stop>
    ensures { IsListed answer result }
{
    let value = answer?;
    let values = single(alloc, value)?;
    Ok(values)
}

/// A text is given, after a step for each of its bytes.
pub fn give_text(
    alloc: Global,
    store: &mut Store,
    left: &mut Left,
    bytes: &[u8],
) -> Result<List<Value>, Stop>
    ensures answer { Paid (gives_text store.old.heap bytes.now) store.old left.old
        store.new left.new result }
    ensures of { AnswerOf store.new result }
    ensures later { IsLater store.old store.new }
{
    listed(alloc, give_one_text(store, left, bytes))
}
