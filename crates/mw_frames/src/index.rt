//! The `__index` of a frame's arguments (Scribunto, Frame object).
ghost use Rattle.std.specs.Prelude.{◌≡◌, ◌∷◌, []};
ghost use Rattle.lua_basic.specs.LuaHeapValue as kind;
ghost use Rattle.lua_basic.specs.LuaMeaningArguments.{gives};
ghost use Rattle.lua_home.specs.LuaMeaningFrames as meaning;
ghost use Rattle.lua_basic.specs.LuaStoreSeen.{seen};
ghost use Rattle.lua_basic.specs.LuaStoreParts.{IsOf, IsTableOf, IsLater};
ghost use Rattle.lua_basic.specs.Seen.{values_seen, AllOf, Free, AnswerOf};

use crate::keys::{is_place, place_of};
use lua_basic::arguments::a_table;
use lua_basic::values::{second, single};
use lua_basic::{Stop, Store, TableId, Value};
use mw_frame::List;
use std::alloc::Global;

/// The entry of the number that a name of a place is, or nil.
fn at_place(store: &Store, table: TableId, name: &[u8]) -> Value
    requires { IsTableOf store.now table }
    ensures value { meaning.by_key store.now.heap table.at (kind.Text name.now)
        ≡ gives store.now.heap (seen store.now.texts result ∷ []) }
    ensures of { IsOf store.now result }
{
    if is_place(name) {
        return store.get(table, Value::Number(place_of(name)));
    }
    Value::Nil
}

/// The value at a key that is absent: a text that names a place gives the entry of that number.
fn entry_at(store: &Store, table: TableId, key: Value) -> Value
    requires table { IsTableOf store.now table }
    requires key { IsOf store.now key }
    ensures value { meaning.by_key store.now.heap table.at (seen store.now.texts key)
        ≡ gives store.now.heap (seen store.now.texts result ∷ []) }
    ensures of { IsOf store.now result }
{
    match key {
        Value::Text(name) => at_place(store, table, store.bytes(name)),
        Value::Nil => Value::Nil,
        Value::Bool(_) => Value::Nil,
        Value::Number(_) => Value::Nil,
        Value::Table(_) => Value::Nil,
        Value::Closure(_) => Value::Nil,
        Value::Builtin(_) => Value::Nil,
        Value::Markup(_) => Value::Nil,
    }
}

/// `args[k]` where k is absent.
pub fn args_index(alloc: Global, store: &mut Store, args: &[Value]) -> Result<List<Value>, Stop>
    requires { AllOf store.old args.now }
    ensures answer { Free (meaning.args_index (values_seen store.old.texts args.now) store.old.heap)
        store.new result }
    ensures of { AnswerOf store.new result }
    ensures later { IsLater store.old store.new }
{
    let table = a_table(alloc, store, 1, b"args", args)?;
    let value = entry_at(store, table, second(args));
    let values = single(alloc, value)?;
    Ok(values)
}
