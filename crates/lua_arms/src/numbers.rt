//! The number that a value is taken for (manual 2.2.1).
ghost use Rattle.std.specs.Prelude.{◌≡◌};
ghost use Rattle.lua_code.specs.LuaMeaningValues as values_of;
ghost use Rattle.lua_basic.specs.LuaStoreSeen.{seen};
ghost use Rattle.lua_basic.specs.LuaStoreParts.{IsOf};

use lua_basic::{Store, Value};
use lua_number::read_number;

/// The number of a value, if it is one or a text that reads as one (manual 2.2.1).
pub fn number_in(store: &Store, value: Value) -> Option<i64>
    requires { IsOf store.now value }
    ensures { result ≡ values_of.number_in (seen store.now.texts value) }
{
    match value {
        Value::Number(n) => Some(n),
        Value::Text(text) => read_number(store.bytes(text)),
        Value::Nil => None,
        Value::Bool(_) => None,
        Value::Table(_) => None,
        Value::Closure(_) => None,
        Value::Builtin(_) => None,
        Value::Markup(_) => None,
    }
}
