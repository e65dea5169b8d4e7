//! Further arguments of functions of the library (manual 5). `given` are the arguments from number n on.
ghost use Rattle.std.specs.Prelude.{◌≡◌, Ok, IfOk, IfErr, OnOk};
ghost use Rattle.lua_basic.specs.LuaHeapValue as kind;
ghost use Rattle.lua_basic.specs.LuaStoreParts.{IsLater};
ghost use Rattle.lua_basic.specs.Arguments.{text_bytes};
ghost use Rattle.lua_basic.specs.Seen.{values_seen, AllOf, StopOf, Refuses};
ghost use Rattle.lua_basic.specs.LuaMeaningChecks as meaning;

use lua_basic::arguments::a_text;
use lua_basic::messages::refuse_kind;
use lua_basic::texts::TextIn;
use lua_basic::values::{first, is_nil};
use lua_basic::{Stop, Store, Value};
use std::alloc::Global;

/// A text that may be left out, or be nil.
pub fn text_or<'b>(
    alloc: Global,
    store: &mut Store<'b>,
    default: &'b [u8],
    n: u8,
    function: &[u8],
    given: &[Value],
) -> Result<TextIn<'b>, Stop>
    requires { AllOf store.old given.now }
    ensures found { IfOk result (λ text. meaning.text_or default.entry.now n function.now (values_seen store.old.texts given.now) ≡ Ok (text_bytes text)) }
    ensures same { OnOk result (store.new ≡ store.old) }
    ensures refused { IfErr result (Refuses (meaning.text_or default.entry.now n function.now (values_seen store.old.texts given.now)) store.old store.new) }
    ensures of { IfErr result (StopOf store.new) }
    ensures later { IsLater store.old store.new }
{
    if is_nil(first(given)) {
        return Ok(TextIn::Kept(default));
    }
    a_text(alloc, store, n, function, given)
}

/// An argument that must be absent or nil.
pub fn a_nil(
    alloc: Global,
    store: &mut Store,
    n: u8,
    function: &[u8],
    given: &[Value],
) -> Result<(), Stop>
    requires { AllOf store.old given.now }
    ensures found { OnOk result (meaning.a_nil n function.now (values_seen store.old.texts given.now) ≡ Ok kind.Nil) }
    ensures same { OnOk result (store.new ≡ store.old) }
    ensures refused { IfErr result (Refuses (meaning.a_nil n function.now (values_seen store.old.texts given.now)) store.old store.new) }
    ensures of { IfErr result (StopOf store.new) }
    ensures later { IsLater store.old store.new }
{
    if is_nil(first(given)) {
        return Ok(());
    }
    Err(refuse_kind(alloc, store, n, function, b"nil", given))
}
