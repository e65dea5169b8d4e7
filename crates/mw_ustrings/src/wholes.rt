//! `len` and `isutf8`, of any bytes (Scribunto, Ustring library).
ghost use Rattle.std.specs.Prelude.{◌≡◌, ℕ, List as Items, IfOk};
ghost use Rattle.mw_frame_texts.specs.LuaStoreSeen.{StoreView, seen};
ghost use Rattle.mw_frame_texts.specs.LuaStoreParts.{IsOf, IsLater};
ghost use Rattle.mw_frame_texts.specs.LuaBasicSeen.{values_seen, AllOf, Free, AnswerOf};
ghost use Rattle.mw_frame_texts.specs.LuaMeaningUstring as meaning;

use crate::arguments::is_utf8;
use crate::giving::number;
use lua_number::NoMemory;
use lua_pattern::List;
use mw_frame_texts::{Stop, Store, Value, a_text, single};
use std::alloc::Global;

/// How many code points these bytes spell, or nil where they aren't UTF-8.
fn length_in(s: &[u8]) -> Result<Value, NoMemory>
    ensures of { IfOk result (λ v. (t : StoreView) → IsOf t v) }
    ensures value { IfOk result (λ v.
        (texts : Items (Items ℕ)) → seen texts v ≡ meaning.length_in s.now) }
{
    match mw_text::mw_ustring_len(s) {
        Some(length) => number(length),
        None => Ok(Value::Nil),
    }
}

/// `mw.ustring.len(s)`: how many code points a text has, or nil where its bytes aren't UTF-8.
pub fn len(alloc: Global, store: &mut Store, args: &[Value]) -> Result<List<Value>, Stop>
    requires { AllOf store.old args.now }
    ensures answer { Free (meaning.len (values_seen store.old.texts args.now) store.old.heap)
        store.new result }
    ensures of { AnswerOf store.new result }
    ensures later { IsLater store.old store.new }
{
    let text = a_text(alloc, store, 1, b"len", args)?;
    let length = length_in(text.as_slice())?;
    let values = single(alloc, length)?;
    Ok(values)
}

/// `mw.ustring.isutf8(s)`: whether the bytes of a text are UTF-8.
pub fn isutf8(alloc: Global, store: &mut Store, args: &[Value]) -> Result<List<Value>, Stop>
    requires { AllOf store.old args.now }
    ensures answer { Free (meaning.isutf8 (values_seen store.old.texts args.now) store.old.heap)
        store.new result }
    ensures of { AnswerOf store.new result }
    ensures later { IsLater store.old store.new }
{
    let text = a_text(alloc, store, 1, b"isutf8", args)?;
    let values = single(alloc, Value::Bool(is_utf8(text.as_slice())))?;
    Ok(values)
}
