//! The text that a value is taken for (manual 2.2.1).
ghost use Rattle.std.specs.Prelude.{◌≡◌, IfOk};
ghost use Rattle.std.specs.Option.{option_map};
ghost use Rattle.lua_meaning.specs.Values as meaning;
ghost use Rattle.lua_store.specs.Seen.{seen};
ghost use Rattle.lua_store.specs.Parts.{IsOf};
ghost use Rattle.lua_basic.specs.Arguments.{text_bytes};

use lua_number::NoMemory;
use lua_store::{Store, Value};
use std::alloc::Global;

/// A text that is kept in a store, or that was written for a number.
#[derive(Drop)]
pub enum TextIn<'b> {
    Kept(&'b [u8]),
    Written(Vec<u8>),
}

impl<'b> TextIn<'b> {
    /// Its bytes.
    pub fn as_slice(&self) -> &[u8]
        ensures { result.now ≡ text_bytes self.now }
    {
        match self {
            TextIn::Kept(bytes) => bytes,
            TextIn::Written(bytes) => bytes.as_slice(),
        }
    }
}

/// The text that a value is, or the digits of its number.
pub fn text_in<'b>(
    alloc: Global,
    store: &Store<'b>,
    value: Value,
) -> Result<Option<TextIn<'b>>, NoMemory>
    requires { IsOf store.now value }
    ensures { IfOk result (λ text.
        option_map text_bytes text ≡ meaning.text_in (seen store.now.texts value)) }
{
    match value {
        Value::Number(n) => {
            let digits = lua_number::text(alloc, n)?;
            Ok(Some(TextIn::Written(digits)))
        }
        Value::Text(text) => Ok(Some(TextIn::Kept(store.bytes(text)))),
        Value::Nil => Ok(None),
        Value::Bool(_) => Ok(None),
        Value::Table(_) => Ok(None),
        Value::Closure(_) => Ok(None),
        Value::Builtin(_) => Ok(None),
        Value::Markup(_) => Ok(None),
    }
}
