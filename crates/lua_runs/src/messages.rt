//! Texts of failures (Scribunto, "Lua error").
ghost use Rattle.std.specs.Prelude.{◌≡◌, ◌++◌, ℕ, List, codes, IfOk};
ghost use Rattle.lua_code.specs.LuaMeaningStart.{error_text};
ghost use Rattle.lua_code.specs.LuaMeaningValues as plain;
ghost use Rattle.lua_store.specs.Seen.{seen};
ghost use Rattle.lua_store.specs.Parts.{IsOf};

use crate::html::append;
use lua_code::NoMemory;
use lua_store::{Store, Value};
use mw_html_texts::kind_of;
use std::alloc::Global;

/// A text as a list of bytes of its own.
pub fn copied(alloc: Global, text: &[u8]) -> Result<Vec<u8>, NoMemory>
    ensures { IfOk result (λ made. made.items ≡ text.now) }
{
    let mut made = Vec::new(alloc);
    append(&mut made, text)?;
    Ok(made)
}

/// What is shown of an error that is no text.
fn other_error(alloc: Global, value: Value) -> Result<Vec<u8>, NoMemory>
    ensures { (texts : List (List ℕ)) → IfOk result (λ made. made.items ≡ codes "the error is a " ++ plain.kind_of (seen texts value) ++ codes " value") }
{
    let mut made = Vec::new(alloc);
    append(&mut made, b"the error is a ")?;
    let kind = kind_of(value);
    append(&mut made, kind)?;
    append(&mut made, b" value")?;
    Ok(made)
}

/// What is shown of an error that nothing caught: its text, or of which kind its value is.
pub fn shown_error(alloc: Global, store: &Store, value: Value) -> Result<Vec<u8>, NoMemory>
    requires { IsOf store.now value }
    ensures { IfOk result (λ made. made.items ≡ error_text (seen store.now.texts value)) }
{
    match value {
        Value::Text(id) => copied(alloc, store.bytes(id)),
        Value::Number(n) => {
            let digits = lua_number::text(alloc, n)?;
            Ok(digits)
        }
        Value::Nil => other_error(alloc, value),
        Value::Bool(_) => other_error(alloc, value),
        Value::Table(_) => other_error(alloc, value),
        Value::Closure(_) => other_error(alloc, value),
        Value::Builtin(_) => other_error(alloc, value),
        Value::Markup(_) => other_error(alloc, value),
    }
}

/// What an invocation shows of an error that nothing caught.
pub fn lua_error(alloc: Global, store: &Store, value: Value) -> Result<Vec<u8>, NoMemory>
    requires { IsOf store.now value }
    ensures { IfOk result (λ made. made.items ≡ codes "Lua error: " ++ error_text (seen store.now.texts value)) }
{
    let mut made = Vec::new(alloc);
    append(&mut made, b"Lua error: ")?;
    let shown = shown_error(alloc, store, value)?;
    append(&mut made, shown.as_slice())?;
    Ok(made)
}

/// What an invocation shows where the module has no function of this name.
pub fn no_function(alloc: Global, name: &[u8]) -> Result<Vec<u8>, NoMemory>
    ensures { IfOk result (λ made. made.items ≡ codes "Script error: The function \"" ++ name.now ++ codes "\" does not exist.") }
{
    let mut made = Vec::new(alloc);
    append(&mut made, b"Script error: The function \"")?;
    append(&mut made, name)?;
    append(&mut made, b"\" does not exist.")?;
    Ok(made)
}
