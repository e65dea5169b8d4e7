//! What follows the attributes of a tag (Scribunto, mw.text.tag).
ghost use Rattle.std.specs.Prelude.{◌≡◌, IfOk};
ghost use Rattle.mw_frames.specs.LuaMeaningScope.{Bytes};
ghost use Rattle.mw_frames.specs.LuaMeaningTag as meaning;
ghost use Rattle.mw_frames.specs.LuaStoreSeen.{seen};
ghost use Rattle.mw_frames.specs.LuaStoreParts.{IsOf};
ghost use Rattle.mw_frame_texts.specs.Read.{found_content};

use lua_number::NoMemory;
use mw_frames::{Store, TextIn, Value};
use std::alloc::Global;

/// What follows the attributes: `>` alone, ` />`, or a text and the closing tag.
#[derive(Drop)]
pub enum Content<'b> {
    Nothing,
    Closed,
    Text(TextIn<'b>),
}

/// The content that a value is: nil is none, and false closes the tag. Or None, where it is none.
pub fn content_in<'b>(
    alloc: Global,
    store: &Store<'b>,
    value: Value,
) -> Result<Option<Content<'b>>, NoMemory>
    requires { IsOf store.now value }
    ensures { IfOk result (λ content.
        (name : Bytes)
        → meaning.closed_by name (seen store.now.texts value)
        ≡ found_content name (seen store.now.texts value) content) }
{
    match value {
        Value::Nil => Ok(Some(Content::Nothing)),
        Value::Bool(false) => Ok(Some(Content::Closed)),
        Value::Number(n) => {
            let digits = lua_number::text(alloc, n)?;
            Ok(Some(Content::Text(TextIn::Written(digits))))
        }
        Value::Text(text) => Ok(Some(Content::Text(TextIn::Kept(store.bytes(text))))),
        Value::Bool(true) => Ok(None),
        Value::Table(_) => Ok(None),
        Value::Closure(_) => Ok(None),
        Value::Builtin(_) => Ok(None),
        Value::Markup(_) => Ok(None),
    }
}
