//! The text of an object, and what it costs: a step for each object begun and for each byte, up to where it ends.
ghost use Rattle.std.specs.Prelude.{◌≡◌, ◌∷◌, [], IfOk};
ghost use Rattle.mw_html.specs.Render.{render};
ghost use Rattle.lua_strings.specs.LuaMeaningHtml.{text_of_object};
ghost use Rattle.lua_strings.specs.LuaStoreParts.{IsMarkupOf, IsLater};
ghost use Rattle.lua_strings.specs.LuaHeapValue as kind;
ghost use Rattle.lua_strings.specs.LuaBasicSeen.{values_seen, AllOf, Paid, AnswerOf};
ghost use Rattle.mw_html_texts.specs.Given.{IsText};

use crate::levels::node;
use lua_strings::{Left, MarkupId, Stop, Store, Value, fail, single};
use mw_html::sheet::{End, Sheet};
use mw_html::{List, NoMemory};
use std::alloc::Global;

/// What a rendering gives within the steps that are left.
#[derive(Drop, Debug)]
pub enum ObjectText {
    Text(Vec<u8>),
    /// An object has more than 200 objects above it.
    TooDeep,
    /// The steps that are left don't cover it; none stays.
    Spent,
}

/// The text of an object, after its steps. It takes no more memory than steps.
pub fn object_text(
    alloc: Global,
    store: &Store,
    left: &mut Left,
    id: MarkupId,
) -> Result<ObjectText, NoMemory>
    requires { IsMarkupOf store.now id }
    ensures { IfOk result (IsText left.old left.new (render store.now.heap.markup id.at)) }
{
    let mut sheet = Sheet::new(alloc, left.steps);
    node(store, 201, id, &mut sheet)?;
    match sheet.end {
        End::Open => {
            left.steps = sheet.left;
            Ok(ObjectText::Text(sheet.bytes))
        }
        End::Sunk => {
            left.steps = sheet.left;
            Ok(ObjectText::TooDeep)
        }
        End::Spent => {
            left.steps = 0;
            Ok(ObjectText::Spent)
        }
    }
}

/// A text that is paid for is given.
fn give_kept(alloc: Global, store: &mut Store, text: &[u8]) -> Result<List<Value>, NoMemory>
    ensures value { IfOk result (λ values.
        values_seen store.new.texts values ≡ kind.Text text.now ∷ []) }
    ensures of { IfOk result (AllOf store.new) }
    ensures heap { store.new.heap ≡ store.old.heap }
    ensures later { IsLater store.old store.new }
{
    let kept = store.text(text)?;
    let values = single(alloc, Value::Text(kept))?;
    Ok(values)
}

/// The text of an object is given, as `tostring` gives it.
pub fn give_object_text(
    alloc: Global,
    store: &mut Store,
    left: &mut Left,
    id: MarkupId,
) -> Result<List<Value>, Stop>
    requires { IsMarkupOf store.old id }
    ensures answer { Paid (text_of_object id.at store.old.heap) store.old left.old
        store.new left.new result }
    ensures of { AnswerOf store.new result }
    ensures later { IsLater store.old store.new }
{
    let text = object_text(alloc, store, left, id)?;
    match text {
        ObjectText::Text(bytes) => {
            let values = give_kept(alloc, store, bytes.as_slice())?;
            Ok(values)
        }
        ObjectText::TooDeep => Err(fail(store, b"html tree nested too deeply")),
        ObjectText::Spent => Err(Stop::Spent),
    }
}
