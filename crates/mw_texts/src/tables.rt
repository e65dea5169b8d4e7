//! A new table with texts, numbered from 1.
ghost use Rattle.std.specs.Prelude.{◌≡◌, suc, pos, [], ◌∷◌, length, IfOk, OnOk, MatchOption};
ghost use Rattle.mw_ustrings.specs.LuaGraphPut.{filled};
ghost use Rattle.mw_ustrings.specs.LuaHeapHeap.{set_in};
ghost use Rattle.mw_ustrings.specs.LuaHeapValue as kind;
ghost use Rattle.mw_ustrings.specs.LuaMeaningFrames.{with_table};
ghost use Rattle.mw_ustrings.specs.LuaStoreParts.{IsTableOf, IsLater};
ghost use Rattle.mw_ustrings.specs.LuaMeaningTexts as meaning;

use lua_string::NoMemory;
use mw_text::Bytes;
use mw_ustrings::giving::number;
use mw_ustrings::{Store, TableId, Value};

/// The text at a number of a table is set.
fn set_text(store: &mut Store, table: TableId, at: usize, text: &[u8]) -> Result<(), NoMemory>
    requires { IsTableOf store.old table }
    ensures set { OnOk result (store.new.heap
        ≡ set_in store.old.heap table.at (kind.Number (pos at)) (kind.Text text.now)) }
    ensures later { IsLater store.old store.new }
{
    let key = number(at)?;
    let text = store.text(text)?;
    match store.set(table, key, Value::Text(text)) {
        Ok(_) => Ok(()),
        Err(_) => Err(NoMemory),
    }
}

/// The number behind one.
fn behind(at: usize) -> Result<usize, NoMemory>
    ensures { IfOk result (λ next. next ≡ suc at) }
{
    match at.checked_add(1) {
        Some(next) => Ok(next),
        None => Err(NoMemory),
    }
}

pub fn split_texts(texts: &[Bytes]) -> Option<(&Bytes, &[Bytes])>
    ensures { MatchOption result (texts.now ≡ []) (λ p. texts.now ≡ p.0.now ∷ p.1.now) }
{
    match texts {
        [text, more @ ..] => Some((text, more)),
        [] => None,
    }
}

/// Texts are set one after another.
fn fill(store: &mut Store, table: TableId, texts: &[Bytes]) -> Result<(), NoMemory>
    requires { IsTableOf store.old table }
    ensures filled { OnOk result (store.new.heap
        ≡ filled table.at (meaning.text_entries 1 texts.now) store.old.heap) }
    ensures later { IsLater store.old store.new }
{
    let mut at = 1;
    let mut rest = texts;
    'each: while let Some((text, more)) = split_texts(rest) {
        set_text(store, table, at, text.as_slice())?;
        at = behind(at)?;
        rest = more;
    }
    Ok(())
}

/// A new table with these texts.
pub fn text_table(store: &mut Store, texts: &[Bytes]) -> Result<TableId, NoMemory>
    ensures of { IfOk result (IsTableOf store.new) }
    ensures id { IfOk result (λ table. table.at ≡ length store.old.heap.tables) }
    ensures made { OnOk result (store.new.heap
        ≡ with_table store.old.heap (meaning.text_entries 1 texts.now) kind.Nil) }
    ensures later { IsLater store.old store.new }
{
    let table = store.new_table()?;
    fill(store, table, texts)?;
    Ok(table)
}
