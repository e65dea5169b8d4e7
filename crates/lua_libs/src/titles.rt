//! `mw.title.getCurrentTitle` (Scribunto, mw.title).
ghost use Rattle.std.specs.Prelude.{◌≡◌, length, IfOk, OnOk};
ghost use Rattle.lua_graph.specs.LuaHeapHeap.{set_in};
ghost use Rattle.lua_basic.specs.LuaHeapValue as kind;
ghost use Rattle.lua_basic.specs.LuaMeaningFrames.{with_table};
ghost use Rattle.lua_basic.specs.LuaMeaningMw as meaning;
ghost use Rattle.lua_graph.specs.LuaStoreParts.{IsTableOf, IsLater};
ghost use Rattle.lua_basic.specs.Seen.{Paid, AnswerOf};

use lua_basic::Stop;
use lua_basic::charges::{ENTRY_CHARGE, TABLE_CHARGE};
use lua_basic::stop::pay;
use lua_basic::values::single;
use lua_graph::{Store, TableId, Value};
use std::alloc::Global;
use wk_base::{Left, List, NoMemory, Title};

/// A table with three entries.
const TITLE_CHARGE: u64 = TABLE_CHARGE + 3 * ENTRY_CHARGE;

/// Sets a field of a table to a text.
fn set_text(store: &mut Store, table: TableId, name: &[u8], text: &[u8]) -> Result<(), NoMemory>
    requires { IsTableOf store.old table }
    ensures put { OnOk result (store.new.heap
        ≡ set_in store.old.heap table.at (kind.Text name.now) (kind.Text text.now)) }
    ensures later { IsLater store.old store.new }
{
    let text = store.text(text)?;
    let name = store.text(name)?;
    match store.set(table, Value::Text(name), Value::Text(text)) {
        Ok(_) => Ok(()),
        Err(_) => Err(NoMemory),
    }
}

/// A new table with the texts of a title: its name, its namespace, and both.
fn title_table(store: &mut Store, page: &Title) -> Result<TableId, NoMemory>
    ensures of { IfOk result (IsTableOf store.new) }
    ensures id { IfOk result (λ table. table.at ≡ length store.old.heap.tables) }
    ensures made { OnOk result (store.new.heap
        ≡ with_table store.old.heap (meaning.title_entries page.now) kind.Nil) }
    ensures later { IsLater store.old store.new }
{
    let table = store.new_table()?;
    set_text(store, table, b"text", page.name.as_slice())?;
    set_text(store, table, b"nsText", page.ns.prefix().as_bytes())?;
    let whole = page.text()?;
    set_text(store, table, b"prefixedText", whole.as_slice())?;
    Ok(table)
}

/// `mw.title.getCurrentTitle()`: a new table with the texts of the title of the page that is expanded. It costs a table with three entries.
///
/// It is `Stop::Spent` exactly where these are not covered, and then the store is as it was. It never raises.
pub fn mw_get_current_title(
    alloc: Global,
    store: &mut Store,
    left: &mut Left,
    page: &Title,
) -> Result<List<Value>, Stop>
    ensures answer { Paid (meaning.get_current_title page.now store.old.heap) store.old left.old
        store.new left.new result }
    ensures of { AnswerOf store.new result }
    ensures later { IsLater store.old store.new }
{
    pay(left, TITLE_CHARGE)?;
    let table = title_table(store, page)?;
    let values = single(alloc, Value::Table(table))?;
    Ok(values)
}
