//! Fields of a table of the library.
ghost use Rattle.std.specs.Prelude.{◌≡◌, ◌∷◌, [], IfOk, OnOk, MatchOption};
ghost use Rattle.std.specs.List.{AllByRecursion};
ghost use Rattle.lua_graph.specs.LuaHeapHeap.{set_in};
ghost use Rattle.lua_meaning.specs.LuaHeapValue as kind;
ghost use Rattle.lua_graph.specs.Put.{filled};
ghost use Rattle.lua_graph.specs.LuaStoreSeen.{seen};
ghost use Rattle.lua_graph.specs.LuaStoreParts.{IsOf, IsTableOf, IsLater};
ghost use Rattle.lua_graph.specs.LuaStoreDeclaredValueValue as own;
ghost use Rattle.lua_home.specs.Fields.{item_seen, fields_seen, IsItemOf, IsFieldOf};

use lua_graph::{Library, NoMemory, Store, TableId, Value};

/// What a field holds.
#[derive(Clone, Copy)]
pub enum Item {
    Text(&'static [u8]),
    Function(Library),
    Table(TableId),
}

/// A field of a table of the library.
#[derive(Clone, Copy)]
pub struct Field {
    pub name: &'static [u8],
    pub value: Item,
}

/// The value that an item is in the store.
fn value_of(store: &mut Store, item: Item) -> Result<Value, NoMemory>
    requires { IsItemOf store.old item }
    ensures of { IfOk result (IsOf store.new) }
    ensures value { IfOk result (λ v. seen store.new.texts v ≡ item_seen item) }
    ensures heap { store.new.heap ≡ store.old.heap }
    ensures stays { (v : own.Value) → IsOf store.old v
        → IsOf store.new v × (seen store.new.texts v ≡ seen store.old.texts v) }
    ensures later { IsLater store.old store.new }
{
    match item {
        Item::Text(bytes) => {
            let text = store.text(bytes)?;
            Ok(Value::Text(text))
        }
        Item::Function(which) => Ok(Value::Builtin(which)),
        Item::Table(table) => Ok(Value::Table(table)),
    }
}

/// Sets a field of a table.
fn set_field(store: &mut Store, table: TableId, name: &[u8], item: Item) -> Result<(), NoMemory>
    requires table { IsTableOf store.old table }
    requires item { IsItemOf store.old item }
    ensures put { OnOk result (store.new.heap
        ≡ set_in store.old.heap table.at (kind.Text name.now) (item_seen item)) }
    ensures later { IsLater store.old store.new }
{
    let value = value_of(store, item)?;
    let name = store.text(name)?;
    match store.set(table, Value::Text(name), value) {
        Ok(_) => Ok(()),
        Err(_) => Err(NoMemory),
    }
}

fn split_fields(fields: &[Field]) -> Option<(Field, &[Field])>
    ensures { MatchOption result (fields.now ≡ []) (λ p. fields.now ≡ p.0 ∷ p.1.now) }
{
    match fields {
        [field, more @ ..] => Some((*field, more)),
        [] => None,
    }
}

/// Sets fields of a table, one after another.
pub fn fill(store: &mut Store, table: TableId, fields: &[Field]) -> Result<(), NoMemory>
    requires table { IsTableOf store.old table }
    requires fields { AllByRecursion (IsFieldOf store.old) fields.now }
    ensures put { OnOk result (store.new.heap
        ≡ filled table.at (fields_seen fields.now) store.old.heap) }
    ensures later { IsLater store.old store.new }
{
    let mut rest = fields;
    'fields: while let Some((field, more)) = split_fields(rest) {
        set_field(store, table, field.name, field.value)?;
        rest = more;
    }
    Ok(())
}
