//! `require('strict')` (Scribunto, strict): global variables that are absent are refused.
ghost use Rattle.std.specs.Prelude.{◌≡◌, ◌∷◌, [], true, length, IfOk, OnOk};
ghost use Rattle.page_run.specs.WkBaseDeclaredLeftLeft.{Left as Allowance};
ghost use Rattle.lua_state.specs.LuaGraphPut.{filled};
ghost use Rattle.lua_code.specs.LuaHeapHeap.{set_meta_in};
ghost use Rattle.lua_code.specs.LuaHeapValue as kind;
ghost use Rattle.lua_code.specs.LuaMeaningFrames.{with_table};
ghost use Rattle.lua_code.specs.LuaMeaningModules.{strict_meta};
ghost use Rattle.lua_state.specs.LuaSlotsErrors.{gives};
ghost use Rattle.lua_code.specs.LuaSlotsModules.{with_strict};
ghost use Rattle.lua_state.specs.LuaSlotsPoints.{Costs};
ghost use Rattle.lua_state.specs.LuaStoreParts.{IsLater, IsTableOf};
ghost use Rattle.lua_state.specs.Makes.{Makes};
ghost use Rattle.lua_state.specs.Of.{StateOf};
ghost use Rattle.lua_state.specs.Seen.{frames_of, slots_of};
ghost use Rattle.lua_state.specs.LuaMeaningCharges.{filled_table_charge};

use lua_code::NoMemory;
use lua_state::{
    ENTRY_CHARGE, Field, Focus, Given, Item, Left, Library, State, Store, TABLE_CHARGE, TableId,
    Turn, Value, fill, pay,
};
use page_run::Which;

/// A table with two entries.
const STRICT_CHARGE: u64 = TABLE_CHARGE + 2 * ENTRY_CHARGE;

/// The metatable whose handlers refuse what is absent.
fn fill_meta(store: &mut Store, table: TableId) -> Result<(), NoMemory>
    requires { IsTableOf store.old table }
    ensures put { OnOk result (store.new.heap ≡ filled table.at strict_meta store.old.heap) }
    ensures later { IsLater store.old store.new }
{
    let fields = [
        Field {
            name: b"__index",
            value: Item::Function(Library::StrictIndex),
        },
        Field {
            name: b"__newindex",
            value: Item::Function(Library::StrictNewIndex),
        },
    ];
    fill(store, table, &fields)
}

/// The table of the global variables gets a new metatable.
fn guard(store: &mut Store, globals: TableId) -> Result<(), NoMemory>
    requires { IsTableOf store.old globals }
    ensures made { OnOk result (store.new.heap ≡ set_meta_in (with_table store.old.heap strict_meta kind.Nil) globals.at (kind.Table (length store.old.heap.tables))) }
    ensures later { IsLater store.old store.new }
{
    let meta = store.new_table()?;
    fill_meta(store, meta)?;
    // Only tables of loaded data are read-only, which that of the global variables never is.
    if store.is_frozen(globals) {
        return Err(NoMemory);
    }
    store.set_meta(globals, Value::Table(meta));
    Ok(())
}

/// The table of the global variables is guarded, and the answer is true.
fn give_guarded<'m>(store: &mut Store, state: &State<'m>) -> Result<Turn<'m>, NoMemory>
    requires { StateOf store.old state.now }
    ensures { (l : Allowance) → IfOk result (λ r. Makes store.old state.now l store.new state.now l
        (gives (kind.Truth true ∷ []) (frames_of store.old state.now) (with_strict (slots_of store.old state.now))) r) }
{
    guard(store, state.env.globals)?;
    Ok(Turn::On(Focus::Gives(Given::One(Value::Bool(true)))))
}

/// `require('strict')` costs a table with two entries.
pub fn require_strict<'m>(
    store: &mut Store,
    left: &mut Left,
    state: &State<'m>,
) -> Result<Turn<'m>, NoMemory>
    requires { StateOf store.old state.now }
    ensures { IfOk result (λ r. Makes store.old state.now left.old store.new state.now left.new
        (Costs (filled_table_charge 2) (gives (kind.Truth true ∷ []) (frames_of store.old state.now) (with_strict (slots_of store.old state.now)))) r) }
{
    if !pay(left, STRICT_CHARGE) {
        return Ok(Turn::Spent(Which::Steps));
    }
    let turn = give_guarded(store, state)?;
    Ok(turn)
}
