//! An entry of a table that is set in place (manual 2.3): where no handler is asked, the table is not read-only, and the key is not nil.
ghost use Rattle.std.specs.Prelude.{◌≡◌, ◌||◌, ◌∷◌, [], ℕ, true, not, List as Items, Option as MayBe, IfOk, OnOk};
ghost use Rattle.lua_loops.specs.WkBaseDeclaredLeftLeft.{Left as Allowance};
ghost use Rattle.lua_code.specs.Seen.{place_seen};
ghost use Rattle.lua_code.specs.LuaHeapHeap.{set_in, table_at};
ghost use Rattle.lua_code.specs.LuaHeapTable.{has};
ghost use Rattle.lua_code.specs.LuaHeapValue as kind;
ghost use Rattle.lua_code.specs.LuaSlotsIndex as machine;
ghost use Rattle.lua_operators.specs.LuaSlotsPoints.{EntryS, PlaceS, SFrame, Sets};
ghost use Rattle.lua_operators.specs.LuaSlotsSlots.{Slots};
ghost use Rattle.lua_operators.specs.LuaStackOf.{EnvironmentOf, SettingOf};
ghost use Rattle.lua_operators.specs.LuaStackSeen.{setting_seen};
ghost use Rattle.lua_loops.specs.LuaStateOf.{StateOf};
ghost use Rattle.lua_loops.specs.LuaStateSeen.{frames_of};
ghost use Rattle.lua_operators.specs.LuaStoreParts.{IsLater, IsOf, IsTableOf};
ghost use Rattle.lua_operators.specs.LuaStoreSeen.{seen};
ghost use Rattle.lua_strides.specs.declared.next.Next.TheVariants as next_kind;
ghost use Rattle.lua_strides.specs.Next.{focus_of};
ghost use Rattle.lua_turns.specs.Rows.{Follows, MayFollow};
ghost use Rattle.lua_turns.specs.Setting.{Puts};

use lua_code::{NoMemory, Place};
use lua_loops::State;
use lua_operators::{Environment, Left, Store, Value, is_nil};
use lua_strides::running::running_closure;
use lua_strides::{Found, Next, Setting, TableId, handler, write};

/// Whether an assignment to this entry asks nobody, and may change the table.
fn is_plain(store: &Store, env: &Environment, table: TableId, key: Value) -> bool
    requires table { IsTableOf store.now table }
    requires key { IsOf store.now key }
    requires env { EnvironmentOf store.now env.now }
    ensures { result ≡ true → (value : kind.Value) (line : MayBe ℕ) (fs : Items SFrame) (s : Slots) → s.heap ≡ store.now.heap
        → machine.set_table table.at (seen store.now.texts key) value line fs s ≡ machine.put_entry table.at (seen store.now.texts key) value fs s }
{
    if store.is_frozen(table) {
        return false;
    }
    if is_nil(key) {
        return false;
    }
    if is_nil(store.get(table, key)) {
        return is_nil(handler(store, Value::Table(table), env.set_index));
    }
    true
}

/// Whether a set makes a new entry.
fn is_new(store: &Store, table: TableId, key: Value, value: Value) -> bool
    requires table { IsTableOf store.now table }
    requires key { IsOf store.now key }
    ensures { not result ≡ (has (table_at store.now.heap table.at).entries (seen store.now.texts key) || kind.is_nil (seen store.now.texts value)) }
{
    if store.has(table, key) {
        return false;
    }
    !is_nil(value)
}

/// An entry is set.
fn put(store: &mut Store, table: TableId, key: Value, value: Value) -> Result<(), NoMemory>
    requires table { IsTableOf store.old table }
    requires key { IsOf store.old key }
    requires value { IsOf store.old value }
    ensures set { OnOk result (store.new ≡ record store.old { heap = set_in store.old.heap table.at (seen store.old.texts key) (seen store.old.texts value) }) }
    ensures later { IsLater store.old store.new }
{
    match store.set(table, key, value) {
        Ok(_) => Ok(()),
        Err(_) => Err(NoMemory),
    }
}

/// An entry is set, and paid for where it is new. Where the steps of a new one are not left, the answer is false and nothing changes.
fn put_paid(
    store: &mut Store,
    left: &mut Left,
    table: TableId,
    key: Value,
    value: Value,
) -> Result<bool, NoMemory>
    requires table { IsTableOf store.old table }
    requires key { IsOf store.old key }
    requires value { IsOf store.old value }
    ensures { IfOk result (Puts store.old table.at (seen store.old.texts key) (seen store.old.texts value) left.old store.new left.new) }
{
    if is_new(store, table, key, value) {
        if left.steps < 4 {
            return Ok(false);
        }
        left.steps -= 4;
        put(store, table, key, value)?;
        return Ok(true);
    }
    put(store, table, key, value)?;
    Ok(true)
}

/// An entry of a table is set, where that is plain and paid.
fn set_table<'m>(
    store: &mut Store,
    left: &mut Left,
    state: &State<'m>,
    table: TableId,
    key: Value,
    line: u32,
    value: Value,
) -> Result<Option<Next<'m>>, NoMemory>
    requires state { StateOf store.old state.now }
    requires table { IsTableOf store.old table }
    requires key { IsOf store.old key }
    requires value { IsOf store.old value }
    ensures { (k : ℕ) → IfOk result (MayFollow store.old state.now (Sets ((EntryS (kind.Table table.at) (seen store.old.texts key) line, seen store.old.texts value) ∷ []) (frames_of store.old state.now)) left.old k store.new state.now left.new k) }
{
    if !is_plain(store, &state.env, table, key) {
        return Ok(None);
    }
    let done = put_paid(store, left, table, key, value)?;
    if done {
        return Ok(Some(Next::GivesNone));
    }
    Ok(None)
}

/// A variable gets its value.
fn set_variable<'m>(store: &mut Store, state: &mut State<'m>, place: Place, value: Value)
    requires state { StateOf store.old state.old }
    requires value { IsOf store.old value }
    ensures { (l : Allowance) (k : ℕ) → Follows store.old state.old (Sets ((PlaceS (place_seen place), seen store.old.texts value) ∷ []) (frames_of store.old state.old)) l k store.new state.new l k (focus_of next_kind.GivesNone) }
{
    let closure = running_closure(&state.functions);
    write(store, &mut state.regs, closure, place, value);
}

/// One target gets its value, if it is a variable or an entry that can be set in place.
pub fn set<'m>(
    store: &mut Store,
    left: &mut Left,
    state: &mut State<'m>,
    setting: &Setting,
) -> Result<Option<Next<'m>>, NoMemory>
    requires state { StateOf store.old state.old }
    requires setting { SettingOf store.old setting.now }
    ensures { (k : ℕ) → IfOk result (MayFollow store.old state.old (Sets (setting_seen store.old.texts setting.now ∷ []) (frames_of store.old state.old)) left.old k store.new state.new left.new k) }
{
    match setting.target {
        Found::At(of, key, line) => match of {
            Value::Table(table) => {
                set_table(store, left, state, table, key, line, setting.value)
            }
            _ => Ok(None),
        },
        Found::Variable(place) => {
            set_variable(store, state, place, setting.value);
            Ok(Some(Next::GivesNone))
        }
        _ => Ok(None),
    }
}
