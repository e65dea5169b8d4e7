//! Assignment to an index, up to the next link of a chain of handlers (manual 2.3, and 2.8 under "newindex").
ghost use Rattle.std.specs.Prelude.{◌≡◌, ◌||◌, ◌∷◌, [], ℕ, List, not, IfOk, OnOk};
ghost use Rattle.lua_stack.specs.PageRunState.{Tally};
ghost use Rattle.lua_basic.specs.LuaStoreSeen.{seen};
ghost use Rattle.lua_basic.specs.LuaStoreParts.{IsOf, IsTableOf, IsLater};
ghost use Rattle.lua_code.specs.LuaSlotsEnact.{enact};
ghost use Rattle.lua_stack.specs.LuaSlotsSlots.{Slots, with_heap};
ghost use Rattle.lua_stack.specs.LuaSlotsPoints.{SFrame, Now};
ghost use Rattle.lua_code.specs.LuaSlotsIndex as machine;
ghost use Rattle.lua_stack.specs.Seen.{focus_seen};
ghost use Rattle.lua_stack.specs.Of.{EnvironmentOf, FocusOf};
ghost use Rattle.lua_stack.specs.LuaSlotsErrors.{gives};
ghost use Rattle.lua_code.specs.LuaHeapValue as kind;
ghost use Rattle.lua_code.specs.LuaHeapTable.{has};
ghost use Rattle.lua_code.specs.LuaHeapHeap.{table_at};
ghost use Rattle.lua_arms.specs.Paid.{paid_seen, PaidOf, IfSpent};

use crate::calls::call;
use crate::step::{Failure, Paid, Step};
use crate::tables::handler;
use lua_basic::charges::ENTRY_CHARGE;
use lua_basic::{Left, Store, TableId, Value};
use lua_code::NoMemory;
use lua_stack::values::{is_function, is_nil};
use lua_stack::{Environment, Focus, Given, Thing, Values, Which};
use std::alloc::Global;

/// Whether a set makes a new entry.
fn is_new(store: &Store, table: TableId, key: Value, value: Value) -> bool
    requires table { IsTableOf store.now table }
    requires key { IsOf store.now key }
    ensures { not result ≡ (has (table_at store.now.heap table.at).entries (seen store.now.texts key) || kind.is_nil (seen store.now.texts value)) }
{
    if store.has(table, key) {
        return false;
    }
    !is_nil(value)
}

/// An entry is set, which is there or costs nothing.
fn put<'m>(
    alloc: Global,
    store: &mut Store,
    table: TableId,
    key: Value,
    value: Value,
) -> Result<Focus<'m>, NoMemory>
    requires table { IsTableOf store.old table }
    requires key { IsOf store.old key }
    requires value { IsOf store.old value }
    ensures of { IfOk result (λ f. FocusOf store.new f) }
    ensures later { OnOk result (IsLater store.old store.new) }
    ensures move_ { IfOk result (λ f. (fs : List SFrame) (s : Slots) → s.heap ≡ store.old.heap
        → gives [] fs (machine.with_entry table.at (seen store.old.texts key) (seen store.old.texts value) s) ≡ Now (focus_seen store.new f fs) (with_heap store.new.heap s)) }
{
    match store.set(table, key, value) {
        Ok(_) => Ok(Focus::Gives(Given::Many(Values::new(alloc)))),
        Err(_) => Err(NoMemory),
    }
}

/// An entry of a table without handlers: a read-only table refuses, and so does the key nil. A new entry costs 4 steps, and where these
/// are spent nothing is set.
pub fn set_entry<'m>(
    alloc: Global,
    store: &mut Store,
    left: &mut Left,
    table: TableId,
    key: Value,
    value: Value,
    line: Option<u32>,
) -> Result<Paid<'m>, NoMemory>
    requires table { IsTableOf store.old table }
    requires key { IsOf store.old key }
    requires value { IsOf store.old value }
    ensures of { IfOk result (λ r. PaidOf store.new r) }
    ensures later { OnOk result (IsLater store.old store.new) }
    ensures still { IfOk result (λ r. IfSpent r (store.new ≡ store.old)) }
    ensures move_ { IfOk result (λ r. (fs : List SFrame) (s : Slots) (in_progress : ℕ) (tally : Tally) → s.heap ≡ store.old.heap
        → enact (machine.set_entry table.at (seen store.old.texts key) (seen store.old.texts value) line fs s) (record { left = left.old; in_progress = in_progress; tally = tally })
        ≡ paid_seen store.new r fs (with_heap store.new.heap s) (record { left = left.new; in_progress = in_progress; tally = tally })) }
{
    if store.is_frozen(table) {
        return Ok(Paid::Goes(Step::Fails(line, Failure::ReadOnly)));
    }
    if is_nil(key) {
        return Ok(Paid::Goes(Step::Fails(line, Failure::NilKey)));
    }
    if is_new(store, table, key, value) {
        if !left.take_steps(ENTRY_CHARGE) {
            return Ok(Paid::Spent(Which::Steps));
        }
        let focus = put(alloc, store, table, key, value)?;
        return Ok(Paid::Goes(Step::On(focus)));
    }
    let focus = put(alloc, store, table, key, value)?;
    Ok(Paid::Goes(Step::On(focus)))
}

/// The entry of a table at a key: where it is nil, a handler may be the first link of a chain.
pub fn set_table<'m>(
    alloc: Global,
    store: &mut Store,
    env: &Environment,
    left: &mut Left,
    table: TableId,
    entry: (Value, Value),
    line: Option<u32>,
) -> Result<Paid<'m>, NoMemory>
    requires table { IsTableOf store.old table }
    requires key { IsOf store.old entry.0 }
    requires value { IsOf store.old entry.1 }
    requires env { EnvironmentOf store.old env.now }
    ensures of { IfOk result (λ r. PaidOf store.new r) }
    ensures later { OnOk result (IsLater store.old store.new) }
    ensures still { IfOk result (λ r. IfSpent r (store.new ≡ store.old)) }
    ensures move_ { IfOk result (λ r. (fs : List SFrame) (s : Slots) (in_progress : ℕ) (tally : Tally) → s.heap ≡ store.old.heap
        → enact (machine.set_table table.at (seen store.old.texts entry.0) (seen store.old.texts entry.1) line fs s) (record { left = left.old; in_progress = in_progress; tally = tally })
        ≡ paid_seen store.new r fs (with_heap store.new.heap s) (record { left = left.new; in_progress = in_progress; tally = tally })) }
{
    let (key, value) = entry;
    if !is_nil(store.get(table, key)) {
        let paid = set_entry(alloc, store, left, table, key, value, line)?;
        return Ok(paid);
    }
    let object = Value::Table(table);
    let handler = handler(store, object, env.set_index);
    if is_nil(handler) {
        let paid = set_entry(alloc, store, left, table, key, value, line)?;
        return Ok(paid);
    }
    Ok(Paid::Goes(Step::On(Focus::Starts(Thing::SetLink(object, handler, key, value, line)))))
}

/// An assignment to anything at a key.
pub fn set_index<'m>(
    alloc: Global,
    store: &mut Store,
    env: &Environment,
    left: &mut Left,
    of: Value,
    entry: (Value, Value),
    line: Option<u32>,
) -> Result<Paid<'m>, NoMemory>
    requires of { IsOf store.old of }
    requires key { IsOf store.old entry.0 }
    requires value { IsOf store.old entry.1 }
    requires env { EnvironmentOf store.old env.now }
    ensures of { IfOk result (λ r. PaidOf store.new r) }
    ensures later { OnOk result (IsLater store.old store.new) }
    ensures still { IfOk result (λ r. IfSpent r (store.new ≡ store.old)) }
    ensures move_ { IfOk result (λ r. (fs : List SFrame) (s : Slots) (in_progress : ℕ) (tally : Tally) → s.heap ≡ store.old.heap
        → enact (machine.set_index (seen store.old.texts of) (seen store.old.texts entry.0) (seen store.old.texts entry.1) line fs s) (record { left = left.old; in_progress = in_progress; tally = tally })
        ≡ paid_seen store.new r fs (with_heap store.new.heap s) (record { left = left.new; in_progress = in_progress; tally = tally })) }
{
    match of {
        Value::Table(table) => {
            let paid = set_table(alloc, store, env, left, table, entry, line)?;
            Ok(paid)
        }
        Value::Nil => Ok(Paid::Goes(Step::Fails(line, Failure::CannotIndex(of)))),
        Value::Bool(_) => Ok(Paid::Goes(Step::Fails(line, Failure::CannotIndex(of)))),
        Value::Number(_) => Ok(Paid::Goes(Step::Fails(line, Failure::CannotIndex(of)))),
        Value::Text(_) => Ok(Paid::Goes(Step::Fails(line, Failure::CannotIndex(of)))),
        Value::Closure(_) => Ok(Paid::Goes(Step::Fails(line, Failure::CannotIndex(of)))),
        Value::Builtin(_) => Ok(Paid::Goes(Step::Fails(line, Failure::CannotIndex(of)))),
        Value::Markup(_) => Ok(Paid::Goes(Step::Fails(line, Failure::CannotIndex(of)))),
    }
}

/// Three values as a list.
fn three(alloc: Global, a: Value, b: Value, c: Value) -> Result<Values, NoMemory>
    ensures { IfOk result (λ values. values ≡ a ∷ b ∷ c ∷ []) }
{
    let mut values = Values::new(alloc);
    values.add(a)?;
    values.add(b)?;
    values.add(c)?;
    Ok(values)
}

/// A link of a chain: a handler that is a function is called, and another one gets the entry.
pub fn set_link<'m>(
    alloc: Global,
    store: &mut Store,
    env: &Environment,
    left: &mut Left,
    object: Value,
    handler: Value,
    entry: (Value, Value),
    line: Option<u32>,
) -> Result<Paid<'m>, NoMemory>
    requires object { IsOf store.old object }
    requires handler { IsOf store.old handler }
    requires key { IsOf store.old entry.0 }
    requires value { IsOf store.old entry.1 }
    requires env { EnvironmentOf store.old env.now }
    ensures of { IfOk result (λ r. PaidOf store.new r) }
    ensures later { OnOk result (IsLater store.old store.new) }
    ensures still { IfOk result (λ r. IfSpent r (store.new ≡ store.old)) }
    ensures move_ { IfOk result (λ r. (fs : List SFrame) (s : Slots) (in_progress : ℕ) (tally : Tally) → s.heap ≡ store.old.heap
        → enact (machine.set_link (seen store.old.texts object) (seen store.old.texts handler) (seen store.old.texts entry.0) (seen store.old.texts entry.1) line fs s) (record { left = left.old; in_progress = in_progress; tally = tally })
        ≡ paid_seen store.new r fs (with_heap store.new.heap s) (record { left = left.new; in_progress = in_progress; tally = tally })) }
{
    if is_function(handler) {
        let (key, value) = entry;
        let arguments = three(alloc, object, key, value)?;
        let step = call(store, env, handler, arguments, line)?;
        return Ok(Paid::Goes(step));
    }
    let paid = set_index(alloc, store, env, left, handler, entry, line)?;
    Ok(paid)
}
