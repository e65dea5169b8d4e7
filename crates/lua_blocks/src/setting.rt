//! The targets of an assignment are set (manual 2.4.3), from the last to the first.
ghost use Rattle.std.specs.Prelude.{[], Some, IfOk};
ghost use Rattle.std.specs.List.{AllByRecursion};
ghost use Rattle.page_run.specs.WkBaseDeclaredLeftLeft.{Left as Allowance};
ghost use Rattle.lua_code.specs.Seen.{place_seen};
ghost use Rattle.lua_code.specs.LuaHeapValue as kind;
ghost use Rattle.lua_state.specs.LuaSlotsErrors.{gives};
ghost use Rattle.lua_code.specs.LuaSlotsIndex as indices;
ghost use Rattle.lua_state.specs.LuaSlotsSlots.{write_place};
ghost use Rattle.lua_code.specs.LuaSlotsStatements as machine;
ghost use Rattle.lua_state.specs.LuaStoreParts.{IsOf, IsTextOf};
ghost use Rattle.lua_state.specs.LuaStoreSeen.{seen, text_at};
ghost use Rattle.lua_state.specs.LuaStackOf.{FoundOf, SettingOf};
ghost use Rattle.lua_state.specs.LuaStackSeen.{found_seen, settings_seen};
ghost use Rattle.lua_state.specs.Makes.{Makes};
ghost use Rattle.lua_state.specs.Of.{StateOf};
ghost use Rattle.lua_state.specs.Seen.{frames_of, slots_of};

use crate::exits::nothing;
use crate::running::running_closure;
use lua_code::{NoMemory, Place};
use lua_state::{
    Focus, Found, Frame, Given, InAssignment, Left, Setting, Stack, State, Store, TextId, Turn,
    Value, Values, finish_paid, set_index, write,
};
use std::alloc::Global;

/// A local variable gets a value.
fn set_place<'m>(
    alloc: Global,
    store: &mut Store,
    state: &mut State<'m>,
    place: Place,
    value: Value,
) -> Turn<'m>
    requires state { StateOf store.old state.old }
    requires value { IsOf store.old value }
    ensures { (l : Allowance) → Makes store.old state.old l store.new state.new l
        (gives [] (frames_of store.old state.old) (write_place (slots_of store.old state.old) (place_seen place) (seen store.old.texts value))) result }
{
    let closure = running_closure(&state.functions);
    write(store, &mut state.regs, closure, place, value);
    Turn::On(Focus::Gives(Given::Many(Values::new(alloc))))
}

/// The entry of a table or another value at a key.
fn set_entry<'m>(
    alloc: Global,
    store: &mut Store,
    left: &mut Left,
    state: &State<'m>,
    of: Value,
    entry: (Value, Value),
    line: u32,
) -> Result<Turn<'m>, NoMemory>
    requires state { StateOf store.old state.now }
    requires of { IsOf store.old of }
    requires key { IsOf store.old entry.0 }
    requires value { IsOf store.old entry.1 }
    ensures { IfOk result (λ r. Makes store.old state.now left.old store.new state.now left.new
        (indices.set_index (seen store.old.texts of) (seen store.old.texts entry.0) (seen store.old.texts entry.1) (Some line) (frames_of store.old state.now) (slots_of store.old state.now)) r) }
{
    let paid = set_index(alloc, store, &state.env, left, of, entry, Some(line))?;
    finish_paid(alloc, store, left, state, paid)
}

/// A global variable whose name is this text gets a value: an entry of the table of global variables (manual 2.3).
fn set_global<'m>(
    alloc: Global,
    store: &mut Store,
    left: &mut Left,
    state: &State<'m>,
    name: TextId,
    value: Value,
    line: u32,
) -> Result<Turn<'m>, NoMemory>
    requires state { StateOf store.old state.now }
    requires name { IsTextOf store.old name }
    requires value { IsOf store.old value }
    ensures { IfOk result (λ r. Makes store.old state.now left.old store.new state.now left.new
        (indices.set_index (kind.Table (slots_of store.old state.now).globals) (kind.Text (text_at store.old.texts name.at)) (seen store.old.texts value) (Some line) (frames_of store.old state.now) (slots_of store.old state.now)) r) }
{
    let globals = Value::Table(state.env.globals);
    let entry = (Value::Text(name), value);
    set_entry(alloc, store, left, state, globals, entry, line)
}

/// A target gets its value.
fn set_one<'m>(
    alloc: Global,
    store: &mut Store,
    left: &mut Left,
    state: &mut State<'m>,
    target: Found,
    value: Value,
) -> Result<Turn<'m>, NoMemory>
    requires state { StateOf store.old state.old }
    requires target { FoundOf store.old target }
    requires value { IsOf store.old value }
    ensures { IfOk result (λ r. Makes store.old state.old left.old store.new state.new left.new
        (machine.sets_one (found_seen store.old.texts target) (seen store.old.texts value) (frames_of store.old state.old) (slots_of store.old state.old)) r) }
{
    match target {
        Found::Variable(place) => Ok(set_place(alloc, store, state, place, value)),
        Found::Global(name, line) => set_global(alloc, store, left, state, name, value, line),
        Found::At(of, key, line) => set_entry(alloc, store, left, state, of, (key, value), line),
    }
}

/// What is still to be set: the first of these targets gets its value, and the others wait.
pub fn set<'m>(
    alloc: Global,
    store: &mut Store,
    left: &mut Left,
    state: &mut State<'m>,
    pairs: Stack<Setting>,
) -> Result<Turn<'m>, NoMemory>
    requires state { StateOf store.old state.old }
    requires pairs { AllByRecursion (SettingOf store.old) pairs }
    ensures { IfOk result (λ r. Makes store.old state.old left.old store.new state.new left.new (machine.sets (settings_seen store.old.texts pairs) (frames_of store.old state.old) (slots_of store.old state.old)) r) }
{
    let mut pairs = pairs;
    match pairs.pop() {
        None => Ok(nothing(alloc, store, state)),
        Some(next) => {
            state
                .frames
                .push(Frame::Assignment(InAssignment::SetsNext(pairs)))?;
            set_one(alloc, store, left, state, next.target, next.value)
        }
    }
}
