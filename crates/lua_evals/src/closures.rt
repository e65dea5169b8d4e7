//! Closures that begin (manual 2.5.9).
ghost use Rattle.std.specs.Prelude.{◌≡◌, ◌∷◌, [], map, IfOk};
ghost use Rattle.page_run.specs.WkBaseDeclaredLeftLeft.{Left as Allowance};
ghost use Rattle.lua_code.specs.Seen.{place_seen};
ghost use Rattle.lua_operators.specs.LuaSlotsErrors.{gives};
ghost use Rattle.lua_operators.specs.LuaSlotsPoints.{Costs};
ghost use Rattle.lua_operators.specs.LuaSlotsSlots.{function_of, next_closure, proc_of, with_closure};
ghost use Rattle.lua_operators.specs.LuaStoreParts.{IsTextOf};
ghost use Rattle.lua_operators.specs.LuaStoreSeen.{text_at};
ghost use Rattle.lua_state.specs.Makes.{Makes};
ghost use Rattle.lua_state.specs.Of.{StateOf};
ghost use Rattle.lua_state.specs.Seen.{frames_of, slots_of};
ghost use Rattle.lua_state.specs.LuaMeaningCharges.{closure_charge};

use crate::running::running_closure;
use lua_code::{NoMemory, Place};
use lua_operators::{ClosureKind, Focus, Left, Store, TextId, Value};
use lua_state::{CLOSURE_CHARGE, Given, ProtoId, State, Turn, captures, pay};
use page_run::Which;
use std::alloc::Global;

/// A closure of this function of a module, with the cells at these places.
fn closure_in<'m>(
    alloc: Global,
    store: &mut Store,
    state: &State<'m>,
    source: TextId,
    index: u32,
    places: &[Place],
) -> Result<Turn<'m>, NoMemory>
    requires state { StateOf store.old state.now }
    requires source { IsTextOf store.old source }
    requires title { text_at store.old.texts source.at ≡ (function_of (slots_of store.old state.now)).source }
    ensures { (l : Allowance) → IfOk result (λ r. Makes store.old state.now l store.new state.now l
        (gives (next_closure (slots_of store.old state.now) ∷ []) (frames_of store.old state.now)
        (with_closure (proc_of index (map place_seen places.now) (slots_of store.old state.now)) (slots_of store.old state.now))) r) }
{
    let running = running_closure(&state.functions);
    let cells = captures(alloc, store, &state.regs, running, places)?;
    let title = ProtoId {
        title: source,
        index,
    };
    let id = store.new_closure(ClosureKind::Function(title), cells)?;
    Ok(Turn::On(Focus::Gives(Given::One(Value::Closure(id)))))
}

/// A closure of the running function's module.
fn new_closure<'m>(
    alloc: Global,
    store: &mut Store,
    state: &State<'m>,
    index: u32,
    places: &[Place],
) -> Result<Turn<'m>, NoMemory>
    requires state { StateOf store.old state.now }
    ensures { (l : Allowance) → IfOk result (λ r. Makes store.old state.now l store.new state.now l
        (gives (next_closure (slots_of store.old state.now) ∷ []) (frames_of store.old state.now)
        (with_closure (proc_of index (map place_seen places.now) (slots_of store.old state.now)) (slots_of store.old state.now))) r) }
{
    match state.functions.newest() {
        Some(newest) => closure_in(alloc, store, state, newest.source, index, places),
        None => {
            let source = store.text(&[])?;
            closure_in(alloc, store, state, source, index, places)
        }
    }
}

/// A function expression makes a closure (manual 2.5.9), at 8 steps.
pub fn closure<'m>(
    alloc: Global,
    store: &mut Store,
    left: &mut Left,
    state: &State<'m>,
    index: u32,
    places: &[Place],
) -> Result<Turn<'m>, NoMemory>
    requires state { StateOf store.old state.now }
    ensures { IfOk result (λ r. Makes store.old state.now left.old store.new state.now left.new
        (Costs closure_charge (gives (next_closure (slots_of store.old state.now) ∷ []) (frames_of store.old state.now)
        (with_closure (proc_of index (map place_seen places.now) (slots_of store.old state.now)) (slots_of store.old state.now)))) r) }
{
    if !pay(left, CLOSURE_CHARGE) {
        return Ok(Turn::Spent(Which::Steps));
    }
    new_closure(alloc, store, state, index, places)
}
