//! Errors with their values (manual 5.1, `error`), and why a function of the library gives no values.
ghost use Rattle.std.specs.Prelude.{◌≡◌, IfOk, IfSome};
ghost use Rattle.std.specs.Option.{option_map};
ghost use Rattle.page_run.specs.WkBaseDeclaredLeftLeft.{Left as Allowance};
ghost use Rattle.lua_code.specs.LuaHeapValue as kind;
ghost use Rattle.lua_code.specs.LuaMeaningActs as act;
ghost use Rattle.lua_libs.specs.LuaMeaningArguments.{Fails};
ghost use Rattle.lua_state.specs.LuaMeaningMessages as plain;
ghost use Rattle.lua_code.specs.LuaMeaningScope.{Levels};
ghost use Rattle.lua_state.specs.LuaSlotsErrors as machine;
ghost use Rattle.lua_state.specs.LuaSlotsSlots.{levels_at};
ghost use Rattle.lua_state.specs.LuaStoreParts.{IsOf, IsTextOf};
ghost use Rattle.lua_state.specs.LuaStoreSeen.{StoreView, seen};
ghost use Rattle.lua_libs.specs.LuaBasicSeen.{StopOf};
ghost use Rattle.lua_state.specs.LuaStackOf.{ActivationsOf};
ghost use Rattle.lua_state.specs.LuaStackSeen.{activations_seen, level_seen};
ghost use Rattle.lua_state.specs.Makes.{Makes};
ghost use Rattle.lua_state.specs.Of.{StateOf};
ghost use Rattle.lua_state.specs.Seen.{frames_of, slots_of};
ghost use Rattle.lua_acts.specs.Stops.{StopsAs};

use crate::exits::pass;
use lua_code::NoMemory;
use lua_libs::Stop;
use lua_state::{Activations, Focus, Jump, Level, Raising, State, Store, Turn, Value, raise_text};
use mw_html_texts::Left;
use page_run::Which;
use std::alloc::Global;

/// An error whose value is this text, at no place. It costs nothing.
pub fn raise<'m>(store: &mut Store, state: &State<'m>, text: &[u8]) -> Result<Turn<'m>, NoMemory>
    requires { StateOf store.old state.now }
    ensures { (l : Allowance) → IfOk result (λ r. Makes store.old state.now l store.new state.now l (machine.jumps (act.Raised (kind.Text text.now)) (frames_of store.old state.now) (slots_of store.old state.now)) r) }
{
    let id = store.text(text)?;
    Ok(Turn::On(Focus::Jumps(Jump::Raised(Value::Text(id)))))
}

/// A level as a number of levels: at 0 and below there is none.
fn number_of(level: i64) -> usize
    ensures { (levels : Levels) → plain.nth_level levels result ≡ plain.place_at levels level }
{
    if level < 0 {
        return 0;
    }
    level.unsigned_abs() as usize
}

/// The place of a level above a line of the newest function, if there is one.
fn place_at(functions: &Activations, line: Option<u32>, level: i64) -> Option<Level>
    ensures of { (s : StoreView) → ActivationsOf s functions.now → IfSome result (λ l. IsTextOf s l.source) }
    ensures place { (s : StoreView) → option_map (level_seen s.texts) result ≡ plain.place_at (levels_at (activations_seen s functions.now) line) level }
{
    functions.place_of_level(line, number_of(level))
}

/// An error whose value is this text, with the place of a level in front, which then costs its bytes.
fn raise_text_at<'m>(
    alloc: Global,
    store: &mut Store,
    left: &mut Left,
    state: &State<'m>,
    line: Option<u32>,
    message: &[u8],
    level: i64,
) -> Result<Turn<'m>, NoMemory>
    requires { StateOf store.old state.now }
    ensures { IfOk result (λ r. Makes store.old state.now left.old store.new state.now left.new
        (machine.ends (Fails (kind.Text message.now) level) line (frames_of store.old state.now) (slots_of store.old state.now)) r) }
{
    let place = place_at(&state.functions, line, level);
    let raising = raise_text(alloc, store, left, place, message)?;
    match raising {
        Raising::Raises(value) => Ok(Turn::On(Focus::Jumps(Jump::Raised(value)))),
        Raising::Spent(which) => Ok(Turn::Spent(which)),
    }
}

/// An error with its value, at a level above this line of the newest function: only a text gets the place in front.
pub fn raise_at<'m>(
    alloc: Global,
    store: &mut Store,
    left: &mut Left,
    state: &State<'m>,
    line: Option<u32>,
    value: Value,
    level: i64,
) -> Result<Turn<'m>, NoMemory>
    requires state { StateOf store.old state.now }
    requires value { IsOf store.old value }
    ensures { IfOk result (λ r. Makes store.old state.now left.old store.new state.now left.new
        (machine.ends (Fails (seen store.old.texts value) level) line (frames_of store.old state.now) (slots_of store.old state.now)) r) }
{
    match value {
        Value::Text(id) => {
            let message = store.bytes(id);
            raise_text_at(alloc, store, left, state, line, message, level)
        }
        Value::Nil => Ok(pass(store, state, Jump::Raised(value))),
        Value::Bool(_) => Ok(pass(store, state, Jump::Raised(value))),
        Value::Number(_) => Ok(pass(store, state, Jump::Raised(value))),
        Value::Table(_) => Ok(pass(store, state, Jump::Raised(value))),
        Value::Closure(_) => Ok(pass(store, state, Jump::Raised(value))),
        Value::Builtin(_) => Ok(pass(store, state, Jump::Raised(value))),
        Value::Markup(_) => Ok(pass(store, state, Jump::Raised(value))),
    }
}

/// A function of the library that was called from this line stops.
pub fn refuse<'m>(
    alloc: Global,
    store: &mut Store,
    left: &mut Left,
    state: &State<'m>,
    line: Option<u32>,
    stop: Stop,
) -> Result<Turn<'m>, NoMemory>
    requires state { StateOf store.old state.now }
    requires stop { StopOf store.old stop }
    ensures { IfOk result (λ r. StopsAs store.old state.now left.old line stop store.new left.new r) }
{
    match stop {
        Stop::Raised(value, level) => raise_at(alloc, store, left, state, line, value, level),
        Stop::Spent => Ok(Turn::Spent(Which::Steps)),
        Stop::NoMemory => Err(NoMemory),
    }
}
