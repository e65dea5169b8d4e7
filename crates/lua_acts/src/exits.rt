//! Ends of a move at which no allowance is needed: values or a jump for the frames; and a call for which a function of the library waits.
ghost use Rattle.std.specs.Prelude.{◌≡◌, ◌∷◌, [], None, IfOk};
ghost use Rattle.page_run.specs.WkBaseDeclaredLeftLeft.{Left as Allowance};
ghost use Rattle.lua_state.specs.LuaSlotsCalls as calls;
ghost use Rattle.lua_state.specs.LuaSlotsErrors.{gives, jumps};
ghost use Rattle.lua_state.specs.LuaSlotsPoints.{Waits};
ghost use Rattle.lua_state.specs.LuaStoreParts.{IsOf};
ghost use Rattle.lua_state.specs.LuaStoreSeen.{seen};
ghost use Rattle.lua_state.specs.LuaStackOf.{JumpOf, PendingOf, ValuesOf};
ghost use Rattle.lua_state.specs.LuaStackSeen.{jump_seen, pending_seen, values_seen};
ghost use Rattle.lua_state.specs.Makes.{Makes};
ghost use Rattle.lua_state.specs.Of.{StateOf};
ghost use Rattle.lua_state.specs.Seen.{frames_of, slots_of};

use lua_code::NoMemory;
use lua_state::{
    Focus, Frame, Given, Jump, Pending, State, Store, Turn, Value, Values, call, finish, two,
};
use mw_html_texts::Left;
use std::alloc::Global;

/// One value as a list.
pub fn one(alloc: Global, value: Value) -> Result<Values, NoMemory>
    ensures { IfOk result (λ values. values ≡ value ∷ []) }
{
    let mut values = Values::new(alloc);
    values.add(value)?;
    Ok(values)
}

/// Three values as a list.
pub fn three(alloc: Global, first: Value, second: Value, third: Value) -> Result<Values, NoMemory>
    ensures { IfOk result (λ values. values ≡ first ∷ second ∷ third ∷ []) }
{
    let mut values = two(alloc, first, second)?;
    values.add(third)?;
    Ok(values)
}

/// One value for the frames.
pub fn give<'m>(store: &Store, state: &State<'m>, value: Value) -> Turn<'m>
    requires state { StateOf store.now state.now }
    requires value { IsOf store.now value }
    ensures { (l : Allowance) → Makes store.now state.now l store.now state.now l (gives (seen store.now.texts value ∷ []) (frames_of store.now state.now) (slots_of store.now state.now)) result }
{
    Turn::On(Focus::Gives(Given::One(value)))
}

/// Values for the frames.
pub fn give_all<'m>(store: &Store, state: &State<'m>, values: Values) -> Turn<'m>
    requires state { StateOf store.now state.now }
    requires values { ValuesOf store.now values }
    ensures { (l : Allowance) → Makes store.now state.now l store.now state.now l (gives (values_seen store.now.texts values) (frames_of store.now state.now) (slots_of store.now state.now)) result }
{
    Turn::On(Focus::Gives(Given::Many(values)))
}

/// A jump for the frames.
pub fn pass<'m>(store: &Store, state: &State<'m>, jump: Jump) -> Turn<'m>
    requires state { StateOf store.now state.now }
    requires jump { JumpOf store.now jump }
    ensures { (l : Allowance) → Makes store.now state.now l store.now state.now l (jumps (jump_seen store.now.texts jump) (frames_of store.now state.now) (slots_of store.now state.now)) result }
{
    Turn::On(Focus::Jumps(jump))
}

/// A value is called by no line, and a function of the library that was called from this line waits for it.
pub fn call_and_wait<'m>(
    alloc: Global,
    store: &mut Store,
    left: &mut Left,
    state: &mut State<'m>,
    called: Value,
    arguments: Values,
    pending: Pending,
    line: Option<u32>,
) -> Result<Turn<'m>, NoMemory>
    requires state { StateOf store.old state.old }
    requires called { IsOf store.old called }
    requires arguments { ValuesOf store.old arguments }
    requires pending { PendingOf store.old pending }
    ensures { IfOk result (λ r. Makes store.old state.old left.old store.new state.new left.new
        (calls.call (seen store.old.texts called) (values_seen store.old.texts arguments) None (Waits (pending_seen store.old.texts pending) line ∷ frames_of store.old state.old) (slots_of store.old state.old)) r) }
{
    state.frames.push(Frame::Waits(pending, line))?;
    let step = call(store, &state.env, called, arguments, None)?;
    let turn = finish(alloc, store, left, state, step)?;
    Ok(turn)
}
