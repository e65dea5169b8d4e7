//! A function of Lua is entered in place, where its arguments reach the frame that calls it (manual 2.5.8 and 2.5.9).
ghost use Rattle.std.specs.Prelude.{◌≡◌, ◌≤◌, ◌∷◌, [], ℕ, List as Items, Option as MayBe, Some, drop, length, if◌then◌else◌, IfOk, IfSome, OnOk};
ghost use Rattle.lua_loops.specs.PageRunOutcome.{Goes};
ghost use Rattle.lua_code.specs.Seen.{proto_seen};
ghost use Rattle.lua_code.specs.LuaHeapHeap.{Function as FunctionClosed, closure_at};
ghost use Rattle.lua_code.specs.LuaHeapValue.{Value as Plain};
ghost use Rattle.lua_loops.specs.LuaSlotsCalls as calls;
ghost use Rattle.lua_operators.specs.LuaSlotsPoints.{BodyS, Gives, Now, SFrame, Starts};
ghost use Rattle.lua_operators.specs.LuaSlotsSlots.{Slots, with_all};
ghost use Rattle.lua_operators.specs.LuaStackDeclaredFrameFrameTheVariants as frame_kind;
ghost use Rattle.lua_operators.specs.LuaStackDeclaredFrameInExpressionTheVariants as in_expression;
ghost use Rattle.lua_loops.specs.LuaStackLevels.{levels_from};
ghost use Rattle.lua_operators.specs.LuaStackOf.{CalleeOf, RegistersOf, ValuesOf};
ghost use Rattle.lua_operators.specs.LuaStackSeen.{callee_seen, registers_seen, values_seen};
ghost use Rattle.lua_loops.specs.LuaStateOf.{StateOf};
ghost use Rattle.lua_loops.specs.LuaStateSeen.{frames_of};
ghost use Rattle.lua_operators.specs.LuaStoreParts.{IsClosureOf, IsLater, IsOf};
ghost use Rattle.lua_operators.specs.LuaStoreSeen.{seen};
ghost use Rattle.lua_strides.specs.Next.{focus_of};
ghost use Rattle.lua_turns.specs.Rows.{Follows, IsNewest};

use crate::waiting::{drop_newest, swap_newest};
use lua_code::{NoMemory, Proto};
use lua_loops::{
    Activations, Callee, Ending, Slot, Stack, State, Steps, Values, enter_call, open_all,
};
use lua_operators::{ClosureKind, Frame, Left, Store, Value};
use lua_strides::{ClosureId, Next};
use std::alloc::Global;
use std::sync::ledger::Ledger;

/// The function of a closure, if it is one of Lua.
fn function_of(store: &Store, id: ClosureId) -> Option<Callee>
    requires { IsClosureOf store.now id }
    ensures of { IfSome result (CalleeOf store.now) }
    ensures closed { IfSome result (λ c. closure_at store.now.heap id.at ≡ Some (FunctionClosed (callee_seen store.now c))) }
{
    match store.closure(id).kind {
        ClosureKind::Function(proto) => Some(Callee {
            source: proto.title,
            index: proto.index,
            closure: Some(id),
        }),
        ClosureKind::Iterator(_) => None,
    }
}

/// The function that is entered where this value is called, if it is one of Lua.
pub fn callee_of(store: &Store, called: Value) -> Option<Callee>
    requires { IsOf store.now called }
    ensures of { IfSome result (CalleeOf store.now) }
    ensures call { (arguments : Items Plain) (line : MayBe ℕ) (fs : Items SFrame) (s : Slots) → s.heap ≡ store.now.heap
        → IfSome result (λ c. calls.call (seen store.now.texts called) arguments line fs s ≡ Now (Starts (BodyS (callee_seen store.now c) arguments line) fs) s) }
{
    match called {
        Value::Closure(id) => function_of(store, id),
        _ => None,
    }
}

/// The arguments behind the parameters are values of `...` in a function that has it.
fn dots_of(alloc: Global, dots: bool, behind: Values) -> Values
    ensures { result ≡ (if dots then behind else []) }
{
    if dots {
        return behind;
    }
    Values::new(alloc)
}

/// The parameters get the arguments, and the function is the newest one.
fn open_function(
    alloc: Global,
    store: &mut Store,
    regs: &mut Stack<Slot>,
    functions: &mut Activations,
    proto: &Proto,
    callee: &Callee,
    arguments: Values,
    line: Option<u32>,
) -> Result<(), NoMemory>
    requires registers { RegistersOf store.old regs.old }
    requires arguments { ValuesOf store.old arguments }
    ensures of { OnOk result (RegistersOf store.new regs.new) }
    ensures later { OnOk result (IsLater store.old store.new) }
    ensures texts { OnOk result (store.new.texts ≡ store.old.texts) }
    ensures opened { OnOk result ((store.new.heap, registers_seen store.new.texts regs.new) ≡ with_all proto.now.flags (values_seen store.old.texts arguments) (store.old.heap, registers_seen store.old.texts regs.old)) }
    ensures functions { OnOk result (functions.new ≡ record {
      source = callee.now.source;
      closure = callee.now.closure;
      dots = (if proto.now.dots then drop (length proto.now.flags) arguments else []);
      called_at = line;
      base = length regs.old;
      reach = levels_from functions.old line;
    } ∷ functions.old) }
{
    let base = regs.len();
    let mut behind = arguments;
    open_all(store, regs, proto.flags.as_slice(), &mut behind)?;
    let dots = dots_of(alloc, proto.dots, behind);
    functions.enter(callee, dots, line, base)?;
    Ok(())
}

/// A function of Lua is entered: the frame that calls it has its arguments, and a step and a call are left. One whose code isn't there gives
/// nothing.
pub fn enter<'m, L: Ledger>(
    alloc: Global,
    store: &mut Store,
    left: &mut Left,
    state: &mut State<'m>,
    called: Value,
    callee: Callee,
    arguments: Values,
    line: u32,
    turns: &mut Steps<L>,
) -> Result<Next<'m>, NoMemory>
    requires state { StateOf store.old state.old }
    requires newest { IsNewest state.old.frames (frame_kind.Expression (in_expression.CallNow called line)) }
    requires callee { CalleeOf store.old callee }
    requires arguments { ValuesOf store.old arguments }
    requires call { (fs : Items SFrame) (s : Slots) → s.heap ≡ store.old.heap → calls.call (seen store.old.texts called) (values_seen store.old.texts arguments) (Some line) fs s ≡ Now (Starts (BodyS (callee_seen store.old callee) (values_seen store.old.texts arguments) (Some line)) fs) s }
    requires steps { 1 ≤ left.old.steps }
    requires calls { 1 ≤ left.old.calls }
    ensures { IfOk result (λ r. Follows store.old state.old (Gives (Goes (values_seen store.old.texts arguments)) (frames_of store.old state.old)) left.old turns.old store.new state.new left.new turns.new (focus_of r)) }
{
    left.steps -= 1;
    let found = state
        .codes
        .function(alloc, store, callee.source, callee.index)?;
    match found {
        Some(proto) => {
            let entered = enter_call(state, left)?;
            if !entered {
                unreachable!();
            }
            turns.tick();
            open_function(
                alloc,
                store,
                &mut state.regs,
                &mut state.functions,
                proto,
                &callee,
                arguments,
                Some(line),
            )?;
            swap_newest(&mut state.frames, Frame::End(Ending::BodyEnd));
            Ok(Next::Runs(proto.body.as_slice()))
        }
        None => {
            drop_newest(&mut state.frames);
            Ok(Next::GivesNone)
        }
    }
}
