//! Local functions (manual 2.4.7 and 2.5.9): each is the value of a new variable, which it can capture.
ghost use Rattle.std.specs.Prelude.{◌≡◌, map, length, IfOk, OnOk};
ghost use Rattle.page_run.specs.WkBaseDeclaredLeftLeft.{Left as Allowance};
ghost use Rattle.lua_code.specs.LuaHeapHeap as heap;
ghost use Rattle.lua_code.specs.Seen.{block_seen, place_seen};
ghost use Rattle.lua_state.specs.LuaSlotsPoints.{Costs, Now, Runs};
ghost use Rattle.lua_code.specs.LuaSlotsSight.{newest};
ghost use Rattle.lua_state.specs.LuaSlotsSlots.{function_of, with_function_named};
ghost use Rattle.lua_state.specs.LuaStoreParts.{IsClosureOf, IsLater, IsTextOf};
ghost use Rattle.lua_state.specs.LuaStoreSeen.{text_at};
ghost use Rattle.lua_state.specs.LuaStackOf.{MayBeClosureOf, RegistersOf};
ghost use Rattle.lua_state.specs.LuaStackSeen.{captured_by, registers_seen};
ghost use Rattle.lua_state.specs.Makes.{Makes};
ghost use Rattle.lua_state.specs.Of.{StateOf};
ghost use Rattle.lua_state.specs.Seen.{frames_of, slots_of};
ghost use Rattle.lua_blocks.specs.Named.{proc_at, closure_named, function_named};
ghost use Rattle.lua_state.specs.LuaMeaningCharges.{closure_charge};

use crate::running::running_closure;
use lua_code::{NoMemory, Place, Statement};
use lua_state::{
    CLOSURE_CHARGE, ClosureId, ClosureKind, Focus, Left, ProtoId, Slot, Stack, State, Store,
    TextId, Turn, Value, captures, open, pay, running_source, write,
};
use page_run::Which;
use std::alloc::Global;

/// The place of the newest variable.
fn newest_place(boxed: bool) -> Place
    ensures { place_seen result ≡ newest boxed }
{
    if boxed {
        return Place::Cell(0);
    }
    Place::Register(0)
}

/// A closure of this function of a module, with the cells at these places.
fn new_function(
    alloc: Global,
    store: &mut Store,
    regs: &Stack<Slot>,
    closure: Option<ClosureId>,
    proto: ProtoId,
    places: &[Place],
) -> Result<ClosureId, NoMemory>
    requires registers { RegistersOf store.old regs.now }
    requires closure { MayBeClosureOf store.old closure }
    requires source { IsTextOf store.old proto.title }
    ensures of { IfOk result (λ id. IsClosureOf store.new id) }
    ensures at { IfOk result (λ id. id.at ≡ length store.old.heap.closures) }
    ensures later { OnOk result (IsLater store.old store.new) }
    ensures texts { OnOk result (store.new.texts ≡ store.old.texts) }
    ensures made { OnOk result (store.new.heap ≡ (heap.new_closure store.old.heap (heap.Function
        (proc_at (text_at store.old.texts proto.title.at) proto.index (map place_seen places.now) (captured_by store.old.heap closure) (registers_seen store.old.texts regs.now)))).0) }
{
    let cells = captures(alloc, store, regs, closure, places)?;
    let id = store.new_closure(ClosureKind::Function(proto), cells)?;
    Ok(id)
}

/// A new closure is the value of the newest variable.
fn name_function(
    alloc: Global,
    store: &mut Store,
    regs: &mut Stack<Slot>,
    closure: Option<ClosureId>,
    proto: ProtoId,
    boxed: bool,
    places: &[Place],
) -> Result<(), NoMemory>
    requires registers { RegistersOf store.old regs.old }
    requires closure { MayBeClosureOf store.old closure }
    requires source { IsTextOf store.old proto.title }
    ensures of { OnOk result (RegistersOf store.new regs.new) }
    ensures later { OnOk result (IsLater store.old store.new) }
    ensures named { OnOk result ((store.new.heap, registers_seen store.new.texts regs.new) ≡ closure_named boxed
        (proc_at (text_at store.old.texts proto.title.at) proto.index (map place_seen places.now) (captured_by store.old.heap closure) (registers_seen store.old.texts regs.old))
        (captured_by store.old.heap closure) (store.old.heap, registers_seen store.old.texts regs.old)) }
{
    let id = new_function(alloc, store, regs, closure, proto, places)?;
    let place = newest_place(boxed);
    write(store, regs, closure, place, Value::Closure(id));
    Ok(())
}

/// A new variable, and a new closure as its value.
fn open_function(
    alloc: Global,
    store: &mut Store,
    regs: &mut Stack<Slot>,
    closure: Option<ClosureId>,
    proto: ProtoId,
    boxed: bool,
    places: &[Place],
) -> Result<(), NoMemory>
    requires registers { RegistersOf store.old regs.old }
    requires closure { MayBeClosureOf store.old closure }
    requires source { IsTextOf store.old proto.title }
    ensures of { OnOk result (RegistersOf store.new regs.new) }
    ensures later { OnOk result (IsLater store.old store.new) }
    ensures named { OnOk result ((store.new.heap, registers_seen store.new.texts regs.new) ≡ function_named boxed
        (text_at store.old.texts proto.title.at) proto.index (map place_seen places.now) (captured_by store.old.heap closure) (store.old.heap, registers_seen store.old.texts regs.old)) }
{
    open(store, regs, boxed, Value::Nil)?;
    name_function(alloc, store, regs, closure, proto, boxed, places)?;
    Ok(())
}

/// A local function of the module of this title, and the statements behind it.
fn function_of_module<'m>(
    alloc: Global,
    store: &mut Store,
    state: &mut State<'m>,
    source: TextId,
    function: (bool, u32),
    places: &[Place],
    rest: &'m [Statement],
) -> Result<Turn<'m>, NoMemory>
    requires state { StateOf store.old state.old }
    requires source { IsTextOf store.old source }
    requires title { text_at store.old.texts source.at ≡ (function_of (slots_of store.old state.old)).source }
    ensures { (l : Allowance) → IfOk result (λ r. Makes store.old state.old l store.new state.new l
        (Now (Runs (block_seen rest.now) (frames_of store.old state.old)) (with_function_named function.0 function.1 (map place_seen places.now) (slots_of store.old state.old))) r) }
{
    let (boxed, index) = function;
    let closure = running_closure(&state.functions);
    let proto = ProtoId {
        title: source,
        index,
    };
    open_function(alloc, store, &mut state.regs, closure, proto, boxed, places)?;
    Ok(Turn::On(Focus::Runs(rest)))
}

/// A local function of the running function's module.
fn declare_function<'m>(
    alloc: Global,
    store: &mut Store,
    state: &mut State<'m>,
    function: (bool, u32),
    places: &[Place],
    rest: &'m [Statement],
) -> Result<Turn<'m>, NoMemory>
    requires state { StateOf store.old state.old }
    ensures { (l : Allowance) → IfOk result (λ r. Makes store.old state.old l store.new state.new l
        (Now (Runs (block_seen rest.now) (frames_of store.old state.old)) (with_function_named function.0 function.1 (map place_seen places.now) (slots_of store.old state.old))) r) }
{
    let source = running_source(store, &state.functions)?;
    function_of_module(alloc, store, state, source, function, places, rest)
}

/// A local function, at 8 steps for its closure, and the statements behind it. `function` is the flag of its variable and its number.
pub fn local_function<'m>(
    alloc: Global,
    store: &mut Store,
    left: &mut Left,
    state: &mut State<'m>,
    function: (bool, u32),
    places: &[Place],
    rest: &'m [Statement],
) -> Result<Turn<'m>, NoMemory>
    requires state { StateOf store.old state.old }
    ensures { IfOk result (λ r. Makes store.old state.old left.old store.new state.new left.new
        (Costs closure_charge (Now (Runs (block_seen rest.now) (frames_of store.old state.old)) (with_function_named function.0 function.1 (map place_seen places.now) (slots_of store.old state.old)))) r) }
{
    if !pay(left, CLOSURE_CHARGE) {
        return Ok(Turn::Spent(Which::Steps));
    }
    declare_function(alloc, store, state, function, places, rest)
}
