//! How each form of an expression begins, whose node is paid and counted.
ghost use Rattle.std.specs.Prelude.{◌∷◌, [], Some, length, IfOk};
ghost use Rattle.page_run.specs.WkBaseDeclaredLeftLeft.{Left as Allowance};
ghost use Rattle.lua_code.specs.Seen.{expression_seen, expressions_seen, entries_seen};
ghost use Rattle.lua_code.specs.LuaHeapHeap.{new_table as one_more_table};
ghost use Rattle.lua_code.specs.LuaHeapValue as kind;
ghost use Rattle.lua_operators.specs.LuaSlotsErrors.{gives};
ghost use Rattle.lua_code.specs.LuaSlotsExpressions as machine;
ghost use Rattle.lua_code.specs.LuaSlotsIndex.{index_table as indexes};
ghost use Rattle.lua_operators.specs.LuaSlotsPoints as point;
ghost use Rattle.lua_operators.specs.LuaSlotsPoints.{First, Costs, Now};
ghost use Rattle.lua_operators.specs.LuaSlotsSlots.{function_of};
ghost use Rattle.lua_operators.specs.LuaStoreParts.{IsTextOf};
ghost use Rattle.lua_operators.specs.LuaStoreSeen.{text_at};
ghost use Rattle.lua_operators.specs.LuaArmsOperands.{HasOperands};
ghost use Rattle.lua_state.specs.LuaArmsPaid.{behind_node};
ghost use Rattle.lua_state.specs.Makes.{Makes};
ghost use Rattle.lua_state.specs.Of.{StateOf};
ghost use Rattle.lua_state.specs.Seen.{constants_in, frames_of, slots_of};
ghost use Rattle.lua_state.specs.LuaMeaningCharges.{table_charge};

use crate::constructors::fields;
use crate::exits::{give, wait};
use crate::running::{copy_dots, count_dots};
use lua_code::{Entry, Expression, List, NoMemory};
use lua_operators::{Focus, Frame, InExpression, Left, Store, TextId, Value, begin_operands};
use lua_state::{Given, State, TABLE_CHARGE, Turn, constant, finish, index_table, pay};
use page_run::Which;
use std::alloc::Global;

/// A text. It is made in the store where it is not there yet, and nothing is charged for it.
pub fn text<'m>(
    alloc: Global,
    store: &mut Store,
    state: &mut State<'m>,
    number: u32,
) -> Result<Turn<'m>, NoMemory>
    requires { StateOf store.old state.old }
    ensures { (l : Allowance) → IfOk result (λ r. Makes store.old state.old l store.new state.new l (gives (kind.Text (constants_in store.old state.old number) ∷ []) (frames_of store.old state.old) (slots_of store.old state.old)) r) }
{
    let text = constant(alloc, store, state, number)?;
    Ok(give(store, state, Value::Text(text)))
}

/// The values of `...` are copied.
fn copied_dots<'m>(alloc: Global, store: &Store, state: &State<'m>) -> Result<Turn<'m>, NoMemory>
    requires { StateOf store.now state.now }
    ensures { (l : Allowance) → IfOk result (λ r. Makes store.now state.now l store.now state.now l
        (gives (function_of (slots_of store.now state.now)).dots (frames_of store.now state.now) (slots_of store.now state.now)) r) }
{
    let values = copy_dots(alloc, &state.functions)?;
    Ok(Turn::On(Focus::Gives(Given::Many(values))))
}

/// `...` costs a step for each of its values, which are taken before these are copied.
pub fn dots<'m>(
    alloc: Global,
    store: &Store,
    left: &mut Left,
    state: &State<'m>,
) -> Result<Turn<'m>, NoMemory>
    requires { StateOf store.now state.now }
    ensures { IfOk result (λ r. Makes store.now state.now left.old store.now state.now left.new
        (Costs (length (function_of (slots_of store.now state.now)).dots) (gives (function_of (slots_of store.now state.now)).dots (frames_of store.now state.now) (slots_of store.now state.now))) r) }
{
    let count = count_dots(&state.functions);
    if !pay(left, count as u64) {
        return Ok(Turn::Spent(Which::Steps));
    }
    copied_dots(alloc, store, state)
}

/// A global variable whose name is this text: an index of the table of global variables (manual 2.3).
fn global_named<'m>(
    alloc: Global,
    store: &mut Store,
    left: &mut Left,
    state: &mut State<'m>,
    name: TextId,
    line: u32,
) -> Result<Turn<'m>, NoMemory>
    requires state { StateOf store.old state.old }
    requires name { IsTextOf store.old name }
    ensures { IfOk result (λ r. Makes store.old state.old left.old store.new state.new left.new
        (indexes (slots_of store.old state.old).globals (kind.Text (text_at store.old.texts name.at)) (Some line) (First ∷ frames_of store.old state.old) (slots_of store.old state.old)) r) }
{
    state.frames.push(Frame::Expression(InExpression::First))?;
    let step = index_table(
        store,
        &state.env,
        state.env.globals,
        Value::Text(name),
        Some(line),
    );
    finish(alloc, store, left, state, step)
}

/// A global variable, by the number of its name.
pub fn global<'m>(
    alloc: Global,
    store: &mut Store,
    left: &mut Left,
    state: &mut State<'m>,
    number: u32,
    line: u32,
) -> Result<Turn<'m>, NoMemory>
    requires state { StateOf store.old state.old }
    ensures { IfOk result (λ r. Makes store.old state.old left.old store.new state.new left.new
        (indexes (slots_of store.old state.old).globals (kind.Text (constants_in store.old state.old number)) (Some line) (First ∷ frames_of store.old state.old) (slots_of store.old state.old)) r) }
{
    let name = constant(alloc, store, state, number)?;
    global_named(alloc, store, left, state, name, line)
}

/// A method's call, by the number of the method's name (manual 2.5.8): its object is next, and the text of the name waits for it.
pub fn method_call<'m>(
    alloc: Global,
    store: &mut Store,
    state: &mut State<'m>,
    of: &'m Expression,
    number: u32,
    arguments: &'m List<Expression>,
    line: u32,
) -> Result<Turn<'m>, NoMemory>
    requires state { StateOf store.old state.old }
    ensures { (l : Allowance) → IfOk result (λ r. Makes store.old state.old l store.new state.new l
        (Now (point.Evals (expression_seen of.now) (point.MethodNext (constants_in store.old state.old number) (expressions_seen arguments.now) line ∷ frames_of store.old state.old)) (slots_of store.old state.old)) r) }
{
    let name = constant(alloc, store, state, number)?;
    let frame = Frame::Expression(InExpression::MethodNext(name, arguments, line));
    wait(store, state, frame, Focus::Evaluates(of))
}

/// The first entry of a new table.
fn new_table<'m>(
    store: &mut Store,
    state: &mut State<'m>,
    entries: &'m [Entry],
    line: u32,
) -> Result<Turn<'m>, NoMemory>
    requires state { StateOf store.old state.old }
    ensures { (l : Allowance) → IfOk result (λ r. Makes store.old state.old l store.new state.new l
        (machine.fields (one_more_table (slots_of store.old state.old).heap).1 1 (entries_seen entries.now) line (frames_of store.old state.old) (machine.with_table (slots_of store.old state.old))) r) }
{
    let table = store.new_table()?;
    let focus = fields(&mut state.frames, table, 1, entries, line)?;
    Ok(Turn::On(focus))
}

/// A table constructor makes a table (manual 2.5.7), at 8 steps, and its first entry is next.
pub fn constructor<'m>(
    store: &mut Store,
    left: &mut Left,
    state: &mut State<'m>,
    entries: &'m [Entry],
    line: u32,
) -> Result<Turn<'m>, NoMemory>
    requires state { StateOf store.old state.old }
    ensures { IfOk result (λ r. Makes store.old state.old left.old store.new state.new left.new
        (Costs table_charge (machine.fields (one_more_table (slots_of store.old state.old).heap).1 1 (entries_seen entries.now) line (frames_of store.old state.old) (machine.with_table (slots_of store.old state.old)))) r) }
{
    if !pay(left, TABLE_CHARGE) {
        return Ok(Turn::Spent(Which::Steps));
    }
    new_table(store, state, entries, line)
}

/// The first operand of an expression that has some.
pub fn operands<'m>(
    alloc: Global,
    store: &mut Store,
    left: &mut Left,
    state: &mut State<'m>,
    code: &'m Expression,
) -> Result<Turn<'m>, NoMemory>
    requires state { StateOf store.old state.old }
    requires code { HasOperands (expression_seen code.now) }
    ensures { IfOk result (λ r. Makes store.old state.old left.old store.new state.new left.new (behind_node (machine.evals (constants_in store.old state.old) (expression_seen code.now) (frames_of store.old state.old) (slots_of store.old state.old))) r) }
{
    let step = begin_operands(store, &mut state.frames, code)?;
    finish(alloc, store, left, state, step)
}
