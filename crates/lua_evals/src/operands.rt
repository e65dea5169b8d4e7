//! What a frame in an expression does with values: indices, operators, calls (manual 2.3, 2.5 and 2.5.8).
ghost use Rattle.std.specs.Prelude.{◌≡◌, ◌∷◌, [], Some, IfOk};
ghost use Rattle.lua_code.specs.Seen.{expression_seen, expressions_seen, operator_seen};
ghost use Rattle.lua_code.specs.LuaHeapValue as kind;
ghost use Rattle.lua_state.specs.LuaSlotsCalls as calls;
ghost use Rattle.lua_code.specs.LuaSlotsExpressions as machine;
ghost use Rattle.lua_code.specs.LuaSlotsIndex as indices;
ghost use Rattle.lua_operators.specs.LuaSlotsOperators as operators;
ghost use Rattle.lua_operators.specs.LuaSlotsPoints.{First, MethodNow};
ghost use Rattle.lua_operators.specs.LuaStoreParts.{IsOf, IsTextOf};
ghost use Rattle.lua_operators.specs.LuaStoreSeen.{seen, text_at};
ghost use Rattle.lua_operators.specs.LuaStackOf.{GivenOf, ValuesOf};
ghost use Rattle.lua_operators.specs.LuaStackSeen.{given_seen, values_seen};
ghost use Rattle.lua_state.specs.Makes.{Makes};
ghost use Rattle.lua_state.specs.Of.{StateOf};
ghost use Rattle.lua_state.specs.Seen.{frames_of, slots_of};

use lua_code::{Expression, List, NoMemory, Operator};
use lua_operators::{
    Frame, InExpression, Left, Store, TextId, Value, apply, choose_operand, index, more_values,
    operate,
};
use lua_state::{Given, State, Turn, Values, call, finish, finish_paid};
use lua_syntax::UnaryOp;
use std::alloc::Global;

/// An index at this key, whose first value counts.
pub fn index_at<'m>(
    alloc: Global,
    store: &mut Store,
    left: &mut Left,
    state: &mut State<'m>,
    of: Value,
    key: Value,
    line: u32,
) -> Result<Turn<'m>, NoMemory>
    requires state { StateOf store.old state.old }
    requires of { IsOf store.old of }
    requires key { IsOf store.old key }
    ensures { IfOk result (λ r. Makes store.old state.old left.old store.new state.new left.new
        (indices.index (seen store.old.texts of) (seen store.old.texts key) (Some line) (First ∷ frames_of store.old state.old) (slots_of store.old state.old)) r) }
{
    state.frames.push(Frame::Expression(InExpression::First))?;
    let step = index(store, &state.env, of, key, Some(line));
    finish(alloc, store, left, state, step)
}

/// The first operand of `and` or `or`: it is the value, or the second operand is.
pub fn decide<'m>(
    alloc: Global,
    store: &mut Store,
    left: &mut Left,
    state: &mut State<'m>,
    deciding: bool,
    other: &'m Expression,
    value: Value,
) -> Result<Turn<'m>, NoMemory>
    requires state { StateOf store.old state.old }
    requires value { IsOf store.old value }
    ensures { IfOk result (λ r. Makes store.old state.old left.old store.new state.new left.new
        (machine.choose_operand deciding (expression_seen other.now) (seen store.old.texts value) (frames_of store.old state.old) (slots_of store.old state.old)) r) }
{
    let step = choose_operand(store, &mut state.frames, deciding, other, value)?;
    finish(alloc, store, left, state, step)
}

/// An operator whose two operands are evaluated.
pub fn operate_on<'m>(
    alloc: Global,
    store: &mut Store,
    left: &mut Left,
    state: &mut State<'m>,
    op: Operator,
    values: (Value, Value),
    line: u32,
) -> Result<Turn<'m>, NoMemory>
    requires state { StateOf store.old state.old }
    requires first { IsOf store.old values.0 }
    requires second { IsOf store.old values.1 }
    ensures { IfOk result (λ r. Makes store.old state.old left.old store.new state.new left.new
        (operators.operate (operator_seen op) (seen store.old.texts values.0) (seen store.old.texts values.1) (Some line) (frames_of store.old state.old) (slots_of store.old state.old)) r) }
{
    let paid = operate(
        alloc,
        store,
        &state.env,
        left,
        &mut state.frames,
        op,
        values,
        Some(line),
    )?;
    let turn = finish_paid(alloc, store, left, state, paid)?;
    Ok(turn)
}

/// An operator whose one operand is evaluated.
pub fn apply_to<'m>(
    alloc: Global,
    store: &mut Store,
    left: &mut Left,
    state: &mut State<'m>,
    op: UnaryOp,
    value: Value,
    line: u32,
) -> Result<Turn<'m>, NoMemory>
    requires state { StateOf store.old state.old }
    requires value { IsOf store.old value }
    ensures { IfOk result (λ r. Makes store.old state.old left.old store.new state.new left.new
        (operators.apply op (seen store.old.texts value) (Some line) (frames_of store.old state.old) (slots_of store.old state.old)) r) }
{
    let paid = apply(
        alloc,
        store,
        &state.env,
        left,
        &mut state.frames,
        op,
        value,
        Some(line),
    )?;
    let turn = finish_paid(alloc, store, left, state, paid)?;
    Ok(turn)
}

/// A value is called with these arguments.
pub fn call_with<'m>(
    alloc: Global,
    store: &mut Store,
    left: &mut Left,
    state: &mut State<'m>,
    called: Value,
    arguments: Given,
    line: u32,
) -> Result<Turn<'m>, NoMemory>
    requires state { StateOf store.old state.old }
    requires called { IsOf store.old called }
    requires arguments { GivenOf store.old arguments }
    ensures { IfOk result (λ r. Makes store.old state.old left.old store.new state.new left.new
        (calls.call (seen store.old.texts called) (given_seen store.old.texts arguments) (Some line) (frames_of store.old state.old) (slots_of store.old state.old)) r) }
{
    let arguments = arguments.into_values(alloc)?;
    let step = call(store, &state.env, called, arguments, Some(line))?;
    finish(alloc, store, left, state, step)
}

/// A method of an object: an index of it, while it waits to be the first argument (manual 2.5.8).
pub fn method<'m>(
    alloc: Global,
    store: &mut Store,
    left: &mut Left,
    state: &mut State<'m>,
    object: Value,
    name: TextId,
    arguments: &'m List<Expression>,
    line: u32,
) -> Result<Turn<'m>, NoMemory>
    requires state { StateOf store.old state.old }
    requires object { IsOf store.old object }
    requires name { IsTextOf store.old name }
    ensures { IfOk result (λ r. Makes store.old state.old left.old store.new state.new left.new
        (indices.index (seen store.old.texts object) (kind.Text (text_at store.old.texts name.at)) (Some line) (MethodNow (seen store.old.texts object) (expressions_seen arguments.now) line ∷ frames_of store.old state.old) (slots_of store.old state.old)) r) }
{
    let frame = InExpression::MethodNow(object, arguments, line);
    state.frames.push(Frame::Expression(frame))?;
    let step = index(store, &state.env, object, Value::Text(name), Some(line));
    finish(alloc, store, left, state, step)
}

/// An expression of a list is evaluated.
pub fn more<'m>(
    alloc: Global,
    store: &mut Store,
    left: &mut Left,
    state: &State<'m>,
    expressions: &'m [Expression],
    before: Values,
    values: Given,
) -> Result<Turn<'m>, NoMemory>
    requires state { StateOf store.old state.now }
    requires before { ValuesOf store.old before }
    requires values { GivenOf store.old values }
    ensures { IfOk result (λ r. Makes store.old state.now left.old store.new state.now left.new
        (machine.more_values (expressions_seen expressions.now) (values_seen store.old.texts before) (given_seen store.old.texts values) (frames_of store.old state.now) (slots_of store.old state.now)) r) }
{
    let step = more_values(store, expressions, before, values)?;
    finish(alloc, store, left, state, step)
}
