//! A frame that waits in an expression is given values (manual 2.5).
ghost use Rattle.std.specs.Prelude.{◌≡◌, ◌∷◌, [], ℕ, List as Items, IfOk};
ghost use Rattle.page_run.specs.WkBaseDeclaredLeftLeft.{Left as Allowance};
ghost use Rattle.lua_code.specs.Seen.{expressions_seen};
ghost use Rattle.lua_code.specs.LuaHeapValue.{is_true as is_true_value};
ghost use Rattle.lua_code.specs.LuaSlotsCode.{CWorld};
ghost use Rattle.lua_code.specs.LuaSlotsMoves.{goes};
ghost use Rattle.lua_operators.specs.LuaSlotsOperators.{answers, negated_if};
ghost use Rattle.lua_operators.specs.LuaSlotsPoints.{CallNow, Lists, Now};
ghost use Rattle.lua_operators.specs.LuaStoreParts.{IsOf};
ghost use Rattle.lua_operators.specs.LuaStoreSeen.{seen};
ghost use Rattle.lua_state.specs.LuaStackLists.{first_stored, given_values};
ghost use Rattle.lua_operators.specs.LuaStackOf.{InExpressionOf, GivenOf};
ghost use Rattle.lua_operators.specs.LuaStackSeen.{in_expression_seen, given_seen};
ghost use Rattle.lua_state.specs.Makes.{Makes};
ghost use Rattle.lua_state.specs.Of.{StateOf};
ghost use Rattle.lua_state.specs.Seen.{frames_of, slots_of};

use crate::exits::{give, wait};
use crate::operands::{apply_to, call_with, decide, index_at, method, more, operate_on};
use lua_code::{Expression, List, NoMemory};
use lua_operators::{Focus, Frame, InExpression, Left, Store, Value, is_true};
use lua_state::{Given, State, Turn, Values};
use std::alloc::Global;

/// Whether a handler's value is true, or is not.
fn tells(negated: bool, value: Value) -> bool
    ensures { (texts : Items (Items ℕ)) → result ≡ negated_if negated (is_true_value (seen texts value)) }
{
    let truth = is_true(value);
    if negated { !truth } else { truth }
}

/// A handler's value is a truth, or its negation.
fn verdict<'m>(store: &Store, state: &State<'m>, negated: bool, value: Value) -> Turn<'m>
    requires { StateOf store.now state.now }
    ensures { (l : Allowance) → Makes store.now state.now l store.now state.now l (answers negated (is_true_value (seen store.now.texts value)) (frames_of store.now state.now) (slots_of store.now state.now)) result }
{
    let told = tells(negated, value);
    give(store, state, Value::Bool(told))
}

/// The arguments of a call are next.
fn arguments<'m>(
    alloc: Global,
    store: &Store,
    state: &mut State<'m>,
    called: Value,
    expressions: &'m List<Expression>,
    line: u32,
) -> Result<Turn<'m>, NoMemory>
    requires state { StateOf store.now state.old }
    requires called { IsOf store.now called }
    ensures { (l : Allowance) → IfOk result (λ r. Makes store.now state.old l store.now state.new l
        (Now (Lists (expressions_seen expressions.now) [] (CallNow (seen store.now.texts called) line ∷ frames_of store.now state.old)) (slots_of store.now state.old)) r) }
{
    let frame = InExpression::CallNow(called, line);
    let focus = Focus::Lists(expressions.as_slice(), Values::new(alloc));
    wait(store, state, Frame::Expression(frame), focus)
}

/// The arguments of a method's call are next, behind its object.
fn method_arguments<'m>(
    alloc: Global,
    store: &Store,
    state: &mut State<'m>,
    called: Value,
    object: Value,
    expressions: &'m List<Expression>,
    line: u32,
) -> Result<Turn<'m>, NoMemory>
    requires state { StateOf store.now state.old }
    requires called { IsOf store.now called }
    requires object { IsOf store.now object }
    ensures { (l : Allowance) → IfOk result (λ r. Makes store.now state.old l store.now state.new l
        (Now (Lists (expressions_seen expressions.now) (seen store.now.texts object ∷ []) (CallNow (seen store.now.texts called) line ∷ frames_of store.now state.old)) (slots_of store.now state.old)) r) }
{
    let mut before = Values::new(alloc);
    before.add(object)?;
    let frame = InExpression::CallNow(called, line);
    let focus = Focus::Lists(expressions.as_slice(), before);
    wait(store, state, Frame::Expression(frame), focus)
}

/// What a frame in an expression does with values, of which this is the first.
fn give_first<'m>(
    alloc: Global,
    store: &mut Store,
    left: &mut Left,
    state: &mut State<'m>,
    frame: InExpression<'m>,
    first: Value,
    values: Given,
) -> Result<Turn<'m>, NoMemory>
    requires state { StateOf store.old state.old }
    requires frame { InExpressionOf store.old frame }
    requires first { IsOf store.old first }
    requires values { GivenOf store.old values }
    requires same { first ≡ first_stored (given_values values) }
    ensures { (world : CWorld) → IfOk result (λ r. Makes store.old state.old left.old store.new state.new left.new
        (goes world (in_expression_seen store.old.texts frame.entry) (given_seen store.old.texts values) (frames_of store.old state.old) (slots_of store.old state.old)) r) }
{
    match frame {
        InExpression::First => Ok(give(store, state, first)),
        InExpression::Verdict(negated) => Ok(verdict(store, state, negated, first)),
        InExpression::KeyNext(key, line) => {
            let frame = Frame::Expression(InExpression::IndexNow(first, line));
            wait(store, state, frame, Focus::Evaluates(key))
        }
        InExpression::IndexNow(of, line) => index_at(alloc, store, left, state, of, first, line),
        InExpression::DecideNext(deciding, other) => {
            decide(alloc, store, left, state, deciding, other, first)
        }
        InExpression::OperandNext(op, other, line) => {
            let frame = Frame::Expression(InExpression::OperateNow(op, first, line));
            wait(store, state, frame, Focus::Evaluates(other))
        }
        InExpression::OperateNow(op, a, line) => {
            operate_on(alloc, store, left, state, op, (a, first), line)
        }
        InExpression::UnaryNow(op, line) => apply_to(alloc, store, left, state, op, first, line),
        InExpression::ArgumentsNext(list, line) => {
            arguments(alloc, store, state, first, list, line)
        }
        InExpression::CallNow(called, line) => {
            call_with(alloc, store, left, state, called, values, line)
        }
        InExpression::MethodNext(name, list, line) => {
            method(alloc, store, left, state, first, name, list, line)
        }
        InExpression::MethodNow(object, list, line) => {
            method_arguments(alloc, store, state, first, object, list, line)
        }
        InExpression::MoreNext(expressions, before) => {
            more(alloc, store, left, state, expressions, before, values)
        }
    }
}

/// What a frame in an expression does with values.
pub fn give_expression<'m>(
    alloc: Global,
    store: &mut Store,
    left: &mut Left,
    state: &mut State<'m>,
    frame: InExpression<'m>,
    values: Given,
) -> Result<Turn<'m>, NoMemory>
    requires state { StateOf store.old state.old }
    requires frame { InExpressionOf store.old frame }
    requires values { GivenOf store.old values }
    ensures { IfOk result (λ r. (world : CWorld) → Makes store.old state.old left.old store.new state.new left.new
        (goes world (in_expression_seen store.old.texts frame.entry) (given_seen store.old.texts values) (frames_of store.old state.old) (slots_of store.old state.old)) r) }
{
    let first = values.first();
    give_first(alloc, store, left, state, frame, first, values)
}
