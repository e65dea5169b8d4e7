//! An expression begins (manual 2.5), and a list of expressions goes on.
ghost use Rattle.std.specs.Prelude.{IfOk};
ghost use Rattle.lua_code.specs.Seen.{expression_seen, expressions_seen};
ghost use Rattle.lua_code.specs.LuaSlotsExpressions as machine;
ghost use Rattle.lua_operators.specs.LuaStackOf.{ValuesOf};
ghost use Rattle.lua_operators.specs.LuaStackSeen.{values_seen};
ghost use Rattle.lua_state.specs.LuaArmsPaid.{behind_node};
ghost use Rattle.lua_state.specs.Makes.{Makes};
ghost use Rattle.lua_state.specs.Of.{StateOf};
ghost use Rattle.lua_state.specs.Seen.{constants_in, frames_of, slots_of};

use crate::closures::closure;
use crate::exits::give;
use crate::forms::{constructor, dots, global, method_call, operands, text};
use crate::running::variable;
use lua_code::{Expression, NoMemory};
use lua_operators::{Left, Store, Value, list as list_next};
use lua_state::{State, Turn, Values, finish};
use std::alloc::Global;

/// An expression begins. The step of its node is paid, and the node is counted, by the caller.
#[tactic(auto, using(crate::proofs::Codes::codes))]
pub fn evaluate<'m>(
    alloc: Global,
    store: &mut Store,
    left: &mut Left,
    state: &mut State<'m>,
    e: &'m Expression,
) -> Result<Turn<'m>, NoMemory>
    requires state { StateOf store.old state.old }
    ensures { IfOk result (λ r. Makes store.old state.old left.old store.new state.new left.new (behind_node (machine.evals (constants_in store.old state.old) (expression_seen e.now) (frames_of store.old state.old) (slots_of store.old state.old))) r) }
{
    match e {
        Expression::Nil => Ok(give(store, state, Value::Nil)),
        Expression::Truth(truth) => Ok(give(store, state, Value::Bool(*truth))),
        Expression::Number(number) => Ok(give(store, state, Value::Number(*number))),
        Expression::Text(number) => text(alloc, store, state, *number),
        Expression::Dots => dots(alloc, store, left, state),
        Expression::Function(index, places) => {
            closure(alloc, store, left, state, *index, places.as_slice())
        }
        Expression::Local(place) => {
            let value = variable(store, state, *place);
            Ok(give(store, state, value))
        }
        Expression::Global(name, line) => global(alloc, store, left, state, *name, *line),
        Expression::Table(entries, line) => {
            constructor(store, left, state, entries.as_slice(), *line)
        }
        Expression::Index(_, _, _) => operands(alloc, store, left, state, e),
        Expression::Call(_, _, _) => operands(alloc, store, left, state, e),
        Expression::Method(of, name, arguments, line) => {
            method_call(alloc, store, state, of, *name, arguments, *line)
        }
        Expression::And(_, _) => operands(alloc, store, left, state, e),
        Expression::Or(_, _) => operands(alloc, store, left, state, e),
        Expression::Operate(_, _, _, _) => operands(alloc, store, left, state, e),
        Expression::Unary(_, _, _) => operands(alloc, store, left, state, e),
        Expression::Paren(_) => operands(alloc, store, left, state, e),
    }
}

/// A list of expressions goes on, with the values of those before.
pub fn list<'m>(
    alloc: Global,
    store: &mut Store,
    left: &mut Left,
    state: &mut State<'m>,
    expressions: &'m [Expression],
    before: Values,
) -> Result<Turn<'m>, NoMemory>
    requires state { StateOf store.old state.old }
    requires before { ValuesOf store.old before }
    ensures { IfOk result (λ r. Makes store.old state.old left.old store.new state.new left.new (machine.lists (expressions_seen expressions.now) (values_seen store.old.texts before) (frames_of store.old state.old) (slots_of store.old state.old)) r) }
{
    let step = list_next(store, &mut state.frames, expressions, before)?;
    finish(alloc, store, left, state, step)
}
