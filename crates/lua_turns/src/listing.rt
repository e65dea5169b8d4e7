//! Lists of expressions that are not read in place, as arguments of a call (manual 2.5 and 2.5.8).
ghost use Rattle.std.specs.Prelude.{◌≡◌, ◌∷◌, [], List as Items, IfOk, MatchOption};
ghost use Rattle.lua_loops.specs.PageRunOutcome.{Goes};
ghost use Rattle.lua_code.specs.Seen.{expressions_seen};
ghost use Rattle.lua_operators.specs.LuaSlotsPoints.{Gives, Lists};
ghost use Rattle.lua_operators.specs.LuaStackDeclaredFrameFrameTheVariants as frame_kind;
ghost use Rattle.lua_operators.specs.LuaStackDeclaredFrameInExpressionTheVariants as in_expression;
ghost use Rattle.lua_operators.specs.LuaStackOf.{ValuesOf};
ghost use Rattle.lua_operators.specs.LuaStackSeen.{values_seen};
ghost use Rattle.lua_loops.specs.LuaStateOf.{StateOf};
ghost use Rattle.lua_loops.specs.LuaStateSeen.{frames_of};
ghost use Rattle.lua_operators.specs.LuaStoreDeclaredValueValue.{Value as Stored};
ghost use Rattle.lua_operators.specs.LuaStoreParts.{IsOf};
ghost use Rattle.lua_operators.specs.LuaStoreSeen.{seen};
ghost use Rattle.lua_turns.specs.Listing.{left_of};
ghost use Rattle.lua_turns.specs.Rows.{Follows, IsNewest, MustFollow};

use crate::calling::give_all;
use crate::waiting::swap_newest;
use lua_code::{Expression, List, NoMemory};
use lua_loops::{State, Steps, Values};
use lua_operators::{Frame, InExpression, Left, Store, Value};
use lua_strides::Next;
use lua_strides::ending::pay_nodes;
use lua_strides::reading::{LEVELS, read};
use std::alloc::Global;
use std::sync::ledger::Ledger;

/// The first of some expressions, and those behind it.
#[derive(Clone, Copy)]
struct Front<'m> {
    first: &'m Expression,
    rest: &'m [Expression],
}

fn front_of<'m>(expressions: &'m [Expression]) -> Option<Front<'m>>
    ensures { MatchOption result (expressions.now ≡ []) (λ f. expressions.now ≡ f.first.now ∷ f.rest.now) }
{
    match expressions {
        [first, rest @ ..] => Some(Front { first, rest }),
        [] => None,
    }
}

/// What is left of a list.
#[derive(Clone, Copy)]
struct Rest<'m> {
    items: &'m [Expression],
}

/// What is left of a list waits for its first expression, with the values before. Where nothing is left, all of its values are there.
fn wait_for_item<'m, L: Ledger>(
    alloc: Global,
    store: &mut Store,
    left: &mut Left,
    state: &mut State<'m>,
    expressions: &'m [Expression],
    before: Values,
    turns: &mut Steps<L>,
) -> Result<Option<Next<'m>>, NoMemory>
    requires state { StateOf store.old state.old }
    requires before { ValuesOf store.old before }
    ensures { IfOk result (MustFollow store.old state.old (Lists (expressions_seen expressions.now) (values_seen store.old.texts before) (frames_of store.old state.old)) left.old turns.old store.new state.new left.new turns.new) }
{
    match front_of(expressions) {
        Some(front) => {
            let frame = InExpression::MoreNext(front.rest, before);
            state.frames.push(Frame::Expression(frame))?;
            Ok(Some(Next::Evaluates(front.first)))
        }
        None => give_all(alloc, store, left, state, before, turns),
    }
}

/// The values of the first expressions of a list, as long as they are read in place and their steps are left, go behind those before. The answer
/// is what is left of the list, or nothing, where all of its values are there.
fn read_front<'m, L: Ledger>(
    store: &Store,
    left: &mut Left,
    state: &State<'m>,
    expressions: &'m [Expression],
    before: &mut Values,
    turns: &mut Steps<L>,
) -> Result<Option<&'m [Expression]>, NoMemory>
    requires state { StateOf store.now state.now }
    requires before { ValuesOf store.now before.old }
    ensures { IfOk result (λ r. Follows store.now state.now (Lists (expressions_seen expressions.now) (values_seen store.now.texts before.old) (frames_of store.now state.now)) left.old turns.old store.now state.now left.new turns.new (left_of r before.new)) }
{
    let mut rest = Rest { items: expressions };
    'items: while let Some(front) = front_of(rest.items) {
        match read(store, state, front.first, LEVELS) {
            Some(found) => {
                if !pay_nodes(left, turns, found.nodes) {
                    return Ok(Some(rest.items));
                }
                before.add(found.value)?;
                match front_of(front.rest) {
                    Some(_) => {
                        rest = Rest { items: front.rest };
                    }
                    None => return Ok(None),
                }
            }
            None => return Ok(Some(rest.items)),
        }
    }
    Ok(Some(rest.items))
}

/// What is left of a list goes on, with the values before.
pub fn list<'m, L: Ledger>(
    alloc: Global,
    store: &mut Store,
    left: &mut Left,
    state: &mut State<'m>,
    expressions: &'m [Expression],
    before: Values,
    turns: &mut Steps<L>,
) -> Result<Option<Next<'m>>, NoMemory>
    requires state { StateOf store.old state.old }
    requires before { ValuesOf store.old before }
    ensures { IfOk result (MustFollow store.old state.old (Lists (expressions_seen expressions.now) (values_seen store.old.texts before) (frames_of store.old state.old)) left.old turns.old store.new state.new left.new turns.new) }
{
    let mut values = before;
    let behind = read_front(store, left, state, expressions, &mut values, turns)?;
    match behind {
        Some(rest) => wait_for_item(alloc, store, left, state, rest, values, turns),
        None => give_all(alloc, store, left, state, values, turns),
    }
}

/// What is called has its value: its arguments are next.
pub fn take_callee<'m, L: Ledger>(
    alloc: Global,
    store: &mut Store,
    left: &mut Left,
    state: &mut State<'m>,
    arguments: &'m List<Expression>,
    line: u32,
    called: Value,
    turns: &mut Steps<L>,
) -> Result<Option<Next<'m>>, NoMemory>
    requires state { StateOf store.old state.old }
    requires newest { IsNewest state.old.frames (frame_kind.Expression (in_expression.ArgumentsNext arguments line)) }
    requires called { IsOf store.old called }
    ensures { IfOk result (MustFollow store.old state.old (Gives (Goes (seen store.old.texts called ∷ [])) (frames_of store.old state.old)) left.old turns.old store.new state.new left.new turns.new) }
{
    let frame = Frame::Expression(InExpression::CallNow(called, line));
    swap_newest(&mut state.frames, frame);
    let none = Values::new(alloc);
    list(alloc, store, left, state, arguments.as_slice(), none, turns)
}

/// An expression of a list has its value: the next one is evaluated, or the list has its values.
pub fn take_item<'m, L: Ledger>(
    alloc: Global,
    store: &mut Store,
    left: &mut Left,
    state: &mut State<'m>,
    rest: &'m [Expression],
    value: Value,
    turns: &mut Steps<L>,
) -> Result<Option<Next<'m>>, NoMemory>
    requires state { StateOf store.old state.old }
    requires newest { (before : Items Stored) × IsNewest state.old.frames (frame_kind.Expression (in_expression.MoreNext rest before)) }
    requires value { IsOf store.old value }
    ensures { IfOk result (MustFollow store.old state.old (Gives (Goes (seen store.old.texts value ∷ [])) (frames_of store.old state.old)) left.old turns.old store.new state.new left.new turns.new) }
{
    let mut before = state.frames.take_before();
    before.add(value)?;
    match front_of(rest) {
        Some(_) => list(alloc, store, left, state, rest, before, turns),
        None => give_all(alloc, store, left, state, before, turns),
    }
}
