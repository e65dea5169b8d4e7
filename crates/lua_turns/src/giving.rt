//! A value reaches what waits for it.
ghost use Rattle.std.specs.Prelude.{◌≡◌, ◌∷◌, [], ℕ, List as Items, IfOk};
ghost use Rattle.lua_loops.specs.PageRunOutcome.{Goes};
ghost use Rattle.lua_loops.specs.WkBaseDeclaredLeftLeft.{Left as Allowance};
ghost use Rattle.lua_code.specs.LuaHeapValue.{Value as Plain};
ghost use Rattle.lua_operators.specs.LuaSlotsPoints.{Gives};
ghost use Rattle.lua_operators.specs.LuaStackDeclaredFrameEndingTheVariants as ending_kind;
ghost use Rattle.lua_operators.specs.LuaStackDeclaredFrameFrameTheVariants as frame_kind;
ghost use Rattle.lua_operators.specs.LuaStackDeclaredFrameInAssignmentTheVariants as in_assignment;
ghost use Rattle.lua_operators.specs.LuaStackDeclaredFrameInExpressionTheVariants as in_expression;
ghost use Rattle.lua_operators.specs.LuaStackDeclaredFrameInStatementTheVariants as in_statement;
ghost use Rattle.lua_loops.specs.LuaStateOf.{StateOf};
ghost use Rattle.lua_loops.specs.LuaStateSeen.{frames_of};
ghost use Rattle.lua_operators.specs.LuaStoreParts.{IsOf};
ghost use Rattle.lua_operators.specs.LuaStoreSeen.{StoreView, seen};
ghost use Rattle.lua_strides.specs.Next.{focus_of};
ghost use Rattle.lua_turns.specs.Rows.{Follows, IsNewest, MayFollow};
ghost use Rattle.lua_turns.specs.Waiting.{Waits};

use crate::at_hand::next_of;
use crate::branching::{choose, take_test};
use crate::calling::call_one;
use crate::deciding::{apply, decide, give_first};
use crate::joining::join;
use crate::listing::{take_callee, take_item};
use crate::methods::{take_key, take_object, take_of};
use crate::waiting::{Waiting, drop_newest, of_newest, swap_newest};
use lua_code::{Expression, NoMemory, Operator, Statement};
use lua_loops::{State, Steps, leave_call, open};
use lua_operators::{Frame, InExpression, Left, Store, Value};
use lua_strides::operators::operated;
use lua_strides::striding::only;
use lua_strides::{Found, Next, Setting};
use std::alloc::Global;
use std::sync::ledger::Ledger;

/// The statements behind one go on, whatever it gave.
pub fn go_on<'m>(state: &mut State<'m>, rest: &'m [Statement]) -> Next<'m>
    requires { IsNewest state.old.frames (frame_kind.Statement (in_statement.StatsNext rest)) }
    ensures { (s : StoreView) (l : Allowance) (k : ℕ) (values : Items Plain) → StateOf s state.old → Follows s state.old (Gives (Goes values) (frames_of s state.old)) l k s state.new l k (focus_of result) }
{
    drop_newest(&mut state.frames);
    Next::Runs(rest)
}

/// An operator has its first operand.
fn take_operand<'m, L: Ledger>(
    store: &Store,
    left: &mut Left,
    state: &mut State<'m>,
    op: Operator,
    b: &'m Expression,
    line: u32,
    value: Value,
    turns: &mut Steps<L>,
) -> Result<Option<Next<'m>>, NoMemory>
    requires state { StateOf store.now state.old }
    requires newest { IsNewest state.old.frames (frame_kind.Expression (in_expression.OperandNext op b line)) }
    requires value { IsOf store.now value }
    ensures { IfOk result (MayFollow store.now state.old (Gives (Goes (seen store.now.texts value ∷ [])) (frames_of store.now state.old)) left.old turns.old store.now state.new left.new turns.new) }
{
    let frame = Frame::Expression(InExpression::OperateNow(op, value, line));
    swap_newest(&mut state.frames, frame);
    Ok(Some(next_of(store, left, state, b, turns)))
}

/// An operator has its second operand.
fn operate<'m>(
    store: &Store,
    state: &mut State<'m>,
    op: Operator,
    a: Value,
    line: u32,
    value: Value,
) -> Result<Option<Next<'m>>, NoMemory>
    requires state { StateOf store.now state.old }
    requires newest { IsNewest state.old.frames (frame_kind.Expression (in_expression.OperateNow op a line)) }
    requires value { IsOf store.now value }
    ensures { (l : Allowance) (k : ℕ) → IfOk result (MayFollow store.now state.old (Gives (Goes (seen store.now.texts value ∷ [])) (frames_of store.now state.old)) l k store.now state.new l k) }
{
    match operated(store, &state.env, op, a, value) {
        Some(value) => {
            drop_newest(&mut state.frames);
            Ok(Some(Next::Gives(value)))
        }
        None => Ok(None),
    }
}

/// A list has its one value.
fn end_list<'m>(
    state: &mut State<'m>,
    rest: &'m [Expression],
    value: Value,
) -> Result<Option<Next<'m>>, NoMemory>
    requires none { rest.now ≡ [] }
    requires newest { IsNewest state.old.frames (frame_kind.Expression (in_expression.MoreNext rest [])) }
    ensures { (s : StoreView) (l : Allowance) (k : ℕ) → StateOf s state.old → IsOf s value → IfOk result (MayFollow s state.old (Gives (Goes (seen s.texts value ∷ [])) (frames_of s state.old)) l k s state.new l k) }
{
    drop_newest(&mut state.frames);
    Ok(Some(Next::Gives(value)))
}

/// A `return` has its value.
fn begin_return<'m>(state: &mut State<'m>, value: Value) -> Result<Option<Next<'m>>, NoMemory>
    requires { IsNewest state.old.frames (frame_kind.Statement in_statement.ReturnNow) }
    ensures { (s : StoreView) (l : Allowance) (k : ℕ) → StateOf s state.old → IsOf s value → IfOk result (MayFollow s state.old (Gives (Goes (seen s.texts value ∷ [])) (frames_of s state.old)) l k s state.new l k) }
{
    drop_newest(&mut state.frames);
    Ok(Some(Next::Returns(value)))
}

/// A declaration of one variable has its value.
fn declare<'m>(
    store: &mut Store,
    state: &mut State<'m>,
    flags: &'m [bool],
    rest: &'m [Statement],
    value: Value,
) -> Result<Option<Next<'m>>, NoMemory>
    requires state { StateOf store.old state.old }
    requires newest { IsNewest state.old.frames (frame_kind.Statement (in_statement.DeclareNow flags rest)) }
    requires value { IsOf store.old value }
    ensures { (l : Allowance) (k : ℕ) → IfOk result (MayFollow store.old state.old (Gives (Goes (seen store.old.texts value ∷ [])) (frames_of store.old state.old)) l k store.new state.new l k) }
{
    match only(flags) {
        Some(boxed) => {
            open(store, &mut state.regs, *boxed, value)?;
            drop_newest(&mut state.frames);
            Ok(Some(Next::Runs(rest)))
        }
        None => Ok(None),
    }
}

/// The one target of an assignment has its value, which is still to be set.
fn assign<'m>(
    state: &mut State<'m>,
    target: Found,
    value: Value,
) -> Result<Option<Next<'m>>, NoMemory>
    requires { IsNewest state.old.frames (frame_kind.Assignment (in_assignment.AssignNow (target ∷ []))) }
    ensures { (s : StoreView) (l : Allowance) (k : ℕ) → StateOf s state.old → IsOf s value → IfOk result (MayFollow s state.old (Gives (Goes (seen s.texts value ∷ [])) (frames_of s state.old)) l k s state.new l k) }
{
    drop_newest(&mut state.frames);
    Ok(Some(Next::Sets(Setting { target, value })))
}

/// A function of the library has given its one value: its call ends.
fn end_library<'m>(
    left: &mut Left,
    state: &mut State<'m>,
    value: Value,
) -> Result<Option<Next<'m>>, NoMemory>
    requires { IsNewest state.old.frames (frame_kind.End ending_kind.LibraryEnd) }
    ensures { (s : StoreView) (k : ℕ) → StateOf s state.old → IsOf s value → IfOk result (MayFollow s state.old (Gives (Goes (seen s.texts value ∷ [])) (frames_of s state.old)) left.old k s state.new left.new k) }
{
    drop_newest(&mut state.frames);
    leave_call(state, left)?;
    Ok(Some(Next::Gives(value)))
}

/// A value reaches the newest frame, where that waits in an expression.
fn give_operand<'m, L: Ledger>(
    alloc: Global,
    store: &mut Store,
    left: &mut Left,
    state: &mut State<'m>,
    waits: Waiting<'m>,
    value: Value,
    turns: &mut Steps<L>,
) -> Result<Option<Next<'m>>, NoMemory>
    requires state { StateOf store.old state.old }
    requires waits { Waits state.old.frames waits }
    requires value { IsOf store.old value }
    ensures { IfOk result (MayFollow store.old state.old (Gives (Goes (seen store.old.texts value ∷ [])) (frames_of store.old state.old)) left.old turns.old store.new state.new left.new turns.new) }
{
    match waits {
        Waiting::Operand(op, b, line) => {
            take_operand(store, left, state, op, b, line, value, turns)
        }
        Waiting::Joins(a, line) => join(alloc, store, left, state, a, line, value),
        Waiting::Operates(op, a, line) => operate(store, state, op, a, line, value),
        Waiting::Last(rest) => end_list(state, rest, value),
        Waiting::Item(rest) => take_item(alloc, store, left, state, rest, value, turns),
        Waiting::First => Ok(Some(give_first(state, value))),
        Waiting::Decides(deciding, b) => Ok(Some(decide(state, deciding, b, value))),
        Waiting::Applies(op, line) => Ok(apply(store, state, op, line, value)),
        Waiting::Key(key, line) => {
            let next = take_of(store, left, state, key, line, value, turns);
            Ok(Some(next))
        }
        Waiting::Indexes(of, line) => Ok(take_key(store, left, state, of, line, value)),
        Waiting::Callee(arguments, line) => take_callee(
            alloc, store, left, state, arguments, line, value, turns,
        ),
        Waiting::Object(name, list, line) => take_object(
            alloc, store, left, state, name, list, line, value, turns,
        ),
        Waiting::Calls(called, line) => {
            call_one(alloc, store, left, state, called, line, value, turns)
        }
        _ => Ok(None),
    }
}

/// A value reaches the newest frame.
pub fn give<'m, L: Ledger>(
    alloc: Global,
    store: &mut Store,
    left: &mut Left,
    state: &mut State<'m>,
    value: Value,
    turns: &mut Steps<L>,
) -> Result<Option<Next<'m>>, NoMemory>
    requires state { StateOf store.old state.old }
    requires value { IsOf store.old value }
    ensures { IfOk result (MayFollow store.old state.old (Gives (Goes (seen store.old.texts value ∷ [])) (frames_of store.old state.old)) left.old turns.old store.new state.new left.new turns.new) }
{
    let waits = of_newest(&state.frames);
    match waits {
        Waiting::Statements(rest) => Ok(Some(go_on(state, rest))),
        Waiting::Declares(flags, rest) => declare(store, state, flags, rest, value),
        Waiting::Returns => begin_return(state, value),
        Waiting::Assigns(target) => assign(state, target, value),
        Waiting::Branches(body, more, other) => Ok(Some(choose(state, body, more, other, value))),
        Waiting::Tests(e, body) => Ok(take_test(left, state, e, body, value, turns)),
        Waiting::Library => end_library(left, state, value),
        _ => give_operand(alloc, store, left, state, waits, value, turns),
    }
}
