//! Statements begin whose expressions are not read in place: frames wait for these (manual 2.4).
ghost use Rattle.std.specs.Prelude.{◌≡◌, ◌∷◌, [], option_map, IfOk, OnOk};
ghost use Rattle.lua_code.specs.Seen.{block_seen, branches_seen, expression_seen};
ghost use Rattle.lua_code.specs.LuaSlotsCode.{ArmC, AssignC, CTarget, CallStatC, DeclareC, MoreC, NoC, ThenC, WhileC};
ghost use Rattle.lua_operators.specs.LuaSlotsPoints.{Runs};
ghost use Rattle.lua_operators.specs.LuaStackDeclaredFrameFrameTheVariants as frame_kind;
ghost use Rattle.lua_operators.specs.LuaStackDeclaredFrameInAssignmentTheVariants as in_assignment;
ghost use Rattle.lua_operators.specs.LuaStackDeclaredFrameInExpressionTheVariants as in_expression;
ghost use Rattle.lua_operators.specs.LuaStackDeclaredFrameInStatementTheVariants as in_statement;
ghost use Rattle.lua_operators.specs.LuaStackOf.{FoundOf};
ghost use Rattle.lua_operators.specs.LuaStackSeen.{found_seen};
ghost use Rattle.lua_loops.specs.LuaStateOf.{StateOf};
ghost use Rattle.lua_loops.specs.LuaStateSeen.{constants_in, frames_of};
ghost use Rattle.lua_operators.specs.LuaStoreSeen.{StoreView};
ghost use Rattle.lua_strides.specs.Conditions.{if_seen};
ghost use Rattle.lua_strides.specs.Strides.{MayStride};
ghost use Rattle.lua_turns.specs.Assigning.{IsFoundAt};

use lua_code::{Branch, Expression, List, NoMemory, Statement};
use lua_loops::{InLoop, State, Steps, Values};
use lua_operators::{Frame, Frames, InAssignment, InExpression, Left};
use lua_strides::ending::{pay_nodes, wait_for, wait_within};
use lua_strides::{Found, InStatement, Next};
use std::alloc::Global;
use std::sync::ledger::Ledger;

/// A call that is a statement begins, where its step is left.
pub fn begin_call_statement<'m, L: Ledger>(
    left: &mut Left,
    state: &mut State<'m>,
    e: &'m Expression,
    rest: &'m [Statement],
    turns: &mut Steps<L>,
) -> Result<Option<Next<'m>>, NoMemory>
    ensures { (s : StoreView) → StateOf s state.old → IfOk result (MayStride s state.old (Runs (ThenC (CallStatC (expression_seen e.now)) (block_seen rest.now)) (frames_of s state.old)) left.old turns.old s state.new left.new turns.new) }
{
    if !pay_nodes(left, turns, 1) {
        return Ok(None);
    }
    let frame = Frame::Statement(InStatement::StatsNext(rest));
    wait_for(state, frame, Next::Evaluates(e))
}

/// A `while` begins with its test, where its step is left.
pub fn begin_while<'m, L: Ledger>(
    left: &mut Left,
    state: &mut State<'m>,
    test: &'m Expression,
    body: &'m List<Statement>,
    rest: &'m [Statement],
    turns: &mut Steps<L>,
) -> Result<Option<Next<'m>>, NoMemory>
    ensures { (s : StoreView) → StateOf s state.old → IfOk result (MayStride s state.old (Runs (ThenC (WhileC (expression_seen test.now) (block_seen body.now)) (block_seen rest.now)) (frames_of s state.old)) left.old turns.old s state.new left.new turns.new) }
{
    if !pay_nodes(left, turns, 1) {
        return Ok(None);
    }
    let outer = Frame::Statement(InStatement::StatsNext(rest));
    let inner = Frame::Loop(InLoop::WhileTest(test, body));
    wait_within(state, outer, inner, Next::Evaluates(test))
}

/// The `else` of an `if`.
pub fn else_of<'m>(other: &'m Option<List<Statement>>) -> Option<&'m List<Statement>>
    ensures { option_map (λ b. block_seen b.now) result ≡ option_map block_seen other.now }
{
    match other {
        Some(body) => Some(body),
        None => None,
    }
}

/// An `if` begins with its first test, where its step is left.
pub fn begin_if<'m, L: Ledger>(
    left: &mut Left,
    state: &mut State<'m>,
    test: &'m Expression,
    body: &'m List<Statement>,
    more: &'m [Branch],
    other: Option<&'m List<Statement>>,
    rest: &'m [Statement],
    turns: &mut Steps<L>,
) -> Result<Option<Next<'m>>, NoMemory>
    ensures { (s : StoreView) → StateOf s state.old → IfOk result (MayStride s state.old (Runs (ThenC (if_seen (ArmC (expression_seen test.now) (block_seen body.now) (branches_seen more.now)) (option_map (λ b. block_seen b.now) other.entry)) (block_seen rest.now)) (frames_of s state.old)) left.old turns.old s state.new left.new turns.new) }
{
    if !pay_nodes(left, turns, 1) {
        return Ok(None);
    }
    let outer = Frame::Statement(InStatement::StatsNext(rest));
    let inner = Frame::Statement(InStatement::BranchNext(body, more, other));
    wait_within(state, outer, inner, Next::Evaluates(test))
}

/// A list of one value begins, for which this frame waits.
fn wait_for_one<'m>(
    alloc: Global,
    frames: &mut Frames<'m>,
    none: &'m [Expression],
) -> Result<(), NoMemory>
    ensures { OnOk result (frames.new ≡ frame_kind.Expression (in_expression.MoreNext none.entry []) ∷ frames.old) }
{
    let values = Values::new(alloc);
    frames.push(Frame::Expression(InExpression::MoreNext(none, values)))
}

/// A declaration with one value begins, where its step is left. `none` is the end of its list.
pub fn begin_declare<'m, L: Ledger>(
    alloc: Global,
    left: &mut Left,
    state: &mut State<'m>,
    flags: &'m [bool],
    value: &'m Expression,
    none: &'m [Expression],
    rest: &'m [Statement],
    turns: &mut Steps<L>,
) -> Result<Option<Next<'m>>, NoMemory>
    requires { none.now ≡ [] }
    ensures { (s : StoreView) → StateOf s state.old → IfOk result (MayStride s state.old (Runs (DeclareC flags.now (MoreC (expression_seen value.now) NoC) (block_seen rest.now)) (frames_of s state.old)) left.old turns.old s state.new left.new turns.new) }
{
    if !pay_nodes(left, turns, 1) {
        return Ok(None);
    }
    state
        .frames
        .push(Frame::Statement(InStatement::DeclareNow(flags, rest)))?;
    wait_for_one(alloc, &mut state.frames, none)?;
    Ok(Some(Next::Evaluates(value)))
}

/// A list of one target.
fn one_target(alloc: Global, target: Found) -> Result<List<Found>, NoMemory>
    ensures { IfOk result (λ list. list ≡ target ∷ []) }
{
    let mut targets = Vec::new(alloc);
    match targets.push(target) {
        Ok(_) => Ok(List::of_vec(targets)),
        Err(_) => Err(NoMemory),
    }
}

/// One value is evaluated for this target, and then these statements follow. `none` is the end of the list of values.
pub(crate) fn wait_to_assign<'m>(
    alloc: Global,
    frames: &mut Frames<'m>,
    target: Found,
    none: &'m [Expression],
    rest: &'m [Statement],
) -> Result<(), NoMemory>
    ensures { OnOk result (frames.new ≡ frame_kind.Expression (in_expression.MoreNext none.entry []) ∷ frame_kind.Assignment (in_assignment.AssignNow (target ∷ [])) ∷ frame_kind.Statement (in_statement.StatsNext rest.entry) ∷ frames.old) }
{
    let targets = one_target(alloc, target)?;
    frames.push(Frame::Statement(InStatement::StatsNext(rest)))?;
    frames.push(Frame::Assignment(InAssignment::AssignNow(targets)))?;
    wait_for_one(alloc, frames, none)
}

/// An assignment of one value to a variable or a global variable begins, where its step is left. `none` is the end of its list.
pub fn begin_assign<'m, L: Ledger>(
    alloc: Global,
    left: &mut Left,
    state: &mut State<'m>,
    target: Found,
    value: &'m Expression,
    none: &'m [Expression],
    rest: &'m [Statement],
    turns: &mut Steps<L>,
) -> Result<Option<Next<'m>>, NoMemory>
    requires { none.now ≡ [] }
    ensures { (s : StoreView) (c : CTarget) → StateOf s state.old → FoundOf s target → IsFoundAt (constants_in s state.old) c (found_seen s.texts target) → IfOk result (MayStride s state.old (Runs (ThenC (AssignC (c ∷ []) (MoreC (expression_seen value.now) NoC)) (block_seen rest.now)) (frames_of s state.old)) left.old turns.old s state.new left.new turns.new) }
{
    if !pay_nodes(left, turns, 1) {
        return Ok(None);
    }
    wait_to_assign(alloc, &mut state.frames, target, none, rest)?;
    Ok(Some(Next::Evaluates(value)))
}
