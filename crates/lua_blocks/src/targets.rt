//! The targets of an assignment are found (manual 2.4.3): their tables and keys, from the first to the last.
ghost use Rattle.std.specs.Prelude.{◌≡◌, ◌∷◌, ◌++◌, [], map, IfOk, MatchOption};
ghost use Rattle.std.specs.List.{AllByRecursion};
ghost use Rattle.page_run.specs.WkBaseDeclaredLeftLeft.{Left as Allowance};
ghost use Rattle.lua_code.specs.Seen.{expression_seen, expressions_seen, target_seen};
ghost use Rattle.lua_code.specs.LuaHeapValue as kind;
ghost use Rattle.lua_code.specs.LuaMeaningActs as act;
ghost use Rattle.lua_state.specs.LuaMeaningMessages.{no_target};
ghost use Rattle.lua_state.specs.LuaSlotsErrors.{jumps, node};
ghost use Rattle.lua_state.specs.LuaSlotsPoints as point;
ghost use Rattle.lua_state.specs.LuaSlotsPoints.{Now};
ghost use Rattle.lua_code.specs.LuaSlotsStatements as machine;
ghost use Rattle.lua_state.specs.LuaStackOf.{FoundOf, InAssignmentOf};
ghost use Rattle.lua_state.specs.LuaStackSeen.{found_seen, in_assignment_seen};
ghost use Rattle.lua_state.specs.Makes.{Makes, Counts};
ghost use Rattle.lua_state.specs.Of.{StateOf};
ghost use Rattle.lua_state.specs.Seen.{constants_in, frames_of, slots_of};

use crate::exits::wait;
use lua_code::{Expression, List, NoMemory, Target};
use lua_state::{
    Finding, Focus, Found, Frame, InAssignment, Jump, Left, State, Steps, Store, Turn, Value,
    Values, boxed, constant, pay_node,
};
use page_run::Which;
use std::alloc::Global;
use std::sync::ledger::Ledger;

/// The first of some targets, and those behind it.
#[derive(Clone, Copy)]
struct Front<'m> {
    first: &'m Target,
    rest: &'m [Target],
}

fn front_of<'m>(targets: &'m [Target]) -> Option<Front<'m>>
    ensures { MatchOption result (targets.now ≡ []) (λ f. targets.now ≡ f.first.now ∷ f.rest.now) }
{
    match targets {
        [first, rest @ ..] => Some(Front { first, rest }),
        [] => None,
    }
}

/// A target is found, and those behind it are to be.
pub fn found<'m>(
    store: &Store,
    state: &State<'m>,
    target: Found,
    rest: &'m [Target],
    before: List<Found>,
    values: &'m List<Expression>,
) -> Result<Turn<'m>, NoMemory>
    requires state { StateOf store.now state.now }
    requires target { FoundOf store.now target }
    requires before { AllByRecursion (FoundOf store.now) before }
    ensures { (l : Allowance) → IfOk result (λ r. Makes store.now state.now l store.now state.now l
        (Now (point.Finds (map target_seen rest.now) (map (found_seen store.now.texts) before ++ found_seen store.now.texts target ∷ []) (expressions_seen values.now) (frames_of store.now state.now)) (slots_of store.now state.now)) r) }
{
    let mut before = before;
    before.push(target)?;
    Ok(Turn::On(Focus::Finds(rest, before, values)))
}

/// All targets are found, and the values are next.
fn all_found<'m>(
    alloc: Global,
    store: &Store,
    state: &mut State<'m>,
    targets: List<Found>,
    values: &'m List<Expression>,
) -> Result<Turn<'m>, NoMemory>
    requires state { StateOf store.now state.old }
    requires targets { AllByRecursion (FoundOf store.now) targets }
    ensures { (l : Allowance) → IfOk result (λ r. Makes store.now state.old l store.now state.new l
        (Now (point.Lists (expressions_seen values.now) [] (point.AssignNow (map (found_seen store.now.texts) targets) ∷ frames_of store.now state.old)) (slots_of store.now state.old)) r) }
{
    let frame = Frame::Assignment(InAssignment::AssignNow(targets));
    let focus = Focus::Lists(values.as_slice(), Values::new(alloc));
    wait(store, state, frame, focus)
}

/// A target that is an entry is a node: its table is evaluated first.
fn entry<'m, L: Ledger>(
    store: &Store,
    left: &mut Left,
    state: &mut State<'m>,
    of: &'m Expression,
    waiting: InAssignment<'m>,
    turns: &mut Steps<L>,
) -> Result<Turn<'m>, NoMemory>
    requires state { StateOf store.now state.old }
    requires waiting { InAssignmentOf store.now waiting }
    ensures { IfOk result (λ r. Counts store.now state.old left.old turns.old store.now state.new left.new turns.new
        (node (Now (point.Evals (expression_seen of.now) (in_assignment_seen store.now.texts waiting.entry ∷ frames_of store.now state.old)) (slots_of store.now state.old))) r) }
{
    if !pay_node(left, turns) {
        return Ok(Turn::Spent(Which::Steps));
    }
    wait(
        store,
        state,
        Frame::Assignment(waiting),
        Focus::Evaluates(of),
    )
}

/// An error whose value is this text.
fn raise<'m>(store: &mut Store, state: &State<'m>, text: &[u8]) -> Result<Turn<'m>, NoMemory>
    requires { StateOf store.old state.now }
    ensures { (l : Allowance) → IfOk result (λ r. Makes store.old state.now l store.new state.now l (jumps (act.Raised (kind.Text text.now)) (frames_of store.old state.now) (slots_of store.old state.now)) r) }
{
    let id = store.text(text)?;
    Ok(Turn::On(Focus::Jumps(Jump::Raised(Value::Text(id)))))
}

/// No chunk has such a target.
fn refuse<'m>(store: &mut Store, state: &State<'m>) -> Result<Turn<'m>, NoMemory>
    requires { StateOf store.old state.now }
    ensures { (l : Allowance) → IfOk result (λ r. Makes store.old state.now l store.new state.now l (jumps (act.Raised (kind.Text no_target)) (frames_of store.old state.now) (slots_of store.old state.now)) r) }
{
    raise(store, state, b"cannot assign to this expression")
}

/// A global variable is found, by the number of its name.
fn find_global<'m>(
    alloc: Global,
    store: &mut Store,
    state: &mut State<'m>,
    number: u32,
    line: u32,
    rest: &'m [Target],
    before: List<Found>,
    values: &'m List<Expression>,
) -> Result<Turn<'m>, NoMemory>
    requires state { StateOf store.old state.old }
    requires before { AllByRecursion (FoundOf store.old) before }
    ensures { (l : Allowance) → IfOk result (λ r. Makes store.old state.old l store.new state.new l
        (Now (point.Finds (map target_seen rest.now) (map (found_seen store.old.texts) before ++ point.GlobalS (constants_in store.old state.old number) line ∷ []) (expressions_seen values.now) (frames_of store.old state.old)) (slots_of store.old state.old)) r) }
{
    let name = constant(alloc, store, state, number)?;
    let target = Found::Global(name, line);
    found(store, state, target, rest, before, values)
}

/// The first of some targets, and what follows it.
fn find_first<'m, L: Ledger>(
    alloc: Global,
    store: &mut Store,
    left: &mut Left,
    state: &mut State<'m>,
    target: &'m Target,
    rest: &'m [Target],
    before: List<Found>,
    values: &'m List<Expression>,
    turns: &mut Steps<L>,
) -> Result<Turn<'m>, NoMemory>
    requires state { StateOf store.old state.old }
    requires before { AllByRecursion (FoundOf store.old) before }
    ensures { IfOk result (λ r. Counts store.old state.old left.old turns.old store.new state.new left.new turns.new
        (machine.finds (constants_in store.old state.old) (target_seen target.now ∷ map target_seen rest.now) (map (found_seen store.old.texts) before) (expressions_seen values.now) (frames_of store.old state.old) (slots_of store.old state.old)) r) }
{
    match target {
        Target::Variable(place) => {
            let target = Found::Variable(*place);
            found(store, state, target, rest, before, values)
        }
        Target::Global(name, line) => {
            find_global(alloc, store, state, *name, *line, rest, before, values)
        }
        Target::At(of, key, line) => {
            let whole = Finding {
                rest,
                before,
                values,
            };
            let finding = boxed(alloc, whole)?;
            let waiting = InAssignment::TargetKey(key, *line, finding);
            entry(store, left, state, of, waiting, turns)
        }
        Target::Refused => refuse(store, state),
    }
}

/// The targets of an assignment that are left, behind those that are found.
pub fn find<'m, L: Ledger>(
    alloc: Global,
    store: &mut Store,
    left: &mut Left,
    state: &mut State<'m>,
    targets: &'m [Target],
    before: List<Found>,
    values: &'m List<Expression>,
    turns: &mut Steps<L>,
) -> Result<Turn<'m>, NoMemory>
    requires state { StateOf store.old state.old }
    requires before { AllByRecursion (FoundOf store.old) before }
    ensures { IfOk result (λ r. Counts store.old state.old left.old turns.old store.new state.new left.new turns.new (machine.finds (constants_in store.old state.old) (map target_seen targets.now) (map (found_seen store.old.texts) before) (expressions_seen values.now) (frames_of store.old state.old) (slots_of store.old state.old)) r) }
{
    match front_of(targets) {
        None => all_found(alloc, store, state, before, values),
        Some(front) => {
            find_first(
                alloc,
                store,
                left,
                state,
                front.first,
                front.rest,
                before,
                values,
                turns,
            )
        }
    }
}
