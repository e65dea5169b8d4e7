//! Expressions that are read where they stand (manual 2.5).
ghost use Rattle.std.specs.Prelude.{◌≡◌, ◌<◌, ◌^◌, ◌++◌, ◌∷◌, [], ℕ, Option as MayBe, List as Items, Some, IfOk, IfSome, MatchOption};
ghost use Rattle.lua_code.specs.Seen.{expression_seen, expressions_seen, operator_seen};
ghost use Rattle.lua_code.specs.LuaHeapValue.{Value as Plain};
ghost use Rattle.lua_in_place.specs.InPlace as places;
ghost use Rattle.lua_code.specs.LuaSlotsCode.{GlobalC, TextC};
ghost use Rattle.lua_state.specs.LuaStackOf.{EnvironmentOf, ValuesOf};
ghost use Rattle.lua_state.specs.Of.{StateOf};
ghost use Rattle.lua_state.specs.LuaStoreParts.{IsOf};
ghost use Rattle.lua_state.specs.LuaStoreSeen.{StoreView, seen};
ghost use Rattle.lua_strides.specs.Reads.{BothRead, IsRead, ReadsTo, ReadsTwo, ReadsAll};

use crate::operators::{applied, entry, indexed, operated};
use crate::running::variable;
use lua_code::{Expression, NoMemory, Operator};
use lua_state::{Environment, State, Store, Value, Values, constant_at_hand};
use lua_syntax::UnaryOp;
use std::alloc::Global;

/// What is read in place: a value, and how many nodes its expression has.
#[derive(Clone, Copy)]
pub struct ValueRead {
    pub value: Value,
    pub nodes: u64,
}

/// The values of a list that is read in place, and how many nodes its expressions have.
#[derive(Drop)]
pub struct ListRead {
    pub values: Values,
    pub nodes: u64,
}

/// What an assignment to an entry is made of, read in place: the table, the key and the value.
#[derive(Clone, Copy)]
pub struct EntryRead {
    pub of: ValueRead,
    pub key: ValueRead,
    pub value: ValueRead,
}

/// How many operators one in the other are read in place. What is read in vain is read again by the moves, so these are few.
pub const LEVELS: u64 = 3;

/// A value with so many nodes, if 32 bits hold their number.
fn read_with(value: Option<Value>, nodes: u64) -> Option<ValueRead>
    ensures { (s : StoreView) (w : MayBe Plain) → IfSome value (λ v. IsOf s v × (w ≡ Some (seen s.texts v))) → IfSome result (IsRead s (places.with_nodes nodes w)) }
{
    if nodes >= 1 << 32 {
        return None;
    }
    match value {
        Some(value) => Some(ValueRead { value, nodes }),
        None => None,
    }
}

/// An index of what is read in place.
fn read_index(
    store: &Store,
    env: &Environment,
    parts: Option<(ValueRead, ValueRead)>,
) -> Option<ValueRead>
    requires parts { IfSome parts (BothRead store.now) }
    requires env { EnvironmentOf store.now env.now }
    ensures { (x y : MayBe (Plain × ℕ)) → IfSome parts (λ r. IsRead store.now x r.0 × IsRead store.now y r.1) → IfSome result (IsRead store.now (places.around_both (places.indexed store.now.heap) x y)) }
{
    match parts {
        Some((of, key)) => {
            let value = indexed(store, env, of.value, key.value);
            read_with(value, 1 + of.nodes + key.nodes)
        }
        None => None,
    }
}

/// An operator on what is read in place.
fn read_operator(
    store: &Store,
    env: &Environment,
    op: Operator,
    parts: Option<(ValueRead, ValueRead)>,
) -> Option<ValueRead>
    requires parts { IfSome parts (BothRead store.now) }
    requires env { EnvironmentOf store.now env.now }
    ensures { (x y : MayBe (Plain × ℕ)) → IfSome parts (λ r. IsRead store.now x r.0 × IsRead store.now y r.1) → IfSome result (IsRead store.now (places.around_both (places.operated store.now.heap (operator_seen op)) x y)) }
{
    match parts {
        Some((a, b)) => {
            let value = operated(store, env, op, a.value, b.value);
            read_with(value, 1 + a.nodes + b.nodes)
        }
        None => None,
    }
}

/// An operator on its one operand, where that is read in place.
fn read_unary(op: UnaryOp, part: Option<ValueRead>) -> Option<ValueRead>
    requires { IfSome part (λ r. r.nodes < 2 ^ 32) }
    ensures { (s : StoreView) (x : MayBe (Plain × ℕ)) → IfSome part (IsRead s x) → IfSome result (IsRead s (places.around (places.applied s.heap op) x)) }
{
    match part {
        Some(a) => {
            let value = applied(op, a.value);
            read_with(value, 1 + a.nodes)
        }
        None => None,
    }
}

/// A text, if it is at hand.
fn read_text<'m>(state: &State<'m>, number: u32) -> Option<ValueRead>
    ensures { (s : StoreView) → StateOf s state.now → ReadsTo s state.now (TextC number) result }
{
    match constant_at_hand(state, number) {
        Some(text) => read_with(Some(Value::Text(text)), 1),
        None => None,
    }
}

/// A global variable, if its name is at hand.
fn read_global<'m>(store: &Store, state: &State<'m>, name: u32, line: u32) -> Option<ValueRead>
    requires { StateOf store.now state.now }
    ensures { ReadsTo store.now state.now (GlobalC name line) result }
{
    match constant_at_hand(state, name) {
        Some(text) => {
            let value = entry(store, &state.env, state.env.globals, Value::Text(text));
            read_with(value, 1)
        }
        None => None,
    }
}

/// An expression, where so many levels of operators may be looked at.
#[cycle(reading)]
#[tactic(auto, using(crate::proofs::Codes::codes))]
pub fn read<'m>(
    store: &Store,
    state: &State<'m>,
    e: &'m Expression,
    levels: u64,
) -> Option<ValueRead>
    requires { StateOf store.now state.now }
    ensures { ReadsTo store.now state.now (expression_seen e.now) result }
{
    match e {
        Expression::Nil => read_with(Some(Value::Nil), 1),
        Expression::Truth(truth) => read_with(Some(Value::Bool(*truth)), 1),
        Expression::Number(number) => read_with(Some(Value::Number(*number)), 1),
        Expression::Text(number) => read_text(state, *number),
        Expression::Local(place) => {
            let value = variable(store, state, *place);
            read_with(Some(value), 1)
        }
        Expression::Global(name, line) => read_global(store, state, *name, *line),
        Expression::Index(of, key, _) => {
            let parts = read_two(store, state, of, key, levels);
            read_index(store, &state.env, parts)
        }
        Expression::Operate(op, a, b, _) => {
            let parts = read_two(store, state, a, b, levels);
            read_operator(store, &state.env, *op, parts)
        }
        Expression::Unary(op, a, _) => {
            let part = read_one(store, state, a, levels);
            read_unary(*op, part)
        }
        _ => None,
    }
}

/// An operand, one level deeper.
#[cycle(reading)]
fn read_one<'m>(
    store: &Store,
    state: &State<'m>,
    a: &'m Expression,
    levels: u64,
) -> Option<ValueRead>
    requires { StateOf store.now state.now }
    ensures { ReadsTo store.now state.now (expression_seen a.now) result }
{
    if levels == 0 {
        return None;
    }
    read(store, state, a, levels - 1)
}

/// Two operands, one level deeper.
#[cycle(reading)]
pub fn read_two<'m>(
    store: &Store,
    state: &State<'m>,
    a: &'m Expression,
    b: &'m Expression,
    levels: u64,
) -> Option<(ValueRead, ValueRead)>
    requires { StateOf store.now state.now }
    ensures { ReadsTwo store.now state.now (expression_seen a.now) (expression_seen b.now) result }
{
    let first = read_one(store, state, a, levels)?;
    let second = read_one(store, state, b, levels)?;
    Some((first, second))
}

/// The first of some expressions, and those behind it.
#[derive(Clone, Copy)]
struct Front<'m> {
    first: &'m Expression,
    rest: &'m [Expression],
}

fn front_of<'m>(expressions: &'m [Expression]) -> Option<Front<'m>>
    ensures { MatchOption result (expressions.now ≡ []) (λ f. expressions.now ≡ f.first.now ∷ f.rest.now) }
{
    match expressions {
        [first, rest @ ..] => Some(Front { first, rest }),
        [] => None,
    }
}

/// All of a list.
pub fn read_all<'m>(
    alloc: Global,
    store: &Store,
    state: &State<'m>,
    list: &'m [Expression],
) -> Result<Option<ListRead>, NoMemory>
    requires { StateOf store.now state.now }
    ensures { IfOk result (ReadsAll store.now state.now (expressions_seen list.now)) }
{
    let mut values = Values::new(alloc);
    let mut nodes = 0;
    let mut left = list;
    'items: while let Some(front) = front_of(left) {
        match read(store, state, front.first, LEVELS) {
            Some(found) => {
                if nodes + found.nodes >= 1 << 32 {
                    return Ok(None);
                }
                values.add(found.value)?;
                nodes += found.nodes;
                left = front.rest;
            }
            None => return Ok(None),
        }
    }
    Ok(Some(ListRead { values, nodes }))
}
