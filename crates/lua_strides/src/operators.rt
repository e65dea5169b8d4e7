//! What operators and indices give in place: without a call, a change, or an error (manual 2.3 and 2.5).
ghost use Rattle.std.specs.Prelude.{◌≡◌, ℕ, List as Items, Some, IfSome};
ghost use Rattle.lua_code.specs.Seen.{arithmetic_seen, operator_seen};
ghost use Rattle.lua_code.specs.LuaHeapValue as kind;
ghost use Rattle.lua_code.specs.LuaMeaningOperators as plain;
ghost use Rattle.lua_state.specs.LuaStoreParts.{IsOf, IsTableOf};
ghost use Rattle.lua_state.specs.LuaStoreSeen.{StoreView, seen};
ghost use Rattle.lua_state.specs.LuaStackOf.{EnvironmentOf};
ghost use Rattle.lua_in_place.specs.InPlace as places;

use lua_code::{Arithmetic, Operator};
use lua_number::{NumberFault, neg};
use lua_state::{Environment, Store, TableId, Value, common_handler, handler, is_nil, is_true};
use lua_syntax::UnaryOp;

/// A number, if there is one.
fn number_of(number: Result<i64, NumberFault>) -> Option<Value>
    ensures of { (s : StoreView) → IfSome result (IsOf s) }
    ensures value { (texts : Items (Items ℕ)) → IfSome result (λ v. places.number_of number ≡ Some (seen texts v)) }
{
    match number {
        Ok(n) => Some(Value::Number(n)),
        Err(_) => None,
    }
}

/// What an operator of arithmetic gives for two numbers.
fn result_of(op: Arithmetic, a: i64, b: i64) -> Result<i64, NumberFault>
    ensures { result ≡ plain.result_of (arithmetic_seen op) a b }
{
    match op {
        Arithmetic::Plus => lua_number::add(a, b),
        Arithmetic::Minus => lua_number::sub(a, b),
        Arithmetic::Times => lua_number::mul(a, b),
        Arithmetic::Divide => lua_number::div(a, b),
        Arithmetic::Modulo => lua_number::rem(a, b),
        Arithmetic::Power => lua_number::pow(a, b),
    }
}

/// The number of a value that is one.
fn number_in(value: Value) -> Option<i64>
    ensures { (texts : Items (Items ℕ)) → IfSome result (λ n. seen texts value ≡ kind.Number n) }
{
    match value {
        Value::Number(n) => Some(n),
        _ => None,
    }
}

/// Arithmetic of numbers (manual 2.5.1).
fn calculated(op: Arithmetic, a: Value, b: Value) -> Option<Value>
    ensures of { (s : StoreView) → IfSome result (IsOf s) }
    ensures value { (texts : Items (Items ℕ)) → IfSome result (λ v. places.calculated (arithmetic_seen op) (seen texts a) (seen texts b) ≡ Some (seen texts v)) }
{
    match number_in(a) {
        Some(a) => match number_in(b) {
            Some(b) => number_of(result_of(op, a, b)),
            None => None,
        },
        None => None,
    }
}

/// Order of numbers (manual 2.5.2): whether the first is less.
fn is_less(a: Value, b: Value) -> Option<Value>
    ensures of { (s : StoreView) → IfSome result (IsOf s) }
    ensures value { (texts : Items (Items ℕ)) → IfSome result (λ v. places.is_less (seen texts a) (seen texts b) ≡ Some (seen texts v)) }
{
    match number_in(a) {
        Some(a) => match number_in(b) {
            Some(b) => Some(Value::Bool(a < b)),
            None => None,
        },
        None => None,
    }
}

/// Whether the first number is at most the second.
fn is_at_most(a: Value, b: Value) -> Option<Value>
    ensures of { (s : StoreView) → IfSome result (IsOf s) }
    ensures value { (texts : Items (Items ℕ)) → IfSome result (λ v. places.is_at_most (seen texts a) (seen texts b) ≡ Some (seen texts v)) }
{
    match number_in(a) {
        Some(a) => match number_in(b) {
            Some(b) => Some(Value::Bool(a <= b)),
            None => None,
        },
        None => None,
    }
}

/// Equality, where no handler is asked: told by one truth, or by its negation.
fn is_equal(store: &Store, env: &Environment, told: bool, a: Value, b: Value) -> Option<Value>
    requires first { IsOf store.now a }
    requires second { IsOf store.now b }
    requires env { EnvironmentOf store.now env.now }
    ensures of { IfSome result (IsOf store.now) }
    ensures value { IfSome result (λ v. places.is_equal store.now.heap told (seen store.now.texts a) (seen store.now.texts b) ≡ Some (seen store.now.texts v)) }
{
    if store.is_same(a, b) {
        return Some(Value::Bool(told));
    }
    let handler = common_handler(store, a, b, env.equal);
    if is_nil(handler) {
        return Some(Value::Bool(!told));
    }
    None
}

/// What an operator gives for two operands.
pub fn operated(store: &Store, env: &Environment, op: Operator, a: Value, b: Value) -> Option<Value>
    requires first { IsOf store.now a }
    requires second { IsOf store.now b }
    requires env { EnvironmentOf store.now env.now }
    ensures of { IfSome result (IsOf store.now) }
    ensures value { IfSome result (λ v. places.operated store.now.heap (operator_seen op) (seen store.now.texts a) (seen store.now.texts b) ≡ Some (seen store.now.texts v)) }
{
    match op {
        Operator::Less => is_less(a, b),
        Operator::Greater => is_less(b, a),
        Operator::AtMost => is_at_most(a, b),
        Operator::AtLeast => is_at_most(b, a),
        Operator::Equal => is_equal(store, env, true, a, b),
        Operator::Unequal => is_equal(store, env, false, a, b),
        Operator::Concatenate => None,
        Operator::Calculate(which) => calculated(which, a, b),
    }
}

/// The negative of a number.
fn negated(value: Value) -> Option<Value>
    ensures of { (s : StoreView) → IfSome result (IsOf s) }
    ensures value { (texts : Items (Items ℕ)) → IfSome result (λ v. places.negated (seen texts value) ≡ Some (seen texts v)) }
{
    match number_in(value) {
        Some(n) => number_of(neg(n)),
        None => None,
    }
}

/// What an operator gives for its one operand. A length is left to the moves.
pub fn applied(op: UnaryOp, value: Value) -> Option<Value>
    ensures of { (s : StoreView) → IfSome result (IsOf s) }
    ensures value { (s : StoreView) → IfSome result (λ v. places.applied s.heap op (seen s.texts value) ≡ Some (seen s.texts v)) }
{
    match op {
        UnaryOp::Not => Some(Value::Bool(!is_true(value))),
        UnaryOp::Len => None,
        UnaryOp::Minus => negated(value),
    }
}

/// The entry of a table, or nil where nobody is asked instead.
pub fn entry(store: &Store, env: &Environment, table: TableId, key: Value) -> Option<Value>
    requires table { IsTableOf store.now table }
    requires key { IsOf store.now key }
    requires env { EnvironmentOf store.now env.now }
    ensures of { IfSome result (IsOf store.now) }
    ensures value { IfSome result (λ v. places.entry store.now.heap table.at (seen store.now.texts key) ≡ Some (seen store.now.texts v)) }
{
    let value = store.get(table, key);
    if !is_nil(value) {
        return Some(value);
    }
    let handler = handler(store, Value::Table(table), env.index);
    if is_nil(handler) {
        return Some(Value::Nil);
    }
    None
}

/// The entry of a value that is a table.
pub fn indexed(store: &Store, env: &Environment, of: Value, key: Value) -> Option<Value>
    requires of { IsOf store.now of }
    requires key { IsOf store.now key }
    requires env { EnvironmentOf store.now env.now }
    ensures of { IfSome result (IsOf store.now) }
    ensures value { IfSome result (λ v. places.indexed store.now.heap (seen store.now.texts of) (seen store.now.texts key) ≡ Some (seen store.now.texts v)) }
{
    match of {
        Value::Table(table) => entry(store, env, table, key),
        _ => None,
    }
}
