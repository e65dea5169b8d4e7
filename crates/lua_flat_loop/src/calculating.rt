//! Operators of two numbers (manual 2.5.1 and 2.5.2), and the truth of a value.
ghost use Rattle.std.specs.Prelude.{◌≡◌, ℕ, ℤ, Option, [], ◌∷◌, IfSome, MatchOption, ◌+ℤ◌, false, true};
ghost use Rattle.lua_flat.specs.LuaHeapValue as kind;
ghost use Rattle.lua_number.specs.Whole.{fits};
ghost use Rattle.lua_store.specs.Seen.{StoreView, seen};
ghost use Rattle.lua_store.specs.Parts.{IsOf};
ghost use Rattle.lua_code.specs.Seen.{arithmetic_seen, operator_seen};
ghost use Rattle.lua_code.specs.LuaMeaningLoops as loops;
ghost use Rattle.lua_flat.specs.LuaMeaningOperators as plain;
ghost use Rattle.lua_stack.specs.LuaSlotsSlots.{Slots};
ghost use Rattle.lua_stack.specs.LuaSlotsErrors.{gives};
ghost use Rattle.lua_code.specs.LuaSlotsOperators.{number_or_fail, operate};
ghost use Rattle.lua_stack.specs.LuaSlotsPoints.{Move};
ghost use Rattle.lua_stack.specs.Seen.{Texts};
ghost use Rattle.lua_flat.specs.Does.{is_so, place_if, fits_within};

use lua_code::{Arithmetic, Operator};
use lua_number::{NumberFault, add, div, mul, pow, rem, sub};
use lua_store::Value;

/// Whether a value is true (manual 2.5.3).
#[inline(always)]
pub(crate) fn is_true(value: Value) -> bool
    ensures { (texts : Texts) → result ≡ kind.is_true (seen texts value) }
{
    match value {
        Value::Nil => false,
        Value::Bool(truth) => truth,
        _ => true,
    }
}

/// Where a test goes on: at its target, where the truth is the one that it asks for.
#[inline(always)]
pub(crate) fn place_behind(when: bool, truth: bool, target: u32, next: usize) -> usize
    ensures { result ≡ place_if (is_so when truth) target next }
{
    if when == truth { target as usize } else { next }
}

/// A number that was made, if one was.
#[inline(always)]
fn number_of(made: Result<i64, NumberFault>) -> Option<Value>
    ensures of { (s : StoreView) → IfSome result (IsOf s) }
    ensures gives { (texts : Texts) (line : Option ℕ) (s : Slots) → IfSome result (λ v. number_or_fail line made [] s ≡ gives (seen texts v ∷ []) [] s) }
{
    match made {
        Ok(n) => Some(Value::Number(n)),
        Err(_) => None,
    }
}

/// What an operator of arithmetic makes of two numbers.
#[inline(always)]
fn result_of(which: Arithmetic, a: i64, b: i64) -> Result<i64, NumberFault>
    ensures { result ≡ plain.result_of (arithmetic_seen which) a b }
{
    match which {
        Arithmetic::Plus => add(a, b),
        Arithmetic::Minus => sub(a, b),
        Arithmetic::Times => mul(a, b),
        Arithmetic::Divide => div(a, b),
        Arithmetic::Modulo => rem(a, b),
        Arithmetic::Power => pow(a, b),
    }
}

/// The truth of a comparison of two numbers, if the operator is one.
#[inline(always)]
fn comparison(op: Operator, a: i64, b: i64) -> Option<bool>
    ensures { (line : Option ℕ) (s : Slots) → IfSome result (λ truth. operate (operator_seen op) (kind.Number a) (kind.Number b) line [] s ≡ gives (kind.Truth truth ∷ []) [] s) }
{
    match op {
        Operator::Less => Some(a < b),
        Operator::Greater => Some(b < a),
        Operator::AtMost => Some(a <= b),
        Operator::AtLeast => Some(b <= a),
        Operator::Equal => Some(a == b),
        Operator::Unequal => Some(a != b),
        _ => None,
    }
}

/// A truth, if there is one.
#[inline(always)]
fn truth_of(truth: Option<bool>) -> Option<Value>
    ensures of { (s : StoreView) → IfSome result (IsOf s) }
    ensures gives { (texts : Texts) (mv : Move) (s : Slots) → IfSome truth (λ b. mv ≡ gives (kind.Truth b ∷ []) [] s) → IfSome result (λ v. mv ≡ gives (seen texts v ∷ []) [] s) }
{
    match truth {
        Some(truth) => Some(Value::Bool(truth)),
        None => None,
    }
}

/// What an operator gives for two numbers. Joins, and what has no result, are left to others.
#[inline(always)]
fn of_numbers(op: Operator, a: i64, b: i64) -> Option<Value>
    ensures of { (s : StoreView) → IfSome result (IsOf s) }
    ensures gives { (texts : Texts) (line : Option ℕ) (s : Slots) → IfSome result (λ v. operate (operator_seen op) (kind.Number a) (kind.Number b) line [] s ≡ gives (seen texts v ∷ []) [] s) }
{
    match op {
        Operator::Calculate(which) => number_of(result_of(which, a, b)),
        _ => truth_of(comparison(op, a, b)),
    }
}

/// The number of a value that is one.
#[inline(always)]
pub(crate) fn number_in(value: Value) -> Option<i64>
    ensures { (texts : Texts) → IfSome result (λ n. seen texts value ≡ kind.Number n) }
{
    match value {
        Value::Number(n) => Some(n),
        _ => None,
    }
}

/// What an operator gives for two values that are numbers.
#[inline(always)]
pub(crate) fn operated(op: Operator, a: Value, b: Value) -> Option<Value>
    ensures of { (s : StoreView) → IfSome result (IsOf s) }
    ensures gives { (texts : Texts) (line : Option ℕ) (s : Slots) → IfSome result (λ v. operate (operator_seen op) (seen texts a) (seen texts b) line [] s ≡ gives (seen texts v ∷ []) [] s) }
{
    match number_in(a) {
        Some(a) => match number_in(b) {
            Some(b) => of_numbers(op, a, b),
            None => None,
        },
        None => None,
    }
}

/// The truth of a comparison of two values that are numbers.
#[inline(always)]
pub(crate) fn compared(op: Operator, a: Value, b: Value) -> Option<bool>
    ensures { (texts : Texts) (line : Option ℕ) (s : Slots) → IfSome result (λ truth. operate (operator_seen op) (seen texts a) (seen texts b) line [] s ≡ gives (kind.Truth truth ∷ []) [] s) }
{
    match number_in(a) {
        Some(a) => match number_in(b) {
            Some(b) => comparison(op, a, b),
            None => None,
        },
        None => None,
    }
}

/// Whether a counting loop with this limit and this step goes on with this index (manual 2.4.5).
#[inline(always)]
pub(crate) fn is_within(index: i64, limit: i64, step: i64) -> bool
    ensures { result ≡ loops.is_within index limit step }
{
    if 0 < step {
        index <= limit
    } else {
        limit <= index
    }
}

/// The next index of a counting loop, if it goes on.
#[inline(always)]
pub(crate) fn next_index(index: i64, limit: i64, step: i64) -> Option<i64>
    ensures { MatchOption result
        (fits_within (fits (index +ℤ step)) (loops.is_within (index +ℤ step) limit step) ≡ false)
        (λ next. (next ≡ index +ℤ step) × (fits_within (fits (index +ℤ step)) (loops.is_within (index +ℤ step) limit step) ≡ true)) }
{
    match add(index, step) {
        Ok(next) => {
            if is_within(next, limit, step) {
                Some(next)
            } else {
                None
            }
        }
        Err(_) => None,
    }
}
