//! Operands of `and` and `or`, values in parentheses, and operators with one operand (manual 2.5).
ghost use Rattle.std.specs.Prelude.{◌≡◌, ◌∷◌, [], ℕ, List as Items, Some, IfSome};
ghost use Rattle.lua_loops.specs.PageRunOutcome.{Goes};
ghost use Rattle.lua_loops.specs.WkBaseDeclaredLeftLeft.{Left as Allowance};
ghost use Rattle.lua_code.specs.LuaHeapValue.{is_true as is_true_value};
ghost use Rattle.lua_strides.specs.LuaInPlaceInPlace as places;
ghost use Rattle.lua_code.specs.LuaSlotsExpressions as machine;
ghost use Rattle.lua_operators.specs.LuaSlotsPoints.{Gives};
ghost use Rattle.lua_operators.specs.LuaStackDeclaredFrameFrameTheVariants as frame_kind;
ghost use Rattle.lua_operators.specs.LuaStackDeclaredFrameInExpressionTheVariants as in_expression;
ghost use Rattle.lua_loops.specs.LuaStateOf.{StateOf};
ghost use Rattle.lua_loops.specs.LuaStateSeen.{frames_of};
ghost use Rattle.lua_operators.specs.LuaStoreParts.{IsOf};
ghost use Rattle.lua_operators.specs.LuaStoreSeen.{StoreView, seen};
ghost use Rattle.lua_strides.specs.Next.{focus_of};
ghost use Rattle.lua_turns.specs.Rows.{Follows, IsNewest, MayFollow};

use crate::waiting::{drop_newest, swap_newest};
use lua_code::Expression;
use lua_loops::State;
use lua_operators::{Frame, InExpression, Store, Value, is_true};
use lua_strides::Next;
use lua_strides::operators::applied;
use lua_syntax::UnaryOp;

/// Whether the first operand decides, by being true or by being false.
pub fn decides(deciding: bool, value: Value) -> bool
    ensures { (texts : Items (Items ℕ)) → result ≡ machine.decides deciding (is_true_value (seen texts value)) }
{
    let truth = is_true(value);
    if deciding { truth } else { !truth }
}

/// The first operand of `and` or `or` has its value: it is that of the expression, or the second operand is evaluated.
pub fn decide<'m>(
    state: &mut State<'m>,
    deciding: bool,
    other: &'m Expression,
    value: Value,
) -> Next<'m>
    requires { IsNewest state.old.frames (frame_kind.Expression (in_expression.DecideNext deciding other)) }
    ensures { (s : StoreView) (l : Allowance) (k : ℕ) → StateOf s state.old → IsOf s value → Follows s state.old (Gives (Goes (seen s.texts value ∷ [])) (frames_of s state.old)) l k s state.new l k (focus_of result) }
{
    if decides(deciding, value) {
        drop_newest(&mut state.frames);
        return Next::Gives(value);
    }
    swap_newest(&mut state.frames, Frame::Expression(InExpression::First));
    Next::Evaluates(other)
}

/// An expression of which one value counts has it.
pub fn give_first<'m>(state: &mut State<'m>, value: Value) -> Next<'m>
    requires { IsNewest state.old.frames (frame_kind.Expression in_expression.First) }
    ensures { (s : StoreView) (l : Allowance) (k : ℕ) → StateOf s state.old → IsOf s value → Follows s state.old (Gives (Goes (seen s.texts value ∷ [])) (frames_of s state.old)) l k s state.new l k (focus_of result) }
{
    drop_newest(&mut state.frames);
    Next::Gives(value)
}

/// How long a text or a table is (manual 2.5.5).
fn length_of(store: &Store, value: Value) -> Option<Value>
    requires { IsOf store.now value }
    ensures of { (s : StoreView) → IfSome result (IsOf s) }
    ensures value { IfSome result (λ v. places.length_told store.now.heap (seen store.now.texts value) ≡ Some (seen store.now.texts v)) }
{
    match value {
        Value::Text(text) => {
            let length = store.bytes(text).len() as i64;
            Some(Value::Number(length))
        }
        Value::Table(table) => {
            let length = store.border(table);
            Some(Value::Number(length))
        }
        _ => None,
    }
}

/// What an operator gives for its one operand.
pub fn result_of(store: &Store, op: UnaryOp, value: Value) -> Option<Value>
    requires { IsOf store.now value }
    ensures of { (s : StoreView) → IfSome result (IsOf s) }
    ensures value { IfSome result (λ v. places.applied store.now.heap op (seen store.now.texts value) ≡ Some (seen store.now.texts v)) }
{
    match op {
        UnaryOp::Not => applied(op, value),
        UnaryOp::Len => length_of(store, value),
        UnaryOp::Minus => applied(op, value),
    }
}

/// An operator has its one operand.
pub fn apply<'m>(
    store: &Store,
    state: &mut State<'m>,
    op: UnaryOp,
    line: u32,
    value: Value,
) -> Option<Next<'m>>
    requires state { StateOf store.now state.old }
    requires newest { IsNewest state.old.frames (frame_kind.Expression (in_expression.UnaryNow op line)) }
    requires value { IsOf store.now value }
    ensures { (l : Allowance) (k : ℕ) → MayFollow store.now state.old (Gives (Goes (seen store.now.texts value ∷ [])) (frames_of store.now state.old)) l k store.now state.new l k result }
{
    match result_of(store, op, value) {
        Some(value) => {
            drop_newest(&mut state.frames);
            Some(Next::Gives(value))
        }
        None => None,
    }
}
