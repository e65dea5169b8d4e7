//! Two texts become one (manual 2.5.4): a text that is made costs its bytes, which are paid before it is made.
ghost use Rattle.std.specs.Prelude.{◌≡◌, ◌++◌, ◌∷◌, [], ℕ, Some, IfOk};
ghost use Rattle.lua_loops.specs.PageRunOutcome.{Goes};
ghost use Rattle.lua_code.specs.declared.operator.Operator.TheVariants as operator_kind;
ghost use Rattle.lua_operators.specs.LuaMeaningValues as meaning;
ghost use Rattle.lua_operators.specs.LuaSlotsPoints.{Gives};
ghost use Rattle.lua_operators.specs.LuaStackDeclaredFrameFrameTheVariants as frame_kind;
ghost use Rattle.lua_operators.specs.LuaStackDeclaredFrameInExpressionTheVariants as in_expression;
ghost use Rattle.lua_loops.specs.LuaStateOf.{StateOf};
ghost use Rattle.lua_loops.specs.LuaStateSeen.{frames_of};
ghost use Rattle.lua_operators.specs.LuaStoreParts.{IsOf};
ghost use Rattle.lua_operators.specs.LuaStoreSeen.{seen};
ghost use Rattle.lua_turns.specs.Rows.{IsNewest, MayFollow};

use crate::waiting::drop_newest;
use lua_code::NoMemory;
use lua_loops::State;
use lua_operators::{Left, Store, Value, text_in};
use lua_strides::Next;
use std::alloc::Global;

/// The first text with the second behind it.
fn joined(alloc: Global, first: &[u8], second: &[u8]) -> Result<Vec<u8>, NoMemory>
    ensures { IfOk result (λ text. text.items ≡ first.now ++ second.now) }
{
    let Ok(mut text) = Vec::with_capacity(alloc, first.len() + second.len()) else {
        return Err(NoMemory);
    };
    match text.extend_from_slice(first) {
        Ok(_) => {}
        Err(_) => return Err(NoMemory),
    }
    match text.extend_from_slice(second) {
        Ok(_) => Ok(text),
        Err(_) => Err(NoMemory),
    }
}

/// Two texts become one, where the steps of its bytes are left.
fn join_texts<'m>(
    alloc: Global,
    store: &mut Store,
    left: &mut Left,
    state: &mut State<'m>,
    a: &[u8],
    b: &[u8],
    first: Value,
    second: Value,
    line: u32,
) -> Result<Option<Next<'m>>, NoMemory>
    requires state { StateOf store.old state.old }
    requires newest { IsNewest state.old.frames (frame_kind.Expression (in_expression.OperateNow operator_kind.Concatenate first line)) }
    requires first { meaning.text_in (seen store.old.texts first) ≡ Some a.now }
    requires second { meaning.text_in (seen store.old.texts second) ≡ Some b.now }
    ensures { (k : ℕ) → IfOk result (MayFollow store.old state.old (Gives (Goes (seen store.old.texts second ∷ [])) (frames_of store.old state.old)) left.old k store.new state.new left.new k) }
{
    let cost = a.len() as u64 + b.len() as u64;
    if left.steps < cost {
        return Ok(None);
    }
    left.steps -= cost;
    let bytes = joined(alloc, a, b)?;
    let text = store.text(bytes.as_slice())?;
    drop_newest(&mut state.frames);
    Ok(Some(Next::Gives(Value::Text(text))))
}

/// An operator that joins has its second operand: both are texts or numbers, which give their digits.
pub fn join<'m>(
    alloc: Global,
    store: &mut Store,
    left: &mut Left,
    state: &mut State<'m>,
    first: Value,
    line: u32,
    second: Value,
) -> Result<Option<Next<'m>>, NoMemory>
    requires state { StateOf store.old state.old }
    requires newest { IsNewest state.old.frames (frame_kind.Expression (in_expression.OperateNow operator_kind.Concatenate first line)) }
    requires first { IsOf store.old first }
    requires second { IsOf store.old second }
    ensures { (k : ℕ) → IfOk result (MayFollow store.old state.old (Gives (Goes (seen store.old.texts second ∷ [])) (frames_of store.old state.old)) left.old k store.new state.new left.new k) }
{
    match text_in(alloc, store, first)? {
        None => Ok(None),
        Some(a) => match text_in(alloc, store, second)? {
            None => Ok(None),
            Some(b) => join_texts(
                alloc,
                store,
                left,
                state,
                a.as_slice(),
                b.as_slice(),
                first,
                second,
                line,
            ),
        },
    }
}
