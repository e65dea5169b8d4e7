//! A `return` of one value reaches what waits (manual 2.4.4).
ghost use Rattle.std.specs.Prelude.{◌≡◌, ◌∷◌, [], ℕ, IfOk};
ghost use Rattle.lua_loops.specs.PageRunOutcome.{Jumps};
ghost use Rattle.lua_loops.specs.WkBaseDeclaredLeftLeft.{Left as Allowance};
ghost use Rattle.lua_code.specs.LuaMeaningActs.{Returned};
ghost use Rattle.lua_operators.specs.LuaSlotsPoints.{Gives};
ghost use Rattle.lua_operators.specs.LuaStackDeclaredFrameEndingTheVariants as ending_kind;
ghost use Rattle.lua_operators.specs.LuaStackDeclaredFrameFrameTheVariants as frame_kind;
ghost use Rattle.lua_operators.specs.LuaStackDeclaredFrameInStatementTheVariants as in_statement;
ghost use Rattle.lua_loops.specs.LuaStateOf.{StateOf};
ghost use Rattle.lua_loops.specs.LuaStateSeen.{frames_of};
ghost use Rattle.lua_operators.specs.LuaStoreParts.{IsOf};
ghost use Rattle.lua_operators.specs.LuaStoreSeen.{StoreView, seen};
ghost use Rattle.lua_turns.specs.Rows.{IsNewest, MayFollow};

use crate::leaving::leave_function;
use crate::waiting::{Count, Waiting, drop_newest, of_newest};
use lua_code::{Expression, List, NoMemory, Statement};
use lua_loops::leaving::keep_oldest;
use lua_loops::{State, leave_call};
use lua_operators::{Left, Store, Value};
use lua_strides::Next;

/// The statements behind are passed by.
fn pass_statements<'m>(
    state: &mut State<'m>,
    rest: &'m [Statement],
    value: Value,
) -> Result<Option<Next<'m>>, NoMemory>
    requires { IsNewest state.old.frames (frame_kind.Statement (in_statement.StatsNext rest)) }
    ensures { (s : StoreView) (l : Allowance) (k : ℕ) → StateOf s state.old → IsOf s value → IfOk result (MayFollow s state.old (Gives (Jumps (Returned (seen s.texts value ∷ []))) (frames_of s state.old)) l k s state.new l k) }
{
    drop_newest(&mut state.frames);
    Ok(Some(Next::Returns(value)))
}

/// A block is left.
fn pass_block<'m>(
    state: &mut State<'m>,
    depth: usize,
    value: Value,
) -> Result<Option<Next<'m>>, NoMemory>
    requires { IsNewest state.old.frames (frame_kind.End (ending_kind.BlockEnd depth)) }
    ensures { (s : StoreView) (l : Allowance) (k : ℕ) → StateOf s state.old → IsOf s value → IfOk result (MayFollow s state.old (Gives (Jumps (Returned (seen s.texts value ∷ []))) (frames_of s state.old)) l k s state.new l k) }
{
    keep_oldest(&mut state.regs, depth);
    drop_newest(&mut state.frames);
    Ok(Some(Next::Returns(value)))
}

/// A counting loop is left.
fn pass_count<'m>(
    state: &mut State<'m>,
    count: Count<'m>,
    value: Value,
) -> Result<Option<Next<'m>>, NoMemory>
    requires { IsNewest state.old.frames (frame_kind.End (ending_kind.CountEnd count.depth count.boxed count.index count.limit count.step count.body)) }
    ensures { (s : StoreView) (l : Allowance) (k : ℕ) → StateOf s state.old → IsOf s value → IfOk result (MayFollow s state.old (Gives (Jumps (Returned (seen s.texts value ∷ []))) (frames_of s state.old)) l k s state.new l k) }
{
    keep_oldest(&mut state.regs, count.depth);
    drop_newest(&mut state.frames);
    Ok(Some(Next::Returns(value)))
}

/// A `while` is left.
fn pass_while<'m>(
    state: &mut State<'m>,
    depth: usize,
    test: &'m Expression,
    body: &'m List<Statement>,
    value: Value,
) -> Result<Option<Next<'m>>, NoMemory>
    requires { IsNewest state.old.frames (frame_kind.End (ending_kind.WhileEnd depth test body)) }
    ensures { (s : StoreView) (l : Allowance) (k : ℕ) → StateOf s state.old → IsOf s value → IfOk result (MayFollow s state.old (Gives (Jumps (Returned (seen s.texts value ∷ []))) (frames_of s state.old)) l k s state.new l k) }
{
    keep_oldest(&mut state.regs, depth);
    drop_newest(&mut state.frames);
    Ok(Some(Next::Returns(value)))
}

/// A function is left: it gives the value.
fn pass_body<'m>(
    left: &mut Left,
    state: &mut State<'m>,
    value: Value,
) -> Result<Option<Next<'m>>, NoMemory>
    requires { IsNewest state.old.frames (frame_kind.End ending_kind.BodyEnd) }
    ensures { (s : StoreView) (k : ℕ) → StateOf s state.old → IsOf s value → IfOk result (MayFollow s state.old (Gives (Jumps (Returned (seen s.texts value ∷ []))) (frames_of s state.old)) left.old k s state.new left.new k) }
{
    drop_newest(&mut state.frames);
    leave_function(&mut state.regs, &mut state.functions);
    leave_call(state, left)?;
    Ok(Some(Next::Gives(value)))
}

/// A `return` of this value reaches the newest frame.
pub fn pass<'m>(
    store: &Store,
    left: &mut Left,
    state: &mut State<'m>,
    value: Value,
) -> Result<Option<Next<'m>>, NoMemory>
    requires state { StateOf store.now state.old }
    requires value { IsOf store.now value }
    ensures { (k : ℕ) → IfOk result (MayFollow store.now state.old (Gives (Jumps (Returned (seen store.now.texts value ∷ []))) (frames_of store.now state.old)) left.old k store.now state.new left.new k) }
{
    match of_newest(&state.frames) {
        Waiting::Statements(rest) => pass_statements(state, rest, value),
        Waiting::Block(depth) => pass_block(state, depth, value),
        Waiting::Repeats(depth, test, body) => pass_while(state, depth, test, body, value),
        Waiting::Counts(count) => pass_count(state, count, value),
        Waiting::Body => pass_body(left, state, value),
        _ => Ok(None),
    }
}
