//! What the frames of a run do with values, and with what passes them by (Scribunto, "Invoking modules" and mw.loadData).
ghost use Rattle.std.specs.Prelude.{◌≡◌, ◌++◌, ◌∷◌, [], None, codes, IfOk};
ghost use Rattle.page_run.specs.Outcome.{Goes};
ghost use Rattle.page_run.specs.WkBaseDeclaredLeftLeft.{Left as Allowance};
ghost use Rattle.lua_code.specs.LuaHeapValue as kind;
ghost use Rattle.lua_code.specs.LuaMeaningStart.{Failed};
ghost use Rattle.lua_code.specs.LuaMeaningValues as plain;
ghost use Rattle.lua_modules.specs.LuaSlotsCalls as calls;
ghost use Rattle.lua_code.specs.LuaSlotsCode.{CWorld};
ghost use Rattle.lua_code.specs.LuaSlotsIndex as indices;
ghost use Rattle.lua_code.specs.LuaSlotsMoves.{goes, passes};
ghost use Rattle.lua_modules.specs.LuaSlotsPoints as point;
ghost use Rattle.lua_code.specs.LuaSlotsStarts as starts;
ghost use Rattle.lua_store.specs.Parts.{IsOf, IsTextOf, IsTableOf};
ghost use Rattle.lua_store.specs.Seen.{seen, text_at};
ghost use Rattle.lua_modules.specs.LuaStackLists.{first_stored, given_values};
ghost use Rattle.lua_modules.specs.LuaStackOf.{InRunOf, GivenOf, JumpOf, ValuesOf, TextsOf};
ghost use Rattle.lua_modules.specs.LuaStackSeen.{in_run_seen, given_seen, jump_seen, values_seen, joined_seen};
ghost use Rattle.lua_modules.specs.LuaStateMakes.{Makes};
ghost use Rattle.lua_modules.specs.LuaStateOf.{StateOf};
ghost use Rattle.lua_modules.specs.LuaStateSeen.{frames_of, slots_of};

use crate::answers::{follow, follow_made, one};
use crate::ends::{data_given, data_uncaught, failed, no_string, uncaught};
use crate::messages::no_function;
use lua_code::NoMemory;
use lua_modules::{
    Focus, Frame, Given, InRun, Jump, State, Turn, Values, call, finish, index_table, is_function,
};
use lua_store::{Store, TableId, TextId, Value};
use mw_frame::{Bytes, List};
use mw_html_texts::Left;
use std::alloc::Global;

/// The value of a module at the text of its function's name is to be found.
fn find_at<'m>(
    alloc: Global,
    store: &mut Store,
    left: &mut Left,
    state: &mut State<'m>,
    found: TableId,
    key: TextId,
    name: Bytes,
    frame: Value,
) -> Result<Turn<'m>, NoMemory>
    requires state { StateOf store.old state.old }
    requires found { IsTableOf store.old found }
    requires key { IsTextOf store.old key }
    requires frame { IsOf store.old frame }
    ensures { IfOk result (λ r. Makes store.old state.old left.old store.new state.new left.new
        (indices.index_table found.at (kind.Text (text_at store.old.texts key.at)) None (point.FunctionFound name (seen store.old.texts frame) ∷ frames_of store.old state.old) (slots_of store.old state.old)) r) }
{
    let waiting = InRun::FunctionFound(name, frame);
    state.frames.push(Frame::Run(waiting))?;
    let step = index_table(store, &state.env, found, Value::Text(key), None);
    let turn = finish(alloc, store, left, state, step)?;
    Ok(turn)
}

/// The function of this name is to be found in a module's table.
fn find_function<'m>(
    alloc: Global,
    store: &mut Store,
    left: &mut Left,
    state: &mut State<'m>,
    found: TableId,
    name: Bytes,
    frame: Value,
) -> Result<Turn<'m>, NoMemory>
    requires state { StateOf store.old state.old }
    requires found { IsTableOf store.old found }
    requires frame { IsOf store.old frame }
    ensures { IfOk result (λ r. Makes store.old state.old left.old store.new state.new left.new
        (indices.index_table found.at (kind.Text name) None (point.FunctionFound name (seen store.old.texts frame) ∷ frames_of store.old state.old) (slots_of store.old state.old)) r) }
{
    let text = name.as_slice();
    let key = store.text(text)?;
    let turn = find_at(alloc, store, left, state, found, key, name, frame)?;
    Ok(turn)
}

/// A module whose value is no table.
fn no_module_table<'m>(
    alloc: Global,
    store: &mut Store,
    state: &State<'m>,
) -> Result<Turn<'m>, NoMemory>
    requires { StateOf store.old state.now }
    ensures { (l : Allowance) → IfOk result (λ r. Makes store.old state.now l store.new state.now l
        (starts.invoke_ends (Goes (Failed (codes "Script error: The module returned no table."))) (frames_of store.old state.now) (slots_of store.old state.now)) r) }
{
    let message = b"Script error: The module returned no table.";
    let turn = failed(alloc, store, state, message)?;
    Ok(turn)
}

/// The module's value is there: it must be a table.
fn module_found<'m>(
    alloc: Global,
    store: &mut Store,
    left: &mut Left,
    state: &mut State<'m>,
    name: Bytes,
    found: Value,
    frame: Value,
) -> Result<Turn<'m>, NoMemory>
    requires state { StateOf store.old state.old }
    requires found { IsOf store.old found }
    requires frame { IsOf store.old frame }
    ensures { IfOk result (λ r. Makes store.old state.old left.old store.new state.new left.new
        (starts.invoke_in name (seen store.old.texts found) (seen store.old.texts frame) (frames_of store.old state.old) (slots_of store.old state.old)) r) }
{
    match found {
        Value::Table(table) => find_function(alloc, store, left, state, table, name, frame),
        Value::Nil => no_module_table(alloc, store, state),
        Value::Bool(_) => no_module_table(alloc, store, state),
        Value::Number(_) => no_module_table(alloc, store, state),
        Value::Text(_) => no_module_table(alloc, store, state),
        Value::Closure(_) => no_module_table(alloc, store, state),
        Value::Builtin(_) => no_module_table(alloc, store, state),
        Value::Markup(_) => no_module_table(alloc, store, state),
    }
}

/// The module's function is called with the frame.
fn call_function<'m>(
    alloc: Global,
    store: &mut Store,
    left: &mut Left,
    state: &mut State<'m>,
    function: Value,
    frame: Value,
) -> Result<Turn<'m>, NoMemory>
    requires state { StateOf store.old state.old }
    requires function { IsOf store.old function }
    requires frame { IsOf store.old frame }
    ensures { IfOk result (λ r. Makes store.old state.old left.old store.new state.new left.new
        (calls.call (seen store.old.texts function) (seen store.old.texts frame ∷ []) None (point.AnswerNow ∷ frames_of store.old state.old) (slots_of store.old state.old)) r) }
{
    state.frames.push(Frame::Run(InRun::AnswerNow))?;
    let arguments = one(alloc, frame)?;
    let step = call(store, &state.env, function, arguments, None)?;
    let turn = finish(alloc, store, left, state, step)?;
    Ok(turn)
}

/// A module that has no function of this name.
fn no_such_function<'m>(
    alloc: Global,
    store: &mut Store,
    state: &State<'m>,
    name: &[u8],
) -> Result<Turn<'m>, NoMemory>
    requires { StateOf store.old state.now }
    ensures { (l : Allowance) → IfOk result (λ r. Makes store.old state.now l store.new state.now l
        (starts.invoke_ends (Goes (Failed (codes "Script error: The function \"" ++ name.now ++ codes "\" does not exist."))) (frames_of store.old state.now) (slots_of store.old state.now)) r) }
{
    let text = no_function(alloc, name)?;
    let message = text.as_slice();
    let turn = failed(alloc, store, state, message)?;
    Ok(turn)
}

/// The value at the function's name is there: it must be a function.
fn function_found<'m>(
    alloc: Global,
    store: &mut Store,
    left: &mut Left,
    state: &mut State<'m>,
    name: Bytes,
    function: Value,
    frame: Value,
) -> Result<Turn<'m>, NoMemory>
    requires state { StateOf store.old state.old }
    requires function { IsOf store.old function }
    requires frame { IsOf store.old frame }
    ensures { IfOk result (λ r. Makes store.old state.old left.old store.new state.new left.new
        (starts.invoke_function name (seen store.old.texts function) (seen store.old.texts frame) (frames_of store.old state.old) (slots_of store.old state.old)) r) }
{
    if is_function(function) {
        let turn = call_function(alloc, store, left, state, function, frame)?;
        return Ok(turn);
    }
    let turn = no_such_function(alloc, store, state, name.as_slice())?;
    Ok(turn)
}

/// What a handler for `tostring` gave for a value of the answer must be a text or a number.
fn text_given<'m>(
    alloc: Global,
    store: &mut Store,
    state: &State<'m>,
    value: Value,
    values: Values,
    before: List<TextId>,
) -> Result<Turn<'m>, NoMemory>
    requires state { StateOf store.old state.now }
    requires value { IsOf store.old value }
    requires values { ValuesOf store.old values }
    requires before { TextsOf store.old before }
    ensures { (l : Allowance) → IfOk result (λ r. Makes store.old state.now l store.new state.now l
        (starts.text_given (plain.text_in (seen store.old.texts value)) (values_seen store.old.texts values) (joined_seen store.old.texts before) (frames_of store.old state.now) (slots_of store.old state.now)) r) }
{
    match value {
        Value::Text(id) => follow(store, state, values, before, id),
        Value::Number(n) => {
            let digits = lua_number::text(alloc, n)?;
            let text = digits.as_slice();
            follow_made(store, state, text, values, before)
        }
        Value::Nil => no_string(store, state),
        Value::Bool(_) => no_string(store, state),
        Value::Table(_) => no_string(store, state),
        Value::Closure(_) => no_string(store, state),
        Value::Builtin(_) => no_string(store, state),
        Value::Markup(_) => no_string(store, state),
    }
}

/// The values of an answer, whose texts are next.
fn answer_now<'m>(
    alloc: Global,
    store: &Store,
    state: &State<'m>,
    values: Given,
) -> Result<Turn<'m>, NoMemory>
    requires state { StateOf store.now state.now }
    requires values { GivenOf store.now values }
    ensures { (l : Allowance) → IfOk result (λ r. Makes store.now state.now l store.now state.now l
        (point.Now (point.Texts (given_seen store.now.texts values) [] (frames_of store.now state.now)) (slots_of store.now state.now)) r) }
{
    let list = values.into_values(alloc)?;
    Ok(Turn::On(Focus::Texts(list, List::new(alloc))))
}

/// What a frame of a run does with values, of which this is the first.
fn give_first<'m>(
    alloc: Global,
    store: &mut Store,
    left: &mut Left,
    state: &mut State<'m>,
    frame: InRun,
    first: Value,
    values: Given,
) -> Result<Turn<'m>, NoMemory>
    requires state { StateOf store.old state.old }
    requires frame { InRunOf store.old frame }
    requires first { IsOf store.old first }
    requires values { GivenOf store.old values }
    requires same { first ≡ first_stored (given_values values) }
    ensures { (world : CWorld) → IfOk result (λ r. Makes store.old state.old left.old store.new state.new left.new
        (goes world (in_run_seen store.old.texts frame) (given_seen store.old.texts values) (frames_of store.old state.old) (slots_of store.old state.old)) r) }
{
    match frame {
        InRun::ModuleFound(name, table) => {
            module_found(alloc, store, left, state, name, first, table)
        }
        InRun::FunctionFound(name, table) => {
            function_found(alloc, store, left, state, name, first, table)
        }
        InRun::AnswerNow => answer_now(alloc, store, state, values),
        InRun::TextNow(more, before) => text_given(alloc, store, state, first, more, before),
        InRun::DataNow => data_given(store, state, first),
    }
}

/// What a frame of a run does with values.
pub fn give_run<'m>(
    alloc: Global,
    store: &mut Store,
    left: &mut Left,
    state: &mut State<'m>,
    frame: InRun,
    values: Given,
) -> Result<Turn<'m>, NoMemory>
    requires state { StateOf store.old state.old }
    requires frame { InRunOf store.old frame }
    requires values { GivenOf store.old values }
    ensures { IfOk result (λ r. (world : CWorld) → Makes store.old state.old left.old store.new state.new left.new
        (goes world (in_run_seen store.old.texts frame) (given_seen store.old.texts values) (frames_of store.old state.old) (slots_of store.old state.old)) r) }
{
    let first = values.first();
    let turn = give_first(alloc, store, left, state, frame, first, values)?;
    Ok(turn)
}

/// A jump that no function caught ends the run.
pub fn pass_run<'m>(
    alloc: Global,
    store: &mut Store,
    left: &mut Left,
    state: &mut State<'m>,
    frame: InRun,
    jump: Jump,
) -> Result<Turn<'m>, NoMemory>
    requires state { StateOf store.old state.old }
    requires frame { InRunOf store.old frame }
    requires jump { JumpOf store.old jump }
    ensures { IfOk result (λ r. Makes store.old state.old left.old store.new state.new left.new
        (passes (in_run_seen store.old.texts frame) (jump_seen store.old.texts jump) (frames_of store.old state.old) (slots_of store.old state.old)) r) }
{
    match frame {
        InRun::ModuleFound(_, _) => uncaught(alloc, store, state, jump),
        InRun::FunctionFound(_, _) => uncaught(alloc, store, state, jump),
        InRun::AnswerNow => uncaught(alloc, store, state, jump),
        InRun::TextNow(_, _) => uncaught(alloc, store, state, jump),
        InRun::DataNow => data_uncaught(alloc, store, state, jump),
    }
}
