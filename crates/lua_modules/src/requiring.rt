//! `require` (manual 5.3; Scribunto, "require"): a module runs once, and its value is kept.
ghost use Rattle.std.specs.Prelude.{◌≡◌, ◌∷◌, [], ℕ, List, Option, None, Some, bytes_eq, codes, IfOk, OnOk};
ghost use Rattle.lua_code.specs.WkBaseTitles.{title_of, title_text};
ghost use Rattle.page_run.specs.WkBaseDeclaredLeftLeft.{Left as Allowance};
ghost use Rattle.lua_code.specs.WkBaseDeclaredTitleNamespaceTheVariants.{Main};
ghost use Rattle.lua_code.specs.WkBaseDeclaredTitleTitle.{Title as Name};
ghost use Rattle.lua_code.specs.Held.{module_seen};
ghost use Rattle.lua_code.specs.LuaMeaningActs as act;
ghost use Rattle.lua_code.specs.LuaMeaningModules.{value_or_true};
ghost use Rattle.lua_code.specs.LuaMeaningPending as waiting;
ghost use Rattle.lua_code.specs.LuaSlotsCode.{CModule};
ghost use Rattle.lua_state.specs.LuaSlotsErrors.{gives, jumps};
ghost use Rattle.lua_code.specs.LuaSlotsModules as machine;
ghost use Rattle.lua_state.specs.LuaSlotsPoints as point;
ghost use Rattle.lua_state.specs.LuaStoreSeen.{StoreView, seen};
ghost use Rattle.lua_state.specs.LuaStoreParts.{IsOf};
ghost use Rattle.lua_state.specs.LuaStackOf.{JumpOf, ValuesOf};
ghost use Rattle.lua_state.specs.LuaStackSeen.{jump_seen, values_seen};
ghost use Rattle.lua_state.specs.Makes.{Makes};
ghost use Rattle.lua_state.specs.Of.{OutcomeOf, ProgressOf, StateOf};
ghost use Rattle.lua_state.specs.Seen.{frames_of, outcome_seen, progress_seen, slots_of};
ghost use Rattle.lua_state.specs.Worlds.{world_seen};

use crate::raising::{lacks_module, requires_itself};
use crate::running::run_text;
use crate::strict::require_strict;
use crate::texts::{read_title, refuse};
use lua_code::{Module, NoMemory};
use lua_state::{
    Focus, Frame, Given, Jump, Left, Outcome, Pending, Progress, State, Store, Turn, Value, Values,
    is_nil, text_in,
};
use mw_frame::Title;
use std::alloc::Global;

/// The module of a title is at this point from now on.
fn put_progress(
    store: &Store,
    state: &mut State<'_>,
    title: Title,
    progress: Progress,
) -> Result<(), NoMemory>
    requires state { StateOf store.now state.old }
    requires progress { ProgressOf store.now progress }
    ensures of { OnOk result (StateOf store.now state.new) }
    ensures same { OnOk result (state.new ≡ record state.old { modules = state.new.modules }) }
    ensures slots { OnOk result (slots_of store.now state.new ≡ machine.with_module title (progress_seen store.now.texts progress) (slots_of store.now state.old)) }
{
    state.modules.put(title, progress)?;
    Ok(())
}

/// The module of a title runs from now on, and the call of `require` at this line waits for it.
fn enter_module(
    store: &Store,
    state: &mut State<'_>,
    title: &Title,
    line: Option<u32>,
) -> Result<(), NoMemory>
    requires state { StateOf store.now state.old }
    ensures of { OnOk result (StateOf store.now state.new) }
    ensures same { OnOk result (state.new ≡ record state.old { modules = state.new.modules; frames = state.new.frames }) }
    ensures slots { OnOk result (slots_of store.now state.new ≡ machine.with_module title.now act.Running (slots_of store.now state.old)) }
    ensures frames { OnOk result (frames_of store.now state.new ≡ point.Waits (waiting.ModuleWaits title.now) line ∷ frames_of store.now state.old) }
{
    let running = title.copy()?;
    put_progress(store, state, running, Progress::Running)?;
    let waited = title.copy()?;
    state
        .frames
        .push(Frame::Waits(Pending::Module(waited), line))?;
    Ok(())
}

/// A module that was found runs.
fn run_module<'m>(
    alloc: Global,
    store: &mut Store,
    left: &mut Left,
    state: &mut State<'m>,
    title: &Title,
    held: &Module,
    line: Option<u32>,
) -> Result<Turn<'m>, NoMemory>
    requires state { StateOf store.old state.old }
    ensures { IfOk result (λ r. Makes store.old state.old left.old store.new state.new left.new
        (machine.runs_module title.now (module_seen held.now) line (frames_of store.old state.old) (slots_of store.old state.old)) r) }
{
    enter_module(store, state, title, line)?;
    let turn = run_text(alloc, store, left, state, title, held)?;
    Ok(turn)
}

/// A module that was not required yet, if there is one of this title.
fn require_first<'m>(
    alloc: Global,
    store: &mut Store,
    left: &mut Left,
    state: &mut State<'m>,
    text: &[u8],
    title: &Title,
    line: Option<u32>,
) -> Result<Turn<'m>, NoMemory>
    requires state { StateOf store.old state.old }
    ensures { IfOk result (λ r. Makes store.old state.old left.old store.new state.new left.new
        (machine.require_as text.now title.now None ((world_seen state.old.codes.world).modules (title_text title.now)) line (frames_of store.old state.old) (slots_of store.old state.old)) r) }
{
    let name = title.text()?;
    let written = name.as_slice();
    let modules = state.codes.world.modules;
    let found = modules.find_text(alloc, written)?;
    match found {
        Some(held) => {
            let turn = run_module(alloc, store, left, state, title, held, line)?;
            Ok(turn)
        }
        None => {
            let turn = lacks_module(alloc, store, left, state, text, line)?;
            Ok(turn)
        }
    }
}

/// A module that was required before: its value is given again, unless it still runs.
fn require_again<'m>(
    alloc: Global,
    store: &mut Store,
    left: &mut Left,
    state: &mut State<'m>,
    text: &[u8],
    progress: Progress,
    line: Option<u32>,
) -> Result<Turn<'m>, NoMemory>
    requires state { StateOf store.old state.old }
    requires progress { ProgressOf store.old progress }
    ensures { (title : Name) (held : Option CModule) → IfOk result (λ r. Makes store.old state.old left.old store.new state.new left.new
        (machine.require_as text.now title (Some (progress_seen store.old.texts progress)) held line (frames_of store.old state.old) (slots_of store.old state.old)) r) }
{
    match progress {
        Progress::Finished(value) => Ok(Turn::On(Focus::Gives(Given::One(value)))),
        Progress::Running => requires_itself(alloc, store, left, state, text, line),
    }
}

/// The module of a title is required, of which messages say this text.
pub fn require_module<'m>(
    alloc: Global,
    store: &mut Store,
    left: &mut Left,
    state: &mut State<'m>,
    text: &[u8],
    title: &Title,
    line: Option<u32>,
) -> Result<Turn<'m>, NoMemory>
    requires state { StateOf store.old state.old }
    ensures { IfOk result (λ r. Makes store.old state.old left.old store.new state.new left.new
        (machine.require_module (world_seen state.old.codes.world) text.now title.now line (frames_of store.old state.old) (slots_of store.old state.old)) r) }
{
    let found = state.modules.get(title)?;
    match found {
        Some(progress) => {
            let turn = require_again(alloc, store, left, state, text, progress, line)?;
            Ok(turn)
        }
        None => {
            let turn = require_first(alloc, store, left, state, text, title, line)?;
            Ok(turn)
        }
    }
}

/// `require` of another text than `strict`, which must be the title of a module.
fn require_named<'m>(
    alloc: Global,
    store: &mut Store,
    left: &mut Left,
    state: &mut State<'m>,
    text: &[u8],
    line: Option<u32>,
) -> Result<Turn<'m>, NoMemory>
    requires state { StateOf store.old state.old }
    ensures { IfOk result (λ r. Makes store.old state.old left.old store.new state.new left.new
        (machine.require_titled (world_seen state.old.codes.world) text.now (title_of text.now Main) line (frames_of store.old state.old) (slots_of store.old state.old)) r) }
{
    let read = read_title(alloc, text)?;
    match read {
        Some(title) => {
            let turn = require_module(alloc, store, left, state, text, &title, line)?;
            Ok(turn)
        }
        None => {
            let turn = lacks_module(alloc, store, left, state, text, line)?;
            Ok(turn)
        }
    }
}

/// Whether a text is `strict`, which is no module.
fn is_strict(text: &[u8]) -> bool
    ensures { result ≡ bytes_eq text.now (codes "strict") }
{
    text == b"strict".as_slice()
}

/// `require` of a text.
fn require_text<'m>(
    alloc: Global,
    store: &mut Store,
    left: &mut Left,
    state: &mut State<'m>,
    text: &[u8],
    line: Option<u32>,
) -> Result<Turn<'m>, NoMemory>
    requires state { StateOf store.old state.old }
    ensures { IfOk result (λ r. Makes store.old state.old left.old store.new state.new left.new
        (machine.require_text (world_seen state.old.codes.world) text.now line (frames_of store.old state.old) (slots_of store.old state.old)) r) }
{
    if is_strict(text) {
        let turn = require_strict(store, left, state)?;
        return Ok(turn);
    }
    let turn = require_named(alloc, store, left, state, text, line)?;
    Ok(turn)
}

/// `require(name)`: the value of a module, which runs where it has not been required yet.
pub fn require<'m>(
    alloc: Global,
    store: &mut Store,
    left: &mut Left,
    state: &mut State<'m>,
    arguments: Values,
    line: Option<u32>,
) -> Result<Turn<'m>, NoMemory>
    requires state { StateOf store.old state.old }
    requires arguments { ValuesOf store.old arguments }
    ensures { IfOk result (λ r. Makes store.old state.old left.old store.new state.new left.new
        (machine.require (world_seen state.old.codes.world) (values_seen store.old.texts arguments) line (frames_of store.old state.old) (slots_of store.old state.old)) r) }
{
    let first = arguments.first();
    let found = text_in(alloc, store, first)?;
    match found {
        Some(text) => {
            let bytes = text.as_slice();
            let turn = require_text(alloc, store, left, state, bytes, line)?;
            Ok(turn)
        }
        None => {
            let given = arguments.into_list();
            let values = given.as_slice();
            let turn = refuse(alloc, store, left, state, b"require", values, line)?;
            Ok(turn)
        }
    }
}

/// What `require` keeps of a module's value: true where it is nil.
fn kept_value(value: Value) -> Value
    ensures seen { (texts : List (List ℕ)) → seen texts result ≡ value_or_true (seen texts value) }
    ensures of { (s : StoreView) → IsOf s value → IsOf s result }
{
    if is_nil(value) {
        return Value::Bool(true);
    }
    value
}

/// A module gave its value, which is kept.
fn keep_module<'m>(
    store: &Store,
    state: &mut State<'m>,
    title: Title,
    value: Value,
) -> Result<Turn<'m>, NoMemory>
    requires state { StateOf store.now state.old }
    requires value { IsOf store.now value }
    ensures { (l : Allowance) → IfOk result (λ r. Makes store.now state.old l store.now state.new l
        (gives (seen store.now.texts value ∷ []) (frames_of store.now state.old) (machine.with_module title (act.Finished (seen store.now.texts value)) (slots_of store.now state.old))) r) }
{
    put_progress(store, state, title, Progress::Finished(value))?;
    Ok(Turn::On(Focus::Gives(Given::One(value))))
}

/// A module failed, of which nothing is kept.
fn forget_module<'m>(
    store: &Store,
    state: &mut State<'m>,
    title: &Title,
    jump: Jump,
) -> Result<Turn<'m>, NoMemory>
    requires state { StateOf store.now state.old }
    requires jump { JumpOf store.now jump }
    ensures { (l : Allowance) → IfOk result (λ r. Makes store.now state.old l store.now state.new l
        (jumps (jump_seen store.now.texts jump) (frames_of store.now state.old) (machine.without_module title.now (slots_of store.now state.old))) r) }
{
    state.modules.remove(title)?;
    Ok(Turn::On(Focus::Jumps(jump)))
}

/// What the text of a module came to, which `require` waits for: its first value is kept, or true where that is nil; a run that failed
/// is not kept.
pub fn module_answer<'m>(
    alloc: Global,
    store: &mut Store,
    left: &mut Left,
    state: &mut State<'m>,
    title: Title,
    outcome: Outcome,
) -> Result<Turn<'m>, NoMemory>
    requires state { StateOf store.old state.old }
    requires outcome { OutcomeOf store.old outcome }
    ensures { IfOk result (λ r. Makes store.old state.old left.old store.new state.new left.new
        (machine.module_answer title (outcome_seen store.old.texts outcome) (frames_of store.old state.old) (slots_of store.old state.old)) r) }
{
    match outcome {
        Outcome::Goes(values) => {
            let first = values.first();
            let value = kept_value(first);
            let turn = keep_module(store, state, title, value)?;
            Ok(turn)
        }
        Outcome::Jumps(jump) => {
            let turn = forget_module(store, state, &title, jump)?;
            Ok(turn)
        }
    }
}
