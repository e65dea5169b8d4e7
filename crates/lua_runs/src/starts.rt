//! How a run begins (Scribunto, "Invoking modules" and mw.loadData): its charges, the frame of an invocation, and the text of its module.
ghost use Rattle.std.specs.Prelude.{◌≡◌, ◌+◌, ◌∷◌, [], None, length, IfOk, OnOk};
ghost use Rattle.lua_code.specs.WkBaseTitles.{title_text};
ghost use Rattle.mw_frame.specs.Scenes.{HaveNames, NamesDiffer};
ghost use Rattle.lua_code.specs.LuaHeapValue as kind;
ghost use Rattle.lua_code.specs.LuaMeaningActs as act;
ghost use Rattle.lua_modules.specs.LuaMeaningFrames as meaning;
ghost use Rattle.lua_modules.specs.LuaSlotsModules as modules;
ghost use Rattle.lua_modules.specs.LuaSlotsPoints as point;
ghost use Rattle.lua_code.specs.LuaSlotsStarts as starts;
ghost use Rattle.lua_store.specs.Parts.{IsLater, IsTableOf};
ghost use Rattle.lua_modules.specs.LuaStackOf.{WorkOf};
ghost use Rattle.lua_modules.specs.LuaStackSeen.{work_seen};
ghost use Rattle.lua_modules.specs.MwFramesScenes.{made, frames_seen as scenes_seen};
ghost use Rattle.lua_modules.specs.LuaStateCharges.{Pays};
ghost use Rattle.lua_modules.specs.LuaStateMakes.{Makes, LateMakes};
ghost use Rattle.lua_modules.specs.LuaStateOf.{StateOf};
ghost use Rattle.lua_modules.specs.LuaStateSeen.{frames_of, slots_of};
ghost use Rattle.lua_modules.specs.LuaStateWorlds.{world_seen};
ghost use Rattle.lua_modules.specs.LuaMeaningCharges.{run_charge};

use lua_code::NoMemory;
use lua_modules::messages::no_data_module;
use lua_modules::{
    Frame, InRun, Parent, SceneFrame, Scenes, State, Turn, Work, fail, make_frame, pay, pay_args,
    require_module, run_text,
};
use lua_store::{Store, TableId, Value};
use mw_frame::{Arg, Bytes, Job, Scene, Title};
use mw_html_texts::{Left, RUN_CHARGE};
use page_run::Which;
use std::alloc::Global;

/// Takes what these arguments cost where they stand in a frame.
fn pay_frame(left: &mut Left, args: &[Arg]) -> bool
    ensures { Pays (meaning.args_charge args.now) left.old left.new result }
{
    match pay_args(left, args) {
        Ok(_) => true,
        Err(_) => false,
    }
}

/// The first frame of a run, of an invocation in this scene, is made. Its parent is made when it is asked for.
fn make_first(
    alloc: Global,
    store: &mut Store,
    state: &mut State<'_>,
    scene: Scene,
    parent: Scene,
) -> Result<TableId, NoMemory>
    requires state { StateOf store.old state.old }
    requires names { NamesDiffer scene.args }
    requires parent { NamesDiffer parent.args }
    ensures at { IfOk result (λ id. id.at ≡ length store.old.heap.tables + 2) }
    ensures table { IfOk result (IsTableOf store.new) }
    ensures of { OnOk result (StateOf store.new state.new) }
    ensures later { OnOk result (IsLater store.old store.new) }
    ensures same { OnOk result (state.new ≡ record state.old { scenes = state.new.scenes }) }
    ensures heap { OnOk result (store.new.heap ≡ meaning.make_frame scene 0 store.old.heap) }
    ensures scenes { OnOk result (scenes_seen (made state.new.scenes) ≡ meaning.new_frame store.old.heap scene (act.Unmade parent) ∷ []) }
{
    let table = make_frame(store, &scene, 0)?;
    let seed = state.scenes.seed();
    let mut scenes = Scenes::new(alloc, store, seed)?;
    let first = SceneFrame {
        scene,
        table,
        parent: Parent::Unmade(parent),
    };
    scenes.push(first)?;
    state.scenes = scenes;
    Ok(table)
}

/// The run waits for the value of its module alone, whose function of this name gets this frame.
fn wait_for_module(
    store: &Store,
    state: &mut State<'_>,
    function: Bytes,
    frame: TableId,
) -> Result<(), NoMemory>
    requires state { StateOf store.now state.old }
    requires frame { IsTableOf store.now frame }
    ensures of { OnOk result (StateOf store.now state.new) }
    ensures same { OnOk result (state.new ≡ record state.old { frames = state.new.frames }) }
    ensures frames { OnOk result (frames_of store.now state.new ≡ point.ModuleFound function (kind.Table frame.at) ∷ []) }
{
    state.frames.clear();
    let waiting = InRun::ModuleFound(function, Value::Table(frame));
    state.frames.push(Frame::Run(waiting))?;
    Ok(())
}

/// An invocation whose charges are taken: its frame is made, and its module is required.
fn invoke_paid<'m>(
    alloc: Global,
    store: &mut Store,
    left: &mut Left,
    state: &mut State<'m>,
    job: Job,
) -> Result<Turn<'m>, NoMemory>
    requires state { StateOf store.old state.old }
    requires names { HaveNames job }
    ensures { IfOk result (λ r. LateMakes store.old state.old left.old store.new state.new left.new
        (modules.require_module (world_seen state.old.codes.world) (title_text job.«module») job.«module» None
        (point.ModuleFound job.function (meaning.frame_table store.old.heap) ∷ []) (starts.with_frame job (slots_of store.old state.old))) r) }
{
    let title = job.module;
    let frame = make_first(alloc, store, state, job.scene, job.parent)?;
    wait_for_module(store, state, job.function, frame)?;
    let name = title.text()?;
    let text = name.as_slice();
    let turn = require_module(alloc, store, left, state, text, &title, None)?;
    Ok(turn)
}

/// An invocation costs 1000 steps and its arguments, before anything is made.
fn invoke<'m>(
    alloc: Global,
    store: &mut Store,
    left: &mut Left,
    state: &mut State<'m>,
    job: Job,
) -> Result<Turn<'m>, NoMemory>
    requires state { StateOf store.old state.old }
    requires names { HaveNames job }
    ensures { IfOk result (λ r. LateMakes store.old state.old left.old store.new state.new left.new (starts.invokes (world_seen state.old.codes.world) job [] (slots_of store.old state.old)) r) }
{
    if !pay(left, RUN_CHARGE) {
        return Ok(Turn::Spent(Which::Steps));
    }
    let args = job.scene.args.as_slice();
    if !pay_frame(left, args) {
        return Ok(Turn::Spent(Which::Steps));
    }
    let turn = invoke_paid(alloc, store, left, state, job)?;
    Ok(turn)
}

/// There is no data module of this title.
fn lacks_data<'m>(
    alloc: Global,
    store: &mut Store,
    left: &mut Left,
    state: &State<'m>,
    title: &Title,
) -> Result<Turn<'m>, NoMemory>
    requires { StateOf store.old state.now }
    ensures { IfOk result (λ r. Makes store.old state.now left.old store.new state.now left.new
        (starts.runs_data title.now None (frames_of store.old state.now) (slots_of store.old state.now)) r) }
{
    let name = title.text()?;
    let text = name.as_slice();
    let message = no_data_module(alloc, text)?;
    let said = message.as_slice();
    let turn = fail(alloc, store, left, state, None, said)?;
    Ok(turn)
}

/// The text of a data module runs, if there is one of this title.
fn run_data<'m>(
    alloc: Global,
    store: &mut Store,
    left: &mut Left,
    state: &State<'m>,
    title: &Title,
) -> Result<Turn<'m>, NoMemory>
    requires { StateOf store.old state.now }
    ensures { IfOk result (λ r. Makes store.old state.now left.old store.new state.now left.new
        (starts.runs_data title.now ((world_seen state.now.codes.world).modules (title_text title.now)) (frames_of store.old state.now) (slots_of store.old state.now)) r) }
{
    let name = title.text()?;
    let written = name.as_slice();
    let modules = state.codes.world.modules;
    let found = modules.find_text(alloc, written)?;
    match found {
        Some(held) => {
            let turn = run_text(alloc, store, left, state, title, held)?;
            Ok(turn)
        }
        None => {
            let turn = lacks_data(alloc, store, left, state, title)?;
            Ok(turn)
        }
    }
}

/// The run waits for the value of a data module alone.
fn wait_for_data(store: &Store, state: &mut State<'_>) -> Result<(), NoMemory>
    requires { StateOf store.now state.old }
    ensures of { OnOk result (StateOf store.now state.new) }
    ensures same { OnOk result (state.new ≡ record state.old { frames = state.new.frames }) }
    ensures frames { OnOk result (frames_of store.now state.new ≡ point.DataNow ∷ []) }
{
    state.frames.clear();
    state.frames.push(Frame::Run(InRun::DataNow))?;
    Ok(())
}

/// The load of a data module costs 1000 steps, before its text runs.
fn load<'m>(
    alloc: Global,
    store: &mut Store,
    left: &mut Left,
    state: &mut State<'m>,
    title: &Title,
) -> Result<Turn<'m>, NoMemory>
    requires { StateOf store.old state.old }
    ensures { IfOk result (λ r. Makes store.old state.old left.old store.new state.new left.new
        (point.Costs run_charge (starts.runs_data title.now ((world_seen state.old.codes.world).modules (title_text title.now)) (point.DataNow ∷ []) (slots_of store.old state.old))) r) }
{
    if !pay(left, RUN_CHARGE) {
        return Ok(Turn::Spent(Which::Steps));
    }
    wait_for_data(store, state)?;
    let turn = run_data(alloc, store, left, state, title)?;
    Ok(turn)
}

/// A run begins: an invocation, or the load of a data module. Nothing waits but what this is for. Where the steps for the text of an
/// invoked module are not there, the frame of the invocation is there already.
pub fn begin_work<'m>(
    alloc: Global,
    store: &mut Store,
    left: &mut Left,
    state: &mut State<'m>,
    work: Work,
) -> Result<Turn<'m>, NoMemory>
    requires state { StateOf store.old state.old }
    requires work { WorkOf work }
    ensures { IfOk result (λ r. LateMakes store.old state.old left.old store.new state.new left.new (starts.works (world_seen state.old.codes.world) (work_seen work) (slots_of store.old state.old)) r) }
{
    match work {
        Work::Invoke(job) => {
            let turn = invoke(alloc, store, left, state, job)?;
            Ok(turn)
        }
        Work::Data(title) => {
            let turn = load(alloc, store, left, state, &title)?;
            Ok(turn)
        }
    }
}
