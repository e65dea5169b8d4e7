//! Children of frames (Scribunto, `frame:newChild`).
ghost use Rattle.std.specs.Prelude.{◌≡◌, ◌+◌, ◌<◌, ◌++◌, ◌∷◌, [], Some, IfOk, IfSome, OnOk, length, slice_get};
ghost use Rattle.std.specs.Option.{option_map};
ghost use Rattle.mw_frame.specs.Scenes.{NamesDiffer};
ghost use Rattle.mw_frame_texts.specs.LuaMeaningFrames as frames;
ghost use Rattle.mw_frame_texts.specs.LuaMeaningFrameMethods as meaning;
ghost use Rattle.mw_frame_texts.specs.LuaStoreParts.{IsTableOf, IsLater};
ghost use Rattle.mw_frame_texts.specs.LuaBasicArguments.{text_bytes};
ghost use Rattle.mw_frame_texts.specs.LuaBasicSeen.{values_seen, AllOf};
ghost use Rattle.mw_frame_texts.specs.MwFramesReading.{args_seen};
ghost use Rattle.mw_frame_texts.specs.MwFramesScenes.{made, HasNames, ScenesOf};
ghost use Rattle.mw_frame_texts.specs.MwFramesDeclaredScenesSceneFrame.{SceneFrame as SceneFrameValue};
ghost use Rattle.mw_frame_calls.specs.Seen.{scenes_seen, Paid, AnswerOf};
ghost use Rattle.mw_frame_calls.specs.Parts.{numbered, child_scene as child_scene_lem, child_read as child_read_lem, child_titled as child_titled_lem, child_of as child_of_lem, entries_in};

use crate::answer::{FrameAnswer, one};
use crate::finding::a_frame;
use crate::requests::{
    TitleRead, a_child_title, a_request, entries_table, optional_text, pay_cleared, read_entries,
    refuse,
};
use mw_frame::{NoMemory, Scene, Title};
use mw_frame_texts::{
    ArgText, Left, Parent, SceneFrame, Scenes, Stop, Store, TableId, TextIn, Value, copy_titles,
    make_frame, merge_args, pay, pay_read, rest,
};
use std::alloc::Global;

/// The scene of a child of a frame: its title, its arguments, and the frame's chain.
fn child_scene(
    alloc: Global,
    scenes: &Scenes,
    number: usize,
    title: Title,
    args: &[ArgText],
) -> Result<Scene, NoMemory>
    requires { number < length (made scenes.now) }
    ensures scene { IfOk result (λ scene. (f : SceneFrameValue) → slice_get (made scenes.now) number ≡ Some f → scene ≡ child_scene_lem f title (args_seen args.now)) }
    ensures names { IfOk result (λ scene. NamesDiffer scene.args) }
{
    let args = merge_args(alloc, scenes.seed(), args)?;
    let chain = copy_titles(alloc, scenes.frame(number).scene.chain.as_slice())?;
    Ok(Scene { title, args, chain })
}

/// The frame of a scene is made, with this parent.
pub fn add_frame(
    store: &mut Store,
    scenes: &mut Scenes,
    scene: Scene,
    parent: Parent,
) -> Result<TableId, NoMemory>
    requires names { NamesDiffer scene.args }
    requires parent { HasNames parent }
    requires scenes { ScenesOf store.old scenes.old }
    ensures at { IfOk result (λ table. table.at ≡ length store.old.heap.tables + 2) }
    ensures of { IfOk result (IsTableOf store.new) }
    ensures heap { OnOk result (store.new.heap ≡ frames.make_frame scene (length (made scenes.old)) store.old.heap) }
    ensures added { IfOk result (λ table. made scenes.new ≡ made scenes.old ++ record { scene = scene; table = table; parent = parent } ∷ []) }
    ensures scenes { ScenesOf store.new scenes.new }
    ensures later { IsLater store.old store.new }
{
    let table = make_frame(store, &scene, scenes.count())?;
    scenes.push(SceneFrame {
        scene,
        table,
        parent,
    })?;
    Ok(table)
}

/// A child of a frame is made, after what it costs.
fn make_child(
    alloc: Global,
    store: &mut Store,
    left: &mut Left,
    scenes: &mut Scenes,
    number: usize,
    title: Title,
    args: &[ArgText],
) -> Result<FrameAnswer, Stop>
    requires number { number < length (made scenes.old) }
    requires scenes { ScenesOf store.old scenes.old }
    ensures answer { (f : SceneFrameValue) → slice_get (made scenes.old) number ≡ Some f → Paid (meaning.child store.old.heap (scenes_seen scenes.old) (numbered number f) title (args_seen args.now)) store.old (scenes_seen scenes.old) left.old store.new (scenes_seen scenes.new) left.new result }
    ensures of { AnswerOf store.new result }
    ensures scenes { ScenesOf store.new scenes.new }
    ensures later { IsLater store.old store.new }
{
    pay(left, 16)?;
    pay_read(left, args)?;
    let scene = child_scene(alloc, scenes, number, title, args)?;
    let table = add_frame(store, scenes, scene, Parent::Made(number))?;
    let answer = one(alloc, Value::Table(table))?;
    Ok(answer)
}

/// `newChild` of a frame, with this title and the entries of this table. Each cleared one that is passed costs a step.
fn child_read(
    alloc: Global,
    store: &mut Store,
    left: &mut Left,
    scenes: &mut Scenes,
    number: usize,
    title: Title,
    table: Option<TableId>,
) -> Result<FrameAnswer, Stop>
    requires number { number < length (made scenes.old) }
    requires table { IfSome table (IsTableOf store.old) }
    requires scenes { ScenesOf store.old scenes.old }
    ensures answer { (f : SceneFrameValue) → slice_get (made scenes.old) number ≡ Some f → Paid (child_read_lem store.old.heap (scenes_seen scenes.old) (numbered number f) title (entries_in store.old.heap table)) store.old (scenes_seen scenes.old) left.old store.new (scenes_seen scenes.new) left.new result }
    ensures of { AnswerOf store.new result }
    ensures scenes { ScenesOf store.new scenes.new }
    ensures later { IsLater store.old store.new }
{
    pay_cleared(store, left, table)?;
    let Some(args) = read_entries(alloc, store, table)? else {
        return Err(refuse(store));
    };
    make_child(alloc, store, left, scenes, number, title, args.as_slice())
}

/// `newChild` of a frame, with this text as its title, if there is one, and the entries of this table.
fn child_titled(
    alloc: Global,
    store: &mut Store,
    left: &mut Left,
    scenes: &mut Scenes,
    number: usize,
    text: &Option<TextIn>,
    table: Option<TableId>,
) -> Result<FrameAnswer, Stop>
    requires number { number < length (made scenes.old) }
    requires table { IfSome table (IsTableOf store.old) }
    requires scenes { ScenesOf store.old scenes.old }
    ensures answer { (f : SceneFrameValue) → slice_get (made scenes.old) number ≡ Some f → Paid (child_titled_lem store.old.heap (scenes_seen scenes.old) (numbered number f) (option_map text_bytes text.now) (entries_in store.old.heap table)) store.old (scenes_seen scenes.old) left.old store.new (scenes_seen scenes.new) left.new result }
    ensures of { AnswerOf store.new result }
    ensures scenes { ScenesOf store.new scenes.new }
    ensures later { IsLater store.old store.new }
{
    match a_child_title(alloc, store, text, &scenes.frame(number).scene.title)? {
        TitleRead::Found(title) => child_read(alloc, store, left, scenes, number, title, table),
        TitleRead::Quotes(message) => Ok(FrameAnswer::Quotes(message)),
    }
}

/// `newChild` of a frame.
fn child_of(
    alloc: Global,
    store: &mut Store,
    left: &mut Left,
    scenes: &mut Scenes,
    number: usize,
    given: &[Value],
) -> Result<FrameAnswer, Stop>
    requires number { number < length (made scenes.old) }
    requires given { AllOf store.old given.now }
    requires scenes { ScenesOf store.old scenes.old }
    ensures answer { (f : SceneFrameValue) → slice_get (made scenes.old) number ≡ Some f → Paid (child_of_lem store.old.heap (scenes_seen scenes.old) (numbered number f) (values_seen store.old.texts given.now)) store.old (scenes_seen scenes.old) left.old store.new (scenes_seen scenes.new) left.new result }
    ensures of { AnswerOf store.new result }
    ensures scenes { ScenesOf store.new scenes.new }
    ensures later { IsLater store.old store.new }
{
    let Some(request) = a_request(store, scenes, given) else {
        return Err(refuse(store));
    };
    let Some(text) = optional_text(alloc, store, request.title)? else {
        return Err(refuse(store));
    };
    let Some(table) = entries_table(request.args) else {
        return Err(refuse(store));
    };
    child_titled(alloc, store, left, scenes, number, &text, table)
}

/// `frame:newChild{title=, args=}`: a frame of its own, with this one as its parent. It costs 16 steps, and for each argument that is
/// read 4 and its bytes.
pub fn new_child(
    alloc: Global,
    store: &mut Store,
    left: &mut Left,
    scenes: &mut Scenes,
    args: &[Value],
) -> Result<FrameAnswer, Stop>
    requires args { AllOf store.old args.now }
    requires scenes { ScenesOf store.old scenes.old }
    ensures answer { Paid (meaning.new_child store.old.heap (scenes_seen scenes.old) (values_seen store.old.texts args.now)) store.old (scenes_seen scenes.old) left.old store.new (scenes_seen scenes.new) left.new result }
    ensures of { AnswerOf store.new result }
    ensures scenes { ScenesOf store.new scenes.new }
    ensures later { IsLater store.old store.new }
{
    let number = a_frame(alloc, store, scenes, b"newChild", args)?;
    child_of(alloc, store, left, scenes, number, rest(args))
}
