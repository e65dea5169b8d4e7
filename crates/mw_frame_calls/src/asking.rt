//! Methods that ask: texts and templates are expanded in the scene of a frame (Scribunto, Frame object).
ghost use Rattle.std.specs.Prelude.{IfSome};
ghost use Rattle.mw_frame_texts.specs.LuaMeaningFrameMethods as meaning;
ghost use Rattle.mw_frame.specs.Scenes.{NamesDiffer};
ghost use Rattle.mw_frame_texts.specs.LuaStoreParts.{IsTableOf, IsLater};
ghost use Rattle.mw_frame_texts.specs.LuaBasicSeen.{values_seen, AllOf};
ghost use Rattle.mw_frame_texts.specs.MwFramesReading.{args_seen};
ghost use Rattle.mw_frame_texts.specs.MwFramesScenes.{ScenesOf};
ghost use Rattle.mw_frame_calls.specs.Seen.{scenes_seen, Paid, AnswerOf};
ghost use Rattle.mw_frame_calls.specs.Parts.{entries_in, preprocess_in, template_asked, template_read as template_read_lem, template_titled as template_titled_lem, template_in};

use crate::answer::{Awaited, FrameAnswer};
use crate::finding::{a_frame, a_text_or_field};
use crate::requests::{
    TitleRead, a_request, a_title, entries_table, pay_cleared, read_entries, refuse,
};
use mw_frame::{Ask, Bytes, Namespace, Scene, Title};
use mw_frame_texts::{
    ArgText, Left, Scenes, Stop, Store, TableId, Value, copy_scene, merge_args, pay, pay_bytes,
    rest, text_in,
};
use std::alloc::Global;

/// `preprocess` in a scene.
fn preprocess_of(
    alloc: Global,
    store: &mut Store,
    left: &mut Left,
    scenes: &Scenes,
    scene: &Scene,
    given: &[Value],
) -> Result<FrameAnswer, Stop>
    requires given { AllOf store.old given.now }
    requires scenes { ScenesOf store.old scenes.now }
    requires names { NamesDiffer scene.now.args }
    ensures answer { Paid (preprocess_in store.old.heap (scenes_seen scenes.now) scene.now (values_seen store.old.texts given.now)) store.old (scenes_seen scenes.now) left.old store.new (scenes_seen scenes.now) left.new result }
    ensures of { AnswerOf store.new result }
    ensures later { IsLater store.old store.new }
{
    let text = a_text_or_field(alloc, store, b"preprocess", scenes.names().text, given)?;
    pay(left, text.as_slice().len() as u64)?;
    let scene = copy_scene(alloc, scene)?;
    let bytes = Bytes::of(alloc, text.as_slice())?;
    Ok(FrameAnswer::Asks(Ask::Preprocess(scene, bytes), Awaited::Text))
}

/// `frame:preprocess(text)`: the text is asked for as it expands in the frame's scene. It costs a step for each of its bytes.
pub fn preprocess(
    alloc: Global,
    store: &mut Store,
    left: &mut Left,
    scenes: &Scenes,
    args: &[Value],
) -> Result<FrameAnswer, Stop>
    requires args { AllOf store.old args.now }
    requires scenes { ScenesOf store.old scenes.now }
    ensures answer { Paid (meaning.preprocess store.old.heap (scenes_seen scenes.now) (values_seen store.old.texts args.now)) store.old (scenes_seen scenes.now) left.old store.new (scenes_seen scenes.now) left.new result }
    ensures of { AnswerOf store.new result }
    ensures later { IsLater store.old store.new }
{
    let number = a_frame(alloc, store, scenes, b"preprocess", args)?;
    let scene = &scenes.frame(number).scene;
    preprocess_of(alloc, store, left, scenes, scene, rest(args))
}

/// A template is asked for. It costs a step for each byte of its title and of the arguments as they were read.
fn ask_template(
    alloc: Global,
    store: &mut Store,
    left: &mut Left,
    scenes: &Scenes,
    scene: &Scene,
    text: &[u8],
    title: Title,
    args: &[ArgText],
) -> Result<FrameAnswer, Stop>
    requires { NamesDiffer scene.now.args }
    ensures answer { Paid (template_asked store.old.heap (scenes_seen scenes.now) scene.now text.now title (args_seen args.now)) store.old (scenes_seen scenes.now) left.old store.new (scenes_seen scenes.now) left.new result }
    ensures of { AnswerOf store.new result }
    ensures later { IsLater store.old store.new }
{
    let whole = title.text()?;
    pay(left, whole.as_slice().len() as u64)?;
    pay_bytes(left, args)?;
    let scene = copy_scene(alloc, scene)?;
    let merged = merge_args(alloc, scenes.seed(), args)?;
    let name = store.text(text)?;
    Ok(FrameAnswer::Asks(Ask::Template(scene, title, merged), Awaited::Template(name)))
}

/// `expandTemplate` with this title, which the text is, and the entries of this table. Each cleared one that is passed costs a step.
fn template_read(
    alloc: Global,
    store: &mut Store,
    left: &mut Left,
    scenes: &Scenes,
    scene: &Scene,
    text: &[u8],
    title: Title,
    table: Option<TableId>,
) -> Result<FrameAnswer, Stop>
    requires table { IfSome table (IsTableOf store.old) }
    requires names { NamesDiffer scene.now.args }
    ensures answer { Paid (template_read_lem store.old.heap (scenes_seen scenes.now) scene.now text.now title (entries_in store.old.heap table)) store.old (scenes_seen scenes.now) left.old store.new (scenes_seen scenes.now) left.new result }
    ensures of { AnswerOf store.new result }
    ensures later { IsLater store.old store.new }
{
    pay_cleared(store, left, table)?;
    let Some(args) = read_entries(alloc, store, table)? else {
        return Err(refuse(store));
    };
    ask_template(
        alloc,
        store,
        left,
        scenes,
        scene,
        text,
        title,
        args.as_slice(),
    )
}

/// `expandTemplate` with this text as its title, and the entries of this table.
fn template_titled(
    alloc: Global,
    store: &mut Store,
    left: &mut Left,
    scenes: &Scenes,
    scene: &Scene,
    text: &[u8],
    table: Option<TableId>,
) -> Result<FrameAnswer, Stop>
    requires table { IfSome table (IsTableOf store.old) }
    requires names { NamesDiffer scene.now.args }
    ensures answer { Paid (template_titled_lem store.old.heap (scenes_seen scenes.now) scene.now text.now (entries_in store.old.heap table)) store.old (scenes_seen scenes.now) left.old store.new (scenes_seen scenes.now) left.new result }
    ensures of { AnswerOf store.new result }
    ensures later { IsLater store.old store.new }
{
    match a_title(alloc, store, text, Namespace::Template)? {
        TitleRead::Found(title) => {
            template_read(alloc, store, left, scenes, scene, text, title, table)
        }
        TitleRead::Quotes(message) => Ok(FrameAnswer::Quotes(message)),
    }
}

/// `expandTemplate` in a scene.
fn template_of(
    alloc: Global,
    store: &mut Store,
    left: &mut Left,
    scenes: &Scenes,
    scene: &Scene,
    given: &[Value],
) -> Result<FrameAnswer, Stop>
    requires given { AllOf store.old given.now }
    requires scenes { ScenesOf store.old scenes.now }
    requires names { NamesDiffer scene.now.args }
    ensures answer { Paid (template_in store.old.heap (scenes_seen scenes.now) scene.now (values_seen store.old.texts given.now)) store.old (scenes_seen scenes.now) left.old store.new (scenes_seen scenes.now) left.new result }
    ensures of { AnswerOf store.new result }
    ensures later { IsLater store.old store.new }
{
    let Some(request) = a_request(store, scenes, given) else {
        return Err(refuse(store));
    };
    let Some(text) = text_in(alloc, store, request.title)? else {
        return Err(refuse(store));
    };
    let Some(table) = entries_table(request.args) else {
        return Err(refuse(store));
    };
    template_titled(alloc, store, left, scenes, scene, text.as_slice(), table)
}

/// `frame:expandTemplate{title=, args=}`: the template's text is asked for as it expands in the frame's scene.
pub fn expand_template(
    alloc: Global,
    store: &mut Store,
    left: &mut Left,
    scenes: &Scenes,
    args: &[Value],
) -> Result<FrameAnswer, Stop>
    requires args { AllOf store.old args.now }
    requires scenes { ScenesOf store.old scenes.now }
    ensures answer { Paid (meaning.expand_template store.old.heap (scenes_seen scenes.now) (values_seen store.old.texts args.now)) store.old (scenes_seen scenes.now) left.old store.new (scenes_seen scenes.now) left.new result }
    ensures of { AnswerOf store.new result }
    ensures later { IsLater store.old store.new }
{
    let number = a_frame(alloc, store, scenes, b"expandTemplate", args)?;
    let scene = &scenes.frame(number).scene;
    template_of(alloc, store, left, scenes, scene, rest(args))
}
