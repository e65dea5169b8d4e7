//! What methods read of frames: titles, arguments, and the frame of an invocation (Scribunto, Frame object).
ghost use Rattle.std.specs.Prelude.{◌≡◌, [], List, ℕ, None, Some, IfOk, OnOk, MatchOption, length};
ghost use Rattle.mw_frame_texts.specs.LuaHeapValue as kind;
ghost use Rattle.mw_frame_texts.specs.LuaMeaningFrames as frames;
ghost use Rattle.mw_frame_texts.specs.LuaMeaningFrameMethods as meaning;
ghost use Rattle.mw_frame_texts.specs.LuaStoreSeen.{StoreView, seen};
ghost use Rattle.mw_frame_texts.specs.LuaStoreParts.{IsOf, IsTableOf, IsLater};
ghost use Rattle.mw_frame_texts.specs.LuaBasicSeen.{values_seen, AllOf};
ghost use Rattle.mw_frame_texts.specs.MwFramesScenes.{ScenesOf};
ghost use Rattle.mw_frame_calls.specs.Seen.{scenes_seen, Free, Paid, AnswerOf};
ghost use Rattle.mw_frame_calls.specs.Parts.{argument_in};

use crate::answer::{FrameAnswer, one};
use crate::finding::{a_frame, a_text_or_field};
use mw_frame::{Arg, NoMemory, Scene};
use mw_frame_texts::{
    Left, Library, Scenes, Stop, Store, TableId, Value, field_at, first, pay, rest, set_field,
    split_args,
};
use std::alloc::Global;

/// The table of the frame of that number, or nil.
pub fn table_of(scenes: &Scenes, number: usize) -> Value
    ensures of { (s : StoreView) → ScenesOf s scenes.now → IsOf s result }
    ensures value { (texts : List (List ℕ)) → seen texts result ≡ frames.table_of_frame (scenes_seen scenes.now) number }
{
    match scenes.get(number) {
        Some(frame) => Value::Table(frame.table),
        None => Value::Nil,
    }
}

/// `mw.getCurrentFrame()`: the frame of the invocation, or nil.
pub fn get_current_frame(
    alloc: Global,
    store: &mut Store,
    scenes: &Scenes,
) -> Result<FrameAnswer, Stop>
    requires { ScenesOf store.old scenes.now }
    ensures answer { Free (meaning.get_current_frame store.old.heap (scenes_seen scenes.now)) store.new (scenes_seen scenes.now) result }
    ensures of { AnswerOf store.new result }
    ensures later { IsLater store.old store.new }
{
    let answer = one(alloc, table_of(scenes, 0))?;
    Ok(answer)
}

/// `frame:getTitle()`
pub fn get_title(
    alloc: Global,
    store: &mut Store,
    scenes: &Scenes,
    args: &[Value],
) -> Result<FrameAnswer, Stop>
    requires { AllOf store.old args.now }
    ensures answer { Free (meaning.get_title store.old.heap (scenes_seen scenes.now) (values_seen store.old.texts args.now)) store.new (scenes_seen scenes.now) result }
    ensures of { AnswerOf store.new result }
    ensures later { IsLater store.old store.new }
{
    let number = a_frame(alloc, store, scenes, b"getTitle", args)?;
    let title = scenes.frame(number).scene.title.text()?;
    let text = store.text(title.as_slice())?;
    let answer = one(alloc, Value::Text(text))?;
    Ok(answer)
}

/// `frame:argumentPairs()`: it goes on as `pairs` of the frame's arguments.
pub fn argument_pairs(
    alloc: Global,
    store: &mut Store,
    scenes: &Scenes,
    args: &[Value],
) -> Result<FrameAnswer, Stop>
    requires args { AllOf store.old args.now }
    requires scenes { ScenesOf store.old scenes.now }
    ensures answer { Free (meaning.argument_pairs store.old.heap (scenes_seen scenes.now) (values_seen store.old.texts args.now)) store.new (scenes_seen scenes.now) result }
    ensures of { AnswerOf store.new result }
    ensures later { IsLater store.old store.new }
{
    let _number = a_frame(alloc, store, scenes, b"argumentPairs", args)?;
    let table = field_at(store, first(args), scenes.names().args);
    Ok(FrameAnswer::Walks(table))
}

/// The value of the argument of that name, if there is one.
fn arg_named<'a>(args: &'a [Arg], name: &[u8]) -> Option<&'a [u8]>
    ensures { MatchOption result (frames.arg_named name.now args.now ≡ None) (λ text. frames.arg_named name.now args.now ≡ Some text.now) }
{
    let mut left = args;
    'each: while let Some((arg, more)) = split_args(left) {
        if name == arg.name.as_slice() {
            return Some(arg.value.as_slice());
        }
        left = more;
    }
    None
}

/// A new table with the value of an argument, which its method `expand` gives.
fn argument_table(store: &mut Store, text: &[u8]) -> Result<TableId, NoMemory>
    ensures of { IfOk result (IsTableOf store.new) }
    ensures id { IfOk result (λ table. table.at ≡ length store.old.heap.tables) }
    ensures made { OnOk result (store.new.heap ≡ frames.with_table store.old.heap (meaning.argument_entries store.old.heap [] text.now) kind.Nil) }
    ensures later { IsLater store.old store.new }
{
    let table = store.new_table()?;
    set_field(
        store,
        table,
        b"expand",
        Value::Builtin(Library::ArgumentExpand),
    )?;
    let text = store.text(text)?;
    set_field(store, table, b"value", Value::Text(text))?;
    Ok(table)
}

/// What `getArgument` gives of an argument's value: a new table, for 16 steps.
fn give_argument(
    alloc: Global,
    store: &mut Store,
    left: &mut Left,
    scenes: &Scenes,
    text: &[u8],
) -> Result<FrameAnswer, Stop>
    ensures answer { Paid (meaning.argument_table store.old.heap (scenes_seen scenes.now) (Some text.now)) store.old (scenes_seen scenes.now) left.old store.new (scenes_seen scenes.now) left.new result }
    ensures of { AnswerOf store.new result }
    ensures later { IsLater store.old store.new }
{
    pay(left, 16)?;
    let table = argument_table(store, text)?;
    let answer = one(alloc, Value::Table(table))?;
    Ok(answer)
}

/// `getArgument` in a scene.
fn argument_of(
    alloc: Global,
    store: &mut Store,
    left: &mut Left,
    scenes: &Scenes,
    scene: &Scene,
    given: &[Value],
) -> Result<FrameAnswer, Stop>
    requires given { AllOf store.old given.now }
    requires scenes { ScenesOf store.old scenes.now }
    ensures answer { Paid (argument_in store.old.heap (scenes_seen scenes.now) scene.now (values_seen store.old.texts given.now)) store.old (scenes_seen scenes.now) left.old store.new (scenes_seen scenes.now) left.new result }
    ensures of { AnswerOf store.new result }
    ensures later { IsLater store.old store.new }
{
    let name = a_text_or_field(alloc, store, b"getArgument", scenes.names().name, given)?;
    match arg_named(scene.args.as_slice(), name.as_slice()) {
        Some(text) => give_argument(alloc, store, left, scenes, text),
        None => {
            let answer = one(alloc, Value::Nil)?;
            Ok(answer)
        }
    }
}

/// `frame:getArgument(name)`: nil, or a new table with the argument's value, for 16 steps.
pub fn get_argument(
    alloc: Global,
    store: &mut Store,
    left: &mut Left,
    scenes: &Scenes,
    args: &[Value],
) -> Result<FrameAnswer, Stop>
    requires args { AllOf store.old args.now }
    requires scenes { ScenesOf store.old scenes.now }
    ensures answer { Paid (meaning.get_argument store.old.heap (scenes_seen scenes.now) (values_seen store.old.texts args.now)) store.old (scenes_seen scenes.now) left.old store.new (scenes_seen scenes.now) left.new result }
    ensures of { AnswerOf store.new result }
    ensures later { IsLater store.old store.new }
{
    let number = a_frame(alloc, store, scenes, b"getArgument", args)?;
    let scene = &scenes.frame(number).scene;
    argument_of(alloc, store, left, scenes, scene, rest(args))
}
