//! The parents of frames, which are made when they are asked for first (Scribunto, `frame:getParent`).
ghost use Rattle.std.specs.Prelude.{◌≡◌, ◌+◌, ◌<◌, ◌^◌, Some, length, slice_get};
ghost use Rattle.mw_frame_texts.specs.LuaMeaningFrames.{args_charge};
ghost use Rattle.mw_frame_texts.specs.LuaMeaningFrameMethods as meaning;
ghost use Rattle.mw_frame_texts.specs.LuaStoreParts.{IsLater};
ghost use Rattle.mw_frame_texts.specs.LuaBasicSeen.{values_seen, AllOf};
ghost use Rattle.mw_frame_texts.specs.MwFramesCosts.{IsMade};
ghost use Rattle.mw_frame_texts.specs.MwFramesScenes.{made, parent_seen, ScenesOf};
ghost use Rattle.mw_frame_texts.specs.MwFramesDeclaredScenesSceneFrame.{SceneFrame as SceneFrameValue};
ghost use Rattle.mw_frame_calls.specs.Seen.{scenes_seen, Paid, AnswerOf};
ghost use Rattle.mw_frame_calls.specs.Parts.{numbered};
ghost use Rattle.mw_frame_texts.specs.LuaMeaningCharges.{frame_charge};

use crate::answer::{FrameAnswer, one};
use crate::finding::a_frame;
use crate::reading::table_of;
use mw_frame::Scene;
use mw_frame_texts::{
    Left, Parent, Scenes, Stop, Store, TableId, Value, make_frame, pay, pay_args,
};
use std::alloc::Global;

/// A frame is made after what it costs.
fn make_paid(
    store: &mut Store,
    left: &mut Left,
    scene: &Scene,
    number: usize,
) -> Result<TableId, Stop>
    requires { number < 2 ^ 63 }
    ensures made { IsMade (frame_charge + args_charge scene.now.args) scene.now number store.old left.old store.new left.new result }
    ensures later { IsLater store.old store.new }
{
    pay(left, 16)?;
    pay_args(left, scene.args.as_slice())?;
    let table = make_frame(store, scene, number)?;
    Ok(table)
}

/// The parent of a frame, or nil; it is made where that was not done yet.
fn parent_of(
    alloc: Global,
    store: &mut Store,
    left: &mut Left,
    scenes: &mut Scenes,
    number: usize,
) -> Result<FrameAnswer, Stop>
    requires number { number < length (made scenes.old) }
    requires scenes { ScenesOf store.old scenes.old }
    ensures answer { (f : SceneFrameValue) → slice_get (made scenes.old) number ≡ Some f → Paid (meaning.parent_of store.old.heap (scenes_seen scenes.old) (numbered number f) (parent_seen f.parent)) store.old (scenes_seen scenes.old) left.old store.new (scenes_seen scenes.new) left.new result }
    ensures of { AnswerOf store.new result }
    ensures scenes { ScenesOf store.new scenes.new }
    ensures later { IsLater store.old store.new }
{
    match &scenes.frame(number).parent {
        Parent::Nobody => {
            let answer = one(alloc, Value::Nil)?;
            Ok(answer)
        }
        Parent::Made(other) => {
            let answer = one(alloc, table_of(scenes, *other))?;
            Ok(answer)
        }
        Parent::Unmade(scene) => {
            let table = make_paid(store, left, scene, scenes.count())?;
            scenes.adopt(number, table)?;
            let answer = one(alloc, Value::Table(table))?;
            Ok(answer)
        }
    }
}

/// `frame:getParent()`: the parent, or nil. It is made when it is asked for first, which costs 16 steps, and for each argument 4 and
/// its bytes.
pub fn get_parent(
    alloc: Global,
    store: &mut Store,
    left: &mut Left,
    scenes: &mut Scenes,
    args: &[Value],
) -> Result<FrameAnswer, Stop>
    requires args { AllOf store.old args.now }
    requires scenes { ScenesOf store.old scenes.old }
    ensures answer { Paid (meaning.get_parent store.old.heap (scenes_seen scenes.old) (values_seen store.old.texts args.now)) store.old (scenes_seen scenes.old) left.old store.new (scenes_seen scenes.new) left.new result }
    ensures of { AnswerOf store.new result }
    ensures scenes { ScenesOf store.new scenes.new }
    ensures later { IsLater store.old store.new }
{
    let number = a_frame(alloc, store, scenes, b"getParent", args)?;
    parent_of(alloc, store, left, scenes, number)
}
