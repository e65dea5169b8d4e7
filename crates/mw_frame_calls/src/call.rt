//! A function that sees the frames is called.
ghost use Rattle.mw_frame_texts.specs.LuaStoreParts.{IsLater};
ghost use Rattle.mw_frame_texts.specs.LuaBasicSeen.{values_seen, AllOf};
ghost use Rattle.mw_frame_texts.specs.MwFramesScenes.{ScenesOf};
ghost use Rattle.mw_frame_calls.specs.Seen.{scenes_seen, Paid, AnswerOf};
ghost use Rattle.mw_frame_calls.specs.Table.{framed_of};

use crate::answer::FrameAnswer;
use crate::asking::{expand_template, preprocess};
use crate::children::new_child;
use crate::parents::get_parent;
use crate::reading::{argument_pairs, get_argument, get_current_frame, get_title};
use crate::table::FrameFunction;
use crate::tags::frame_extension_tag;
use mw_frame_texts::{Left, Scenes, Stop, Store, Value};
use std::alloc::Global;

/// What a function that sees the frames gives for these arguments, after its charge.
///
/// It is `Stop::Raised` exactly where it raises and its charge is covered, with the level whose place the caller puts in front, and
/// `Stop::Spent` exactly where its charge is not covered; then the store and the frames are as they were.
pub fn frame_call(
    alloc: Global,
    store: &mut Store,
    left: &mut Left,
    scenes: &mut Scenes,
    which: FrameFunction,
    args: &[Value],
) -> Result<FrameAnswer, Stop>
    requires args { AllOf store.old args.now }
    requires scenes { ScenesOf store.old scenes.old }
    ensures answer { Paid (framed_of which (values_seen store.old.texts args.now) store.old.heap (scenes_seen scenes.old)) store.old (scenes_seen scenes.old) left.old store.new (scenes_seen scenes.new) left.new result }
    ensures of { AnswerOf store.new result }
    ensures scenes { ScenesOf store.new scenes.new }
    ensures later { IsLater store.old store.new }
{
    match which {
        FrameFunction::Current => get_current_frame(alloc, store, scenes),
        FrameFunction::Title => get_title(alloc, store, scenes, args),
        FrameFunction::Pairs => argument_pairs(alloc, store, scenes, args),
        FrameFunction::Argument => get_argument(alloc, store, left, scenes, args),
        FrameFunction::Preprocess => preprocess(alloc, store, left, scenes, args),
        FrameFunction::Template => expand_template(alloc, store, left, scenes, args),
        FrameFunction::Parent => get_parent(alloc, store, left, scenes, args),
        FrameFunction::Child => new_child(alloc, store, left, scenes, args),
        FrameFunction::Tag => frame_extension_tag(alloc, store, left, scenes, args),
    }
}
