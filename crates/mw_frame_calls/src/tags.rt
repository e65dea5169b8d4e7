//! Tags of extensions (Scribunto, `frame:extensionTag`).
ghost use Rattle.mw_frame_texts.specs.LuaMeaningFrameMethods as meaning;
ghost use Rattle.mw_frame_texts.specs.LuaStoreParts.{IsLater};
ghost use Rattle.mw_frame_texts.specs.LuaBasicSeen.{values_seen, AllOf};
ghost use Rattle.mw_frame_texts.specs.MwFramesScenes.{ScenesOf};
ghost use Rattle.mw_frame_calls.specs.Seen.{scenes_seen, Paid, AnswerOf};

use crate::answer::FrameAnswer;
use crate::finding::a_frame;
use mw_frame_texts::{Left, Scenes, Stop, Store, Value, extension_tag, rest};
use std::alloc::Global;

/// `frame:extensionTag(name, content, attrs)`: a tag of HTML as a text. It costs the bytes of the arguments that are strings, and its own.
pub fn frame_extension_tag(
    alloc: Global,
    store: &mut Store,
    left: &mut Left,
    scenes: &Scenes,
    args: &[Value],
) -> Result<FrameAnswer, Stop>
    requires args { AllOf store.old args.now }
    requires scenes { ScenesOf store.old scenes.now }
    ensures answer { Paid (meaning.frame_extension_tag store.old.heap (scenes_seen scenes.now) (values_seen store.old.texts args.now)) store.old (scenes_seen scenes.now) left.old store.new (scenes_seen scenes.now) left.new result }
    ensures of { AnswerOf store.new result }
    ensures later { IsLater store.old store.new }
{
    let _number = a_frame(alloc, store, scenes, b"extensionTag", args)?;
    let values = extension_tag(alloc, store, left, scenes.names(), rest(args))?;
    Ok(FrameAnswer::Gives(values))
}
