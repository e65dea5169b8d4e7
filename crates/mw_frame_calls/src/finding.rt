//! The frame of a method, and the arguments behind it.
ghost use Rattle.std.specs.Prelude.{◌≡◌, ◌<◌, List, ℕ, Ok, None, Some, IfOk, IfErr, IfSome, OnOk, MatchOption, slice_get, length};
ghost use Rattle.mw_frame_texts.specs.LuaHeapHeap.{Heap};
ghost use Rattle.mw_frame_texts.specs.LuaHeapProc.{Proc};
ghost use Rattle.mw_frame_texts.specs.LuaHeapValue as kind;
ghost use Rattle.mw_frame_texts.specs.LuaMeaningActs.{Frame};
ghost use Rattle.mw_frame_texts.specs.LuaMeaningArguments.{a_text as a_text_lem};
ghost use Rattle.mw_frame_texts.specs.LuaMeaningFrames.{frame_numbered, number_in_metatable};
ghost use Rattle.mw_frame_texts.specs.LuaMeaningFrameMethods as meaning;
ghost use Rattle.mw_frame_texts.specs.LuaMeaningScope.{Bytes};
ghost use Rattle.mw_frame_texts.specs.LuaStoreSeen.{StoreView, seen, text_at};
ghost use Rattle.mw_frame_texts.specs.LuaStoreParts.{IsOf, IsTextOf, IsTableOf, IsLater};
ghost use Rattle.mw_frame_texts.specs.LuaBasicArguments.{text_bytes};
ghost use Rattle.mw_frame_texts.specs.LuaBasicSeen.{values_seen, AllOf, StopOf, Refuses};
ghost use Rattle.mw_frame_texts.specs.MwFramesScenes.{made};
ghost use Rattle.mw_frame_texts.specs.MwFramesDeclaredScenesSceneFrame.{SceneFrame as SceneFrameValue};
ghost use Rattle.mw_frame_calls.specs.Seen.{scenes_seen};
ghost use Rattle.mw_frame_calls.specs.Parts.{numbered as numbered_lem, given_or_field, found_request};

use mw_frame_texts::{
    Scenes, Stop, Store, TableId, TextId, TextIn, Value, a_text, first, metatable, refuse_kind,
};
use std::alloc::Global;

/// What stands at 1 in a metatable, or nil.
fn number_at(store: &Store, meta: Value) -> Value
    requires { IsOf store.now meta }
    ensures { seen store.now.texts result ≡ number_in_metatable store.now.heap (seen store.now.texts meta) }
{
    match meta {
        Value::Table(table) => store.get(table, Value::Number(1)),
        Value::Nil => Value::Nil,
        Value::Bool(_) => Value::Nil,
        Value::Number(_) => Value::Nil,
        Value::Text(_) => Value::Nil,
        Value::Closure(_) => Value::Nil,
        Value::Builtin(_) => Value::Nil,
        Value::Markup(_) => Value::Nil,
    }
}

/// The number of a frame that was made, if this is one.
fn number_within(scenes: &Scenes, number: i64) -> Option<usize>
    ensures found { MatchOption result (frame_numbered (scenes_seen scenes.now) (kind.Number number) ≡ None) (λ n. (f : SceneFrameValue) → slice_get (made scenes.now) n ≡ Some f → frame_numbered (scenes_seen scenes.now) (kind.Number number) ≡ Some (numbered_lem n f)) }
    ensures within { IfSome result (λ n. n < length (made scenes.now)) }
{
    if number < 0 {
        return None;
    }
    let distance = number.unsigned_abs();
    if distance < scenes.count() as u64 {
        return Some(distance as usize);
    }
    None
}

/// The number of the frame that a value tells, if it tells one.
fn numbered(scenes: &Scenes, value: Value) -> Option<usize>
    ensures found { (texts : List (List ℕ)) → MatchOption result (frame_numbered (scenes_seen scenes.now) (seen texts value) ≡ None) (λ n. (f : SceneFrameValue) → slice_get (made scenes.now) n ≡ Some f → frame_numbered (scenes_seen scenes.now) (seen texts value) ≡ Some (numbered_lem n f)) }
    ensures within { IfSome result (λ n. n < length (made scenes.now)) }
{
    match value {
        Value::Number(number) => number_within(scenes, number),
        Value::Nil => None,
        Value::Bool(_) => None,
        Value::Text(_) => None,
        Value::Table(_) => None,
        Value::Closure(_) => None,
        Value::Builtin(_) => None,
        Value::Markup(_) => None,
    }
}

/// The number of the frame of a method: the one of which its first argument is the table, or a copy.
pub fn a_frame(
    alloc: Global,
    store: &mut Store,
    scenes: &Scenes,
    function: &[u8],
    args: &[Value],
) -> Result<usize, Stop>
    requires { AllOf store.old args.now }
    ensures found { IfOk result (λ n. (f : SceneFrameValue) → slice_get (made scenes.now) n ≡ Some f → meaning.a_frame store.old.heap (scenes_seen scenes.now) function.now (values_seen store.old.texts args.now) ≡ Ok (numbered_lem n f)) }
    ensures within { IfOk result (λ n. n < length (made scenes.now)) }
    ensures same { OnOk result (store.new ≡ store.old) }
    ensures refused { IfErr result (Refuses (meaning.a_frame store.old.heap (scenes_seen scenes.now) function.now (values_seen store.old.texts args.now)) store.old store.new) }
    ensures of { IfErr result (StopOf store.new) }
    ensures later { IsLater store.old store.new }
{
    let meta = metatable(store, first(args));
    match numbered(scenes, number_at(store, meta)) {
        Some(number) => Ok(number),
        None => Err(refuse_kind(alloc, store, 1, function, b"frame", args)),
    }
}

/// The first of the arguments, where it is a table.
pub fn table_in(given: &[Value]) -> Option<TableId>
    ensures of { (s : StoreView) → AllOf s given.now → IfSome result (IsTableOf s) }
    ensures field { (texts : List (List ℕ)) (h : Heap Proc) (frames : List Frame) (name : Bytes) → meaning.text_or_field h frames name (values_seen texts given.now) ≡ given_or_field h (values_seen texts given.now) name result }
    ensures request { (texts : List (List ℕ)) → meaning.a_request (values_seen texts given.now) ≡ found_request result }
{
    match given {
        [Value::Table(id), ..] => Some(*id),
        _ => None,
    }
}

/// A text that is given alone, or as the field of a table, as argument 2 of a method.
pub fn a_text_or_field<'b>(
    alloc: Global,
    store: &mut Store<'b>,
    function: &[u8],
    name: TextId,
    given: &[Value],
) -> Result<TextIn<'b>, Stop>
    requires given { AllOf store.old given.now }
    requires name { IsTextOf store.old name }
    ensures found { IfOk result (λ text. (frames : List Frame) → a_text_lem 2 function.now (meaning.text_or_field store.old.heap frames (text_at store.old.texts name.at) (values_seen store.old.texts given.now)) ≡ Ok (text_bytes text)) }
    ensures same { OnOk result (store.new ≡ store.old) }
    ensures refused { IfErr result (λ e. (frames : List Frame) → Refuses (a_text_lem 2 function.now (meaning.text_or_field store.old.heap frames (text_at store.old.texts name.at) (values_seen store.old.texts given.now))) store.old store.new e) }
    ensures of { IfErr result (StopOf store.new) }
    ensures later { IsLater store.old store.new }
{
    match table_in(given) {
        Some(table) => {
            let field = [store.get(table, Value::Text(name))];
            a_text(alloc, store, 2, function, &field)
        }
        None => a_text(alloc, store, 2, function, given),
    }
}
