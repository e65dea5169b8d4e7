//! Functions of the library that see the frames of a run (Scribunto, Frame object).
ghost use Rattle.std.specs.Prelude.{◌≡◌, ◌∷◌, ℕ, List, IfOk};
ghost use Rattle.page_run.specs.WkBaseDeclaredLeftLeft.{Left as Allowance};
ghost use Rattle.lua_modules.specs.LuaSlotsErrors.{fails_quoting};
ghost use Rattle.lua_code.specs.LuaSlotsLibraries as machine;
ghost use Rattle.lua_modules.specs.LuaSlotsPoints.{Asking, Hears, Now};
ghost use Rattle.lua_tables.specs.LuaStoreParts.{IsTextOf};
ghost use Rattle.lua_tables.specs.LuaStoreSeen.{StoreView, text_at};
ghost use Rattle.lua_modules.specs.LuaStackOf.{AskedOf, ValuesOf};
ghost use Rattle.lua_modules.specs.LuaStackSeen.{asked_seen, values_seen};
ghost use Rattle.mw_frame_calls.specs.Seen.{awaited_seen, end_seen, scenes_seen, AnswerOf, AwaitedOf, FrameAnswerOf};
ghost use Rattle.mw_frame_calls.specs.Table.{framed_of};
ghost use Rattle.lua_modules.specs.LuaStateMakes.{LateMakes, Makes};
ghost use Rattle.lua_modules.specs.LuaStateOf.{StateOf};
ghost use Rattle.lua_modules.specs.LuaStateSeen.{frames_of, slots_of};
ghost use Rattle.lua_calls.specs.Ends.{FramedEndsAs};

use lua_acts::exits::{give_all, one};
use lua_acts::{pairs, refuse};
use lua_code::NoMemory;
use lua_modules::{Asked, Focus, Frame, State, Turn, Values, boxed, fail_quoting};
use lua_tables::{Left, Stop, Store, TextId};
use mw_frame::Ask;
use mw_frame_calls::{Awaited, FrameAnswer, FrameFunction, frame_call};
use std::alloc::Global;

/// What waits for the answer of a question, as a frame of the machine holds it.
fn asked_of(awaited: Awaited) -> Asked
    ensures of { (s : StoreView) → AwaitedOf s awaited → AskedOf s result }
    ensures seen { (texts : List (List ℕ)) → asked_seen texts result ≡ awaited_seen texts awaited }
{
    match awaited {
        Awaited::Template(text) => Asked::Template(text),
        Awaited::Text => Asked::Text,
    }
}

/// A question is asked, and a function of the library that was called from this line waits for its answer.
fn ask<'m>(
    alloc: Global,
    store: &Store,
    state: &mut State<'m>,
    question: Ask,
    awaited: Awaited,
    line: Option<u32>,
) -> Result<Turn<'m>, NoMemory>
    requires state { StateOf store.now state.old }
    requires awaited { AwaitedOf store.now awaited }
    ensures { (l : Allowance) → IfOk result (λ r. Makes store.now state.old l store.now state.new l
        (Now (Asking question (Hears (awaited_seen store.now.texts awaited) line ∷ frames_of store.now state.old)) (slots_of store.now state.old)) r) }
{
    let asked = asked_of(awaited);
    state.frames.push(Frame::Hears(asked, line))?;
    let question = boxed(alloc, question)?;
    Ok(Turn::On(Focus::Asks(question)))
}

/// An error at this line whose message, a text of the store, quotes what the call was given.
fn quote<'m>(
    alloc: Global,
    store: &mut Store,
    left: &mut Left,
    state: &State<'m>,
    text: TextId,
    line: Option<u32>,
) -> Result<Turn<'m>, NoMemory>
    requires state { StateOf store.old state.now }
    requires text { IsTextOf store.old text }
    ensures { IfOk result (λ r. Makes store.old state.now left.old store.new state.now left.new
        (fails_quoting line (text_at store.old.texts text.at) (frames_of store.old state.now) (slots_of store.old state.now)) r) }
{
    let message = store.bytes(text);
    let turn = fail_quoting(alloc, store, left, state, line, message)?;
    Ok(turn)
}

/// What a function gives that sees the frames.
fn give_answer<'m>(
    alloc: Global,
    store: &mut Store,
    left: &mut Left,
    state: &mut State<'m>,
    answer: FrameAnswer,
    line: Option<u32>,
) -> Result<Turn<'m>, NoMemory>
    requires state { StateOf store.old state.old }
    requires answer { FrameAnswerOf store.old answer }
    ensures { IfOk result (λ r. Makes store.old state.old left.old store.new state.new left.new
        (machine.framed_end (end_seen store.old.texts answer) line (frames_of store.old state.old) (slots_of store.old state.old)) r) }
{
    match answer {
        FrameAnswer::Gives(values) => Ok(give_all(store, state, Values::of_list(values))),
        FrameAnswer::Quotes(text) => {
            let turn = quote(alloc, store, left, state, text, line)?;
            Ok(turn)
        }
        FrameAnswer::Asks(question, awaited) => ask(alloc, store, state, question, awaited, line),
        FrameAnswer::Walks(value) => {
            let arguments = one(alloc, value)?;
            let turn = pairs(alloc, store, left, state, arguments, line)?;
            Ok(turn)
        }
    }
}

/// The end of a function that sees the frames, whose charge is taken, and which was called from this line.
fn end_framed<'m>(
    alloc: Global,
    store: &mut Store,
    left: &mut Left,
    state: &mut State<'m>,
    answer: Result<FrameAnswer, Stop>,
    line: Option<u32>,
) -> Result<Turn<'m>, NoMemory>
    requires state { StateOf store.old state.old }
    requires answer { AnswerOf store.old answer }
    ensures { IfOk result (λ r. FramedEndsAs store.old state.old left.old line answer store.new state.new left.new r) }
{
    match answer {
        Ok(answer) => give_answer(alloc, store, left, state, answer, line),
        Err(stop) => {
            let turn = refuse(alloc, store, left, state, line, stop)?;
            Ok(turn)
        }
    }
}

/// A function that sees the frames.
pub fn framed<'m>(
    alloc: Global,
    store: &mut Store,
    left: &mut Left,
    state: &mut State<'m>,
    function: FrameFunction,
    arguments: Values,
    line: Option<u32>,
) -> Result<Turn<'m>, NoMemory>
    requires state { StateOf store.old state.old }
    requires arguments { ValuesOf store.old arguments }
    ensures { IfOk result (λ r. LateMakes store.old state.old left.old store.new state.new left.new
        (machine.framed (framed_of function (values_seen store.old.texts arguments) store.old.heap (scenes_seen state.old.scenes)) line (frames_of store.old state.old) (slots_of store.old state.old)) r) }
{
    let list = arguments.into_list();
    let answer = frame_call(
        alloc,
        store,
        left,
        &mut state.scenes,
        function,
        list.as_slice(),
    );
    let turn = end_framed(alloc, store, left, state, answer, line)?;
    Ok(turn)
}
