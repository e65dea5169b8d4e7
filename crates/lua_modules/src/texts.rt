//! Arguments that are texts, and titles that texts are read as.
ghost use Rattle.std.specs.Prelude.{◌≡◌, codes, IfOk};
ghost use Rattle.lua_code.specs.WkBaseTitles.{title_of};
ghost use Rattle.lua_code.specs.WkBaseDeclaredTitleNamespaceTheVariants.{Main};
ghost use Rattle.lua_state.specs.LuaMeaningMessages as meaning;
ghost use Rattle.lua_state.specs.LuaSlotsErrors.{fails};
ghost use Rattle.lua_state.specs.LuaStackSeen.{values_seen};
ghost use Rattle.lua_state.specs.Makes.{Makes};
ghost use Rattle.lua_state.specs.Of.{StateOf};
ghost use Rattle.lua_state.specs.Seen.{frames_of, slots_of};
ghost use Rattle.lua_modules.specs.Read.{title_read};

use lua_code::{Namespace, NoMemory};
use lua_state::{Left, State, Store, Turn, Value, bad_argument, expected, fail};
use mw_frame::{Title, TitleFault};
use std::alloc::Global;

/// The title that a text is read as, if it is one.
pub fn read_title(alloc: Global, text: &[u8]) -> Result<Option<Title>, NoMemory>
    ensures { IfOk result (λ title. title ≡ title_read (title_of text.now Main)) }
{
    match Title::read(alloc, text, Namespace::Main) {
        Ok(title) => Ok(Some(title)),
        Err(TitleFault::NoMemory) => Err(NoMemory),
        Err(TitleFault::Empty) => Ok(None),
        Err(TitleFault::BadByte) => Ok(None),
        Err(TitleFault::TooLong) => Ok(None),
    }
}

/// The first argument of a function is no text.
pub fn refuse<'m>(
    alloc: Global,
    store: &mut Store,
    left: &mut Left,
    state: &State<'m>,
    function: &[u8],
    given: &[Value],
    line: Option<u32>,
) -> Result<Turn<'m>, NoMemory>
    requires { StateOf store.old state.now }
    ensures { IfOk result (λ r. Makes store.old state.now left.old store.new state.now left.new
        (fails line (meaning.bad_argument 1 function.now (meaning.expected (codes "string") (values_seen store.old.texts given.now))) (frames_of store.old state.now) (slots_of store.old state.now)) r) }
{
    let why = expected(alloc, b"string", given)?;
    let reason = why.as_slice();
    let message = bad_argument(alloc, 1, function, reason)?;
    let said = message.as_slice();
    let turn = fail(alloc, store, left, state, line, said)?;
    Ok(turn)
}
