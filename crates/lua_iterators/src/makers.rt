//! The functions that make iterators: `string.gmatch` (manual 5.4), `mw.ustring.gmatch`, `mw.ustring.gcodepoint` and `mw.text.gsplit`
//! (Scribunto). They read their arguments, and test UTF-8; patterns are read by the steps.
ghost use Rattle.std.specs.Prelude.{IsUtf8, encode_utf8_all};
ghost use Rattle.mw_ustrings.specs.MwUstringTexts.{points_of};
ghost use Rattle.lua_strings.specs.LuaMeaningIterators as meaning;
ghost use Rattle.lua_strings.specs.LuaStoreParts.{IsLater};
ghost use Rattle.lua_strings.specs.LuaBasicSeen.{values_seen, AllOf, Paid, AnswerOf};

use crate::making::{make_by_pattern, make_gcodepoint};
use lua_string::List;
use lua_strings::{
    Left, Library, Stop, Store, Value, a_text, first, is_true, number_or, rest, second,
};
use mw_text::mw_ustring_part as part;
use mw_ustrings::arguments::utf8_text;
use std::alloc::Global;

/// `string.gmatch(s, pattern)`: an iterator over the matches of a pattern.
pub fn gmatch(
    alloc: Global,
    store: &mut Store,
    left: &mut Left,
    args: &[Value],
) -> Result<List<Value>, Stop>
    requires { AllOf store.old args.now }
    ensures answer { Paid (meaning.gmatch (values_seen store.old.texts args.now) store.old.heap)
        store.old left.old store.new left.new result }
    ensures of { AnswerOf store.new result }
    ensures later { IsLater store.old store.new }
{
    let text = a_text(alloc, store, 1, b"gmatch", args)?;
    let others = rest(args);
    let pattern = a_text(alloc, store, 2, b"gmatch", others)?;
    make_by_pattern(
        alloc,
        store,
        left,
        Library::GmatchStep,
        first(args),
        text.as_slice(),
        first(others),
        pattern.as_slice(),
        Value::Number(0),
    )
}

/// `mw.ustring.gmatch(s, pattern)`: an iterator over the matches of a pattern over code points.
pub fn ustring_gmatch(
    alloc: Global,
    store: &mut Store,
    left: &mut Left,
    args: &[Value],
) -> Result<List<Value>, Stop>
    requires { AllOf store.old args.now }
    ensures answer { Paid
        (meaning.ustring_gmatch (values_seen store.old.texts args.now) store.old.heap) store.old
        left.old store.new left.new result }
    ensures of { AnswerOf store.new result }
    ensures later { IsLater store.old store.new }
{
    let text = utf8_text(alloc, store, 1, b"gmatch", args)?;
    let others = rest(args);
    let pattern = utf8_text(alloc, store, 2, b"gmatch", others)?;
    make_by_pattern(
        alloc,
        store,
        left,
        Library::UstringGmatchStep,
        first(args),
        text.as_slice(),
        first(others),
        pattern.as_slice(),
        Value::Number(0),
    )
}

/// `mw.text.gsplit(s, pattern, plain)`: an iterator over the parts between the matches of a pattern over code points, or with `plain`
/// between the places of the text `pattern`.
pub fn gsplit(
    alloc: Global,
    store: &mut Store,
    left: &mut Left,
    args: &[Value],
) -> Result<List<Value>, Stop>
    requires { AllOf store.old args.now }
    ensures answer { Paid (meaning.gsplit (values_seen store.old.texts args.now) store.old.heap)
        store.old left.old store.new left.new result }
    ensures of { AnswerOf store.new result }
    ensures later { IsLater store.old store.new }
{
    let text = utf8_text(alloc, store, 1, b"gsplit", args)?;
    let others = rest(args);
    let pattern = utf8_text(alloc, store, 2, b"gsplit", others)?;
    let plain = is_true(second(others));
    make_by_pattern(
        alloc,
        store,
        left,
        Library::GsplitStep,
        first(args),
        text.as_slice(),
        first(others),
        pattern.as_slice(),
        Value::Bool(plain),
    )
}

/// An iterator over the code points from one place to another.
fn make_points(
    alloc: Global,
    store: &mut Store,
    left: &mut Left,
    s: &[u8],
    from: i64,
    to: i64,
) -> Result<List<Value>, Stop>
    requires { IsUtf8 s.now }
    ensures answer { Paid
        (meaning.make_gcodepoint (encode_utf8_all (points_of s.now from to)) store.old.heap)
        store.old left.old store.new left.new result }
    ensures of { AnswerOf store.new result }
    ensures later { IsLater store.old store.new }
{
    make_gcodepoint(alloc, store, left, part(s, from, to))
}

/// `mw.ustring.gcodepoint(s, i, j)`: an iterator over the code points from place i, by default 1, to place j, by default -1.
pub fn gcodepoint(
    alloc: Global,
    store: &mut Store,
    left: &mut Left,
    args: &[Value],
) -> Result<List<Value>, Stop>
    requires { AllOf store.old args.now }
    ensures answer { Paid (meaning.gcodepoint (values_seen store.old.texts args.now) store.old.heap)
        store.old left.old store.new left.new result }
    ensures of { AnswerOf store.new result }
    ensures later { IsLater store.old store.new }
{
    let text = utf8_text(alloc, store, 1, b"gcodepoint", args)?;
    let others = rest(args);
    let from = number_or(alloc, store, 1, 2, b"gcodepoint", others)?;
    let to = number_or(alloc, store, -1, 3, b"gcodepoint", rest(others))?;
    make_points(alloc, store, left, text.as_slice(), from, to)
}
