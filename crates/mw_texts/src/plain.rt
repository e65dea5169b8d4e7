//! `decode`, `nowiki` and `truncate` (Scribunto, Text library).
ghost use Rattle.mw_ustrings.specs.LuaStoreParts.{IsLater};
ghost use Rattle.mw_ustrings.specs.LuaBasicSeen.{values_seen, AllOf, Paid, AnswerOf};
ghost use Rattle.std.specs.Prelude.{◌≡◌, ◌++◌, IsUtf8, chars, encode_utf8_all, IfOk};
ghost use Rattle.mw_text.specs.Decode.{decoded};
ghost use Rattle.mw_text.specs.Joined.{truncated};
ghost use Rattle.mw_text.specs.References.{nowiki_of};
ghost use Rattle.mw_ustrings.specs.LuaMeaningArguments.{gives_text};
ghost use Rattle.mw_ustrings.specs.LuaMeaningTexts as meaning;

use crate::paying::{pay_decoded, pay_nowiki};
use lua_string::text::push_all;
use lua_string::{List, NoMemory};
use mw_text::joining::room;
use mw_text::{count_points, first_points, points_behind};
use mw_ustrings::arguments::{utf8_text, utf8_text_or};
use mw_ustrings::giving::text_value;
use mw_ustrings::{Left, Stop, Store, Value, a_number, a_text, is_true, pay_texts, rest, third};
use std::alloc::Global;

/// A text is given with its character references as the code points, after what that costs.
fn give_decoded(
    alloc: Global,
    store: &mut Store,
    left: &mut Left,
    s: &[u8],
) -> Result<List<Value>, Stop>
    ensures answer { Paid (gives_text store.old.heap (decoded s.now)) store.old left.old
        store.new left.new result }
    ensures of { AnswerOf store.new result }
    ensures later { IsLater store.old store.new }
{
    pay_decoded(left, s)?;
    let made = mw_text::decode(alloc, s)?;
    let values = text_value(alloc, store, made.as_slice())?;
    Ok(values)
}

/// `mw.text.decode(s)`: the text with its character references as the code points.
pub fn decode(
    alloc: Global,
    store: &mut Store,
    left: &mut Left,
    args: &[Value],
) -> Result<List<Value>, Stop>
    requires { AllOf store.old args.now }
    ensures answer { Paid (meaning.decode (values_seen store.old.texts args.now) store.old.heap)
        store.old left.old store.new left.new result }
    ensures of { AnswerOf store.new result }
    ensures later { IsLater store.old store.new }
{
    let text = a_text(alloc, store, 1, b"decode", args)?;
    give_decoded(alloc, store, left, text.as_slice())
}

/// A text is given with what wikitext would read as markup by number, after what that costs.
fn give_nowiki(
    alloc: Global,
    store: &mut Store,
    left: &mut Left,
    s: &[u8],
) -> Result<List<Value>, Stop>
    ensures answer { Paid (gives_text store.old.heap (nowiki_of s.now)) store.old left.old
        store.new left.new result }
    ensures of { AnswerOf store.new result }
    ensures later { IsLater store.old store.new }
{
    pay_nowiki(left, s)?;
    let made = mw_text::nowiki(alloc, s)?;
    let values = text_value(alloc, store, made.as_slice())?;
    Ok(values)
}

/// `mw.text.nowiki(s)`: the text with what wikitext would read as markup by number.
pub fn nowiki(
    alloc: Global,
    store: &mut Store,
    left: &mut Left,
    args: &[Value],
) -> Result<List<Value>, Stop>
    requires { AllOf store.old args.now }
    ensures answer { Paid (meaning.nowiki (values_seen store.old.texts args.now) store.old.heap)
        store.old left.old store.new left.new result }
    ensures of { AnswerOf store.new result }
    ensures later { IsLater store.old store.new }
{
    let text = a_text(alloc, store, 1, b"nowiki", args)?;
    give_nowiki(alloc, store, left, text.as_slice())
}

/// The two pieces that stand behind one another in a shortened text.
fn shortened<'t>(s: &'t [u8], n: i64, ellipsis: &'t [u8], adjust: bool) -> (&'t [u8], &'t [u8])
    requires text { IsUtf8 s.now }
    requires ellipsis { IsUtf8 ellipsis.now }
    ensures { result.0.now ++ result.1.now
        ≡ encode_utf8_all (truncated (chars s.now) n (chars ellipsis.now) adjust) }
{
    let count = count_points(s);
    if count as u64 <= n.unsigned_abs() {
        return (s, &[]);
    }
    let kept = room(adjust, n.unsigned_abs() as usize, ellipsis);
    if n < 0 {
        return (ellipsis, points_behind(s, count.saturating_sub(kept)));
    }
    (first_points(s, kept), ellipsis)
}

/// Two texts, one behind the other.
fn both(alloc: Global, first: &[u8], second: &[u8]) -> Result<Vec<u8>, NoMemory>
    ensures { IfOk result (λ made. made.items ≡ first.now ++ second.now) }
{
    let mut made = Vec::new(alloc);
    push_all(&mut made, first)?;
    push_all(&mut made, second)?;
    Ok(made)
}

/// A text is given shortened, after what that costs.
fn give_truncated(
    alloc: Global,
    store: &mut Store,
    left: &mut Left,
    s: &[u8],
    n: i64,
    ellipsis: &[u8],
    adjust: bool,
) -> Result<List<Value>, Stop>
    requires text { IsUtf8 s.now }
    requires ellipsis { IsUtf8 ellipsis.now }
    ensures answer { Paid
        (gives_text store.old.heap
        (encode_utf8_all (truncated (chars s.now) n (chars ellipsis.now) adjust)))
        store.old left.old store.new left.new result }
    ensures of { AnswerOf store.new result }
    ensures later { IsLater store.old store.new }
{
    let (first, second) = shortened(s, n, ellipsis, adjust);
    pay_texts(left, first, second)?;
    let made = both(alloc, first, second)?;
    let values = text_value(alloc, store, made.as_slice())?;
    Ok(values)
}

/// `mw.text.truncate(s, n, ellipsis, adjust)`: a text of at most `|n|` code points as it is; else its first `n` with the ellipsis
/// behind them, by default `...`, or below 0 its last `-n` with the ellipsis before them.
pub fn truncate(
    alloc: Global,
    store: &mut Store,
    left: &mut Left,
    args: &[Value],
) -> Result<List<Value>, Stop>
    requires { AllOf store.old args.now }
    ensures answer { Paid (meaning.truncate (values_seen store.old.texts args.now) store.old.heap)
        store.old left.old store.new left.new result }
    ensures of { AnswerOf store.new result }
    ensures later { IsLater store.old store.new }
{
    let text = utf8_text(alloc, store, 1, b"truncate", args)?;
    let others = rest(args);
    let length = a_number(alloc, store, 2, b"truncate", others)?;
    let ellipsis = utf8_text_or(alloc, store, b"...", 3, b"truncate", rest(others))?;
    let adjust = is_true(third(others));
    give_truncated(
        alloc,
        store,
        left,
        text.as_slice(),
        length,
        ellipsis.as_slice(),
        adjust,
    )
}
