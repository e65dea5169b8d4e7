//! `split` (Scribunto, mw.text.split).
ghost use Rattle.std.specs.Prelude.{◌≡◌, ◌+◌, length, IsUtf8};
ghost use Rattle.mw_text.specs.Split.{sought_by};
ghost use Rattle.mw_ustrings.specs.LuaStoreParts.{IsLater};
ghost use Rattle.mw_ustrings.specs.LuaBasicSeen.{values_seen, AllOf, Paid, AnswerOf};
ghost use Rattle.mw_ustrings.specs.MwFramesCosts.{Pays};
ghost use Rattle.mw_ustrings.specs.LuaMeaningTexts as meaning;
ghost use Rattle.mw_ustrings.specs.LuaMeaningCharges.{entry_charge};

use crate::tables::{split_texts, text_table};
use lua_string::List;
use mw_text::{Bytes, PartsAnswer};
use mw_ustrings::arguments::{refuse_pattern, utf8_text};
use mw_ustrings::giving::spend;
use mw_ustrings::{
    ENTRY_CHARGE, Left, Stop, Store, TABLE_CHARGE, Value, is_true, pay, rest, second, single,
};
use std::alloc::Global;

/// Takes what a part costs: its entry and its bytes.
fn pay_part(left: &mut Left, part: &[u8]) -> Result<(), Stop>
    ensures { Pays (entry_charge + length part.now) left.old left.new result }
{
    pay(left, ENTRY_CHARGE)?;
    pay(left, part.len() as u64)
}

/// Takes what parts cost.
fn pay_parts(left: &mut Left, parts: &[Bytes]) -> Result<(), Stop>
    ensures { Pays (meaning.parts_charge parts.now) left.old left.new result }
{
    let mut rest = parts;
    'each: while let Some((part, more)) = split_texts(rest) {
        pay_part(left, part.as_slice())?;
        rest = more;
    }
    Ok(())
}

/// A table with the parts is given, after the tries, the table, and the parts.
fn give_parts(
    alloc: Global,
    store: &mut Store,
    left: &mut Left,
    parts: &[Bytes],
    tries: u64,
) -> Result<List<Value>, Stop>
    ensures answer { Paid (meaning.gives_parts store.old.heap tries parts.now) store.old left.old
        store.new left.new result }
    ensures of { AnswerOf store.new result }
    ensures later { IsLater store.old store.new }
{
    pay(left, tries)?;
    pay(left, TABLE_CHARGE)?;
    pay_parts(left, parts)?;
    let table = text_table(store, parts)?;
    let values = single(alloc, Value::Table(table))?;
    Ok(values)
}

/// A text is split, where the pattern has been paid for.
fn split_paid(
    alloc: Global,
    store: &mut Store,
    left: &mut Left,
    s: &[u8],
    pattern: &[u8],
    plain: bool,
) -> Result<List<Value>, Stop>
    requires text { IsUtf8 s.now }
    requires pattern { IsUtf8 pattern.now }
    ensures answer { Paid (meaning.splits store.old.heap s.now (sought_by plain pattern.now))
        store.old left.old store.new left.new result }
    ensures of { AnswerOf store.new result }
    ensures later { IsLater store.old store.new }
{
    match mw_text::split(alloc, s, pattern, plain, left.steps) {
        Err(fault) => Err(refuse_pattern(alloc, store, fault)),
        Ok(PartsAnswer::Spent) => Err(spend(left)),
        Ok(PartsAnswer::Parts(parts, tries)) => {
            give_parts(alloc, store, left, parts.as_slice(), tries)
        }
    }
}

/// What it costs to read what stands between the parts.
fn pattern_cost(plain: bool, pattern: &[u8]) -> u64
    ensures { result ≡ meaning.pattern_charge plain pattern.now }
{
    if plain {
        return 0;
    }
    pattern.len() as u64
}

/// A text is split.
fn split_by(
    alloc: Global,
    store: &mut Store,
    left: &mut Left,
    s: &[u8],
    pattern: &[u8],
    plain: bool,
) -> Result<List<Value>, Stop>
    requires text { IsUtf8 s.now }
    requires pattern { IsUtf8 pattern.now }
    ensures answer { Paid (meaning.splits_by store.old.heap plain s.now pattern.now) store.old
        left.old store.new left.new result }
    ensures of { AnswerOf store.new result }
    ensures later { IsLater store.old store.new }
{
    pay(left, pattern_cost(plain, pattern))?;
    split_paid(alloc, store, left, s, pattern, plain)
}

/// `mw.text.split(s, pattern, plain)`: a table with the parts between the matches of a pattern over code points, or with `plain`
/// between the places of the text `pattern`.
pub fn split(
    alloc: Global,
    store: &mut Store,
    left: &mut Left,
    args: &[Value],
) -> Result<List<Value>, Stop>
    requires { AllOf store.old args.now }
    ensures answer { Paid (meaning.split (values_seen store.old.texts args.now) store.old.heap)
        store.old left.old store.new left.new result }
    ensures of { AnswerOf store.new result }
    ensures later { IsLater store.old store.new }
{
    let text = utf8_text(alloc, store, 1, b"split", args)?;
    let others = rest(args);
    let pattern = utf8_text(alloc, store, 2, b"split", others)?;
    let plain = is_true(second(others));
    split_by(
        alloc,
        store,
        left,
        text.as_slice(),
        pattern.as_slice(),
        plain,
    )
}
