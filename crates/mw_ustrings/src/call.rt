//! A function of `mw.ustring` is called.
ghost use Rattle.mw_frame_texts.specs.LuaStoreParts.{IsLater};
ghost use Rattle.mw_frame_texts.specs.LuaBasicSeen.{values_seen, AllOf, Paid, AnswerOf};
ghost use Rattle.mw_ustrings.specs.Table.{given_by, answer_of};

use crate::char_of::char;
use crate::finding::{find, match_from};
use crate::forms::{to_nfc, to_nfd, to_nfkc, to_nfkd};
use crate::parts::{byteoffset, codepoint, sub};
use crate::table::UstringFunction;
use crate::wholes::{isutf8, len};
use lua_pattern::List;
use mw_frame_texts::costs::pay_given;
use mw_frame_texts::{Left, Stop, Store, Value};
use std::alloc::Global;

/// What a function gives behind the charge of its arguments.
fn give(
    alloc: Global,
    store: &mut Store,
    left: &mut Left,
    which: UstringFunction,
    args: &[Value],
) -> Result<List<Value>, Stop>
    requires { AllOf store.old args.now }
    ensures answer { Paid (given_by which (values_seen store.old.texts args.now) store.old.heap)
        store.old left.old store.new left.new result }
    ensures of { AnswerOf store.new result }
    ensures later { IsLater store.old store.new }
{
    match which {
        UstringFunction::Char => char(alloc, store, left, args),
        UstringFunction::Codepoint => codepoint(alloc, store, left, args),
        UstringFunction::Byteoffset => byteoffset(alloc, store, args),
        UstringFunction::Find => find(alloc, store, left, args),
        UstringFunction::Match => match_from(alloc, store, left, args),
        UstringFunction::Len => len(alloc, store, args),
        UstringFunction::Sub => sub(alloc, store, left, args),
        UstringFunction::IsUtf8 => isutf8(alloc, store, args),
        UstringFunction::ToNfc => to_nfc(alloc, store, left, args),
        UstringFunction::ToNfd => to_nfd(alloc, store, left, args),
        UstringFunction::ToNfkc => to_nfkc(alloc, store, left, args),
        UstringFunction::ToNfkd => to_nfkd(alloc, store, left, args),
    }
}

/// What a function of `mw.ustring` gives for these arguments, after its charge, of which the bytes of the arguments that are strings
/// come first.
///
/// It is `Stop::Raised` exactly where it raises and its charge is covered, with the level whose place the caller puts in front, and
/// `Stop::Spent` exactly where its charge is not covered; then the store is as it was.
pub fn ustring_call(
    alloc: Global,
    store: &mut Store,
    left: &mut Left,
    which: UstringFunction,
    args: &[Value],
) -> Result<List<Value>, Stop>
    requires { AllOf store.old args.now }
    ensures answer { Paid (answer_of which (values_seen store.old.texts args.now) store.old.heap)
        store.old left.old store.new left.new result }
    ensures of { AnswerOf store.new result }
    ensures later { IsLater store.old store.new }
{
    pay_given(store, left, args)?;
    give(alloc, store, left, which, args)
}
