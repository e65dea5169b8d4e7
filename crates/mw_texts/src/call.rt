//! A function of `mw.text` is called.
ghost use Rattle.mw_ustrings.specs.LuaStoreParts.{IsLater};
ghost use Rattle.mw_ustrings.specs.LuaBasicSeen.{values_seen, AllOf, Paid, AnswerOf};
ghost use Rattle.mw_ustrings.specs.MwFramesScenes.{NamesOf};
ghost use Rattle.mw_texts.specs.Table.{given_by, answer_of};

use crate::listing::list_to_text;
use crate::plain::{decode, nowiki, truncate};
use crate::sets::{encode, trim};
use crate::splitting::split;
use crate::table::TextFunction;
use crate::tagging::tag;
use lua_string::List;
use mw_ustrings::{FieldNames, Left, Stop, Store, Value, pay_given};
use std::alloc::Global;

/// What a function gives behind the charge of its arguments.
fn give(
    alloc: Global,
    store: &mut Store,
    left: &mut Left,
    names: FieldNames,
    which: TextFunction,
    args: &[Value],
) -> Result<List<Value>, Stop>
    requires args { AllOf store.old args.now }
    requires names { NamesOf store.old names }
    ensures answer { Paid (given_by which (values_seen store.old.texts args.now) store.old.heap)
        store.old left.old store.new left.new result }
    ensures of { AnswerOf store.new result }
    ensures later { IsLater store.old store.new }
{
    match which {
        TextFunction::Trim => trim(alloc, store, left, args),
        TextFunction::Split => split(alloc, store, left, args),
        TextFunction::Encode => encode(alloc, store, left, args),
        TextFunction::Decode => decode(alloc, store, left, args),
        TextFunction::ListToText => list_to_text(alloc, store, left, args),
        TextFunction::Nowiki => nowiki(alloc, store, left, args),
        TextFunction::Tag => tag(alloc, store, left, names, args),
        TextFunction::Truncate => truncate(alloc, store, left, args),
    }
}

/// What a function of `mw.text` gives for these arguments, after its charge, of which the bytes of the arguments that are strings come
/// first. `names` are those of the fields that `tag` reads.
///
/// It is `Stop::Raised` exactly where it raises and its charge is covered, with the level whose place the caller puts in front, and
/// `Stop::Spent` exactly where its charge is not covered; then the store is as it was.
pub fn text_call(
    alloc: Global,
    store: &mut Store,
    left: &mut Left,
    names: FieldNames,
    which: TextFunction,
    args: &[Value],
) -> Result<List<Value>, Stop>
    requires args { AllOf store.old args.now }
    requires names { NamesOf store.old names }
    ensures answer { Paid (answer_of which (values_seen store.old.texts args.now) store.old.heap)
        store.old left.old store.new left.new result }
    ensures of { AnswerOf store.new result }
    ensures later { IsLater store.old store.new }
{
    pay_given(store, left, args)?;
    give(alloc, store, left, names, which, args)
}
