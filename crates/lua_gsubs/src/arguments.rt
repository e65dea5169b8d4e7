//! The arguments of `gsub`, from the first to the last. Over code points each text must be in UTF-8.
ghost use Rattle.std.specs.Prelude.{◌≡◌, List as Items, ℕ, Ok, IfOk, IfErr, IfSome, OnOk, codes};
ghost use Rattle.std.specs.Option.{option_map};
ghost use Rattle.lua_replacing.specs.LuaMeaningGsub as meaning;
ghost use Rattle.lua_iterators.specs.LuaMeaningArguments.{number_or as number_or_of};
ghost use Rattle.lua_replacing.specs.LuaStoreParts.{IsOf, IsLater};
ghost use Rattle.lua_replacing.specs.LuaStoreSeen.{StoreView, seen};
ghost use Rattle.mw_text.specs.LuaStringTexts.{how_many};
ghost use Rattle.lua_iterators.specs.LuaBasicArguments.{text_bytes};
ghost use Rattle.lua_iterators.specs.LuaBasicSeen.{values_seen, AllOf, StopOf, Refuses};
ghost use Rattle.lua_replacing.specs.Seen.{replacer_seen, ReplacerOf};
ghost use Rattle.lua_gsubs.specs.Given.{by_seen, given_seen, replacer_in, ByOf};
ghost use Rattle.lua_gsubs.specs.Table.{alphabet_of};

use crate::table::GsubFunction;
use lua_iterators::{Stop, Store, TextIn, a_text, first, number_or, rest, utf8_text};
use lua_number::NoMemory;
use lua_replacing::{Replacer, Value};
use std::alloc::Global;

/// By what a match is replaced: a text, or what is asked for.
#[derive(Drop)]
pub enum By<'b> {
    Text(TextIn<'b>),
    Asked(Replacer),
}

/// What is given to `gsub`: a text, a pattern, by what its matches are replaced, and at most how many of them.
#[derive(Drop)]
pub struct GivenIn<'b> {
    pub subject: TextIn<'b>,
    pub pattern: TextIn<'b>,
    pub by: By<'b>,
    pub limit: u64,
}

/// An argument that must be a text.
fn a_gsub_text<'b>(
    alloc: Global,
    store: &mut Store<'b>,
    which: GsubFunction,
    n: u8,
    given: &[Value],
) -> Result<TextIn<'b>, Stop>
    requires { AllOf store.old given.now }
    ensures found { IfOk result (λ text.
        meaning.text_in_alphabet (alphabet_of which) n (values_seen store.old.texts given.now)
        ≡ Ok (text_bytes text)) }
    ensures same { OnOk result (store.new ≡ store.old) }
    ensures refused { IfErr result (Refuses
        (meaning.text_in_alphabet (alphabet_of which) n (values_seen store.old.texts given.now))
        store.old store.new) }
    ensures of { IfErr result (StopOf store.new) }
    ensures later { IsLater store.old store.new }
{
    match which {
        GsubFunction::OfBytes => a_text(alloc, store, n, b"gsub", given),
        GsubFunction::OfPoints => utf8_text(alloc, store, n, b"gsub", given),
    }
}

/// What is asked for a replacement, where this value is a table or a function.
fn replacer_of(value: Value) -> Option<Replacer>
    ensures of { (s : StoreView) → IsOf s value → IfSome result (ReplacerOf s) }
    ensures replacer { (texts : Items (Items ℕ))
        → replacer_in (seen texts value) ≡ option_map (replacer_seen texts) result }
{
    match value {
        Value::Table(id) => Some(Replacer::Table(id)),
        Value::Closure(id) => Some(Replacer::Function(Value::Closure(id))),
        Value::Builtin(which) => Some(Replacer::Function(Value::Builtin(which))),
        Value::Nil => None,
        Value::Bool(_) => None,
        Value::Number(_) => None,
        Value::Text(_) => None,
        Value::Markup(_) => None,
    }
}

/// By what a match is replaced, as the third argument.
fn a_replacement<'b>(
    alloc: Global,
    store: &mut Store<'b>,
    which: GsubFunction,
    given: &[Value],
) -> Result<By<'b>, Stop>
    requires { AllOf store.old given.now }
    ensures found { IfOk result (λ by.
        meaning.a_replacement (alphabet_of which) (values_seen store.old.texts given.now)
        ≡ Ok (by_seen store.old.texts by)) }
    ensures by { IfOk result (ByOf store.old) }
    ensures same { OnOk result (store.new ≡ store.old) }
    ensures refused { IfErr result (Refuses
        (meaning.a_replacement (alphabet_of which) (values_seen store.old.texts given.now))
        store.old store.new) }
    ensures of { IfErr result (StopOf store.new) }
    ensures later { IsLater store.old store.new }
{
    match replacer_of(first(given)) {
        Some(replacer) => Ok(By::Asked(replacer)),
        None => match a_gsub_text(alloc, store, which, 3, given) {
            Ok(text) => Ok(By::Text(text)),
            Err(stop) => Err(stop),
        },
    }
}

/// As many matches as there can be in a text. One that does not fit a number is that of no text in memory.
fn all_of(s: &[u8]) -> Result<i64, NoMemory>
    ensures { IfOk result (λ n. n ≡ meaning.all_of s.now) }
{
    match i64::try_from(s.len()) {
        Err(_) => Err(NoMemory),
        Ok(size) => match size.checked_add(1) {
            Some(all) => Ok(all),
            None => Err(NoMemory),
        },
    }
}

/// A number of matches; none below 1.
fn count_of(n: i64) -> u64
    ensures { result ≡ how_many n }
{
    if n < 0 { 0 } else { n.unsigned_abs() }
}

/// How many matches are replaced at most, as the fourth argument.
fn a_limit(alloc: Global, store: &mut Store, s: &[u8], given: &[Value]) -> Result<i64, Stop>
    requires { AllOf store.old given.now }
    ensures found { IfOk result (λ z.
        number_or_of (meaning.all_of s.now) 4 (codes "gsub") (values_seen store.old.texts given.now)
        ≡ Ok z) }
    ensures same { OnOk result (store.new ≡ store.old) }
    ensures refused { IfErr result (Refuses
        (number_or_of (meaning.all_of s.now) 4 (codes "gsub")
        (values_seen store.old.texts given.now))
        store.old store.new) }
    ensures of { IfErr result (StopOf store.new) }
    ensures later { IsLater store.old store.new }
{
    match all_of(s) {
        Err(_) => Err(Stop::NoMemory),
        Ok(all) => number_or(alloc, store, all, 4, b"gsub", given),
    }
}

/// What is given to `gsub`.
pub fn read_given<'b>(
    alloc: Global,
    store: &mut Store<'b>,
    which: GsubFunction,
    args: &[Value],
) -> Result<GivenIn<'b>, Stop>
    requires { AllOf store.old args.now }
    ensures found { IfOk result (λ g.
        meaning.given_in (alphabet_of which) (values_seen store.old.texts args.now)
        ≡ Ok (given_seen store.old.texts g)) }
    ensures by { IfOk result (λ g. ByOf store.old g.by) }
    ensures same { OnOk result (store.new ≡ store.old) }
    ensures refused { IfErr result (Refuses
        (meaning.given_in (alphabet_of which) (values_seen store.old.texts args.now)) store.old
        store.new) }
    ensures of { IfErr result (StopOf store.new) }
    ensures later { IsLater store.old store.new }
{
    let subject = a_gsub_text(alloc, store, which, 1, args)?;
    let others = rest(args);
    let pattern = a_gsub_text(alloc, store, which, 2, others)?;
    let more = rest(others);
    let by = a_replacement(alloc, store, which, more)?;
    let limit = a_limit(alloc, store, subject.as_slice(), rest(more))?;
    Ok(GivenIn {
        subject,
        pattern,
        by,
        limit: count_of(limit),
    })
}
