//! The strings among values, each of them once, with how often it stands there. So a sort compares none of them with itself, however
//! long they are, and gives back those that it was given.
ghost use Rattle.std.specs.Prelude.{◌≡◌, ◌<◌, ◌++◌, ◌∷◌, [], ℕ, ◌+◌, List as Items, Some, map, length, replicate, slice_get, unwrap_or, IfOk, IfSome, OnOk};
ghost use Rattle.std.specs.List.{AllByRecursion};
ghost use Rattle.std.specs.List.Sorted.{IsPermutation};
ghost use Rattle.std.specs.Map.{lookup};
ghost use Rattle.indexmap.specs.IndexMap.{insert_entry};
ghost use Rattle.lua_basic.specs.LuaStoreContractsIdsTextIdPartialEqTheImpl.{ghosts};
ghost use Rattle.lua_basic.specs.LuaStoreDeclaredValueValueTheVariants as own;
ghost use Rattle.lua_basic.specs.LuaStoreParts.{IsOf, IsTextOf};
ghost use Rattle.lua_basic.specs.LuaStoreSeen.{StoreView, seen, text_at};
ghost use Rattle.lua_basic.specs.Seen.{values_seen, AllOf};
ghost use Rattle.lua_tables.specs.Kinds.{texts_in};
ghost use Rattle.lua_tables.specs.Repeated.{repeated, counted_seen, spread, texts_found, AreTextsOf, named_seen, named_values, IsNamedOf};

use crate::places::split;
use indexmap::IndexMap;
use lua_basic::{List, Store, TextId, Value};
use lua_number::NoMemory;
use std::alloc::Global;

/// A string with its bytes, and how often it stands among values.
#[derive(Clone, Copy)]
pub struct Named<'b> {
    pub bytes: &'b [u8],
    pub text: TextId,
    pub count: usize,
}

/// How often a string was counted so far.
fn count_of(counts: &IndexMap<TextId, usize>, text: TextId) -> usize
    ensures { result ≡ unwrap_or (lookup (ghosts.eq text) counts.now.entries) 0 }
{
    match counts.get(&text) {
        Some(count) => *count,
        None => 0,
    }
}

/// The count behind one.
fn next_count(count: usize) -> Result<usize, NoMemory>
    ensures { IfOk result (λ next. next ≡ count + 1) }
{
    match count.checked_add(1) {
        Some(next) => Ok(next),
        None => Err(NoMemory),
    }
}

/// A string has been counted so often.
fn put(counts: &mut IndexMap<TextId, usize>, text: TextId, count: usize) -> Result<(), NoMemory>
    ensures { OnOk result (counts.new.entries ≡ insert_entry ghosts.eq counts.old.entries text count) }
{
    match counts.insert(text, count) {
        Ok(_) => Ok(()),
        Err(_) => Err(NoMemory),
    }
}

/// Counts a string once more.
fn add(counts: &mut IndexMap<TextId, usize>, text: TextId) -> Result<(), NoMemory>
    ensures added { OnOk result ((texts : Items (Items ℕ)) → IsPermutation (text_at texts text.at ∷ spread texts counts.old.entries) (spread texts counts.new.entries)) }
    ensures of { OnOk result ((s : StoreView) → IsTextOf s text → AreTextsOf s counts.old.entries → AreTextsOf s counts.new.entries) }
{
    let count = next_count(count_of(counts, text))?;
    put(counts, text, count)?;
    Ok(())
}

/// The string that a value is, if it is one.
fn text_in(value: Value) -> Option<TextId>
    ensures texts { (texts : Items (Items ℕ)) → texts_in (seen texts value ∷ []) ≡ texts_found texts result }
    ensures of { (s : StoreView) → IsOf s value → IfSome result (IsTextOf s) }
{
    match value {
        Value::Text(text) => Some(text),
        Value::Number(_) => None,
        Value::Nil => None,
        Value::Bool(_) => None,
        Value::Table(_) => None,
        Value::Closure(_) => None,
        Value::Builtin(_) => None,
        Value::Markup(_) => None,
    }
}

/// Counts a value once more, if it is a string.
fn add_value(counts: &mut IndexMap<TextId, usize>, value: Value) -> Result<(), NoMemory>
    ensures added { OnOk result ((texts : Items (Items ℕ)) → IsPermutation (texts_in (seen texts value ∷ []) ++ spread texts counts.old.entries) (spread texts counts.new.entries)) }
    ensures of { OnOk result ((s : StoreView) → IsOf s value → AreTextsOf s counts.old.entries → AreTextsOf s counts.new.entries) }
{
    match text_in(value) {
        Some(text) => {
            add(counts, text)?;
            Ok(())
        }
        None => Ok(()),
    }
}

/// The strings among values, with how often each stands there.
pub(crate) fn counted(alloc: Global, values: &[Value]) -> Result<IndexMap<TextId, usize>, NoMemory>
    ensures counts { IfOk result (λ counts. (texts : Items (Items ℕ)) → IsPermutation (texts_in (values_seen texts values.now)) (spread texts counts.entries)) }
    ensures of { IfOk result (λ counts. (s : StoreView) → AllOf s values.now → AreTextsOf s counts.entries) }
{
    let mut counts = IndexMap::new(alloc);
    let mut rest = values;
    'values: while let Some((value, more)) = split(rest) {
        add_value(&mut counts, value)?;
        rest = more;
    }
    Ok(counts)
}

/// The string at a place of those that were counted.
fn named_at<'b>(store: &Store<'b>, counts: &IndexMap<TextId, usize>, place: usize) -> Named<'b>
    requires within { place < length counts.now.entries }
    requires of { AreTextsOf store.now counts.now.entries }
    ensures named { slice_get (map (counted_seen store.now.texts) counts.now.entries) place ≡ Some (named_seen result) }
    ensures of { IsNamedOf store.now result }
{
    match counts.get_index(place) {
        Some((text, count)) => Named {
            bytes: store.bytes(*text),
            text: *text,
            count: *count,
        },
        None => unreachable!(),
    }
}

/// One more behind the others.
fn push<'b>(items: &mut Vec<Named<'b>>, item: Named<'b>) -> Result<(), NoMemory>
    ensures { OnOk result (items.new.items ≡ items.old.items ++ item.entry ∷ []) }
{
    match items.push(item) {
        Ok(_) => Ok(()),
        Err(_) => Err(NoMemory),
    }
}

/// The strings that were counted, with their bytes.
pub(crate) fn named_texts<'b>(
    alloc: Global,
    store: &Store<'b>,
    counts: &IndexMap<TextId, usize>,
) -> Result<Vec<Named<'b>>, NoMemory>
    requires { AreTextsOf store.now counts.now.entries }
    ensures named { IfOk result (λ named. map named_seen named.items ≡ map (counted_seen store.now.texts) counts.now.entries) }
    ensures of { IfOk result (λ named. AllByRecursion (IsNamedOf store.now) named.items) }
{
    let mut named = Vec::new(alloc);
    'places: for place in 0..counts.len() {
        push(&mut named, named_at(store, counts, place))?;
    }
    Ok(named)
}

/// A string so often behind other values.
fn put_times(values: &mut List<Value>, text: TextId, count: usize) -> Result<(), NoMemory>
    ensures { OnOk result (values.new ≡ values.old ++ replicate count (own.Text text)) }
{
    'times: for _turn in 0..count {
        values.push(Value::Text(text))?;
    }
    Ok(())
}

/// The string at a place.
fn item_at<'b>(named: &[Named<'b>], place: usize) -> Named<'b>
    requires { place < length named.now }
    ensures { slice_get named.now place ≡ Some result }
{
    named[place]
}

/// Strings as values, each as often as it was counted.
pub(crate) fn spread_out(alloc: Global, named: &[Named]) -> Result<List<Value>, NoMemory>
    ensures { IfOk result (λ values. values ≡ repeated (map named_values named.now)) }
{
    let mut values = List::new(alloc);
    'texts: for place in 0..named.len() {
        let next = item_at(named, place);
        put_times(&mut values, next.text, next.count)?;
    }
    Ok(values)
}
