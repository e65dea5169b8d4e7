//! `attr{..}` and `css{..}`: the entries of a table are set one after another (Scribunto, HTML library). They are read first and paid
//! for, up to one that is wrong; then those that were read are set.
ghost use Rattle.std.specs.Prelude.{◌≡◌, ◌+◌, ◌∷◌, [], drop, IfSome, OnOk, MatchOption};
ghost use Rattle.std.specs.Prelude.{List as Items};
ghost use Rattle.lua_strings.specs.LuaHeapValue as kind;
ghost use Rattle.mw_html.specs.LuaHeapHeap.{MarkupNode as SeenNode, table_at, markup_at, set_markup_in};
ghost use Rattle.lua_strings.specs.LuaMeaningHtml as meaning;
ghost use Rattle.lua_strings.specs.LuaStoreSeen.{StoreView, seen, seen_entry};
ghost use Rattle.lua_strings.specs.LuaStoreParts.{IsOf, IsTableOf, IsMarkupOf, IsEntryOf, IsLater};
ghost use Rattle.lua_strings.specs.LuaBasicSeen.{values_seen, AllOf, StopOf, Paid, Refuses, AnswerOf};
ghost use Rattle.mw_htmls.specs.Setters.{setter_of, all_set};
ghost use Rattle.mw_htmls.specs.Tabled.{LiveIs, EntryIs, EntryOf, AreRead, ReadOf, FaultOf, GivesOrRaises, EndsRead};

use crate::arguments::table_in;
use crate::setting::{Setter, Setting, a_setting, apply, set_one};
use lua_strings::paying::{take, take_texts};
use lua_strings::{Left, MarkupId, Stop, Store, TableId, Value, is_nil, single};
use mw_html::{List, NoMemory};
use std::alloc::Global;

/// The entry of a table at a place, before those behind it.
fn entry_at(store: &Store, table: TableId, place: usize) -> Option<(Value, Value)>
    requires { IsTableOf store.now table }
    ensures entry { MatchOption result (drop place (table_at store.now.heap table.at).entries ≡ []) (λ e. drop place (table_at store.now.heap table.at).entries ≡ seen_entry store.now.texts e ∷ drop (place + 1) (table_at store.now.heap table.at).entries) }
    ensures of { IfSome result (IsEntryOf store.now) }
{
    match store.entry(table, place) {
        Some(entry) => Some(entry),
        None => None,
    }
}

/// What is read of an entry.
#[derive(Drop)]
pub enum EntryRead<'b> {
    /// It is cleared.
    Passed,
    Named(Setting<'b>),
    /// Its name or its value is wrong: the error, and its level.
    Wrong(Value, i64),
}

/// An entry that is wrong raises; where memory is wanting, nothing is read.
fn wrong<'b>(stop: Stop) -> Result<EntryRead<'b>, Stop>
    ensures read { (which : Setter) (given : Items kind.Value) (s t : StoreView) → ((n : SeenNode) → Refuses (meaning.set_one (setter_of which) given n) s t stop) → LiveIs which given s t result }
    ensures of { (t : StoreView) → StopOf t stop → EntryOf t result }
{
    match stop {
        Stop::Raised(error, level) => Ok(EntryRead::Wrong(error, level)),
        Stop::Spent => Err(Stop::Spent),
        Stop::NoMemory => Err(Stop::NoMemory),
    }
}

/// An entry that is not cleared, which is paid for.
fn read_live<'b>(
    alloc: Global,
    store: &mut Store<'b>,
    setter: Setter,
    key: Value,
    value: Value,
) -> Result<EntryRead<'b>, Stop>
    requires key { IsOf store.old key }
    requires value { IsOf store.old value }
    ensures read { LiveIs setter (seen store.old.texts key ∷ seen store.old.texts value ∷ []) store.old store.new result }
    ensures of { EntryOf store.new result }
    ensures later { IsLater store.old store.new }
{
    match a_setting(alloc, store, setter, &[key, value]) {
        Ok(setting) => Ok(EntryRead::Named(setting)),
        Err(stop) => wrong(stop),
    }
}

/// An entry, after what it costs.
fn read_entry<'b>(
    alloc: Global,
    store: &mut Store<'b>,
    left: &mut Left,
    setter: Setter,
    entry: (Value, Value),
) -> Result<EntryRead<'b>, Stop>
    requires { IsEntryOf store.old entry }
    ensures read { EntryIs setter (seen_entry store.old.texts entry) store.old left.old store.new left.new result }
    ensures of { EntryOf store.new result }
    ensures later { IsLater store.old store.new }
{
    let (key, value) = entry;
    if is_nil(value) {
        take(left, 1)?;
        return Ok(EntryRead::Passed);
    }
    take_texts(store, left, &[key, value])?;
    read_live(alloc, store, setter, key, value)
}

/// What is read of a table: the names with their values up to one that is wrong, and the error then.
#[derive(Drop)]
pub struct SettingsRead<'b> {
    pub settings: List<Setting<'b>>,
    pub fault: Option<(Value, i64)>,
}

/// Reads the entries of a table, up to one that is wrong.
fn read_entries<'b>(
    alloc: Global,
    store: &mut Store<'b>,
    left: &mut Left,
    setter: Setter,
    table: TableId,
) -> Result<SettingsRead<'b>, Stop>
    requires { IsTableOf store.old table }
    ensures read { AreRead setter (table_at store.old.heap table.at).entries store.old left.old store.new left.new result }
    ensures of { ReadOf store.new result }
    ensures later { IsLater store.old store.new }
{
    let mut settings = List::new(alloc);
    'places: for place in 0..usize::MAX {
        match entry_at(store, table, place) {
            None => {
                return Ok(SettingsRead {
                    settings,
                    fault: None,
                });
            }
            Some(entry) => match read_entry(alloc, store, left, setter, entry)? {
                EntryRead::Passed => continue,
                EntryRead::Named(setting) => {
                    settings.push(setting)?;
                    continue;
                }
                EntryRead::Wrong(error, level) => {
                    return Ok(SettingsRead {
                        settings,
                        fault: Some((error, level)),
                    });
                }
            },
        }
    }
    Err(Stop::NoMemory)
}

/// Sets what was read.
fn apply_all(
    alloc: Global,
    store: &mut Store,
    id: MarkupId,
    setter: Setter,
    settings: &[Setting],
) -> Result<(), NoMemory>
    requires { IsMarkupOf store.old id }
    ensures set { OnOk result (store.new.heap ≡ set_markup_in store.old.heap id.at (all_set setter settings.now (markup_at store.old.heap id.at))) }
    ensures later { IsLater store.old store.new }
{
    'each: for setting in settings {
        apply(alloc, store, id, setter, setting)?;
    }
    Ok(())
}

/// The object is given, or the error is raised of the entry that is wrong.
fn give_or_raise(
    alloc: Global,
    id: MarkupId,
    fault: Option<(Value, i64)>,
) -> Result<List<Value>, Stop>
    ensures { GivesOrRaises id fault result }
{
    match fault {
        None => {
            let values = single(alloc, Value::Markup(id))?;
            Ok(values)
        }
        Some((error, level)) => Err(Stop::Raised(error, level)),
    }
}

/// Sets what was read of a table; then gives the object, or raises the error of the entry that is wrong.
fn give_read(
    alloc: Global,
    store: &mut Store,
    id: MarkupId,
    setter: Setter,
    read: &SettingsRead,
) -> Result<List<Value>, Stop>
    requires id { IsMarkupOf store.old id }
    requires read { FaultOf store.old read.now }
    ensures answer { EndsRead store.old id.at (all_set setter read.now.settings (markup_at store.old.heap id.at)) read.now.fault store.new result }
    ensures of { AnswerOf store.new result }
    ensures later { IsLater store.old store.new }
{
    apply_all(alloc, store, id, setter, read.settings.as_slice())?;
    give_or_raise(alloc, id, read.fault)
}

/// The entries of a table are set.
fn set_table(
    alloc: Global,
    store: &mut Store,
    left: &mut Left,
    id: MarkupId,
    setter: Setter,
    table: TableId,
) -> Result<List<Value>, Stop>
    requires id { IsMarkupOf store.old id }
    requires table { IsTableOf store.old table }
    ensures answer { Paid (meaning.sets_each store.old.heap id.at (meaning.set_each (setter_of setter) (table_at store.old.heap table.at).entries (markup_at store.old.heap id.at))) store.old left.old store.new left.new result }
    ensures of { AnswerOf store.new result }
    ensures later { IsLater store.old store.new }
{
    let read = read_entries(alloc, store, left, setter, table)?;
    give_read(alloc, store, id, setter, &read)
}

/// `attr(..)` and `css(..)`: one is set, or all of a table.
pub fn set_given(
    alloc: Global,
    store: &mut Store,
    left: &mut Left,
    id: MarkupId,
    setter: Setter,
    given: &[Value],
) -> Result<List<Value>, Stop>
    requires id { IsMarkupOf store.old id }
    requires given { AllOf store.old given.now }
    ensures answer { Paid (meaning.set_given (setter_of setter) store.old.heap id.at (values_seen store.old.texts given.now)) store.old left.old store.new left.new result }
    ensures of { AnswerOf store.new result }
    ensures later { IsLater store.old store.new }
{
    match table_in(given) {
        Some(table) => set_table(alloc, store, left, id, setter, table),
        None => set_one(alloc, store, id, setter, given),
    }
}
