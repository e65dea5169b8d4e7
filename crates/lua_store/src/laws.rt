//! Laws of stores. Each is the contract of a function that does nothing.
ghost use Rattle.std.specs.List.{IsDistinct};
ghost use Rattle.std.specs.Str.{bytes_eq};
ghost use Rattle.lua_store.specs.Laws.{ValuesStay, TablesStay, ClosuresStay, NodesStay, LaterGoesOn, LaterIsGrown, SeenOnce, KeysAreOnce, NamesWhatIsThere};

use crate::store::Store;

/// A value of a store is a value of each later one, and is seen as it was.
pub fn values_stay()
    ensures { ValuesStay }
{}

/// So are the contents of a table.
pub fn tables_stay()
    ensures { TablesStay }
{}

/// So is a closure.
pub fn closures_stay()
    ensures { ClosuresStay }
{}

/// So is a markup node.
pub fn nodes_stay()
    ensures { NodesStay }
{}

/// What is later than a later store is later.
pub fn later_goes_on()
    ensures { LaterGoesOn }
{}

/// A later store is grown, whatever the numbers of closures.
pub fn later_is_grown()
    ensures { LaterIsGrown }
{}

/// Values of one store that are seen alike are the same value.
pub fn seen_once()
    ensures { SeenOnce }
{}

/// No store keeps a text twice.
pub fn texts_are_once(store: &Store)
    ensures { IsDistinct bytes_eq store.now.texts }
{
    let _opened = &store.texts;
}

/// In no table of a store a key is there twice, or nil.
pub fn keys_are_once(store: &Store)
    ensures { KeysAreOnce store.now }
{
    let _opened = &store.texts;
}

/// Each object that an object of a store names is there.
pub fn names_what_is_there(store: &Store)
    ensures { NamesWhatIsThere store.now }
{
    let _opened = &store.texts;
}
