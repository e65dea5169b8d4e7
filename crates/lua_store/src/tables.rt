//! The calls of a store on its tables.
ghost use Rattle.std.specs.Prelude.{◌≡◌, ◌<◌, ◌↔◌, ◌&&◌, pos, not, true, false, length, slice_get, slice_set, IfOk, IfSome, OnOk, OnErr};
ghost use Rattle.std.specs.Option.{option_map};
ghost use Rattle.std.specs.List.{IsDistinct};
ghost use Rattle.std.specs.Str.{bytes_eq};
ghost use Rattle.lua_table.specs.Entries.{value_at, is_there};
ghost use Rattle.lua_heap.specs.Heap as heap;
ghost use Rattle.lua_heap.specs.Heap.{table_at, set_in, set_meta_in, freeze_in};
ghost use Rattle.lua_heap.specs.Table as entries;
ghost use Rattle.lua_heap.specs.Table.{has};
ghost use Rattle.lua_heap.specs.Value as kind;
ghost use Rattle.lua_heap.specs.Value.{is_nil};
ghost use Rattle.lua_store.specs.contracts.value.ValuePartialEq.TheImpl.{ghosts};
ghost use Rattle.lua_store.specs.declared.value.Value.TheVariants as own;
ghost use Rattle.lua_store.specs.Seen.{seen, seen_entry, seen_table, seen_next};
ghost use Rattle.lua_store.specs.Parts.{table_in, with_entry, IsTableOf, IsOf, IsEntryOf, IsContentsOf, IsLater};

use crate::ids::TableId;
use crate::store::Store;
use crate::value::Value;
use crate::vectors::push;
use lua_table::{NoSuchKey, SetFault, Step, Table};
use wk_base::NoMemory;

impl<'b> Store<'b> {
    /// A new table: empty, without a metatable, and it can be written.
    pub fn new_table(&mut self) -> Result<TableId, NoMemory>
        ensures of { IfOk result (IsTableOf self.new) }
        ensures id { IfOk result (λ id. id.at ≡ (heap.new_table self.old.heap).1) }
        ensures made { OnOk result (self.new ≡ record self.old { heap = (heap.new_table self.old.heap).0 }) }
        ensures later { IsLater self.old self.new }
        ensures err { OnErr result (self.new ≡ self.old) }
    {
        let table = Table::new(self.alloc, self.seed);
        Ok(TableId::of_place(push(&mut self.tables, table)?))
    }

    /// A table as it is kept, whose texts are names of this store.
    pub fn table(&self, id: TableId) -> &Table<Value>
        requires { IsTableOf self.now id }
        ensures once { IsDistinct bytes_eq self.now.texts }
        ensures of { IsContentsOf self.now result.now }
        ensures table { seen_table self.now.texts result.now ≡ table_at self.now.heap id.at }
    {
        &self.tables[id.place()]
    }

    /// The value of a key of a table as `rawget` gives it (manual 5.1): nil where the key is not there.
    pub fn get(&self, id: TableId, key: Value) -> Value
        requires table { IsTableOf self.now id }
        requires key { IsOf self.now key }
        ensures of { IsOf self.now result }
        ensures value { seen self.now.texts result ≡ entries.get (table_at self.now.heap id.at).entries (seen self.now.texts key) }
    {
        self.table(id).get(&key)
    }

    /// Whether a key of a table has an entry, cleared or not. Only a key without one makes an entry, and can need memory.
    pub fn has(&self, id: TableId, key: Value) -> bool
        requires table { IsTableOf self.now id }
        requires key { IsOf self.now key }
        ensures { result ≡ has (table_at self.now.heap id.at).entries (seen self.now.texts key) }
    {
        self.table(id).has(&key)
    }

    /// Where a walk over a table comes to from a key, or from nil: the next entry that is not cleared, or nil at the end
    /// (`next`, manual 5.1). A key that never was set is `NoSuchKey`.
    pub fn next(&self, id: TableId, key: Value) -> Result<Step<Value>, NoSuchKey>
        requires table { IsTableOf self.now id }
        requires key { IsOf self.now key }
        ensures of { IfOk result (λ step. IsOf self.now step.key × IsOf self.now step.value) }
        ensures next { seen_next self.now.texts result ≡ entries.next (table_at self.now.heap id.at).entries (seen self.now.texts key) }
    {
        self.table(id).next(&key)
    }

    /// How many tables there are. Their names are the places from 0 on.
    pub fn table_count(&self) -> usize
        ensures { result ≡ length self.now.heap.tables }
    {
        self.tables.len()
    }

    /// The entry of a table at a place in order of first insertion, cleared or not; none past the last one.
    #[tactic(auto, using(crate::proofs::AtPlaces::entry_of, crate::proofs::AtPlaces::entry_seen))]
    pub fn entry(&self, id: TableId, place: usize) -> Option<(Value, Value)>
        requires { IsTableOf self.now id }
        ensures of { IfSome result (IsEntryOf self.now) }
        ensures entry { option_map (seen_entry self.now.texts) result ≡ slice_get (table_at self.now.heap id.at).entries place }
    {
        self.table(id).at(place)
    }

    /// The least border of a table, which is what `#` gives (manual 2.5.5).
    pub fn border(&self, id: TableId) -> i64
        requires { IsTableOf self.now id }
        ensures { result ≡ pos (entries.border (table_at self.now.heap id.at).entries) }
    {
        self.table(id).border()
    }

    /// The metatable of a table, or nil.
    pub fn meta(&self, id: TableId) -> Value
        requires { IsTableOf self.now id }
        ensures of { IsOf self.now result }
        ensures meta { seen self.now.texts result ≡ (table_at self.now.heap id.at).meta }
    {
        self.table(id).meta()
    }

    /// Whether a table is read-only.
    pub fn is_frozen(&self, id: TableId) -> bool
        requires { IsTableOf self.now id }
        ensures { result ≡ (table_at self.now.heap id.at).frozen }
    {
        self.table(id).is_frozen()
    }

    /// Sets a key of a table as `rawset` does (manual 5.1), and tells whether that made a new entry. A refusal changes nothing:
    /// `Frozen` where the table is read-only, else `NotAKey` where the key is nil, else `NoMemory`.
    ///
    /// A key that is there is set without memory, and so is any key to nil.
    pub fn set(&mut self, id: TableId, key: Value, value: Value) -> Result<bool, SetFault>
        requires table { IsTableOf self.old id }
        requires key { IsOf self.old key }
        requires value { IsOf self.old value }
        ensures ok { OnOk result (self.new ≡ record self.old { heap = set_in self.old.heap id.at (seen self.old.texts key) (seen self.old.texts value) }) }
        ensures made { IfOk result (λ made. made ≡ (not (has (table_at self.old.heap id.at).entries (seen self.old.texts key)) && not (is_nil (seen self.old.texts value)))) }
        ensures later { IsLater self.old self.new }
        ensures err { OnErr result (self.new ≡ self.old) }
        ensures frozen { (result ≡ Err SetFault.Frozen) ↔ ((table_at self.old.heap id.at).frozen ≡ true) }
        ensures not_a_key { (result ≡ Err SetFault.NotAKey) ↔ (((table_at self.old.heap id.at).frozen ≡ false) × (seen self.old.texts key ≡ kind.Nil)) }
        ensures memory { result ≡ Err SetFault.NoMemory → has (table_at self.old.heap id.at).entries (seen self.old.texts key) ≡ false }
        ensures clearing { result ≡ Err SetFault.NoMemory → is_nil (seen self.old.texts value) ≡ false }
    {
        set_entry(&mut self.tables, id.place(), key, value)
    }

    /// Gives a table a metatable, or none by nil (manual 2.8). The table must not be read-only.
    pub fn set_meta(&mut self, id: TableId, meta: Value)
        requires table { IsTableOf self.old id }
        requires meta { IsOf self.old meta }
        requires writable { (table_at self.old.heap id.at).frozen ≡ false }
        ensures set { self.new ≡ record self.old { heap = set_meta_in self.old.heap id.at (seen self.old.texts meta) } }
        ensures later { IsLater self.old self.new }
    {
        set_meta_of(&mut self.tables, id.place(), meta);
    }

    /// Makes a table read-only for good.
    pub fn freeze(&mut self, id: TableId)
        requires { IsTableOf self.old id }
        ensures frozen { self.new ≡ record self.old { heap = freeze_in self.old.heap id.at } }
        ensures later { IsLater self.old self.new }
    {
        freeze_table(&mut self.tables, id.place());
    }
}

/// Sets a key of the table at a place.
fn set_entry(
    tables: &mut Vec<Table<Value>>,
    at: usize,
    key: Value,
    value: Value,
) -> Result<bool, SetFault>
    requires { at < length tables.old.items }
    ensures ok { OnOk result (tables.new.items ≡ slice_set tables.old.items at (with_entry (table_in tables.old.items at) key value)) }
    ensures made { IfOk result (λ made. made ≡ (not (is_there ghosts.eq own.Nil (table_in tables.old.items at).entries key) && not (ghosts.eq value own.Nil))) }
    ensures err { OnErr result (tables.new.items ≡ tables.old.items) }
    ensures frozen { (result ≡ Err SetFault.Frozen) ↔ ((table_in tables.old.items at).frozen ≡ true) }
    ensures not_a_key { (result ≡ Err SetFault.NotAKey) ↔ (((table_in tables.old.items at).frozen ≡ false) × (key ≡ own.Nil)) }
    ensures memory { result ≡ Err SetFault.NoMemory → is_there ghosts.eq own.Nil (table_in tables.old.items at).entries key ≡ false }
    ensures clearing { result ≡ Err SetFault.NoMemory → ghosts.eq value own.Nil ≡ false }
{
    tables[at].set(key, value)
}

/// Gives the table at a place a metatable.
fn set_meta_of(tables: &mut Vec<Table<Value>>, at: usize, meta: Value)
    requires within { at < length tables.old.items }
    requires writable { (table_in tables.old.items at).frozen ≡ false }
    ensures { tables.new.items ≡ slice_set tables.old.items at (record (table_in tables.old.items at) { meta = meta }) }
{
    tables[at].set_meta(meta);
}

/// Makes the table at a place read-only.
fn freeze_table(tables: &mut Vec<Table<Value>>, at: usize)
    requires { at < length tables.old.items }
    ensures { tables.new.items ≡ slice_set tables.old.items at (record (table_in tables.old.items at) { frozen = true }) }
{
    tables[at].freeze();
}
