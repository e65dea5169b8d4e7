//! The store of one page.
ghost use Rattle.std.specs.Prelude.{◌≡◌, ◌++◌, ◌∷◌, [], Some, slice_get, IfOk, OnOk, OnErr};
ghost use Rattle.lua_heap.specs.Heap as heap;
ghost use Rattle.lua_heap.specs.Heap.{cell_at, closure_at, markup_at, set_cell_in, set_markup_in};
ghost use Rattle.lua_heap.specs.Value.{same};
ghost use Rattle.lua_store.specs.declared.ids.TextId.{TextId};
ghost use Rattle.lua_store.specs.Envs.{is_among};
ghost use Rattle.lua_store.specs.Seen.{text_at, seen, places_of, closed_of, seen_closure, seen_node};
ghost use Rattle.lua_store.specs.Parts.{nothing, with_text, IsTextOf, IsCellOf, IsClosureOf, IsMarkupOf, IsOf, AreCellsOf, IsKindOf, IsContentOf, IsNodeOf, IsLater, IsGrown};

use crate::closure::{Closure, ClosureKind};
use crate::closures::Closures;
use crate::ids::{CellId, ClosureId, MarkupId, TextId};
use crate::markup::MarkupNode;
use crate::texts::Texts;
use crate::value::Value;
use crate::vectors::{push, replace};
use bumpalo::Bump;
use lua_table::Table;
use std::alloc::Global;
use std::hash::RandomState;
use std::marker::Model;
use wk_base::{List, NoMemory};

/// All that the Lua code of one page makes. It is given up whole, whatever names what in it.
///
/// A name is of use with the store that gave it. What is made changes nothing that is there, and nothing goes away.
#[derive(Drop)]
pub struct Store<'b> {
    pub(crate) alloc: Global,
    /// From this texts and the keys of tables are hashed.
    pub(crate) seed: RandomState,
    pub(crate) texts: Texts<'b>,
    pub(crate) tables: Vec<Table<Value>>,
    pub(crate) cells: Vec<Value>,
    pub(crate) closures: Closures,
    pub(crate) markup: Vec<MarkupNode>,
    /// The number of the invocation at work.
    pub(crate) env: u32,
}

impl<'b> Model for Store<'b> {
    ghost use Rattle.lua_store.specs.Seen.{StoreView};
    ghost use Rattle.lua_store.specs.Parts.{view_of, IsSound};

    ghost Value = { StoreView };

    ghost view = { λ s. view_of (record { texts = s.texts; tables = s.tables.items; cells = s.cells.items; closures = s.closures; markup = s.markup.items; env = s.env }) };

    ghost invariant = { λ s. IsSound (record { texts = s.texts; tables = s.tables.items; cells = s.cells.items; closures = s.closures; markup = s.markup.items; env = s.env }) };
}

impl<'b> Store<'b> {
    /// A store with nothing in it, whose texts will stand in the arena.
    ///
    /// Texts and the keys of tables are hashed from the seed. One that is drawn anew for each run of the program keeps a module
    /// from choosing keys that collide; nothing that a store answers depends on it.
    pub fn new(alloc: Global, arena: &'b Bump, seed: RandomState) -> Store<'b>
        ensures { result ≡ nothing }
    {
        Store {
            alloc,
            seed,
            texts: Texts::new(alloc, arena, seed),
            tables: Vec::new(alloc),
            cells: Vec::new(alloc),
            closures: Closures::new(alloc),
            markup: Vec::new(alloc),
            env: 0,
        }
    }

    /// The one name of the text with these bytes, which is made where it is not there.
    pub fn text(&mut self, bytes: &[u8]) -> Result<TextId, NoMemory>
        ensures of { IfOk result (IsTextOf self.new) }
        ensures there { IfOk result (λ id. text_at self.new.texts id.at ≡ bytes.now) }
        ensures one { IfOk result (λ id. (other : TextId) → IsTextOf self.new other → text_at self.new.texts other.at ≡ bytes.now → other ≡ id) }
        ensures added { OnOk result (self.new ≡ record self.old { texts = with_text self.old.texts bytes.now }) }
        ensures later { IsLater self.old self.new }
        ensures err { OnErr result (self.new ≡ self.old) }
    {
        Ok(TextId::of_place(self.texts.place(bytes)?))
    }

    /// The bytes of a text.
    pub fn bytes(&self, id: TextId) -> &'b [u8]
        requires { IsTextOf self.now id }
        ensures { result.now ≡ text_at self.now.texts id.at }
    {
        self.texts.bytes(id.place())
    }

    /// Whether two values are the same one, as `rawequal` tells it (manual 5.1). It looks at names alone.
    pub fn is_same(&self, a: Value, b: Value) -> bool
        requires a { IsOf self.now a }
        requires b { IsOf self.now b }
        ensures { result ≡ same (seen self.now.texts a) (seen self.now.texts b) }
    {
        let _opened = &self.cells;
        a == b
    }

    /// A new cell with a value, for one variable that functions share (manual 2.6).
    pub fn new_cell(&mut self, value: Value) -> Result<CellId, NoMemory>
        requires { IsOf self.old value }
        ensures of { IfOk result (IsCellOf self.new) }
        ensures id { IfOk result (λ id. id.at ≡ (heap.new_cell self.old.heap (seen self.old.texts value)).1) }
        ensures made { OnOk result (self.new ≡ record self.old { heap = (heap.new_cell self.old.heap (seen self.old.texts value)).0 }) }
        ensures later { IsLater self.old self.new }
        ensures err { OnErr result (self.new ≡ self.old) }
    {
        Ok(CellId::of_place(push(&mut self.cells, value)?))
    }

    /// The value of a cell.
    pub fn cell(&self, id: CellId) -> Value
        requires { IsCellOf self.now id }
        ensures of { IsOf self.now result }
        ensures value { seen self.now.texts result ≡ cell_at self.now.heap id.at }
    {
        self.cells[id.place()]
    }

    /// Gives a cell another value.
    pub fn set_cell(&mut self, id: CellId, value: Value)
        requires cell { IsCellOf self.old id }
        requires value { IsOf self.old value }
        ensures set { self.new ≡ record self.old { heap = set_cell_in self.old.heap id.at (seen self.old.texts value) } }
        ensures later { IsLater self.old self.new }
    {
        let at = id.place();
        self.cells[at] = value;
    }

    /// From here on the invocation with that number is at work: each closure that is made has it. In a new store that is 0.
    pub fn begin_env(&mut self, env: u32)
        ensures begun { self.new ≡ record self.old { env = env } }
        ensures grown { IsGrown self.old self.new }
    {
        self.env = env;
    }

    /// A new closure, made in the invocation at work.
    pub fn new_closure(
        &mut self,
        kind: ClosureKind,
        cells: List<CellId>,
    ) -> Result<ClosureId, NoMemory>
        requires kind { IsKindOf self.old kind }
        requires cells { AreCellsOf self.old cells }
        ensures of { IfOk result (IsClosureOf self.new) }
        ensures id { IfOk result (λ id. id.at ≡ (heap.new_closure self.old.heap (closed_of self.old.texts kind (places_of cells))).1) }
        ensures made { OnOk result (self.new ≡ record {
          texts = self.old.texts;
          heap = (heap.new_closure self.old.heap (closed_of self.old.texts kind (places_of cells))).0;
          envs = self.old.envs ++ self.old.env ∷ [];
          env = self.old.env;
        }) }
        ensures later { IsLater self.old self.new }
        ensures err { OnErr result (self.new ≡ self.old) }
    {
        let closure = Closure {
            kind,
            env: self.env,
            cells,
        };
        Ok(ClosureId::of_place(self.closures.push(closure)?))
    }

    /// A closure.
    pub fn closure(&self, id: ClosureId) -> &Closure
        requires { IsClosureOf self.now id }
        ensures of { IsContentOf self.now result.now }
        ensures closure { closure_at self.now.heap id.at ≡ Some (seen_closure self.now.texts result.now) }
        ensures env { slice_get self.now.envs id.at ≡ Some result.now.env }
    {
        self.closures.at(id.place())
    }

    /// Whether a closure of the store was made in the invocation with that number.
    pub fn has_env(&self, env: u32) -> bool
        ensures { result ≡ is_among env self.now.envs }
    {
        self.closures.has_env(env)
    }

    /// A new markup object (Scribunto, HTML library).
    pub fn new_markup(&mut self, node: MarkupNode) -> Result<MarkupId, NoMemory>
        requires { IsNodeOf self.old node }
        ensures of { IfOk result (IsMarkupOf self.new) }
        ensures id { IfOk result (λ id. id.at ≡ (heap.new_markup self.old.heap (seen_node self.old.texts node)).1) }
        ensures made { OnOk result (self.new ≡ record self.old { heap = (heap.new_markup self.old.heap (seen_node self.old.texts node)).0 }) }
        ensures later { IsLater self.old self.new }
        ensures err { OnErr result (self.new ≡ self.old) }
    {
        Ok(MarkupId::of_place(push(&mut self.markup, node)?))
    }

    /// A markup object.
    pub fn markup(&self, id: MarkupId) -> &MarkupNode
        requires { IsMarkupOf self.now id }
        ensures of { IsNodeOf self.now result.now }
        ensures node { seen_node self.now.texts result.now ≡ markup_at self.now.heap id.at }
    {
        &self.markup[id.place()]
    }

    /// Puts a node in the place of a markup object, and gives back what was there.
    pub fn swap_markup(&mut self, id: MarkupId, node: MarkupNode) -> MarkupNode
        requires id { IsMarkupOf self.old id }
        requires node { IsNodeOf self.old node }
        ensures of { IsNodeOf self.new result }
        ensures was { seen_node self.old.texts result ≡ markup_at self.old.heap id.at }
        ensures set { self.new ≡ record self.old { heap = set_markup_in self.old.heap id.at (seen_node self.old.texts node) } }
        ensures later { IsLater self.old self.new }
    {
        replace(&mut self.markup, id.place(), node)
    }
}
