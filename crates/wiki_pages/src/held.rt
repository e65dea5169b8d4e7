//! The text of a page that is held, with what is prepared of it.
ghost use Rattle.std.specs.Prelude.{◌≡◌, length, slice_get, option_map, IfSome};
ghost use Rattle.wiki_markup.specs.Views.{node_seen};
ghost use Rattle.wiki_pages.specs.CaseTables.{IsRight};

use crate::preparing::tables_of;
use crate::tables::CaseTable;
use indexmap::IndexMap;
use std::alloc::Global;
use std::hash::RandomState;
use std::marker::Model;
use wiki_markup::{Marked, NoMemory, NodeView};

/// Tables of runs of parts, by the places where the runs begin.
pub type Tables = IndexMap<usize, CaseTable, RandomState>;

/// The pairing of a text, which is its model, and the tables of its runs of parts with constant names, once these are made.
#[derive(Drop)]
pub struct HeldText {
    marked: Marked,
    tables: Option<Tables>,
}

impl Model for HeldText {
    ghost use Rattle.wiki_markup.specs.Nodes.{Marked as Nodes};

    ghost Value = { Nodes };

    ghost use Rattle.wiki_pages.specs.CaseTables.{AreRightIf};

    ghost view = { λ t. t.marked };

    ghost invariant = { λ t. AreRightIf t.marked.nodes t.tables };
}

impl HeldText {
    /// A text of which nothing is prepared.
    pub fn of(marked: Marked) -> HeldText
        ensures { result ≡ marked }
    {
        HeldText {
            marked,
            tables: None,
        }
    }

    /// The allocator that holds it.
    pub fn alloc(&self) -> Global {
        self.marked.alloc()
    }

    /// How many nodes there are.
    pub fn len(&self) -> usize
        ensures { result ≡ length self.now.nodes }
    {
        self.marked.len()
    }

    /// The node at a place, if there is one.
    pub fn node(&self, at: usize) -> Option<NodeView<'_>>
        ensures { option_map node_seen result ≡ slice_get self.now.nodes at }
    {
        self.marked.node(at)
    }

    /// The table of the run of parts that begins at a place, if there is one.
    pub fn table(&self, at: usize) -> Option<&CaseTable>
        ensures { IfSome result (λ t. IsRight self.now.nodes at t.now) }
    {
        match &self.tables {
            Some(tables) => tables.get(&at),
            None => None,
        }
    }

    /// Its tables are made. Names are hashed by the seed.
    pub fn prepare(&mut self, seed: RandomState) -> Result<(), NoMemory>
        ensures { self.new ≡ self.old }
    {
        let tables = tables_of(seed, self)?;
        self.tables = Some(tables);
        Ok(())
    }
}
