//! What the loads of a page gave, by the titles of the modules (Scribunto, `mw.loadData`: a module is evaluated once per page).
ghost use Rattle.std.specs.Prelude.{◌≡◌, ◌++◌, ◌∷◌, [], None, OnOk, OnErr};
ghost use Rattle.std.specs.Option.{option_copied};
ghost use Rattle.page_ground.specs.Kept.{kept_for, FindsKept, keep_with};

use crate::data::Data;
use indexmap::IndexMap;
use std::alloc::Global;
use std::hash::RandomState;
use std::marker::Model;
use wk_base::{Left, List, NoMemory, Title};

/// What the load of one data module gave, and what it cost.
#[derive(Drop)]
pub struct Kept {
    pub given: Data,
    /// The steps that the load took.
    pub charge: u64,
    /// The most calls that were in progress at one time.
    pub height: u64,
}

/// A finite map from the titles of data modules to what their loads gave, in the order in which they were kept.
#[derive(Drop)]
pub struct Keep {
    map: IndexMap<Title, Kept, RandomState>,
}

impl Model for Keep {
    ghost use Rattle.std.specs.Prelude.{List};
    ghost use Rattle.wk_base.specs.declared.title.Title.{Title as TitleValue};
    ghost use Rattle.page_ground.specs.declared.keep.Kept.{Kept as KeptValue};
    ghost use Rattle.std.specs.Coded.{coded_list, coded×};
    ghost use Rattle.wk_base.specs.contracts.title.Title as title;
    ghost use Rattle.page_ground.specs.contracts.keep.Kept as kept;

    ghost Value = { List (TitleValue × KeptValue) };

    ghost coded = { coded_list (coded× title.the_row.coded kept.the_row.coded) };

    ghost view = { λ k. k.map.entries };
}

impl Keep {
    /// Nothing is kept. Titles are hashed from the seed, so that a page can't choose titles that collide.
    pub fn new(alloc: Global, seed: RandomState) -> Keep
        ensures { result ≡ [] }
    {
        Keep {
            map: IndexMap::with_hasher(alloc, seed),
        }
    }

    /// What was kept for a module.
    pub fn find(&self, title: &Title) -> Option<&Kept>
        ensures { option_copied result ≡ kept_for self.now title.now }
    {
        self.map.get(title)
    }

    /// Keeps what the load of a module gave, of which nothing was kept yet.
    pub fn keep(&mut self, title: Title, kept: Kept) -> Result<(), NoMemory>
        requires fresh { kept_for self.old title ≡ None }
        ensures ok { OnOk result (self.new ≡ self.old ++ (title, kept) ∷ []) }
        ensures err { OnErr result (self.new ≡ self.old) }
    {
        match self.map.insert(title, kept) {
            Ok(_) => Ok(()),
            Err(_) => Err(NoMemory),
        }
    }
}

/// What was kept of a module, where what is left covers it.
pub fn find_covered<'k>(keep: &'k Keep, title: &Title, left: &Left) -> Option<&'k Kept>
    ensures { FindsKept keep.now title.now left.now result }
{
    match keep.find(title) {
        None => None,
        Some(kept) => {
            if left.steps < kept.charge {
                return None;
            }
            if left.calls < kept.height {
                return None;
            }
            Some(kept)
        }
    }
}

/// Keeps what a load gave, unless something is kept of its module.
pub fn keep_first(keep: &mut Keep, title: Title, kept: Kept) -> Result<(), NoMemory>
    ensures { OnOk result (keep.new ≡ keep_with keep.old title kept) }
{
    let found = keep.find(&title).is_some();
    if found {
        return Ok(());
    }
    keep.keep(title, kept)?;
    Ok(())
}
