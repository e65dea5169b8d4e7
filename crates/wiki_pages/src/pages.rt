//! The pages that are held, by title.
ghost use Rattle.std.specs.Prelude.{◌≡◌, ◌++◌, ◌∷◌, [], None, OnOk, OnErr, is_some};
ghost use Rattle.std.specs.Option.{option_copied};
ghost use Rattle.wiki_markup.specs.Formed.{IsMarked};
ghost use Rattle.wiki_pages.specs.Forests.{trees_in};
ghost use Rattle.wiki_pages.specs.Pages.{find_page, direct_of, included_of};

use crate::forest::{Forest, Nodes};
use crate::held::HeldText;
use indexmap::IndexMap;
use mw_frame::Title;
use std::alloc::Global;
use std::hash::RandomState;
use std::marker::Model;
use wiki_markup::{Marked, NoMemory};

/// The text of a page, paired: as it is read for the page itself, and as it is included in other pages. Where both pairings are the same, it is held
/// once.
#[derive(Drop)]
pub struct Entry {
    direct: HeldText,
    /// As it is included in other pages, where it is held by itself.
    apart: Option<HeldText>,
}

impl Model for Entry {
    ghost use Rattle.std.specs.Prelude.{unwrap_or};
    ghost use Rattle.wiki_pages.specs.Entries.{Entry as Pairings};

    ghost Value = { Pairings };

    ghost view = { λ e. record { direct = e.direct; transcluded = unwrap_or e.apart e.direct } };
}

impl Entry {
    /// A page that is read and included alike.
    pub fn same(both: Marked) -> Entry
        ensures { result ≡ record { direct = both; transcluded = both } }
    {
        Entry {
            direct: HeldText::of(both),
            apart: None,
        }
    }

    /// A page, as it is read for itself and as it is included.
    pub fn apart(direct: Marked, transcluded: Marked) -> Entry
        ensures { result ≡ record { direct = direct; transcluded = transcluded } }
    {
        Entry {
            direct: HeldText::of(direct),
            apart: Some(HeldText::of(transcluded)),
        }
    }

    /// Its trees, as it is read for the page itself.
    pub fn direct(&self) -> Forest<'_>
        ensures { trees_in result ≡ direct_of self.now }
    {
        Forest::all(Nodes::Held(&self.direct))
    }

    /// As it is included in other pages.
    fn transcluded(&self) -> &HeldText
        ensures { result.now ≡ self.now.transcluded }
    {
        match &self.apart {
            Some(transcluded) => transcluded,
            None => &self.direct,
        }
    }

    /// Its trees, as it is included in other pages.
    pub fn included(&self) -> Forest<'_>
        ensures { trees_in result ≡ included_of self.now }
    {
        Forest::all(Nodes::Held(self.transcluded()))
    }

    /// What can be prepared of its texts is prepared, so that an expansion pays for it no more. Names are hashed by the seed.
    fn prepare(&mut self, seed: RandomState) -> Result<(), NoMemory>
        ensures { self.new ≡ self.old }
    {
        self.direct.prepare(seed)?;
        prepare_apart(&mut self.apart, seed)
    }
}

/// The same of a text that is held by itself, if there is one.
fn prepare_apart(apart: &mut Option<HeldText>, seed: RandomState) -> Result<(), NoMemory>
    ensures { apart.new ≡ apart.old }
{
    match apart {
        Some(text) => text.prepare(seed),
        None => Ok(()),
    }
}

/// A finite map from the titles of pages to their texts.
#[derive(Drop)]
pub struct PageMap {
    map: IndexMap<Title, Entry, RandomState>,
}

impl Model for PageMap {
    ghost use Rattle.std.specs.Prelude.{List};
    ghost use Rattle.mw_frame.specs.WkBaseDeclaredTitleTitle.{Title as TitleValue};
    ghost use Rattle.wiki_pages.specs.Entries.{Entry as EntryValue};
    ghost use Rattle.std.specs.Coded.{coded_list, coded×};
    ghost use Rattle.page_run.specs.WkBaseContractsTitleTitle as title;
    ghost use Rattle.wiki_pages.specs.contracts.pages.Entry as entry;

    ghost Value = { List (TitleValue × EntryValue) };

    ghost coded = { coded_list (coded× title.the_row.coded entry.the_row.coded) };

    ghost view = { λ m. m.map.entries };
}

impl PageMap {
    /// No page is held. Titles, and the names of arguments, are hashed by the seed, so that no page can choose ones that
    /// collide.
    pub fn new(alloc: Global, seed: RandomState) -> PageMap
        ensures { result ≡ [] }
    {
        PageMap {
            map: IndexMap::with_hasher(alloc, seed),
        }
    }

    /// The seed of the hashes.
    pub fn seed(&self) -> RandomState {
        *self.map.hasher()
    }

    /// A page that isn't held yet is held.
    pub fn add(&mut self, title: Title, entry: Entry) -> Result<(), NoMemory>
        requires fresh { find_page self.old title ≡ None }
        requires direct { IsMarked entry.direct.nodes }
        requires transcluded { IsMarked entry.transcluded.nodes }
        ensures ok { OnOk result (self.new ≡ self.old ++ (title, entry) ∷ []) }
        ensures err { OnErr result (self.new ≡ self.old) }
    {
        let mut entry = entry;
        entry.prepare(self.seed())?;
        match self.map.insert(title, entry) {
            Ok(_) => Ok(()),
            Err(_) => Err(NoMemory),
        }
    }

    /// Whether a page of this title is held.
    pub fn holds(&self, title: &Title) -> bool
        ensures { result ≡ is_some (find_page self.now title.now) }
    {
        self.get(title).is_some()
    }

    /// The text of a page.
    pub fn get(&self, title: &Title) -> Option<&Entry>
        ensures { option_copied result ≡ find_page self.now title.now }
    {
        self.map.get(title)
    }
}
