//! What is prepared of a page by itself, and pages that were prepared, put together.
ghost use Rattle.std.specs.Prelude.{◌≡◌, IfOk, OnOk};
ghost use Rattle.wiki_texts.specs.Pages.{with_page, page_map};
ghost use Rattle.wiki_texts.specs.Code.{Adds, AreCodeOf};
ghost use Rattle.wiki_texts.specs.Prepared.{IsPrepared, ArePrepared};

use crate::modules::{add_code, code_of_page};
use crate::pages::{add_page, paired};
use crate::prepared::Prepared;
use crate::raw::RawPage;
use lua_code::{List, Modules};
use std::alloc::Global;
use std::hash::RandomState;
use wiki_markup::NoMemory;
use wiki_pages::PageMap;

/// A page, prepared.
fn prepare(alloc: Global, seed: RandomState, page: &RawPage) -> Result<Prepared, NoMemory>
    ensures { IfOk result (λ prepared. IsPrepared page.now prepared) }
{
    let entry = paired(alloc, page.bytes.as_slice())?;
    let code = code_of_page(alloc, seed, page)?;
    Ok(Prepared { entry, code })
}

/// Pages, prepared, each by itself. Names are hashed from the seed, which changes nothing else.
pub fn prepare_all(
    alloc: Global,
    seed: RandomState,
    pages: &[RawPage],
) -> Result<List<Prepared>, NoMemory>
    ensures { IfOk result (λ prepared. ArePrepared pages.now prepared) }
{
    let mut prepared = List::new(alloc);
    for page in pages {
        let one = prepare(alloc, seed, page)?;
        prepared.push(one)?;
    }
    Ok(prepared)
}

/// Adds a page, and the module that it is, where none of its title is there.
fn add(
    map: &mut PageMap,
    modules: &mut Modules,
    page: &RawPage,
    prepared: Prepared,
) -> Result<(), NoMemory>
    requires { IsPrepared page.now prepared }
    ensures pages { OnOk result (map.new ≡ with_page map.old page.now) }
    ensures code { OnOk result (Adds page.now modules.old modules.new) }
{
    add_code(modules, page, prepared.code)?;
    add_page(map, page, prepared.entry)
}

/// The pages and the modules of a wiki, by title, from its pages in their order and what was prepared of each; of two with one title the first
/// counts. Titles are hashed from the seed.
pub fn by_title(
    alloc: Global,
    seed: RandomState,
    pages: &[RawPage],
    prepared: List<Prepared>,
) -> Result<(PageMap, Modules), NoMemory>
    requires { ArePrepared pages.now prepared }
    ensures pages { IfOk result (λ held. held.0 ≡ page_map pages.now) }
    ensures code { IfOk result (λ held. AreCodeOf pages.now held.1) }
{
    let mut map = PageMap::new(alloc, seed);
    let mut modules = Modules::new(alloc, seed);
    let mut at = 0;
    for done in prepared.into_vec() {
        add(&mut map, &mut modules, &pages[at], done)?;
        at += 1;
    }
    Ok((map, modules))
}
