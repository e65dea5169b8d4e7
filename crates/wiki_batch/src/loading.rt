//! A wiki from the texts of its pages.
ghost use Rattle.std.specs.Prelude.{◌≡◌, ℕ, ◌≤◌, ◌<◌, ◌*◌, IfOk, length};
ghost use Rattle.wiki_texts.specs.LuaMeaningWorld.{Modules as PlainModules};
ghost use Rattle.wiki_texts.specs.Pages.{page_map};
ghost use Rattle.wiki_texts.specs.Modules.{AreMeantBy};
ghost use Rattle.wiki_texts.specs.Prepared.{ArePrepared};
ghost use Rattle.wiki_batch.specs.Batch.{AreOf};
ghost use Rattle.wiki_batch.specs.Shares.{share_at, AreShares};
ghost use Rattle.wiki_batch.specs.Wikis.{HoldsModules};

use crate::sharing::{gathered, share_count, share_of, share_size};
use page_driver::Wiki;
use std::alloc::Global;
use std::hash::RandomState;
use std::thread::Threads;
use wiki_texts::{Prepared, RawPage, by_title, prepare_all};
use wk_base::{List, NoMemory};
use wk_workers::map_by_workers;

/// What is prepared of the pages of the share with the number j.
fn prepare_numbered(
    alloc: Global,
    seed: RandomState,
    pages: &[RawPage],
    size: usize,
    j: usize,
) -> Result<List<Prepared>, NoMemory>
    requires within { j * size ≤ length pages.now }
    ensures { IfOk result (λ prepared. ArePrepared (share_at size j pages.now) prepared) }
{
    let share = share_of(pages, size, j);
    prepare_all(alloc, seed, share)
}

/// What is prepared of the pages of each share. Each job takes the next share that nobody has begun.
fn prepare_shares<R: Threads + Sync>(
    rt: &R,
    alloc: Global,
    seed: RandomState,
    pages: &[RawPage],
    size: usize,
    shares: usize,
    jobs: usize,
) -> Result<Vec<Result<List<Prepared>, NoMemory>>, NoMemory>
    requires within { (j : ℕ) → j < shares → j * size ≤ length pages.now }
    ensures { IfOk result (λ parts. AreShares ArePrepared size shares pages.now parts.items) }
{
    let parts = map_by_workers(
        rt,
        alloc,
        jobs,
        shares,
        &|j| { prepare_numbered(alloc, seed, pages, size, j) },
    )?;
    Ok(parts)
}

/// What is prepared of these pages, in their order.
fn all_prepared<R: Threads + Sync>(
    rt: &R,
    alloc: Global,
    seed: RandomState,
    pages: &[RawPage],
    jobs: usize,
) -> Result<List<Prepared>, NoMemory>
    requires { 1 ≤ jobs }
    ensures { IfOk result (λ prepared. ArePrepared pages.now prepared) }
{
    let size = share_size(pages.len(), jobs);
    let shares = share_count(pages.len(), size);
    let parts = prepare_shares(rt, alloc, seed, pages, size, shares, jobs)?;
    gathered(alloc, parts)
}

/// The wiki of these pages: their texts cut and paired, and of each page of namespace Module the code of its text, or the text's first fault.
/// The pages are prepared in shares, by as many threads as there are jobs, and put together in their order: the number of jobs changes nothing.
/// Titles and names are hashed from the seed, which changes nothing else.
pub fn load<R: Threads + Sync>(
    rt: &R,
    alloc: Global,
    seed: RandomState,
    pages: List<RawPage>,
    jobs: usize,
) -> Result<Wiki, NoMemory>
    requires jobs { 1 ≤ jobs }
    ensures pages { IfOk result (λ wiki. wiki.pages ≡ page_map pages) }
    ensures has_each_module { IfOk result (λ wiki. HoldsModules wiki.pages wiki.modules) }
    // Whatever modules the texts mean, the code is theirs; and there are such modules.
    ensures code { IfOk result (λ wiki.
        (modules : PlainModules) → AreMeantBy pages modules → AreOf wiki modules) }
    ensures has_modules { IfOk result (λ _. (modules : PlainModules) × AreMeantBy pages modules) }
{
    let texts = pages.as_slice();
    let prepared = all_prepared(rt, alloc, seed, texts, jobs)?;
    let (map, modules) = by_title(alloc, seed, texts, prepared)?;
    Ok(Wiki {
        pages: map,
        modules,
    })
}
