//! Many pages of a wiki, each expanded by itself.
ghost use Rattle.std.specs.Prelude.{◌≡◌, ℕ, ◌≤◌, ◌<◌, ◌*◌, All, IfOk, IsSome, length};
ghost use Rattle.wk_base.specs.Allowances.{IsCountable};
ghost use Rattle.wiki_texts.specs.WikiPagesPages.{find_page};
ghost use Rattle.wiki_batch.specs.Batch.{IsPage, ArePages};
ghost use Rattle.wiki_batch.specs.Shares.{share_at, AreShares};

use crate::gate::Gate;
use crate::sharing::{gathered, share_count, share_of, share_size};
use page_driver::{Page, Wiki, expand_page};
use std::alloc::Global;
use std::hash::RandomState;
use std::marker::Brand;
use std::sync::ledger::{Blank, Ledger};
use std::thread::Threads;
use wk_base::{Limits, List, NoMemory, Steps, Title};
use wk_workers::map_by_workers;

/// A held page, with a counter of turns that nobody reads.
fn counted<L: Ledger>(
    alloc: Global,
    seed: RandomState,
    blank: Blank,
    wiki: &Wiki,
    limits: &Limits,
    title: &Title,
) -> Result<Page, NoMemory>
    requires name { blank.name ≡ L.name }
    requires parts { blank.parts ≡ L.parts }
    requires one { blank.parts ≡ 1 }
    requires held { IsSome (find_page wiki.now.pages title.now) }
    requires countable { IsCountable limits.now }
    ensures { IfOk result (λ page. IsPage wiki.now limits.now title.now page) }
{
    let mut turns = Steps::<L>::open(blank);
    let page = expand_page(alloc, seed, wiki, title, limits, &mut turns)?;
    Ok(page)
}

/// A held page, with all of its limits left.
fn expanded(
    alloc: Global,
    seed: RandomState,
    wiki: &Wiki,
    limits: &Limits,
    title: &Title,
) -> Result<Page, NoMemory>
    requires held { IsSome (find_page wiki.now.pages title.now) }
    requires countable { IsCountable limits.now }
    ensures { IfOk result (λ page. IsPage wiki.now limits.now title.now page) }
{
    counted::<Brand>(alloc, seed, Blank::new(1), wiki, limits, title)
}

/// The pages of the titles of a share, whose first has the place `start` among all.
fn expand_share<G: Gate>(
    alloc: Global,
    seed: RandomState,
    wiki: &Wiki,
    titles: &[Title],
    start: usize,
    limits: &Limits,
    gate: &G,
) -> Result<List<Page>, NoMemory>
    requires held { All (λ title. IsSome (find_page wiki.now.pages title)) titles.now }
    requires countable { IsCountable limits.now }
    ensures { IfOk result (λ pages. ArePages wiki.now limits.now titles.now pages) }
{
    let mut pages = List::new(alloc);
    let mut place = start;
    for title in titles {
        gate.started(place);
        place = place.saturating_add(1);
        let page = expanded(alloc, seed, wiki, limits, title)?;
        pages.push(page)?;
    }
    Ok(pages)
}

/// The pages of the share with the number j.
fn expand_numbered<G: Gate>(
    alloc: Global,
    seed: RandomState,
    wiki: &Wiki,
    titles: &[Title],
    size: usize,
    j: usize,
    limits: &Limits,
    gate: &G,
) -> Result<List<Page>, NoMemory>
    requires held { All (λ title. IsSome (find_page wiki.now.pages title)) titles.now }
    requires countable { IsCountable limits.now }
    requires within { j * size ≤ length titles.now }
    ensures { IfOk result (λ pages.
        ArePages wiki.now limits.now (share_at size j titles.now) pages) }
{
    let share = share_of(titles, size, j);
    expand_share(alloc, seed, wiki, share, j * size, limits, gate)
}

/// The pages of each share. Each job takes the next share that nobody has begun.
fn expand_shares<R: Threads + Sync, G: Gate + Sync>(
    rt: &R,
    alloc: Global,
    seed: RandomState,
    wiki: &Wiki,
    titles: &[Title],
    limits: &Limits,
    size: usize,
    shares: usize,
    jobs: usize,
    gate: &G,
) -> Result<Vec<Result<List<Page>, NoMemory>>, NoMemory>
    requires held { All (λ title. IsSome (find_page wiki.now.pages title)) titles.now }
    requires countable { IsCountable limits.now }
    requires within { (j : ℕ) → j < shares → j * size ≤ length titles.now }
    ensures { IfOk result (λ parts.
        AreShares (ArePages wiki.now limits.now) size shares titles.now parts.items) }
{
    let parts = map_by_workers(
        rt,
        alloc,
        jobs,
        shares,
        &|j| { expand_numbered(alloc, seed, wiki, titles, size, j, limits, gate) },
    )?;
    Ok(parts)
}

/// The pages of these titles, in their order, each with all of its limits left. Neither the number of jobs nor the gate changes an answer.
pub fn expand_all<R: Threads + Sync, G: Gate + Sync>(
    rt: &R,
    alloc: Global,
    seed: RandomState,
    wiki: &Wiki,
    titles: &[Title],
    limits: &Limits,
    jobs: usize,
    gate: &G,
) -> Result<List<Page>, NoMemory>
    requires held { All (λ title. IsSome (find_page wiki.now.pages title)) titles.now }
    requires countable { IsCountable limits.now }
    requires jobs { 1 ≤ jobs }
    ensures { IfOk result (λ pages. ArePages wiki.now limits.now titles.now pages) }
{
    let size = share_size(titles.len(), jobs);
    let shares = share_count(titles.len(), size);
    let parts = expand_shares(
        rt, alloc, seed, wiki, titles, limits, size, shares, jobs, gate,
    )?;
    gathered(alloc, parts)
}
