//! A page with allowances of its own.
ghost use Rattle.std.specs.Prelude.{◌≡◌};
ghost use Rattle.wk_base.specs.Allowances.{IsCountable};

use crate::fields::{is_number, is_text, text_of};
use crate::rows::Rows;
use crate::wikis::{limits_of, title_of, wiki_of};
use bumpalo::Bump;
use lua_store::Store;
use std::alloc::Global;
use std::hash::RandomState;
use std::marker::Brand;
use std::mem;
use std::sync::ledger::{Blank, Ledger};
use std::thread::Threads;
use wiki_app::{Page, Wiki, expand_page_in};
use wk_base::{Limits, NoMemory, Steps, Title};

/// Whether the store has functions of the runs from 0 on: for each a `1`, or a `0`.
fn has_runs(store: &Store, runs: &[u8]) -> bool {
    let mut run = 0u32;
    for has in runs {
        if store.has_env(run) != (*has == b'1') {
            return false;
        }
        run = run.saturating_add(1);
    }
    true
}

/// An expanded page, and whether its store has the functions of runs that the row says.
#[derive(Drop)]
struct Expanded {
    page: Page,
    has_runs: bool,
}

/// Whether a page came to the numbers of a row.
fn has_numbers(head: &str, came: &Expanded) -> bool {
    came.has_runs
        && is_number(head, 2, came.page.left.steps)
        && is_number(head, 3, came.page.repeat_charges)
}

/// What stands before the text of a row.
fn head_of<'r>(row: &'r str) -> &'r str {
    row.split('|').next().unwrap_or(row)
}

/// Whether a page came to what the row says.
fn is_as_said(
    alloc: Global,
    rows: &mut Rows<'_>,
    row: &str,
    came: &Expanded,
) -> Result<bool, NoMemory> {
    let (head, text) = row.split_once('|').unwrap_or((row, ""));
    rows.note(came.page.left.steps, came.page.text.as_slice())?;
    let has_text = is_text(alloc, text.as_bytes(), came.page.text.as_slice())?;
    let right = has_text && has_numbers(head, came);
    Ok(rows.count(right))
}

/// A page of a wiki, expanded in a new store, and whether that has functions of these runs.
fn page_of<L: Ledger>(
    alloc: Global,
    seed: RandomState,
    wiki: &Wiki,
    title: &Title,
    limits: &Limits,
    runs: &[u8],
    blank: Blank,
) -> Result<Expanded, NoMemory>
    requires name { blank.name ≡ L.name }
    requires parts { blank.parts ≡ L.parts }
    requires one { blank.parts ≡ 1 }
    requires countable { IsCountable limits.now }
{
    let mut turns = Steps::<L>::open(blank);
    if !wiki.pages.holds(title) {
        return Err(NoMemory);
    }
    let arena = Bump::new(alloc);
    let mut store = Store::new(alloc, &arena, seed);
    let page = expand_page_in(alloc, seed, &mut store, wiki, title, limits, &mut turns)?;
    let has_runs = has_runs(&store, runs);
    Ok(Expanded { page, has_runs })
}

/// The page of a row, with its allowances.
fn counted(
    alloc: Global,
    seed: RandomState,
    wiki: &Wiki,
    title: &Title,
    row: &str,
) -> Result<Expanded, NoMemory> {
    let limits = limits_of(row);
    let runs = text_of(head_of(row), 4);
    page_of::<Brand>(alloc, seed, wiki, title, &limits, runs, Blank::new(1))
}

/// Whether the page `P` of a wiki comes to what the row says.
fn is_expanded(
    alloc: Global,
    seed: RandomState,
    rows: &mut Rows<'_>,
    row: &str,
    wiki: &Wiki,
) -> Result<bool, NoMemory> {
    let title = title_of(alloc, b"P")?;
    let came = counted(alloc, seed, wiki, &title, row)?;
    is_as_said(alloc, rows, row, &came)
}

/// Whether the page `P` of the folder comes to what the row says: the steps and the calls that it may use, the steps that are left, those of
/// kept data, and the runs of which the store has functions; then its text.
pub fn is_page<R: Threads + Sync>(
    rt: &R,
    alloc: Global,
    seed: RandomState,
    rows: &mut Rows<'_>,
    row: &str,
) -> Result<bool, NoMemory> {
    let wiki = wiki_of(rt, alloc, seed, rows.files.as_slice())?;
    let right = is_expanded(alloc, seed, rows, row, &wiki);
    // Giving it back would have to be proved here, for all types of code and of trees.
    mem::forget(wiki);
    right
}
