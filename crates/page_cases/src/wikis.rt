//! A wiki from the pages of the folder, and how much is allowed on it.
ghost use Rattle.wk_base.specs.Allowances.{IsCountable};

use crate::fields::number_or;
use crate::rows::File;
use case_text::unescaped;
use std::alloc::Global;
use std::hash::RandomState;
use std::thread::Threads;
use wiki_app::{RawPage, Wiki, load};
use wk_base::{Bytes, Limits, List, Namespace, NoMemory, Title};

/// The title that a text is. One that is none counts as want of memory.
pub fn title_of(alloc: Global, text: &[u8]) -> Result<Title, NoMemory> {
    match Title::read(alloc, text, Namespace::Main) {
        Ok(title) => Ok(title),
        Err(_) => Err(NoMemory),
    }
}

fn raw_page(alloc: Global, file: &File<'_>) -> Result<RawPage, NoMemory> {
    let bytes = Bytes::of_vec(unescaped(alloc, file.text)?);
    let title = title_of(alloc, file.name)?;
    Ok(RawPage { title, bytes })
}

fn raw_pages(alloc: Global, files: &[File<'_>]) -> Result<List<RawPage>, NoMemory> {
    let mut pages = List::new(alloc);
    for file in files {
        pages.push(raw_page(alloc, file)?)?;
    }
    Ok(pages)
}

/// The wiki of these pages.
pub fn wiki_of<R: Threads + Sync>(
    rt: &R,
    alloc: Global,
    seed: RandomState,
    files: &[File<'_>],
) -> Result<Wiki, NoMemory> {
    let pages = raw_pages(alloc, files)?;
    load(rt, alloc, seed, pages, 1)
}

/// The most steps that a page may have.
const MOST_STEPS: u64 = 1_000_000_000;

/// The steps and the nested calls that a row begins with, and enough of all else.
pub fn limits_of(row: &str) -> Limits
    ensures { IsCountable result }
{
    Limits {
        steps: number_or(row, 0, 0).min(MOST_STEPS),
        nodes: 50,
        bytes: 1000,
        calls: number_or(row, 1, 0),
        depth: 40,
        templates: 10,
    }
}
