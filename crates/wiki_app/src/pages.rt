//! The pages that a command is about, and what is told of those that are expanded.
ghost use Rattle.std.specs.Prelude.{◌≡◌, map, option_map, Ok, Err, IfOk, IfErr, IfSome};
ghost use Rattle.wk_tool.specs.WkShelfCauses.{Rose};
ghost use Rattle.wk_tool.specs.WkShelfFolderFaults.{source_line};
ghost use Rattle.wiki_app.specs.Pages.{wiki_for, titles_of, form_asked, form_of, raw_page, first_missing, used_of, made_page};
ghost use Rattle.wiki_app.specs.Report.{IsOfFolder};

use std::alloc::Global;
use std::hash::RandomState;
use wiki_batch::{Page, RawPage};
use wiki_output::{Form, Made, Used, demo_pages, in_text_order, shown_titles};
use wiki_pages::PageMap;
use wiki_words::{Asked, Work};
use wk_base::{Left, Limits, List, NoMemory, Title};
use wk_tool::{FolderFault, FolderPage, Shelf, read_folder};

/// The pages of the wiki: those of a folder, or those that the program makes.
pub fn pages_for<S: Shelf>(
    alloc: Global,
    seed: RandomState,
    work: &Work<'_>,
    shelf: &mut S,
) -> Result<List<FolderPage>, FolderFault>
    ensures pages { IfOk result (λ pages.
        IfSome (wiki_for work.now (S.files shelf.old)) (λ wiki. wiki ≡ Ok pages)) }
    ensures fault { IfErr result (λ fault.
        IfSome (source_line fault) (λ line.
        IfSome (wiki_for work.now (S.files shelf.old)) (λ wiki. wiki ≡ Err line))) }
    ensures cause { result ≡ Err FolderFault.Read
        → IsOfFolder work.now × Rose (S.faults shelf.old) (S.faults shelf.new) }
{
    match work {
        Work::Folder(pages) => read_folder(alloc, seed, shelf, pages.folder),
        Work::Made(count) => match demo_pages(alloc, *count) {
            Ok(pages) => Ok(pages),
            Err(NoMemory) => Err(FolderFault::NoMemory),
        },
    }
}

fn copied(alloc: Global, titles: &[Title]) -> Result<List<Title>, NoMemory>
    ensures { IfOk result (λ copied. copied ≡ titles.now) }
{
    let mut copied = List::new(alloc);
    for title in titles {
        copied.push(title.copy()?)?;
    }
    Ok(copied)
}

/// The titles of the pages that are shown, in their order.
pub fn titles_of(
    alloc: Global,
    work: &Work<'_>,
    pages: &[FolderPage],
) -> Result<List<Title>, NoMemory>
    ensures { IfOk result (λ titles. titles ≡ titles_of work.now pages.now) }
{
    match work {
        Work::Folder(asked) => match &asked.asked {
            Asked::Titles(titles) => copied(alloc, titles.as_slice()),
            Asked::AllPages => in_text_order(alloc, shown_titles(alloc, pages)?),
        },
        Work::Made(_) => shown_titles(alloc, pages),
    }
}

fn form_asked(asked: &Asked) -> Form
    ensures { result ≡ form_asked asked.now }
{
    match asked {
        Asked::Titles(titles) => match titles.as_slice() {
            [_] => Form::Alone,
            _ => Form::Blocks,
        },
        Asked::AllPages => Form::Blocks,
    }
}

/// How the pages are shown.
pub fn form_of(work: &Work<'_>) -> Form
    ensures { result ≡ form_of work.now }
{
    match work {
        Work::Folder(asked) => form_asked(&asked.asked),
        Work::Made(_) => Form::Summary,
    }
}

/// The pages of a folder, as pages of a wiki.
pub fn raw_pages(alloc: Global, pages: List<FolderPage>) -> Result<List<RawPage>, NoMemory>
    ensures { IfOk result (λ raw. raw ≡ map raw_page pages) }
{
    let mut raw = List::new(alloc);
    for page in pages.into_vec() {
        raw.push(RawPage {
            title: page.title,
            bytes: page.bytes,
        })?;
    }
    Ok(raw)
}

/// The first title that no page has.
pub fn first_missing<'t>(pages: &PageMap, titles: &'t [Title]) -> Option<&'t Title>
    ensures missing { option_map (λ title. title.now) result ≡ first_missing pages.now titles.now }
{
    for title in titles {
        if !pages.holds(title) {
            return Some(title);
        }
    }
    None
}

/// What a page used: what it could use, less what is left.
fn used_of(limits: &Limits, left: &Left) -> Used
    ensures { result ≡ used_of limits.now left.now }
{
    Used {
        steps: limits.steps.saturating_sub(left.steps),
        nodes: limits.nodes.saturating_sub(left.nodes),
        bytes: limits.bytes.saturating_sub(left.bytes),
    }
}

/// What is told of pages that were expanded.
pub fn made_pages(alloc: Global, limits: &Limits, pages: List<Page>) -> Result<List<Made>, NoMemory>
    ensures { IfOk result (λ made. made ≡ map (made_page limits.now) pages) }
{
    let mut made = List::new(alloc);
    for page in pages.into_vec() {
        let used = used_of(limits, &page.left);
        made.push(Made {
            title: page.title,
            text: page.text,
            used,
        })?;
    }
    Ok(made)
}
