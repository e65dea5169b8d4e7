//! What titles give on the pages of a wiki.
ghost use Rattle.std.specs.Prelude.{◌≡◌, ◌≤◌, All, Ok, IfOk, IsSome};
ghost use Rattle.wk_base.specs.Allowances.{IsCountable};
ghost use Rattle.wiki_batch.specs.LuaMeaningWorld.{Modules as PlainModules};
ghost use Rattle.wiki_batch.specs.WikiTextsModules.{AreMeantBy};
ghost use Rattle.wiki_pages.specs.Pages.{find_page};
ghost use Rattle.wiki_batch.specs.Batch.{AreOf};
ghost use Rattle.wiki_app.specs.Report.{pages_report, titles_report, wiki_report, AreThere, IsReportOf, IsWork};

use crate::pages::{first_missing, form_of, made_pages, raw_pages, titles_of};
use std::alloc::Global;
use std::hash::RandomState;
use std::mem;
use std::thread::Threads;
use wiki_batch::{Gate, RawPage, Wiki, expand_all, load};
use wiki_output::{Form, done_report};
use wiki_words::{Command, Settings};
use wk_base::{List, NoMemory, Title};
use wk_tool::{FolderPage, Report, missing_report};

/// The name that stands before the colon in a line on standard error.
pub const TOOL: &[u8] = b"wikiexpand";

/// What held titles give on a wiki: their pages in this form.
fn expanded_report<R: Threads + Sync, G: Gate + Sync>(
    rt: &R,
    alloc: Global,
    seed: RandomState,
    settings: &Settings,
    form: Form,
    titles: &[Title],
    wiki: &Wiki,
    gate: &G,
) -> Result<Report, NoMemory>
    requires held { All (λ title. IsSome (find_page wiki.now.pages title)) titles.now }
    requires countable { IsCountable settings.now.limits }
    requires jobs { 1 ≤ settings.now.jobs }
    ensures report { IfOk result (λ report.
        (modules : PlainModules) → AreOf wiki.now modules
        → report ≡ pages_report modules wiki.now.pages settings.now form titles.now) }
    ensures work { IfOk result (λ report. IsWork report.status) }
{
    let jobs = settings.jobs as usize;
    let pages = expand_all(rt, alloc, seed, wiki, titles, &settings.limits, jobs, gate)?;
    let made = made_pages(alloc, &settings.limits, pages)?;
    let report = done_report(alloc, form, settings.stats, made.as_slice())?;
    Ok(report)
}

/// What these titles give on a wiki: the pages in this form, or the first of the titles that no page has.
fn titles_report<R: Threads + Sync, G: Gate + Sync>(
    rt: &R,
    alloc: Global,
    seed: RandomState,
    settings: &Settings,
    form: Form,
    titles: &[Title],
    wiki: &Wiki,
    gate: &G,
) -> Result<Report, NoMemory>
    requires countable { IsCountable settings.now.limits }
    requires jobs { 1 ≤ settings.now.jobs }
    ensures report { IfOk result (λ report.
        (modules : PlainModules) → AreOf wiki.now modules
        → report ≡ titles_report modules wiki.now.pages settings.now form titles.now) }
    ensures work { IfOk result (λ report. IsWork report.status) }
{
    match first_missing(&wiki.pages, titles) {
        Some(title) => {
            let report = missing_report(alloc, TOOL, title)?;
            Ok(report)
        }
        None => {
            let report = expanded_report(rt, alloc, seed, settings, form, titles, wiki, gate)?;
            Ok(report)
        }
    }
}

/// What these titles give on a wiki of these pages. Titles are hashed from the seed.
fn wiki_report<R: Threads + Sync, G: Gate + Sync>(
    rt: &R,
    alloc: Global,
    seed: RandomState,
    settings: &Settings,
    form: Form,
    titles: &[Title],
    pages: List<RawPage>,
    gate: &G,
) -> Result<Report, NoMemory>
    requires countable { IsCountable settings.now.limits }
    requires jobs { 1 ≤ settings.now.jobs }
    ensures report { IfOk result (λ report.
        (modules : PlainModules) → AreMeantBy pages modules
        → report ≡ wiki_report modules settings.now form titles.now pages) }
    ensures has_modules { IfOk result (λ _. (modules : PlainModules) × AreMeantBy pages modules) }
    ensures work { IfOk result (λ report. IsWork report.status) }
{
    let wiki = load(rt, alloc, seed, pages, settings.jobs as usize)?;
    let report = titles_report(rt, alloc, seed, settings, form, titles, &wiki, gate)?;
    // The program ends with this report, and the wiki with it: giving it back part by part takes longer than reading the folder.
    mem::forget(wiki);
    Ok(report)
}

/// What a command gives on these pages.
pub fn command_report<R: Threads + Sync, G: Gate + Sync>(
    rt: &R,
    alloc: Global,
    seed: RandomState,
    command: &Command<'_>,
    pages: List<FolderPage>,
    gate: &G,
) -> Result<Report, NoMemory>
    requires countable { IsCountable command.now.settings.limits }
    requires jobs { 1 ≤ command.now.settings.jobs }
    ensures report { IfOk result (λ report. IsReportOf command.now report (Ok pages)) }
    ensures has_modules { IfOk result (λ _. AreThere (Ok pages)) }
    ensures work { IfOk result (λ report. IsWork report.status) }
{
    let titles = titles_of(alloc, &command.work, pages.as_slice())?;
    let raw = raw_pages(alloc, pages)?;
    let form = form_of(&command.work);
    let report = wiki_report(
        rt,
        alloc,
        seed,
        &command.settings,
        form,
        titles.as_slice(),
        raw,
        gate,
    )?;
    Ok(report)
}
