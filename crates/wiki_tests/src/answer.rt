//! What a folder gives.
ghost use Rattle.std.specs.Prelude.{◌≡◌, ◌≤◌, map, Err, IfOk, IfErr, IfSome};
ghost use Rattle.wk_base.specs.Allowances.{IsCountable};
ghost use Rattle.wk_shelf.specs.Causes.{Rose};
ghost use Rattle.wk_shelf.specs.Folder.{files_of, wiki_of};
ghost use Rattle.wk_tool.specs.Report.{source_report};
ghost use Rattle.lua_meaning.specs.World.{Modules as PlainModules};
ghost use Rattle.wiki_batch.specs.WikiTextsModules.{AreMeantBy};
ghost use Rattle.wiki_tests.specs.Due.{tool, raw_page, raw_pages, status_of, printed, folder_report, IsFolderReport, IsOnlyReport, IsAnswer};

use crate::command::Command;
use crate::reporting::{TestReport, report};
use crate::tested::test_modules;
use std::alloc::Global;
use std::hash::RandomState;
use std::mem;
use std::thread::Threads;
use wiki_batch::{RawPage, load};
use wk_base::{Bytes, Limits, List, NoMemory};
use wk_shelf::{FolderFault, FolderPage, Shelf, read_folder};
use wk_tool::{Report, Status, Unread, source_report};

/// The name that stands before the colon in a line on standard error.
const TOOL: &[u8] = b"wikitest";

/// The pages of a folder, as pages of a wiki.
fn raw_pages(alloc: Global, pages: List<FolderPage>) -> Result<List<RawPage>, NoMemory>
    ensures { IfOk result (λ raw. raw ≡ map raw_page pages) }
{
    let mut raw = List::new(alloc);
    for page in pages.into_vec() {
        raw.push(RawPage {
            title: page.title,
            bytes: page.bytes,
        })?;
    }
    Ok(raw)
}

/// The report of all test modules of these pages.
fn folder_report<R: Threads + Sync>(
    rt: &R,
    alloc: Global,
    seed: RandomState,
    limits: &Limits,
    jobs: usize,
    pages: List<RawPage>,
) -> Result<TestReport, NoMemory>
    requires countable { IsCountable limits.now }
    requires jobs { 1 ≤ jobs }
    ensures report { IfOk result (λ report.
        (modules : PlainModules) → AreMeantBy pages modules
        → report ≡ folder_report modules limits.now pages) }
    ensures has_modules { IfOk result (λ _. (modules : PlainModules) × AreMeantBy pages modules) }
{
    let tests = test_modules(alloc, seed, pages.as_slice())?;
    let wiki = load(rt, alloc, seed, pages, jobs)?;
    let made = report(rt, alloc, seed, &wiki, tests.as_slice(), limits, jobs);
    // The program ends with this report, and the wiki with it: giving it back part by part takes longer than reading the folder.
    mem::forget(wiki);
    made
}

fn status_of(failed: u64) -> Status
    ensures status { result ≡ status_of failed }
    ensures answer { IsAnswer result }
{
    if failed == 0 {
        return Status::Done;
    }
    Status::CaseFailed
}

/// What a report gives.
fn printed(alloc: Global, made: TestReport) -> Report
    ensures report { result ≡ printed made }
    ensures answer { IsAnswer result.status }
{
    Report {
        status: status_of(made.failed),
        out: made.text,
        err: Bytes::of_vec(Vec::new(alloc)),
    }
}

/// The report of the test modules of a folder.
fn pages_report<R: Threads + Sync>(
    rt: &R,
    alloc: Global,
    seed: RandomState,
    limits: &Limits,
    jobs: u64,
    pages: List<FolderPage>,
) -> Result<Report, NoMemory>
    requires countable { IsCountable limits.now }
    requires jobs { 1 ≤ jobs }
    ensures report { IfOk result (λ report. IsFolderReport limits.now (raw_pages pages) report) }
    ensures answer { IfOk result (λ report. IsAnswer report.status) }
{
    let raw = raw_pages(alloc, pages)?;
    let made = folder_report(rt, alloc, seed, limits, jobs as usize, raw)?;
    Ok(printed(alloc, made))
}

/// What the pages of a folder give.
fn on_pages<R: Threads + Sync>(
    rt: &R,
    alloc: Global,
    seed: RandomState,
    limits: &Limits,
    jobs: u64,
    pages: List<FolderPage>,
) -> Result<Report, Unread>
    requires countable { IsCountable limits.now }
    requires jobs { 1 ≤ jobs }
    ensures report { IfOk result (λ report. IsFolderReport limits.now (raw_pages pages) report) }
    ensures answer { IfOk result (λ report. IsAnswer report.status) }
    ensures memory { IfErr result (λ e. e ≡ Unread.NoMemory) }
{
    match pages_report(rt, alloc, seed, limits, jobs, pages) {
        Ok(report) => Ok(report),
        Err(NoMemory) => Err(Unread::NoMemory),
    }
}

/// What a fault of the folder gives.
fn on_fault(alloc: Global, fault: &Bytes) -> Result<Report, Unread>
    ensures report { IfOk result (λ report. report ≡ source_report tool fault.now) }
    ensures answer { IfOk result (λ report. IsAnswer report.status) }
    ensures memory { IfErr result (λ e. e ≡ Unread.NoMemory) }
{
    match source_report(alloc, TOOL, fault.as_slice()) {
        Ok(report) => Ok(report),
        Err(NoMemory) => Err(Unread::NoMemory),
    }
}

/// What a command gives on its folder.
pub fn command_report<R: Threads + Sync, S: Shelf>(
    rt: &R,
    alloc: Global,
    seed: RandomState,
    command: &Command<'_>,
    shelf: &mut S,
) -> Result<Report, Unread>
    requires countable { IsCountable command.now.limits }
    requires jobs { 1 ≤ command.now.jobs }
    ensures report { IfOk result (λ report.
        IfSome (S.files shelf.old) (λ files.
        IsOnlyReport command.now.limits (wiki_of (files_of command.now.folder files)) report)) }
    ensures answer { IfOk result (λ report. IsAnswer report.status) }
    ensures cause { result ≡ Err Unread.Failed → Rose (S.faults shelf.old) (S.faults shelf.new) }
{
    match read_folder(alloc, seed, shelf, command.folder) {
        Ok(pages) => on_pages(rt, alloc, seed, &command.limits, command.jobs, pages),
        Err(FolderFault::Source(fault)) => on_fault(alloc, &fault),
        Err(FolderFault::Read) => Err(Unread::Failed),
        Err(FolderFault::NoMemory) => Err(Unread::NoMemory),
    }
}
