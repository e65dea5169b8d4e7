//! What a module of a folder gives.
ghost use Rattle.std.specs.Prelude.{◌≡◌, IfOk, IfErr, IfSome, Err, option_map};
ghost use Rattle.wk_tool.specs.WkShelfCauses.{Rose};
ghost use Rattle.wk_tool.specs.WkShelfFolder.{files_of, wiki_of};
ghost use Rattle.wk_tool.specs.Report.{source_report};
ghost use Rattle.wiki_lint.specs.Told.{tool};
ghost use Rattle.wiki_fmt.specs.Due.{text_of, refused, IsTextReport, IsPageReport, IsGlobalsReport, IsLintReport, IsAsked, IsWikiReport, IsAnswer};

use crate::command::{Command, Verb};
use lua_print::{FaultAt, SyntaxFault, fault_message, layout};
use std::alloc::Global;
use std::hash::RandomState;
use wiki_lint::{FolderPage, List, TEXT_LIMIT, TOOL, lint, printed};
use wk_tool::{
    Bytes, FolderFault, NoMemory, Report, Shelf, Status, Title, Unread, missing_report,
    read_folder, refusal, source_report,
};

/// The text of the page of a title.
fn text_of<'p>(title: &Title, pages: &'p [FolderPage]) -> Option<&'p [u8]>
    ensures { option_map (λ text. text.now) result ≡ text_of title.now pages.now }
{
    for page in pages {
        if page.title == *title {
            return Some(page.bytes.as_slice());
        }
    }
    None
}

/// What a fault of a text gives.
fn refused(alloc: Global, title: &Title, fault: &FaultAt) -> Result<Report, NoMemory>
    ensures { IfOk result (λ report. report ≡ refused title.now fault.now) }
{
    let mut line = fault_message(alloc, title, fault)?;
    match line.push(b'\n') {
        Ok(_) => Ok(refusal(alloc, Status::SyntaxFault, Bytes::of_vec(line))),
        Err(_) => Err(NoMemory),
    }
}

/// What the text of a module gives: its layout, or its fault.
fn text_report(alloc: Global, title: &Title, text: &[u8]) -> Result<Report, NoMemory>
    ensures report { IfOk result (λ report. IsTextReport title.now text.now report) }
    ensures answer { IfOk result (λ report. IsAnswer report.status) }
{
    if text.len() >= TEXT_LIMIT {
        return Err(NoMemory);
    }
    match layout(alloc, text) {
        Ok(bytes) => Ok(printed(alloc, bytes)),
        Err(SyntaxFault::NoMemory) => Err(NoMemory),
        Err(SyntaxFault::At(fault)) => refused(alloc, title, &fault),
    }
}

/// What a module gives on these pages.
fn pages_report(alloc: Global, title: &Title, pages: &[FolderPage]) -> Result<Report, NoMemory>
    ensures report { IfOk result (λ report.
        IsPageReport title.now (text_of title.now pages.now) report) }
    ensures answer { IfOk result (λ report. IsAnswer report.status) }
{
    match text_of(title, pages) {
        None => missing_report(alloc, TOOL, title),
        Some(text) => text_report(alloc, title, text),
    }
}

/// What is told of the globals that a module with this text uses.
fn globals_report(
    alloc: Global,
    seed: RandomState,
    title: &Title,
    text: &[u8],
    pages: &[FolderPage],
) -> Result<Report, NoMemory>
    ensures report { IfOk result (λ report. IsGlobalsReport title.now pages.now text.now report) }
    ensures answer { IfOk result (λ report. IsAnswer report.status) }
{
    match lint(alloc, seed, title, text, pages) {
        Ok(report) => Ok(report),
        Err(SyntaxFault::NoMemory) => Err(NoMemory),
        Err(SyntaxFault::At(fault)) => refused(alloc, title, &fault),
    }
}

/// What is told of the globals that a module on these pages uses.
fn lint_pages(
    alloc: Global,
    seed: RandomState,
    title: &Title,
    pages: &[FolderPage],
) -> Result<Report, NoMemory>
    ensures report { IfOk result (λ report.
        IsLintReport title.now pages.now (text_of title.now pages.now) report) }
    ensures answer { IfOk result (λ report. IsAnswer report.status) }
{
    match text_of(title, pages) {
        None => missing_report(alloc, TOOL, title),
        Some(text) => globals_report(alloc, seed, title, text, pages),
    }
}

/// What is asked of a module on these pages.
fn asked(
    alloc: Global,
    seed: RandomState,
    verb: Verb,
    title: &Title,
    pages: &[FolderPage],
) -> Result<Report, NoMemory>
    ensures report { IfOk result (λ report. IsAsked verb title.now pages.now report) }
    ensures answer { IfOk result (λ report. IsAnswer report.status) }
{
    match verb {
        Verb::Print => pages_report(alloc, title, pages),
        Verb::Lint => lint_pages(alloc, seed, title, pages),
    }
}

/// What is asked of a module on the pages of a folder.
fn on_pages(
    alloc: Global,
    seed: RandomState,
    verb: Verb,
    title: &Title,
    pages: &List<FolderPage>,
) -> Result<Report, Unread>
    ensures report { IfOk result (λ report. IsAsked verb title.now pages.now report) }
    ensures answer { IfOk result (λ report. IsAnswer report.status) }
    ensures memory { IfErr result (λ e. e ≡ Unread.NoMemory) }
{
    match asked(alloc, seed, verb, title, pages.as_slice()) {
        Ok(report) => Ok(report),
        Err(NoMemory) => Err(Unread::NoMemory),
    }
}

/// What a fault of the folder gives.
fn on_fault(alloc: Global, fault: &Bytes) -> Result<Report, Unread>
    ensures report { IfOk result (λ report. report ≡ source_report tool fault.now) }
    ensures answer { IfOk result (λ report. IsAnswer report.status) }
    ensures memory { IfErr result (λ e. e ≡ Unread.NoMemory) }
{
    match source_report(alloc, TOOL, fault.as_slice()) {
        Ok(report) => Ok(report),
        Err(NoMemory) => Err(Unread::NoMemory),
    }
}

/// What a command gives on its folder.
pub fn command_report<S: Shelf>(
    alloc: Global,
    seed: RandomState,
    command: &Command<'_>,
    shelf: &mut S,
) -> Result<Report, Unread>
    ensures report { IfOk result (λ report.
        IfSome (S.files shelf.old) (λ files.
        IsWikiReport command.now.verb command.now.title
        (wiki_of (files_of command.now.folder files)) report)) }
    ensures answer { IfOk result (λ report. IsAnswer report.status) }
    ensures cause { result ≡ Err Unread.Failed → Rose (S.faults shelf.old) (S.faults shelf.new) }
{
    match read_folder(alloc, seed, shelf, command.folder) {
        Ok(pages) => on_pages(alloc, seed, command.verb, &command.title, &pages),
        Err(FolderFault::Source(fault)) => on_fault(alloc, &fault),
        Err(FolderFault::Read) => Err(Unread::Failed),
        Err(FolderFault::NoMemory) => Err(Unread::NoMemory),
    }
}
