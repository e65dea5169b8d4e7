//! What is told of the globals that a module of a folder uses.
ghost use Rattle.std.specs.Prelude.{◌≡◌, ◌++◌, ◌∷◌, [], IfOk, OnOk, slice_get};
ghost use Rattle.lua_syntax.specs.View.{chunk_view};
ghost use Rattle.lua_parser.specs.Chunks.{IsParsed};
ghost use Rattle.lua_lint.specs.Reading.{modules_seen, unknown_seen, answer_seen};
ghost use Rattle.wiki_lint.specs.Linting.{lines, title_in, place_line, cannot_tell, told, place_of, IsTold, IsLinted};
ghost use Rattle.wiki_lint.specs.Trees.{AddsModule, HasModules};

use crate::told::{TEXT_LIMIT, TOOL, printed, put};
use itoa::Buffer;
use lua_lint::{GlobalUses, Named, UnknownAt, uses};
use lua_parser::parse;
use lua_syntax::{Chunk, SyntaxFault};
use std::alloc::Global;
use std::hash::RandomState;
use wk_base::{Bytes, List, NoMemory, Title};
use wk_tool::{FolderPage, Report, Status, refusal};

/// The tree of a text of Lua, or its first fault.
fn tree_of(alloc: Global, text: &[u8]) -> Result<Chunk, SyntaxFault>
    ensures { IsParsed result text.now }
{
    if text.len() >= TEXT_LIMIT {
        return Err(SyntaxFault::NoMemory);
    }
    parse(alloc, text)
}

/// A module more.
fn add(modules: &mut List<Named>, title: &Title, chunk: Chunk) -> Result<(), NoMemory>
    ensures { OnOk result (modules_seen modules.new
        ≡ modules_seen modules.old ++ record { title = title.now; chunk = chunk_view chunk } ∷ []) }
{
    let title = title.copy()?;
    modules.push(Named { title, chunk })
}

/// One more module, where a page is one and its text is Lua.
fn add_module(alloc: Global, page: &FolderPage, modules: &mut List<Named>) -> Result<(), NoMemory>
    ensures { OnOk result (AddsModule page.now modules.old modules.new) }
{
    if !page.title.ns.is_module() {
        return Ok(());
    }
    match tree_of(alloc, page.bytes.as_slice()) {
        Ok(chunk) => add(modules, &page.title, chunk),
        Err(SyntaxFault::At(_)) => Ok(()),
        Err(SyntaxFault::NoMemory) => Err(NoMemory),
    }
}

/// The modules of a folder whose texts are Lua.
fn modules_of(alloc: Global, pages: &[FolderPage]) -> Result<List<Named>, NoMemory>
    ensures { IfOk result (λ modules. HasModules pages.now (modules_seen modules)) }
{
    let mut modules = List::new(alloc);
    for page in pages {
        add_module(alloc, page, &mut modules)?;
    }
    Ok(modules)
}

/// The place of a module.
fn place_of(modules: &[Named], title: &Title) -> usize
    ensures { result ≡ place_of (modules_seen modules.now) title.now }
{
    for place in 0..modules.len() {
        if modules[place].title == *title {
            return place;
        }
    }
    0
}

/// A line with each of these names.
fn lines(alloc: Global, names: &[Bytes]) -> Result<Bytes, NoMemory>
    ensures { IfOk result (λ text. text ≡ lines names.now) }
{
    let mut text = Vec::new(alloc);
    for name in names {
        put(&mut text, name.as_slice())?;
        put(&mut text, b"\n")?;
    }
    Ok(Bytes::of_vec(text))
}

/// The title of the module at a place, or nothing.
fn title_at(alloc: Global, modules: &[Named], place: usize) -> Result<Bytes, NoMemory>
    ensures { IfOk result (λ text. text ≡ title_in (slice_get (modules_seen modules.now) place)) }
{
    match modules.get(place) {
        None => Ok(Bytes::of_vec(Vec::new(alloc))),
        Some(module) => module.title.text(),
    }
}

/// What is told where the globals can't be.
fn cannot_tell(alloc: Global, modules: &[Named], at: UnknownAt) -> Result<Report, NoMemory>
    ensures { IfOk result (λ report.
        report ≡ cannot_tell (modules_seen modules.now) (unknown_seen at)) }
{
    let title = title_at(alloc, modules, at.module)?;
    let line = place_line(alloc, title.as_slice(), at.line)?;
    Ok(refusal(alloc, Status::CannotTell, line))
}

/// The line that names a place.
fn place_line(alloc: Global, title: &[u8], line: u32) -> Result<Bytes, NoMemory>
    ensures { IfOk result (λ text. text ≡ place_line title.now line) }
{
    let mut digits = Buffer::new();
    let mut text = Vec::new(alloc);
    put(&mut text, TOOL)?;
    put(&mut text, b": ")?;
    put(&mut text, b"cannot tell: ")?;
    put(&mut text, title)?;
    put(&mut text, b":")?;
    put(&mut text, digits.format(line).as_bytes())?;
    put(&mut text, b"\n")?;
    Ok(Bytes::of_vec(text))
}

/// What is told of the globals that a module uses.
fn told(alloc: Global, modules: &[Named], answer: &GlobalUses) -> Result<Report, NoMemory>
    ensures { IfOk result (λ report.
        report ≡ told (modules_seen modules.now) (answer_seen answer.now)) }
{
    match answer {
        GlobalUses::Names(names) => Ok(printed(alloc, lines(alloc, names.as_slice())?)),
        GlobalUses::Unknown(at) => cannot_tell(alloc, modules, *at),
    }
}

/// What is told of a module whose text is Lua.
fn of_module(
    alloc: Global,
    seed: RandomState,
    title: &Title,
    pages: &[FolderPage],
) -> Result<Report, NoMemory>
    ensures { IfOk result (λ report. IsTold title.now pages.now report) }
{
    let modules = modules_of(alloc, pages)?;
    let place = place_of(modules.as_slice(), title);
    let answer = uses(alloc, seed, modules.as_slice(), place)?;
    told(alloc, modules.as_slice(), &answer)
}

/// What is told of the globals that a module with this text on these pages uses; or the first fault of the text. Titles and names are
/// hashed by the seed.
pub fn lint(
    alloc: Global,
    seed: RandomState,
    title: &Title,
    text: &[u8],
    pages: &[FolderPage],
) -> Result<Report, SyntaxFault>
    ensures { IsLinted title.now pages.now text.now result }
{
    match tree_of(alloc, text) {
        Ok(_) => match of_module(alloc, seed, title, pages) {
            Ok(report) => Ok(report),
            Err(NoMemory) => Err(SyntaxFault::NoMemory),
        },
        Err(fault) => Err(fault),
    }
}
