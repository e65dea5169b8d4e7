//! The test modules of a folder, with the cases that their texts name.
ghost use Rattle.std.specs.Prelude.{◌≡◌, ◌++◌, [], false, is_some, map, filter, option_map, Err, IfOk, OnOk};
ghost use Rattle.std.specs.List.{cons_option};
ghost use Rattle.std.specs.Map.{lookup};
ghost use Rattle.std.specs.Str.{bytes_eq};
ghost use Rattle.lua_parser.specs.Chunks.{IsParsed};
ghost use Rattle.wiki_tests.specs.Tested.{is_test_title, title_in, test_titles};
ghost use Rattle.wiki_tests.specs.Texts.{text_in, AreTexts, AddsText, AddsPage, AreCases, IsTested, AreTested, AreTestModules};

use case_names::cases;
use indexmap::IndexMap;
use lua_parser::parse;
use lua_syntax::{FaultAt, SyntaxFault};
use std::alloc::Global;
use std::hash::RandomState;
use wiki_batch::RawPage;
use wiki_output::in_text_order;
use wk_base::{Bytes, List, NoMemory, Title};

/// A module that is tested: its title, and the cases that its text names, or the text's first fault.
#[derive(Drop)]
pub struct TestModule {
    pub title: Title,
    pub cases: Result<List<Bytes>, FaultAt>,
}

/// A text of Lua has fewer bytes than this, so that 32 bits number its lines. No folder that is read holds a longer one.
const TEXT_LIMIT: usize = 4_000_000_000;

/// Whether a title is that of a test module.
fn is_test_title(title: &Title) -> bool
    ensures { result ≡ is_test_title title.now }
{
    title.ns.is_module() && title.name.as_slice().ends_with(b"/testcases")
}

/// The titles of test modules among those of these pages.
fn titles_among(alloc: Global, pages: &[RawPage]) -> Result<List<Title>, NoMemory>
    ensures { IfOk result (λ titles. titles ≡ filter is_test_title (map title_in pages.now)) }
{
    let mut titles = List::new(alloc);
    for page in pages {
        if is_test_title(&page.title) {
            titles.push(page.title.copy()?)?;
        }
    }
    Ok(titles)
}

/// The titles of test modules, in the order of their texts.
fn test_titles(alloc: Global, pages: &[RawPage]) -> Result<List<Title>, NoMemory>
    ensures { IfOk result (λ titles. titles ≡ test_titles pages.now) }
{
    let titles = titles_among(alloc, pages)?;
    in_text_order(alloc, titles)
}

/// Whether there is a text of this title.
fn is_there(texts: &IndexMap<Bytes, &Bytes, RandomState>, title: &Bytes) -> bool
    ensures { result ≡ is_some (lookup (bytes_eq title.now) texts.now.entries) }
{
    texts.get(title).is_some()
}

/// Adds a text of which there is none of its title.
fn insert_text<'p>(
    texts: &mut IndexMap<Bytes, &'p Bytes, RandomState>,
    title: Bytes,
    text: &'p Bytes,
) -> Result<(), NoMemory>
    requires { is_some (lookup (bytes_eq title) texts.old.entries) ≡ false }
    ensures { OnOk result (AddsText title text.now texts.old.entries texts.new.entries) }
{
    match texts.insert(title, text) {
        Ok(_) => Ok(()),
        Err(refused) => {
            drop(refused);
            Err(NoMemory)
        }
    }
}

/// Adds the text of a module, where there is none of that title.
fn put_text<'p>(
    texts: &mut IndexMap<Bytes, &'p Bytes, RandomState>,
    title: Bytes,
    text: &'p Bytes,
) -> Result<(), NoMemory>
    ensures { OnOk result (AddsText title text.now texts.old.entries texts.new.entries) }
{
    if is_there(texts, &title) {
        return Ok(());
    }
    insert_text(texts, title, text)
}

/// Adds the text of a page, where it is that of a module and there is none of its title.
fn put_page<'p>(
    texts: &mut IndexMap<Bytes, &'p Bytes, RandomState>,
    page: &'p RawPage,
) -> Result<(), NoMemory>
    ensures { OnOk result (AddsPage page.now texts.old.entries texts.new.entries) }
{
    if page.title.ns.is_module() {
        let title = page.title.text()?;
        return put_text(texts, title, &page.bytes);
    }
    Ok(())
}

/// The texts of the modules among these pages, by the texts of their titles.
fn module_texts<'p>(
    alloc: Global,
    seed: RandomState,
    pages: &'p [RawPage],
) -> Result<IndexMap<Bytes, &'p Bytes, RandomState>, NoMemory>
    ensures { IfOk result (λ texts. AreTexts pages.now texts.entries) }
{
    let mut texts = IndexMap::with_hasher(alloc, seed);
    for page in pages {
        put_page(&mut texts, page)?;
    }
    Ok(texts)
}

/// The fault of a text that is no Lua stands for its cases.
fn no_cases(fault: SyntaxFault) -> Result<Result<List<Bytes>, FaultAt>, NoMemory>
    ensures { (text : _) → IsParsed (Err fault) text → IfOk result (λ cases. AreCases text cases) }
{
    match fault {
        SyntaxFault::At(fault) => Ok(Err(fault)),
        SyntaxFault::NoMemory => Err(NoMemory),
    }
}

/// The cases of a text of Lua, or the text's first fault.
fn cases_in(
    alloc: Global,
    seed: RandomState,
    text: &[u8],
) -> Result<Result<List<Bytes>, FaultAt>, NoMemory>
    ensures { IfOk result (λ cases. AreCases text.now cases) }
{
    if text.len() >= TEXT_LIMIT {
        return Err(NoMemory);
    }
    match parse(alloc, text) {
        Ok(chunk) => {
            let names = cases(alloc, seed, &chunk)?;
            Ok(Ok(names))
        }
        Err(fault) => no_cases(fault),
    }
}

/// The text of a module, if there is one of this title.
fn text_in<'p>(
    texts: &IndexMap<Bytes, &'p Bytes, RandomState>,
    title: &Title,
) -> Result<Option<&'p Bytes>, NoMemory>
    ensures { IfOk result (λ text.
        option_map (λ t. t.now) text ≡ text_in texts.now.entries title.now) }
{
    let name = title.text()?;
    Ok(texts.get(&name).copied())
}

/// What is tested of the module of a title.
fn tested(
    alloc: Global,
    seed: RandomState,
    texts: &IndexMap<Bytes, &Bytes, RandomState>,
    title: &Title,
) -> Result<Option<TestModule>, NoMemory>
    ensures { IfOk result (λ test. IsTested texts.now.entries title.now test) }
{
    let found = text_in(texts, title)?;
    match found {
        None => Ok(None),
        Some(text) => {
            let cases = cases_in(alloc, seed, text.as_slice())?;
            let title = title.copy()?;
            Ok(Some(TestModule { title, cases }))
        }
    }
}

/// Adds a test module, if there is one.
fn put_tested(all: &mut List<TestModule>, more: Option<TestModule>) -> Result<(), NoMemory>
    ensures { OnOk result (all.new ≡ all.old ++ cons_option more []) }
{
    match more {
        Some(more) => all.push(more),
        None => Ok(()),
    }
}

/// What is tested of the modules of these titles.
fn tested_of(
    alloc: Global,
    seed: RandomState,
    texts: &IndexMap<Bytes, &Bytes, RandomState>,
    titles: &[Title],
) -> Result<List<TestModule>, NoMemory>
    ensures { IfOk result (λ all. AreTested texts.now.entries titles.now all) }
{
    let mut all = List::new(alloc);
    for title in titles {
        let more = tested(alloc, seed, texts, title)?;
        put_tested(&mut all, more)?;
    }
    Ok(all)
}

/// The test modules of these pages, in the order of their titles' texts, each with the cases that its text names.
///
/// Titles and names are hashed from the seed, which changes nothing else.
pub fn test_modules(
    alloc: Global,
    seed: RandomState,
    pages: &[RawPage],
) -> Result<List<TestModule>, NoMemory>
    ensures { IfOk result (λ all. AreTestModules pages.now all) }
{
    let titles = test_titles(alloc, pages)?;
    let texts = module_texts(alloc, seed, pages)?;
    tested_of(alloc, seed, &texts, titles.as_slice())
}
