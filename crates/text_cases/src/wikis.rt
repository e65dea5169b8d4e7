//! Small wikis: a template `T`, a module `M` and a page `P`, and what is expanded there with 9 nodes and 99 bytes left.
//!
//! A row's text has a name and two texts, with tabs between:
//!
//! - `page`, and the texts of `T` and `P`: comes to the text of the page
//! - `template`, and the same: comes to the text of `T` as it is included with no argument
//! - `own text`, and the text of `T` and another one: comes to what the other one is expanded to
//!
//! An invocation is answered with the name of its function; where a second one follows, that one's name is the text. Escapes
//! are read in each text by itself, so a tab in one is written `\t`.
ghost use Rattle.std.specs.Prelude.{◌≡◌, ◌+◌, ◌<◌, ◌^◌, IfOk, OnOk, None};
ghost use Rattle.wiki_markup.specs.Formed.{IsMarked};
ghost use Rattle.wiki_pages.specs.Pages.{find_page};
ghost use Rattle.wiki_expand.specs.Standing.{IsHeldSource, IsReady, IsWaiting, IsAfter, depth_in, templates_in};

use crate::expansion::titled;
use crate::out::Out;
use crate::seed::fixed_seed;
use crate::words::word;
use case_text::unescaped;
use expand_texts::Namespace;
use mw_frame::{Bytes, List, Scene, Title};
use std::alloc::Global;
use wiki_expand::{Expander, Left, Move, Source, laws};
use wiki_markup::{Marked, Mode, NoMemory, markup, shown};
use wiki_pages::{Entry, PageMap};

/// What a row `wiki` comes to.
pub(crate) fn put_of_row(out: &mut Out, text: &str) {
    match unescaped(out.alloc, word(text, 1).as_bytes()) {
        Ok(template) => put_beside(out, text, template.as_slice()),
        Err(_) => out.lack(),
    }
}

fn put_beside(out: &mut Out, text: &str, template: &[u8]) {
    match unescaped(out.alloc, word(text, 2).as_bytes()) {
        Ok(page) => put_in_wiki(out, word(text, 0), template, page.as_slice()),
        Err(_) => out.lack(),
    }
}

fn put_in_wiki(out: &mut Out, name: &str, template: &[u8], text: &[u8]) {
    match fixed_seed() {
        Ok(seed) => {
            let mut pages = PageMap::new(out.alloc, seed);
            fill(out, &mut pages, template, text);
            put_asked(out, &pages, name, text);
        }
        Err(_) => out.lack(),
    }
}

/// The template `T`, the module `M` and the page `P`.
fn fill(out: &mut Out, pages: &mut PageMap, template: &[u8], page: &[u8]) {
    add(out, pages, Namespace::Template, b"T", template);
    add(out, pages, Namespace::Module, b"M", b"");
    add(out, pages, Namespace::Main, b"P", page);
}

fn add(out: &mut Out, pages: &mut PageMap, ns: Namespace, name: &[u8], text: &[u8]) {
    match titled(out.alloc, ns, name) {
        Ok(title) => add_titled(out, pages, title, text),
        Err(_) => out.lack(),
    }
}

fn add_titled(out: &mut Out, pages: &mut PageMap, title: Title, text: &[u8]) {
    if pages.holds(&title) {
        return out.lack();
    }
    match entry_of(out.alloc, text) {
        Ok(entry) => hold(out, pages, title, entry),
        Err(_) => out.lack(),
    }
}

fn hold(out: &mut Out, pages: &mut PageMap, title: Title, entry: Entry)
    requires fresh { find_page pages.old title ≡ None }
    requires direct { IsMarked entry.direct.nodes }
    requires transcluded { IsMarked entry.transcluded.nodes }
{
    if pages.add(title, entry).is_err() {
        out.lack();
    }
}

/// A text as a page holds it.
fn entry_of(alloc: Global, text: &[u8]) -> Result<Entry, NoMemory>
    ensures direct { IfOk result (λ entry. IsMarked entry.direct.nodes) }
    ensures transcluded { IfOk result (λ entry. IsMarked entry.transcluded.nodes) }
{
    let direct = paired(alloc, text, Mode::Direct)?;
    let transcluded = paired(alloc, text, Mode::Transcluded)?;
    Ok(Entry::apart(direct, transcluded))
}

fn paired(alloc: Global, text: &[u8], mode: Mode) -> Result<Marked, NoMemory>
    ensures { IfOk result (λ m. IsMarked m.nodes) }
{
    let seen = shown(alloc, text, mode)?;
    markup(alloc, &seen)
}

fn put_asked(out: &mut Out, pages: &PageMap, name: &str, text: &[u8]) {
    match titled(out.alloc, Namespace::Main, b"P") {
        Ok(page) => put_on_page(out, pages, &page, name, text),
        Err(_) => out.lack(),
    }
}

fn put_on_page(out: &mut Out, pages: &PageMap, page: &Title, name: &str, text: &[u8]) {
    match name {
        "page" => put_page(out, pages, page),
        "template" => put_template(out, pages, page),
        _ => put_own_text(out, pages, page, text),
    }
}

fn put_page(out: &mut Out, pages: &PageMap, page: &Title) {
    match page.copy() {
        Ok(title) if pages.holds(&title) => put_source(out, pages, page, Source::Page(title)),
        _ => out.lack(),
    }
}

fn put_template(out: &mut Out, pages: &PageMap, page: &Title) {
    laws::pages_read_back();
    match titled(out.alloc, Namespace::Template, b"T") {
        Ok(title) if pages.holds(&title) => put_source(out, pages, page, Source::Template(title)),
        _ => out.lack(),
    }
}

fn put_own_text(out: &mut Out, pages: &PageMap, page: &Title, text: &[u8]) {
    match paired(out.alloc, text, Mode::Direct) {
        Ok(text) => put_source(out, pages, page, Source::Text(text)),
        Err(_) => out.lack(),
    }
}

/// The text of a source, in a scene of the page without arguments.
fn put_source(out: &mut Out, pages: &PageMap, page: &Title, source: Source)
    requires { IsHeldSource pages.now source }
{
    match expander(out.alloc, pages, page, source) {
        Ok(mut expander) => put_expanded(out, &mut expander, &mut allowances()),
        Err(_) => out.lack(),
    }
}

fn expander<'w>(
    alloc: Global,
    pages: &'w PageMap,
    page: &Title,
    source: Source,
) -> Result<Expander<'w>, NoMemory>
    requires { IsHeldSource pages.now source }
    ensures ready { IfOk result IsReady }
    ensures rests { IfOk result (λ e. (depth_in e ≡ 0) × (templates_in e ≡ 0)) }
{
    let scene = Scene {
        title: page.copy()?,
        args: List::new(alloc),
        chain: List::new(alloc),
    };
    Expander::start(alloc, pages, page, source, scene)
}

fn allowances() -> Left
    ensures { (result.depth < 10) × (result.templates < 10) }
{
    Left {
        steps: 0,
        nodes: 9,
        bytes: 99,
        calls: 0,
        depth: 9,
        templates: 9,
    }
}

/// The text that the expander comes to.
fn put_expanded(out: &mut Out, expander: &mut Expander<'_>, left: &mut Left)
    requires ready { IsReady expander.old }
    requires depth { left.old.depth + depth_in expander.old < 2 ^ 64 }
    requires templates { left.old.templates + templates_in expander.old < 2 ^ 64 }
{
    let next = expander.go(left);
    put_move(out, expander, left, &next);
}

/// The text that an expander comes to by this move, the last that it made.
fn put_move(
    out: &mut Out,
    expander: &mut Expander<'_>,
    left: &mut Left,
    next: &Result<Move, NoMemory>,
)
    requires after { IfOk next.now (λ m. IsAfter m expander.old) }
    requires depth { OnOk next.now (left.old.depth + depth_in expander.old < 2 ^ 64) }
    requires templates { OnOk next.now (left.old.templates + templates_in expander.old < 2 ^ 64) }
{
    match next {
        Ok(Move::Text(text)) => out.put(text.as_slice()),
        Ok(Move::Invoke(job)) => put_answered(out, expander, left, &job.function),
        Err(_) => out.lack(),
    }
}

/// What the expander comes to behind this answer.
fn put_answered(out: &mut Out, expander: &mut Expander<'_>, left: &mut Left, answer: &Bytes)
    requires waiting { IsWaiting expander.old }
    requires depth { left.old.depth + depth_in expander.old < 2 ^ 64 }
    requires templates { left.old.templates + templates_in expander.old < 2 ^ 64 }
{
    match answer.copy() {
        Ok(answer) => match expander.answer(left, answer) {
            Ok(()) => go_to_last(out, expander, left),
            Err(_) => out.lack(),
        },
        Err(_) => out.lack(),
    }
}

fn go_to_last(out: &mut Out, expander: &mut Expander<'_>, left: &mut Left)
    requires ready { IsReady expander.old }
    requires depth { left.old.depth + depth_in expander.old < 2 ^ 64 }
    requires templates { left.old.templates + templates_in expander.old < 2 ^ 64 }
{
    put_last(out, &expander.go(left));
}

/// The text, or the name of the function.
fn put_last(out: &mut Out, last: &Result<Move, NoMemory>) {
    match last {
        Ok(Move::Text(text)) => out.put(text.as_slice()),
        Ok(Move::Invoke(job)) => out.put(job.function.as_slice()),
        Err(_) => out.lack(),
    }
}
