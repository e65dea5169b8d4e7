//! The texts of pages, cut and paired.
ghost use Rattle.std.specs.Prelude.{◌≡◌, IfOk, OnOk};
ghost use Rattle.wiki_texts.specs.Pages.{entry_of, with_page};

use crate::raw::RawPage;
use std::alloc::Global;
use wiki_markup::{Mode, NoMemory, markup, shown};
use wiki_pages::{Entry, PageMap};

/// A page's text as it is shown in each mode, its braces paired: once where both modes show the same.
pub(crate) fn paired(alloc: Global, text: &[u8]) -> Result<Entry, NoMemory>
    ensures { IfOk result (λ entry. entry ≡ entry_of text.now) }
{
    let direct = shown(alloc, text, Mode::Direct)?;
    let transcluded = shown(alloc, text, Mode::Transcluded)?;
    let read = markup(alloc, &direct)?;
    if direct.is_same(&transcluded) {
        return Ok(Entry::same(read));
    }
    let included = markup(alloc, &transcluded)?;
    Ok(Entry::apart(read, included))
}

/// Adds a page, where none of its title is there.
pub(crate) fn add_page(map: &mut PageMap, page: &RawPage, entry: Entry) -> Result<(), NoMemory>
    requires { entry ≡ entry_of page.now.bytes }
    ensures { OnOk result (map.new ≡ with_page map.old page.now) }
{
    if map.holds(&page.title) {
        return Ok(());
    }
    let title = page.title.copy()?;
    map.add(title, entry)
}
