//! Which pages of a folder are shown, and in which order.
ghost use Rattle.std.specs.Prelude.{◌≡◌, IfOk, OnOk};
ghost use Rattle.std.specs.BTreeSet.{insert_key};
ghost use Rattle.wiki_output.specs.Choice.{is_part, by_text, titled, shown_titles, in_text_order};

use std::alloc::Global;
use std::cmp::Ordering;
use std::collections::BTreeSet;
use wk_tool::{Bytes, FolderPage, List, Namespace, NoMemory, Title};

/// A title and its text, in the order of texts.
#[derive(Drop)]
struct Titled {
    text: Bytes,
    title: Title,
}

impl PartialEq for Titled {
    ghost use Rattle.std.specs.Str.{bytes_eq};
    ghost use Rattle.std.specs.Cmp.{on_per, partial_equiv_from_equiv};
    ghost use Rattle.std.specs.Cmp.Lexicographic.{nat_list_eq_equiv};

    ghost eq = { λ a b. bytes_eq a.text b.text };

    ghost laws = { on_per (λ t. t.text) (partial_equiv_from_equiv nat_list_eq_equiv) };

    fn eq(&self, other: &Titled) -> bool {
        self.text.as_slice() == other.text.as_slice()
    }
}

impl Eq for Titled {
    ghost use Rattle.std.specs.Cmp.{on_equiv};
    ghost use Rattle.std.specs.Cmp.Lexicographic.{nat_list_eq_equiv};

    ghost laws = { on_equiv (λ t. t.text) nat_list_eq_equiv };
}

impl PartialOrd for Titled {
    ghost use Rattle.std.specs.Prelude.{Some};
    ghost use Rattle.std.specs.Cmp.{on_po};
    ghost use Rattle.std.specs.Cmp.Lexicographic.{texts_po};
    ghost use Rattle.wiki_output.specs.Choice.{by_text};

    ghost partial_cmp = { λ a b. Some (by_text a b) };

    ghost laws = { on_po (λ t. t.text) texts_po };

    fn partial_cmp(&self, other: &Titled) -> Option<Ordering> {
        Some(self.cmp(other))
    }
}

impl Ord for Titled {
    ghost use Rattle.std.proofs.Common.{refl};
    ghost use Rattle.std.specs.Cmp.{on_total};
    ghost use Rattle.std.specs.Cmp.Lexicographic.{nat_list_cmp_total, texts_ties};
    ghost use Rattle.wiki_output.specs.Choice.{by_text};

    ghost cmp = { by_text };

    ghost total = { on_total (λ t. t.text) nat_list_cmp_total };

    ghost matches_partial_cmp = { λ a b. refl };

    ghost matches_eq = { λ a b. texts_ties a.text b.text };

    fn cmp(&self, other: &Titled) -> Ordering {
        self.text.as_slice().cmp(other.text.as_slice())
    }
}

/// Whether the pages of a namespace are there for other pages.
fn is_part(ns: Namespace) -> bool
    ensures { result ≡ is_part ns }
{
    matches!(ns, Namespace::Template | Namespace::Module)
}

/// The titles of the pages that are no parts of others, in the order of the pages.
pub fn shown_titles(alloc: Global, pages: &[FolderPage]) -> Result<List<Title>, NoMemory>
    ensures { IfOk result (λ titles. titles ≡ shown_titles pages.now) }
{
    let mut titles = List::new(alloc);
    for page in pages {
        if !is_part(page.title.ns) {
            titles.push(page.title.copy()?)?;
        }
    }
    Ok(titles)
}

/// Puts a title at its place, where none of its text is there.
fn add(set: &mut BTreeSet<Titled>, title: Title) -> Result<(), NoMemory>
    ensures { OnOk result (set.new.keys ≡ insert_key by_text set.old.keys (titled title)) }
{
    let text = title.text()?;
    match set.insert(Titled { text, title }) {
        Ok(_) => Ok(()),
        Err(_) => Err(NoMemory),
    }
}

/// The titles in the order of their texts, byte by byte.
pub fn in_text_order(alloc: Global, titles: List<Title>) -> Result<List<Title>, NoMemory>
    ensures { IfOk result (λ sorted. sorted ≡ in_text_order titles) }
{
    let mut set = BTreeSet::new(alloc);
    for title in titles.into_vec() {
        add(&mut set, title)?;
    }
    let mut sorted = List::new(alloc);
    for titled in set {
        sorted.push(titled.title)?;
    }
    Ok(sorted)
}
