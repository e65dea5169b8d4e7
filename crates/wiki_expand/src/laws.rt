//! What holds of the definitions themselves: each function has an empty body, and its contract is the law.
ghost use Rattle.std.specs.Prelude.{◌≡◌, [], ◌∷◌, ◌++◌, Some, None};
ghost use Rattle.wiki_pages.specs.WkBaseDeclaredTitleTitle.{Title};
ghost use Rattle.wiki_markup.specs.declared.marked.ShownText.{ShownText};
ghost use Rattle.wiki_markup.specs.Trees.{pairing, marked_of};
ghost use Rattle.wiki_pages.specs.Entries.{Entry};
ghost use Rattle.wiki_pages.specs.Pages.{Pages, find_page, direct_in, included_in};

/// A page that is added with the nodes of two shown texts is read, for itself and where it is included, as their pairings.
pub fn pages_read_back()
    ensures { (pages : Pages) (title : Title) (e : Entry) (direct transcluded : ShownText) → find_page pages title ≡ None → e.direct.nodes ≡ marked_of direct → e.transcluded.nodes ≡ marked_of transcluded → (direct_in (pages ++ (title, e) ∷ []) title ≡ Some (pairing direct)) × (included_in (pages ++ (title, e) ∷ []) title ≡ Some (pairing transcluded)) }
{}
