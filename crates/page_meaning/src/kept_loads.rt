//! What a data module's load gives elsewhere, so that it need not be evaluated again (Scribunto, mw.loadData).
ghost use Rattle.page_meaning.specs.Laws.{LoadsAreCovered, KeptIsFresh, ShortIsSpent, KeptServes, KeptIsPaid};

/// A load that completed took its charge from the steps, had calls for its height, and left all else as it was.
pub fn loads_are_covered()
    ensures { LoadsAreCovered }
{}

/// A load that completed comes to the same at the same charge, wherever its charge and its height are covered.
pub fn kept_is_fresh()
    ensures { KeptIsFresh }
{}

/// Where one of them is not covered, the load is spent.
pub fn short_is_spent()
    ensures { ShortIsSpent }
{}

/// What is kept of a load (its answer, its charge, its height) stands for a fresh load wherever it is covered.
pub fn kept_serves()
    ensures { KeptServes }
{}

/// The charges that are kept on a page, with the steps that are left, are no more than the steps that there were.
pub fn kept_is_paid()
    ensures { KeptIsPaid }
{}
