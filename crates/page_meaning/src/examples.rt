//! Worked pages come to what `Examples` says: each function has an empty body, and its contract is a row of pages.
ghost use Rattle.page_meaning.specs.Examples.{GlobalsAreFresh, FailuresAreShown, GivenStands, SpentPagesGoOn, TextsAreExpanded, TemplatesAreExpanded, LoadsAreKept, ShortLoadsAreFresh, InnerLoadsAreKept, LoadsFail, TwiceIsTwice};

/// Each invocation has an environment of its own.
#[tactic(auto, using(crate::proofs::Rows::globals_are_fresh))]
pub fn globals_are_fresh()
    ensures { GlobalsAreFresh }
{}

/// A failure stands in the page as a text.
#[tactic(auto, using(crate::proofs::Rows::failures_are_shown))]
pub fn failures_are_shown()
    ensures { FailuresAreShown }
{}

/// What a function gives is not expanded again.
#[tactic(auto, using(crate::proofs::Rows::given_stands))]
pub fn given_stands()
    ensures { GivenStands }
{}

/// A spent invocation is a text in the page, which goes on.
#[tactic(auto, using(crate::proofs::Rows::spent_pages_go_on))]
pub fn spent_pages_go_on()
    ensures { SpentPagesGoOn }
{}

/// A text is expanded in the frame that asks.
#[tactic(auto, using(crate::proofs::Rows::texts_are_expanded))]
pub fn texts_are_expanded()
    ensures { TextsAreExpanded }
{}

/// A template is expanded with the arguments that are given.
#[tactic(auto, using(crate::proofs::Rows::templates_are_expanded))]
pub fn templates_are_expanded()
    ensures { TemplatesAreExpanded }
{}

/// A second load is charged as the first one, and is told as kept.
#[tactic(auto, using(crate::proofs::Rows::loads_are_kept))]
pub fn loads_are_kept()
    ensures { LoadsAreKept }
{}

/// A load that does not fit what is left is spent.
#[tactic(auto, using(crate::proofs::Rows::short_loads_are_fresh))]
pub fn short_loads_are_fresh()
    ensures { ShortLoadsAreFresh }
{}

/// A load inside a load is kept too.
#[tactic(auto, using(crate::proofs::Rows::inner_loads_are_kept))]
pub fn inner_loads_are_kept()
    ensures { InnerLoadsAreKept }
{}

/// Loads that fail, and one that never ends.
#[tactic(auto, using(crate::proofs::Rows::loads_fail))]
pub fn loads_fail()
    ensures { LoadsFail }
{}

/// A load that failed is charged alike when it is kept.
#[tactic(auto, using(crate::proofs::Rows::twice_is_twice))]
pub fn twice_is_twice()
    ensures { TwiceIsTwice }
{}
