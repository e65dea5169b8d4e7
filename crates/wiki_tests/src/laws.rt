//! What the definitions alone say of reports.
ghost use Rattle.wiki_tests.specs.Laws.{ModulesStandAlone, FailedIsTold, LinesAreCounted, SpentAsOnPages};

/// The lines of test modules are those of each by itself, one behind another.
#[tactic(auto, using(crate::proofs::LineLaws::modules_stand_alone))]
pub fn modules_stand_alone()
    ensures { ModulesStandAlone }
{}

/// The status is 9 exactly where a line tells of one that failed.
#[tactic(auto, using(crate::proofs::LineLaws::failed_is_told))]
pub fn failed_is_told()
    ensures { FailedIsTold }
{}

/// Each line is counted, as passed or as failed.
pub fn lines_are_counted()
    ensures { LinesAreCounted }
{}

/// What is told of an allowance that is spent is what stands between the tags on a page.
#[tactic(auto, using(crate::proofs::LineLaws::spent_as_on_pages))]
pub fn spent_as_on_pages()
    ensures { SpentAsOnPages }
{}
