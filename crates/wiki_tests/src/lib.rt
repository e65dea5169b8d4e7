//! Test modules of a folder, each case run by itself, and what `wikitest` does with its words.
//!
//! Read `specs/Report.antt` first, with `specs/Lines.antt` and `specs/Tested.antt`: the report of the cases of test modules. Which cases a text
//! names is said in `case_names`. Then `specs/Command.antt` (the command that words are) and `specs/Due.antt`: what a run is to answer and to
//! write.
//!
//! - `tested`: test modules, and the cases of their texts
//! - `subjects`: what the lines of a report are about
//! - `lines`: the line of a case
//! - `running`: the lines of all cases, by threads that share them
//! - `reporting`: the report
//! - `command`: the command that the words are
//! - `answer`: what a folder gives
//! - `top_call`: `run_tests`, over any shelf and any two sinks
//! - `examples`: worked test modules
//! - `laws`: that each line stands by itself, and when the status tells of one that failed
#![tactic(auto)]

mod answer;
mod command;
mod examples;
mod laws;
mod lines;
mod reporting;
mod running;
mod subjects;
mod tested;
mod top_call;

pub use examples::{cases_are_alone, faults_are_told, steps_are_spent, titles_are_in_order};
pub use laws::{failed_is_told, lines_are_counted, modules_stand_alone, spent_as_on_pages};
pub use reporting::{TestReport, report};
pub use tested::TestModule;
pub use top_call::{CANNOT_READ, run_tests};
