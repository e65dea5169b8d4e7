//! The tasks of a page: expansions, invocations and loads of data, each from its start to where it halts (MediaWiki, Extension:Scribunto).
//!
//! - `boxed`: what is large stands on the heap
//! - `task`: a task, and how it halts
//! - `beginning`: how the tasks of a page begin
//! - `going`: a task goes on until it halts
//! - `telling`: a task that waits is told a reply, and goes on
//!
//! Begin with `specs/Tasks.antt` (a task at its place), then `specs/Going.antt` (a task goes on, also with a reply). What a task means stands in
//! `page_meaning`, and how tasks wait for one another in `page_points`.
#![tactic(auto)]

pub mod beginning;
pub mod boxed;
pub mod going;
pub mod task;
pub mod telling;

pub use lua_machine::{Machine, Steps, Store, World};
pub use page_ground::Stack;
pub use page_ground::context::Context;
pub use page_ground::data::Data;
pub use page_ground::ending::outcome_text;
pub use page_ground::held_modules::is_held;
pub use page_ground::keep::{Keep, Kept, find_covered, keep_first};
pub use page_ground::numbers::Numbers;
pub use wiki_expand::{Left, PageMap};
