//! Pages with modules (MediaWiki, Extension:Scribunto): the expansion of a page, the runs of Lua that it asks for, and the expansions and
//! loads of data that these ask for in turn, on one stack over one store; and one invocation by itself.
//!
//! - `page`: the expansion of a page
//! - `job`: one invocation by itself
//! - `begin`: what both begin with
//! - `driving`: a page moves on, and the loop until it is expanded
//! - `tower`: what is in progress below the task on top
//! - `stacking`: a task begins above the one that asks
//! - `handing`: a task has come to its reply, which the one below is told
//! - `asking`: a run of Lua asks for a template, a text or data
//! - `wiki`: a wiki, and a page of it that was expanded
//!
//! Begin with `specs/Page.antt` and `specs/Job.antt`: what the expansion of a page, and an invocation by itself, are to ensure; then
//! `specs/Driven.antt`, a page in progress. `specs/Moving.antt` says why a page comes to an end. What a page means stands in `page_meaning`, and how
//! its tasks wait for one another in `page_points`.
#![tactic(auto)]

mod asking;
mod begin;
pub mod driving;
mod handing;
pub mod job;
pub mod page;
mod stacking;
pub mod tower;
pub mod wiki;

pub use job::{JobEnd, run_job};
pub use page::{expand_page, expand_page_in};
pub use wiki::{Page, Wiki};
