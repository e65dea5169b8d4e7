//! Wikis of many pages.
//!
//! - `loading`: a wiki from the texts of its pages
//! - `expanding`: pages of a wiki, each expanded by itself
//! - `sharing`: shares of a list, and what is made of them, put together
//! - `gate`: what is told as a page begins
//!
//! What texts mean stands in `wiki_texts` (`specs/Modules.antt`, `specs/Pages.antt`), what a page of a wiki comes to in `page_driver`
//! (`specs/Page.antt`), and what many of them come to in `specs/Batch.antt`.
#![tactic(auto)]

pub mod expanding;
pub mod gate;
pub mod loading;
mod sharing;

pub use expanding::expand_all;
pub use gate::{Gate, OpenGate};
pub use loading::load;
pub use page_driver::{JobEnd, Page, Wiki, expand_page_in, run_job};
pub use wiki_texts::RawPage;
