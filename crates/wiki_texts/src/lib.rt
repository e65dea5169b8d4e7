//! The pages and the modules of a wiki, from the texts of its pages.
//!
//! - `raw`: a page as it is held, its title and its bytes
//! - `pages`: the texts of pages, cut and paired
//! - `modules`: the texts of modules, parsed, each name with its place
//! - `prepared`: what is prepared of a page
//! - `preparing`: how each page is prepared by itself, and how pages are put together by their titles
//! - `laws`: what texts mean is one module each
//!
//! Begin with `specs/Modules.antt`: the modules that texts mean. `specs/Pages.antt` has the pages, `specs/Code.antt` when code is that of
//! these modules, `specs/Prepared.antt` what is prepared of a page by itself.
#![tactic(auto)]

pub mod laws;
pub mod modules;
pub mod pages;
pub mod prepared;
pub mod preparing;
pub mod raw;

pub use laws::meant_once;
pub use prepared::Prepared;
pub use preparing::{by_title, prepare_all};
pub use raw::RawPage;
