//! A wiki, and a page of it that was expanded.
use lua_code::Modules;
use mw_frame::{Bytes, Title};
use page_tasks::{Left, PageMap};

/// The pages and the modules of a wiki, by title.
#[derive(Drop)]
pub struct Wiki {
    pub pages: PageMap,
    pub modules: Modules,
}

/// A page that was expanded.
#[derive(Drop)]
pub struct Page {
    pub title: Title,
    pub text: Bytes,
    /// What is left of the allowances of the page.
    pub left: Left,
    /// The charges of repeated data loads, in steps: these were found kept, and nothing was run for them.
    pub repeat_charges: u64,
}
