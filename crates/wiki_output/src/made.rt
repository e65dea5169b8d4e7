//! A page that was expanded.
use wk_tool::{Bytes, Title};

/// What a page used of its allowances.
#[derive(Clone, Copy, Debug, PartialEq, Eq)]
pub struct Used {
    pub steps: u64,
    pub nodes: u64,
    pub bytes: u64,
}

/// A page that was expanded: its title, its text, and what it used.
#[derive(Drop, Debug)]
pub struct Made {
    pub title: Title,
    pub text: Bytes,
    pub used: Used,
}

/// What standard output gets.
#[derive(Clone, Copy, Debug, PartialEq, Eq)]
pub enum Form {
    /// The text of the first page.
    Alone,
    /// Each page with its title and its length.
    Blocks,
    /// How many pages there are, and the length of all.
    Summary,
}
