//! The tests of `wiki_texts`, which stand apart since a crate's tests are proved together with all of it.
//!
//! - `tests`: the pages of a small wiki, and what became of the text of each module
//!
//! There are no definitions here.
#![tactic(auto)]

#[cfg(test)]
mod tests;
