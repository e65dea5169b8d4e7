//! What functions give within a budget of steps. A try costs one step, and so does each byte of the texts that are given.

use mw_ustring::{Bytes, List};

/// A text with the number of tries that gave it.
#[derive(Drop, Debug)]
pub enum TextAnswer {
    Text(Vec<u8>, u64),
    /// Tries and bytes together exceed the budget.
    Spent,
}

/// Texts with the number of tries that gave them.
#[derive(Drop, Debug)]
pub enum PartsAnswer {
    Parts(List<Bytes>, u64),
    /// Tries and bytes together exceed the budget.
    Spent,
}
