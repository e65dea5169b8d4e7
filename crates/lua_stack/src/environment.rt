//! The tables of a run's environment, and the names of handlers (manual 2.8).
use lua_store::{TableId, TextId};

/// The tables of the global variables and of the functions for strings, and the names of handlers.
#[derive(Clone, Copy)]
pub struct Environment {
    pub globals: TableId,
    pub strings: TableId,
    pub index: TextId,
    pub set_index: TextId,
    pub call: TextId,
    pub add: TextId,
    pub subtract: TextId,
    pub multiply: TextId,
    pub divide: TextId,
    pub modulo: TextId,
    pub power: TextId,
    pub negate: TextId,
    pub concatenate: TextId,
    pub equal: TextId,
    pub less: TextId,
    pub at_most: TextId,
    pub to_string: TextId,
    pub pairs: TextId,
    pub ipairs: TextId,
}
