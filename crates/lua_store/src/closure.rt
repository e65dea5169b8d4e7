//! Closures: functions of Lua, and iterators that the library made.
use crate::ids::{CellId, TextId};
use lua_heap::Library;
use wk_base::List;

/// Names the text of a function: the title of its module, and its number among the functions of the module.
#[derive(Clone, Copy, Debug, PartialEq, Eq)]
pub struct ProtoId {
    pub title: TextId,
    pub index: u32,
}

/// What a call of a closure does.
#[derive(Clone, Copy, Debug, PartialEq, Eq)]
pub enum ClosureKind {
    /// It runs a function of Lua, which shares the closure's cells (manual 2.6).
    Function(ProtoId),
    /// It makes a step of an iterator, by that function of the library. The closure's cells hold the iterator's state.
    Iterator(Library),
}

/// A closure.
#[derive(Drop)]
pub struct Closure {
    pub kind: ClosureKind,
    /// The number of the invocation in which it was made.
    pub env: u32,
    pub cells: List<CellId>,
}
