//! What the load of a data module gave.
use lua_graph::Graph;
use wk_base::Bytes;

/// What the load of a data module gave: its tables, or why there are none.
#[derive(Drop)]
pub enum Data {
    Tables(Graph),
    Failed(Bytes),
}
