//! What a move comes to.
use lua_arms::{Focus, Which};

/// What a move comes to: what is next, or that an allowance is spent.
#[derive(Drop)]
pub enum Turn<'m> {
    On(Focus<'m>),
    Spent(Which),
}
