//! The layout of a module's text: its tokens and comments, with the white space between them in order.
//!
//! - `items`: the tokens of a text and the comments between them, each with the white space before it
//! - `fronts`: what stands at the front of a text that is made of tokens
//! - `spacing`: which items open and close a level, and which stand beside one another without a space
//! - `laying`: the bytes of items that are laid out
//! - `layouts`: the layout of a text, or its first fault
//! - `examples`: worked examples
//!
//! Read `specs/Items.antt` first (the items of a text), then `specs/Layout.antt` (what stands between them). `specs/Examples.antt` has texts
//! with their layouts. `specs/Answers.antt` says what `layout` answers.
#![tactic(auto)]

mod examples;
mod fronts;
mod items;
mod laying;
mod layouts;
mod spacing;

pub use examples::rows_hold;
pub use layouts::layout;
pub use lua_syntax::{FaultAt, SyntaxFault, fault_message};
