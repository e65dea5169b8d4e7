//! What the expansion of a page does with plain texts: the kind of a construct, the equality of `#ifeq`, the fixed texts,
//! the arguments of a frame, and texts that are put together without being copied.
//!
//! - `kind`: what a construct's first part stands for
//! - `equality`: the equality of `#ifeq` and `#switch`
//! - `texts`: the texts that stand where an expansion is refused
//! - `arguments`: arguments, found by name
//! - `rope`: a text as pieces in a row
//! - `stack`: a list of which the nearest item is at hand
//! - `space`: a copy without the white space at its ends
//!
//! What is meant stands in `expand_meaning`; begin with its `specs/Kind.antt` and `specs/Texts.antt`. `specs/Ropes.antt`
//! says which text a rope is.
#![tactic(auto)]

pub mod arguments;
pub mod equality;
pub mod kind;
pub mod rope;
pub mod space;
pub mod stack;
pub mod texts;

pub use wk_base::Namespace;
pub use wk_base::space::trim;
