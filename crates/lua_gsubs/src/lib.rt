//! `gsub` over the store of a page (manual 5.4, `string.gsub`; Scribunto, `mw.ustring.gsub`).
//!
//! What it gives stands in `specs/Gsub.antt` of `lua_meaning`; read it first, then `beginning`.
//!
//! - `table`: the two functions
//! - `arguments`: what is given to them
//! - `meeting`: the next match, within the steps that are left
//! - `filling`: what a replacement text stands for at a match
//! - `replacing`: matches are replaced by a text
//! - `answering`: what is given where a text replaces
//! - `beginning`: a call answers at once, or begins to ask a table or a function
//! - `seeking`: the next match of a job
//! - `resuming`: what was given for a match, and the end of a job
#![tactic(auto)]

pub mod answering;
pub mod arguments;
pub mod beginning;
pub mod filling;
pub mod meeting;
pub mod replacing;
pub mod resuming;
pub mod seeking;
pub mod table;

pub use beginning::{Begun, gsub_begin};
pub use lua_iterators::{IteratorFunction, iterator_call, iterator_function, span};
pub use lua_replacing::{Far, Job, Replacer, Replacing};
pub use seeking::{Sought, seek};
pub use table::{GsubFunction, gsub_function};
