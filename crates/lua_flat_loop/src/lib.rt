//! The loop over flat code: it does operation after operation as `lua_flat` says what they do, with the registers in one slice, until an
//! operation comes that it leaves to others.
//!
//! - `standing`: functions in progress, where the loop stands, and why it left
//! - `ready`: modules that are ready to run, and the code of a function
//! - `preparing`: a module made ready, with its constants as values of the store
//! - `reading`: registers, and what operations read
//! - `calculating`: operators of two numbers
//! - `going`: the loop
//!
//! Begin with `specs/Stops.antt`: what is promised of the loop. `specs/Standing.antt` says which flat machine it stands for.
#![tactic(auto)]

mod calculating;
pub mod going;
pub mod preparing;
mod reading;
pub mod ready;
pub mod standing;

pub use going::go;
pub use lua_stack::Slot;
pub use lua_store::{Store, Value};
pub use page_run::Which;
pub use preparing::prepare;
pub use ready::Ready;
pub use standing::{Act, At, Exit, Halt, Purse};
pub use wk_base::Left;
