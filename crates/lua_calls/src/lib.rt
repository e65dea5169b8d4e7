//! Functions of the library that are entered, and what waits for a call or an answer (manual 5; Scribunto).
//!
//! - `table`: what each function of the library is
//! - `answering`: what a function gives that answers at once
//! - `plain`: functions that call back nobody
//! - `framed`: functions that see the frames
//! - `gsubs`: `gsub`, at once or by asking
//! - `calling`: functions that call back, or see more of a run
//! - `entering`: a function of the library is entered
//! - `waiting`: what waits for a call, or for an answer
//!
//! Begin with `specs/Libraries.antt` of `lua_slots`: what it is to enter such a function, and what waits. `specs/Makes.antt` of `lua_state`
//! says that code makes a move. `specs/Table.antt` is the table of the library as code goes through it.
#![tactic(auto)]

pub mod answering;
pub mod calling;
pub mod entering;
pub mod framed;
pub mod gsubs;
pub mod plain;
pub mod table;
pub mod waiting;

pub use entering::enter_library;
pub use lua_gsubs::{Begun, GsubFunction, gsub_begin};
pub use lua_modules::Turn;
pub use lua_tables::Stop;
pub use mw_htmls::{StringFunction, sub};
pub use mw_texts::FieldNames;
pub use waiting::{hear, resume};
