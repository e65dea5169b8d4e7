//! Functions of the library that call back (manual 5.1), and what they do with the outcome of the call.
//!
//! - `exits`: ends of a move at which no allowance is needed; a call for which a function waits
//! - `raising`: errors with their values, and why a function of the library gives no values
//! - `texts`: texts that are given, which cost their bytes
//! - `protected`: `pcall` and `xpcall`
//! - `strict`: the handlers that `require('strict')` sets
//! - `strings`: `tostring`
//! - `walks`: `pairs`, `ipairs`, and a step of `ipairs`
//!
//! Begin with `specs/CallBacks.antt` of `lua_slots`: what each of these does. `specs/Makes.antt` of `lua_state` says that code makes a
//! move, and `specs/Stops.antt` what follows where a function of the library stops.
#![tactic(auto)]

pub mod exits;
pub mod protected;
pub mod raising;
pub mod strict;
pub mod strings;
pub mod texts;
pub mod walks;

pub use lua_libs::{PlainFunction, mw_clone, mw_get_current_title, plain_call, plain_function};
pub use protected::{handler_answer, pcall, pcall_answer, xpcall, xpcall_answer};
pub use raising::{raise, raise_at, refuse};
pub use strict::{strict_index, strict_new_index};
pub use strings::{string_answer, to_string};
pub use texts::give_text;
pub use walks::{ipairs, ipairs_step, pairs, three_answer};
