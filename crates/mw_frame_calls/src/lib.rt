//! The functions of the library that see the frames of a run, over the store of a page (Scribunto, Frame object).
//!
//! Read `specs/Table.antt` first: which functions these are, and what the meaning says of each. `specs/Seen.antt` says what an answer is
//! seen as.
//!
//! - `answer`: what such a function gives
//! - `table`: which functions see the frames
//! - `finding`: the frame of a method, and the arguments behind it
//! - `reading`: titles, arguments, and the frame of an invocation
//! - `requests`: a title with arguments, as methods are given them
//! - `asking`: methods that ask
//! - `parents`: the parents of frames
//! - `children`: children of frames
//! - `tags`: tags of extensions
//! - `call`: one of the functions is called
#![tactic(auto)]

pub mod answer;
pub mod asking;
pub mod call;
pub mod children;
pub mod finding;
pub mod parents;
pub mod reading;
pub mod requests;
pub mod table;
pub mod tags;

pub use answer::{Awaited, FrameAnswer};
pub use call::frame_call;
pub use mw_frame_texts::args_index;
pub use table::{FrameFunction, frame_function};
