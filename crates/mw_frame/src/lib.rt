//! What a frame of the preprocessor knows, and what an invocation is given (MediaWiki, Extension:Scribunto/Lua reference
//! manual, "Frame object").
//!
//! - `scene`: arguments, the scene of a frame, and the job of an invocation
//! - `question`: what a run of Lua asks from outside
//!
//! `specs/Scenes.antt` says when the names of arguments differ. Definitions of other crates cite the types as they are
//! declared here.
#![tactic(auto)]

pub mod question;
pub mod scene;

pub use question::Ask;
pub use scene::{Arg, Job, Scene};
pub use wk_base::{Bytes, Left, Limits, List, Namespace, NoMemory, Steps, Title, TitleFault};
