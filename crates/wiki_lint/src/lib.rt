//! What `wikifmt lint` tells of a module of a folder: the globals that it uses, with the modules that it requires.
//!
//! Read `specs/Linting.antt` first.
//!
//! - `linting`: the modules of a folder, and what is told
//! - `told`: what is printed
#![tactic(auto)]

mod linting;
mod told;

pub use linting::lint;
pub use told::{TEXT_LIMIT, TOOL, printed};
pub use wk_base::List;
pub use wk_tool::FolderPage;
