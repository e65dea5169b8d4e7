//! What the words of a command line ask.
//!
//! Read `specs/Command.antt` first: the command that words are. `specs/Items.antt` has how the words behind the verb are read.
//!
//! - `items`: the words as texts, some of them given for an option
//! - `numbers`: numbers as words write them
//! - `settings`: how much a page may use, how many jobs there are, and whether what was used is told
//! - `command`: the command that the words are
#![tactic(auto)]

mod command;
mod items;
mod numbers;
mod settings;

pub use command::{Asked, Command, FolderPages, Work, read_command};
pub use settings::Settings;
