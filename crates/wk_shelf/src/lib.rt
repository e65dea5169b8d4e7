//! The outside, as the renderer sees it: shelves of files to read, and sinks for the bytes that it writes.
//!
//! Read `specs/Files.antt` and `specs/Put.antt` first: what a shelf holds and what a sink holds after a put. Then
//! `specs/Folder.antt`: the wiki that a folder is.
//!
//! - `shelf`: what a shelf is asked, and what its answers say
//! - `sink`: what a sink is asked, and what its answers say
//! - `sorted`: the names of a folder in byte order
//! - `folder`: a folder of files as the pages of a wiki
//! - `memory_shelf`, `memory_sink`: the kinds in memory, which tell all that they hold
//! - `folder_shelf`, `stream_sink`: the adapters over a real folder and a real stream
#![tactic(auto)]

pub mod folder;
pub mod folder_shelf;
pub mod memory_shelf;
pub mod memory_sink;
pub mod shelf;
pub mod sink;
pub mod sorted;
pub mod stream_sink;

pub use folder::{FolderFault, FolderPage, read_folder};
pub use folder_shelf::FolderShelf;
pub use memory_shelf::{MemoryFile, MemoryShelf, can_hold};
pub use memory_sink::MemorySink;
pub use shelf::{Shelf, ShelfFault};
pub use sink::{Sink, SinkFailed};
pub use sorted::sorted_names;
pub use stream_sink::StreamSink;
pub use wk_base::{Bytes, List, Namespace, NoMemory, Title, TitleFault};
