//! The rules of `mw.html` on names and values, and the rendering of plain nodes (Scribunto, HTML library).
//!
//! The definitions stand in `specs/`: `Names`, then `Render`, which is the rendering of the markup objects of a heap, and
//! `Plain`, by which the plain nodes that a caller hands in are such objects.
//!
//! - `names`: names of tags and attributes, classes, and the escapes of a value
//! - `plain`: markup objects as plain data
//! - `placed`: whether what nodes name is there
//! - `sheet`: what was given so far, within a budget, also for renderings of objects that are kept elsewhere
//! - `rendering`: the rendering
//! - `laws`: renderings by other numbers (`Laws`)
#![tactic(auto)]

pub mod laws;
pub mod names;
mod placed;
pub mod plain;
pub mod rendering;
pub mod sheet;

pub use names::{add_class, closes_itself, escape, is_attribute_name, is_name};
pub use placed::are_placed;
pub use plain::{PlainChild, PlainNode, PlainPair, PlainStyle};
pub use rendering::{Rendered, render};
pub use wk_base::{List, NoMemory};
