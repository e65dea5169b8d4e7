//! `string.format` (Lua 5.1 manual, 5.4), over whole numbers of 64 bits: the bytes that it gives, their length before they
//! are made, or the first fault.
//!
//! - `directive`: what stands behind a `%`
//! - `short`: digits
//! - `layout`: a text between spaces and zeros
//! - `convert`: what a directive makes of a value
//! - `formatting`: the whole format
//! - `value`: values and faults
//!
//! The definitions stand in `specs/Directives.antt` (how a directive is read), `specs/Layouts.antt` (what it writes) and
//! `specs/Format.antt` (the whole): read them in this order.
#![tactic(auto)]

pub mod convert;
pub mod directive;
pub mod formatting;
pub mod layout;
pub mod short;
pub mod value;

pub use formatting::{format, format_length};
pub use lua_number::Bytes;
pub use value::{FormatFault, FormatValue, Want};
