//! The heap of Lua, and what two heaps have to do with one another: definitions, with their laws. But for `Library`, the
//! names of the library's functions, nothing here is executed.
//!
//! One type, `Heap X`, is the heap of the meaning of Lua, a graph of plain data, and what is seen of the store of a page.
//! They differ in what a function holds, which is the parameter `X`. The definitions stand in `specs/`, in this order:
//!
//! - `Value`, `Table`: values, and tables of values
//! - `Heap`: tables, cells, closures and markup objects; names of objects; what is read, changed and added
//! - `Related`: how the objects of one heap stand in another, and what a call may do to both
//! - `Reach`: sets of objects, what is reached, what is owned, and what a call leaves as it was
//! - `Proc`: what a function holds where its text is kept elsewhere
//! - `Graph`: graphs of plain data, put into a heap
//! - `Examples`: small heaps, with what is true of them
//!
//! Each function has an empty body, and its contract is a law about those definitions, stated in the file of `specs/` whose
//! name is in brackets:
//!
//! - `equality`: values that are the same, and borders (`ValueLaws`)
//! - `objects`: what is added or put is found, and nothing else changes (`ObjectLaws`)
//! - `standing`: what stands for an object, and what calls on tables give on both sides (`StandingLaws`)
//! - `moves`: what may be done to two heaps at once (`MoveLaws`)
//! - `closed_sets`: closed sets and what stands (`SetLaws`)
//! - `reach`: what is reached and what is owned (`ReachLaws`)
//! - `closed`: heaps in which whatever is named is there (`ClosedLaws`)
//! - `framing`: what a call leaves as it was (`FrameLaws`)
//! - `graphs`: graphs that are put, kept and joined (`GraphLaws`)
//! - `examples`: the small heaps are what `Examples` says
//!
//! `library` has the names of the library's functions, for code and definitions, and `content` the trait by which laws speak
//! of what functions hold.
#![tactic(auto)]

pub mod closed;
pub mod closed_sets;
pub mod content;
pub mod equality;
pub mod examples;
pub mod framing;
pub mod graphs;
pub mod library;
pub mod moves;
pub mod objects;
pub mod reach;
pub mod standing;

pub use content::Content;
pub use library::Library;
