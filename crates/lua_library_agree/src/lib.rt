//! What the library of Lua does to a heap, it does to each heap in which that one stands: definitions with their laws. Nothing here is
//! executed.
//!
//! - `laws`: functions with an empty body, whose contracts are the laws
//!
//! Of the definitions read `specs/Same.antt` first: when a function does the same to two heaps. `specs/Laws.antt` has the statements.
#![tactic(auto)]

pub mod laws;
