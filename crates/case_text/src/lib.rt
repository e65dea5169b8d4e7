//! The texts of tables of test cases, in which any byte can be written.
//!
//! Read `specs/Escapes.antt` first: it says what each escape stands for.
//!
//! - `escapes`: the escapes are read
#![tactic(auto)]

mod escapes;

pub use escapes::unescaped;
