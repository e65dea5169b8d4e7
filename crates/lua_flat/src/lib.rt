//! Flat code: what it is, what it does, and which code is flat code of resolved code. Definitions alone; nothing here is executed.
//!
//! The definitions stand in `specs/`; read them in this order:
//!
//! - `Operations`: the code of a function as a list of operations over registers
//! - `Registers`, `Flat`: registers, and what a flat machine holds
//! - `Locals`: local variables, each with its register
//! - `Does`, `Moves`: what an operation does, and the machine's moves
//! - `IsExpression`, `IsStatement`: flat code as a relation to resolved code
//! - `Keeps`, `WaitsStatement`, `WaitsExpression`: what is relied on, and what waits, while code goes on
//! - `Stands`: when a flat machine stands where a machine over trees stands
//! - `Trial`, and the worked examples `ExampleCode`, `ExampleCalls`, `ExampleLevels`
//!
//! Each function has an empty body, and its contract is what it says of those definitions:
//!
//! - `examples`: flat code of small modules, that it is code of them, and what comes of it
#![tactic(auto)]

pub mod examples;
