//! What resolved code means: definitions of a machine over slots, one move after another. Nothing here is executed.
//!
//! The definitions stand in `specs/`; read them in this order:
//!
//! - `Code`: resolved code. A name has become a place: a register, the cell that a register names, or a captured cell
//! - `Sight`, `IsCode`: where names stand at a place of the text, and which code is code of a tree
//! - `Slots`: what a machine holds beside the frames that wait
//! - `Points`: what a machine does next, the frames that wait, and what a move is made of
//! - `Errors`, `Calls`, `Index`, `Operators`: what is done with values
//! - `Expressions`, `Statements`, `Loops`: what each form of code does
//! - `CallBacks`, `Gsub`, `Modules`, `Libraries`: functions of the library, and what waits in them
//! - `Starts`: a whole run, from its charges to its end
//! - `Moves`: from a point to the next one; a line for each thing, frame and point
//! - `Enact`: what a move comes to, with what is left of the allowances, and what a reply does
//! - `Laws`: code stays code, no move marks more than it costs, charges come first and are exact
//! - `Trial`, and the worked examples `ExampleCode`, `ExampleCalls`
//!
//! Each function has an empty body, and its contract is a law about those definitions:
//!
//! - `laws`: the laws of code and of moves, as `Laws` says them
//! - `examples`: the code of small modules, and what comes of it
#![tactic(auto)]

pub mod examples;
pub mod laws;
