//! Tests of the data of Lua, from tables to what the machine holds, which stand apart since a crate's tests are proved together
//! with all of it, and together since each check costs a start.
//!
//! - `start`: the seed of every map, what is left to spend, and what a test says of a call
//! - `tables`: tables of `lua_table` by rows from Lua's rules, and beside a plain list of entries
//! - `heaps`: each law of `lua_heap` is called once, at a concrete type
//! - `stores`: each call of `lua_store`, and a million texts
//! - `making`, `faults`, `shared`, `copied`, `large`: `lua_graph`: tables are made; why values are no data; tables that are taken
//!   out and put in again; copies and what they cost; very many tables and cleared keys
//! - `loads`: each call of `mw_loader`
//! - `modules`: `lua_code`, modules by their titles, functions and constants by their numbers
//! - `idle_cells`: `lua_cells`, on code that is made by hand
//! - `stacks`: `lua_stack`, a stack, values in flight, local variables and places of errors
//! - `environments`: `lua_environment`, that a handler has its name
//!
//! There are no definitions here.
#![tactic(auto)]

#[cfg(test)]
mod copied;
#[cfg(test)]
mod environments;
#[cfg(test)]
mod faults;
#[cfg(test)]
mod heaps;
#[cfg(test)]
mod idle_cells;
#[cfg(test)]
mod large;
#[cfg(test)]
mod loads;
#[cfg(test)]
mod making;
#[cfg(test)]
mod modules;
#[cfg(test)]
mod shared;
#[cfg(test)]
mod stacks;
#[cfg(test)]
mod start;
#[cfg(test)]
mod stores;
#[cfg(test)]
mod tables;
