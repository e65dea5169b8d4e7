//! Tests of the floor, which stand apart since a crate's tests are proved together with all of it, and together since each check
//! costs a start.
//!
//! - `rows`: what each test says of a row
//! - `plain`: `wk_base`, byte strings, lists, titles, allowances and white space
//! - `titles`: `wk_base`, texts with their titles, as MediaWiki's rules read
//! - `shelves`: `wk_shelf`, the kinds in memory by tables
//! - `adapters`: `wk_shelf`, each adapter over the real thing
//! - `workers`: `wk_workers`, calls that workers share
//!
//! There are no definitions here.
#![tactic(auto)]

#[cfg(test)]
mod adapters;
#[cfg(test)]
mod plain;
#[cfg(test)]
mod rows;
#[cfg(test)]
mod shelves;
#[cfg(test)]
mod titles;
#[cfg(test)]
mod workers;
