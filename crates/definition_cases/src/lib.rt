//! Tests of crates of definitions and laws, apart from them since tests are proved together with the whole of their crate. Each law is
//! called once, and so is each list of worked examples: a law is its contract, and a call at concrete types shows that it can be made.
//!
//! - `pages`: runs, arguments, expansions, pages with modules
//! - `meaning`: what Lua means, by names and by slots
//! - `agreement`: a machine that follows the meaning
//! - `flat`: flat code and its laws
//! - `layouts`: laws on which the layout of a text stands
//! - `heaps`: walks over heaps, and functions of the library in two heaps
//! - `markup`: `mw_html`, by values from MediaWiki's own library
//! - `escapes`: the escapes of the tables of cases
//!
//! There are no definitions here.
#![tactic(auto)]

#[cfg(test)]
mod agreement;
#[cfg(test)]
mod escapes;
#[cfg(test)]
mod flat;
#[cfg(test)]
mod heaps;
#[cfg(test)]
mod layouts;
#[cfg(test)]
mod markup;
#[cfg(test)]
mod meaning;
#[cfg(test)]
mod pages;
