//! What the expansion of templates, parameters and parser functions is (MediaWiki, Help:Templates,
//! Help:Extension:ParserFunctions; Extension:Scribunto, "#invoke"): definitions, a law and worked pages. Nothing is
//! executed here; each function has an empty body.
//!
//! - `laws`: what holds of the definitions
//! - `examples`: worked pages
//!
//! Read `specs/Expand.antt` first, the expansion as its events. `Kind` is what a construct's first part stands for,
//! `Texts` are the fixed texts and the equality of two texts, `Places` the trees of nodes and the parts of a construct,
//! and `Outcome` says what an expansion comes to.
#![tactic(auto)]

pub mod examples;
pub mod laws;
