//! What a page with modules means (MediaWiki, Extension:Scribunto): the expansion of a page, the runs of Lua inside it, and
//! how each answers the questions of the other.
//!
//! Nothing here is executed. The definitions stand in `specs/`, best read in this order:
//!
//! - `Wiki`: pages and modules by title
//! - `Told`: how a run ends, as it is told to the run that asked for it
//! - `Outcomes`: how an invocation ends by itself
//! - `Drive`: the replies to the three questions; a run with its questions answered; an invocation, and a load of data
//! - `Page`: the text of a page, what is left, the charges of repeated loads and what is begun
//! - `Points`: a run after some replies, and what it comes to
//! - `Tasks`: runs of Lua and expansions alike
//! - `Laws`
//! - `Examples`: worked pages, with what comes of them; `Trial` makes small wikis, `Modules` has their modules
//!
//! Each function has an empty body, and its contract is a law about those definitions:
//!
//! - `drive`: what runs inside one another come to, and what they leave
//! - `kept_loads`: what a data module's load gives elsewhere
//! - `tasks`: runs of Lua and expansions alike go on, and tell their loads
//! - `examples`: worked pages come to what `Examples` says
//! - `outcome`: how an invocation ends by itself, the one type of code here
#![tactic(auto)]

pub mod drive;
pub mod examples;
pub mod kept_loads;
pub mod outcome;
pub mod tasks;

pub use outcome::JobOutcome;
