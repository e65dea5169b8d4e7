//! The front of the preprocessor: what is shown of a page, and the pairing of its braces and brackets.
//!
//! The definitions stand in `specs/`; read `Shown` first (what is shown of a text), then `Items`, `Pairing` and `Trees` (how
//! its braces and brackets pair, and the tree). The others say what single passes keep, for proofs alone.
//!
//! - `marked`: the public types
//! - `showing`: `shown`, one scan of a text that writes as it goes
//! - `rules`: which rule applies at a place; `comments`, `literals` (`nowiki` and `pre`), `tags` and `words` read for it
//! - `pairing`: `markup`, over the letters of a shown text
//! - `pass`: one pass over the letters, with the opening runs that wait on a stack
//! - `roles`: each `|` and `=` settled by what it stands in
//! - `build`: the nodes put together from the right, in `growing`
//! - `held`: a node as it is held; `texts`: many texts as one
//! - `cells`: letters, and what pairing makes of them
//!
//! Its cases are rows of `text_cases`.
#![tactic(auto)]

mod build;
mod cells;
mod comments;
mod growing;
mod held;
mod literals;
mod marked;
mod pairing;
mod pass;
mod roles;
mod rules;
mod showing;
mod tags;
mod texts;
mod words;

pub use marked::{KindView, Marked, Mode, NodeView, ShownText, Span};
pub use pairing::markup;
pub use showing::shown;
pub use wk_base::NoMemory;
