//! Tags: `<name>`, `</name>` and `<name/>`, with white space after the name, in any case.
ghost use Rattle.std.specs.Prelude.{◌≡◌, ◌∷◌, ◌-◌, ◌+◌, ◌<◌, ◌≤◌, Option, IfSome, length, drop, take};
ghost use Rattle.wiki_markup.specs.Shown.{letters_of, opening as opening_lem, closing as closing_lem, self_closing as self_closing_lem, behind_next, before_next, tag as tag_lem, element as element_lem};
ghost use Rattle.wiki_markup.specs.Places.{left_at, start_or, end_of};

use crate::words::{behind_word, past_white};

/// The tags that are kept as written, and the include tags.
#[derive(Clone, Copy, Debug, PartialEq, Eq)]
pub enum Name {
    Nowiki,
    Pre,
    Noinclude,
    Includeonly,
    Onlyinclude,
}

/// Where a tag stands: it begins at `start`, and what follows it at `end`.
#[derive(Clone, Copy, Debug, PartialEq, Eq)]
pub struct TagSpan {
    pub start: usize,
    pub end: usize,
}

pub fn opening_word(name: Name) -> &'static [u8]
    ensures { result.now ≡ 60 ∷ letters_of name }
{
    match name {
        Name::Nowiki => b"<nowiki",
        Name::Pre => b"<pre",
        Name::Noinclude => b"<noinclude",
        Name::Includeonly => b"<includeonly",
        Name::Onlyinclude => b"<onlyinclude",
    }
}

fn closing_word(name: Name) -> &'static [u8]
    ensures { result.now ≡ 60 ∷ 47 ∷ letters_of name }
{
    match name {
        Name::Nowiki => b"</nowiki",
        Name::Pre => b"</pre",
        Name::Noinclude => b"</noinclude",
        Name::Includeonly => b"</includeonly",
        Name::Onlyinclude => b"</onlyinclude",
    }
}

/// The place behind `<name>`, if it stands at a place.
#[tactic(auto, unfolding(crate::specs::Shown::opening))]
pub fn opening(text: &[u8], at: usize, name: Name) -> Option<usize>
    requires { at ≤ length text.now }
    ensures same { opening_lem name (drop at text.now) ≡ left_at text.now result }
    ensures ahead { IfSome result (λ p. at < p) }
    ensures inside { IfSome result (λ p. p ≤ length text.now) }
{
    let Some(p) = behind_word(text, at, opening_word(name)) else {
        return None;
    };
    behind_word(text, past_white(text, p), b">")
}

/// The place behind `</name>`, if it stands at a place.
#[tactic(auto, unfolding(crate::specs::Shown::closing))]
pub fn closing(text: &[u8], at: usize, name: Name) -> Option<usize>
    requires { at ≤ length text.now }
    ensures same { closing_lem name (drop at text.now) ≡ left_at text.now result }
    ensures ahead { IfSome result (λ p. at < p) }
    ensures inside { IfSome result (λ p. p ≤ length text.now) }
{
    let Some(p) = behind_word(text, at, closing_word(name)) else {
        return None;
    };
    behind_word(text, past_white(text, p), b">")
}

/// The place behind `<name/>`, if it stands at a place.
#[tactic(auto, unfolding(crate::specs::Shown::self_closing))]
pub fn self_closing(text: &[u8], at: usize, name: Name) -> Option<usize>
    requires { at ≤ length text.now }
    ensures same { self_closing_lem name (drop at text.now) ≡ left_at text.now result }
    ensures ahead { IfSome result (λ p. at < p) }
    ensures inside { IfSome result (λ p. p ≤ length text.now) }
{
    let Some(p) = behind_word(text, at, opening_word(name)) else {
        return None;
    };
    behind_word(text, past_white(text, p), b"/>")
}

/// The place behind the next `<name>`.
pub fn next_opening(text: &[u8], from: usize, name: Name) -> Option<usize>
    requires { from ≤ length text.now }
    ensures same { behind_next (opening_lem name) (drop from text.now) ≡ left_at text.now result }
    ensures ahead { IfSome result (λ p. from < p) }
    ensures inside { IfSome result (λ p. p ≤ length text.now) }
{
    for at in from..text.len() {
        if let Some(p) = opening(text, at, name) {
            return Some(p);
        }
    }
    None
}

/// The next `</name>`.
pub fn find_closing(text: &[u8], from: usize, name: Name) -> Option<TagSpan>
    requires { from ≤ length text.now }
    ensures same { behind_next (closing_lem name) (drop from text.now)
        ≡ left_at text.now (end_of result) }
    ensures front { before_next (closing_lem name) (drop from text.now)
        ≡ take (start_or (length text.now) result - from) (drop from text.now) }
    ensures ahead { IfSome result (λ t. from ≤ t.start) }
    ensures some { IfSome result (λ t. t.start < t.end) }
    ensures inside { IfSome result (λ t. t.end ≤ length text.now) }
{
    for at in from..text.len() {
        if let Some(end) = closing(text, at, name) {
            return Some(TagSpan { start: at, end });
        }
    }
    None
}

/// The place behind a tag of either form.
#[tactic(auto, unfolding(crate::specs::Shown::tag))]
pub fn tag(text: &[u8], at: usize, name: Name) -> Option<usize>
    requires { at ≤ length text.now }
    ensures same { tag_lem name (drop at text.now) ≡ left_at text.now result }
    ensures ahead { IfSome result (λ p. at < p) }
    ensures inside { IfSome result (λ p. p ≤ length text.now) }
{
    if let Some(p) = opening(text, at, name) {
        return Some(p);
    }
    closing(text, at, name)
}

/// The place behind an opening tag with all up to the closing one, or to the end of the text.
#[tactic(auto, unfolding(crate::specs::Shown::element))]
pub fn element(text: &[u8], at: usize, name: Name) -> Option<usize>
    requires { at ≤ length text.now }
    ensures same { element_lem name (drop at text.now) ≡ left_at text.now result }
    ensures ahead { IfSome result (λ p. at < p) }
    ensures inside { IfSome result (λ p. p ≤ length text.now) }
{
    let Some(p) = opening(text, at, name) else {
        return None;
    };
    match find_closing(text, p, name) {
        Some(closed) => Some(closed.end),
        None => Some(text.len()),
    }
}
