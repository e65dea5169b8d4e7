//! The first rule that applies at a place.
ghost use Rattle.std.specs.Prelude.{◌≡◌, ◌+◌, ◌<◌, ◌≤◌, false, Option, IfSome, length, drop};
ghost use Rattle.wiki_markup.specs.Shown.{include_tags as include_tags_lem, self_closing_include as self_closing_include_lem, at_place as at_place_lem};
ghost use Rattle.wiki_markup.specs.Places.{left_at, result_at, place_of, AreLastEnds};

use crate::comments::{comment, comment_line};
use crate::literals::{LastEnds, literal};
use crate::marked::Mode;
use crate::tags::{Name, element, self_closing, tag};

/// What a rule gives at a place, with the place behind it.
#[derive(Clone, Copy, Debug, PartialEq, Eq)]
pub enum Ruling {
    Kept(usize),
    Plain(usize),
    Removed(usize),
}

#[tactic(auto, unfolding(crate::specs::Shown::self_closing_include))]
fn self_closing_include(text: &[u8], at: usize) -> Option<usize>
    requires { at ≤ length text.now }
    ensures same { self_closing_include_lem (drop at text.now) ≡ left_at text.now result }
    ensures ahead { IfSome result (λ p. at < p) }
    ensures inside { IfSome result (λ p. p ≤ length text.now) }
{
    if let Some(p) = self_closing(text, at, Name::Noinclude) {
        return Some(p);
    }
    if let Some(p) = self_closing(text, at, Name::Includeonly) {
        return Some(p);
    }
    self_closing(text, at, Name::Onlyinclude)
}

#[tactic(auto, unfolding(crate::specs::Shown::include_tags))]
fn include_tags_direct(text: &[u8], at: usize) -> Option<usize>
    requires { at ≤ length text.now }
    ensures same { include_tags_lem Mode.Direct false (drop at text.now) ≡ left_at text.now result }
    ensures ahead { IfSome result (λ p. at < p) }
    ensures inside { IfSome result (λ p. p ≤ length text.now) }
{
    if let Some(p) = tag(text, at, Name::Noinclude) {
        return Some(p);
    }
    if let Some(p) = tag(text, at, Name::Onlyinclude) {
        return Some(p);
    }
    element(text, at, Name::Includeonly)
}

#[tactic(auto, unfolding(crate::specs::Shown::include_tags))]
fn include_tags_transcluded(text: &[u8], part: bool, at: usize) -> Option<usize>
    requires { at ≤ length text.now }
    ensures same { include_tags_lem Mode.Transcluded part (drop at text.now)
        ≡ left_at text.now result }
    ensures ahead { IfSome result (λ p. at < p) }
    ensures inside { IfSome result (λ p. p ≤ length text.now) }
{
    if let Some(p) = element(text, at, Name::Noinclude) {
        return Some(p);
    }
    if let Some(p) = tag(text, at, Name::Includeonly) {
        return Some(p);
    }
    if part {
        return None;
    }
    tag(text, at, Name::Onlyinclude)
}

/// What the rules on include tags remove at a place: the place behind it. `part` says whether the text is a part between `onlyinclude` tags.
#[tactic(auto, unfolding(crate::specs::Shown::include_tags))]
fn include_tags(text: &[u8], mode: Mode, part: bool, at: usize) -> Option<usize>
    requires { at ≤ length text.now }
    ensures same { include_tags_lem mode part (drop at text.now) ≡ left_at text.now result }
    ensures ahead { IfSome result (λ p. at < p) }
    ensures inside { IfSome result (λ p. p ≤ length text.now) }
{
    match mode {
        Mode::Direct => include_tags_direct(text, at),
        Mode::Transcluded => include_tags_transcluded(text, part, at),
    }
}

/// What the first rule that applies gives at a place. `line` says whether the byte before is a newline. Elsewhere each
/// rule begins with a `<`.
#[tactic(auto, unfolding(crate::specs::Shown::at_place))]
pub fn at_place(
    text: &[u8],
    ends: &LastEnds,
    mode: Mode,
    part: bool,
    line: bool,
    at: usize,
) -> Ruling
    requires inside { at < length text.now }
    requires ends { AreLastEnds text.now ends.now }
    ensures same { at_place_lem mode part line (drop at text.now) (drop (at + 1) text.now)
        ≡ result_at text.now result }
    ensures ahead { at < place_of result }
    ensures inside { place_of result ≤ length text.now }
{
    if !line && text[at] != b'<' {
        return Ruling::Plain(at + 1);
    }
    if line {
        if let Some(p) = comment_line(text, at) {
            return Ruling::Removed(p);
        }
    }
    if let Some(p) = comment(text, at) {
        return Ruling::Removed(p);
    }
    if let Some(taken) = literal(text, ends.tag, ends.nowiki, at, Name::Nowiki) {
        return taken;
    }
    if let Some(taken) = literal(text, ends.tag, ends.pre, at, Name::Pre) {
        return taken;
    }
    if let Some(p) = self_closing_include(text, at) {
        return Ruling::Removed(p);
    }
    if let Some(p) = include_tags(text, mode, part, at) {
        return Ruling::Removed(p);
    }
    Ruling::Plain(at + 1)
}
