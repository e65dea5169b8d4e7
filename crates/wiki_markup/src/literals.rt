//! `nowiki` and `pre`, which are kept as written with their content.
ghost use Rattle.std.specs.Prelude.{◌≡◌, ◌+◌, ◌<◌, ◌≤◌, Option, IfSome, length, drop, None};
ghost use Rattle.wiki_markup.specs.Shown.{attributes as attributes_lem, after_name as after_name_lem, literal_tag as literal_tag_lem, literal as literal_lem, ends_name as ends_name_lem};
ghost use Rattle.wiki_markup.specs.Places.{tag_rest_at, optional_at, place_of, NoTagEnd, NoClosing, AreLastEnds};
ghost use Rattle.std.specs.Prelude.{false};

use crate::rules::Ruling;
use crate::tags::{Name, closing, find_closing, opening_word};
use crate::words::behind_word;
use wk_base::space::is_white;

/// An opening tag with attributes: whether it ends in `/>`, and the place behind it.
#[derive(Clone, Copy, Debug, PartialEq, Eq)]
pub struct TagEnd {
    pub closes_itself: bool,
    pub place: usize,
}

/// From these places on no `>`, no `</nowiki>` and no `</pre>` stands in a text. A search from there on would find
/// nothing, so that many opening tags without an end cost one search in all.
#[derive(Clone, Copy, Debug, PartialEq, Eq)]
pub struct LastEnds {
    pub tag: usize,
    pub nowiki: usize,
    pub pre: usize,
}

fn last_tag_end(text: &[u8]) -> usize
    ensures { NoTagEnd text.now result }
{
    let mut limit = text.len();
    while limit > 0 {
        if text[limit - 1] == b'>' {
            return limit;
        }
        limit -= 1;
    }
    0
}

fn last_closing(text: &[u8], name: Name) -> usize
    ensures { NoClosing name text.now result }
{
    let mut limit = text.len();
    while limit > 0 {
        if let Some(_) = closing(text, limit - 1, name) {
            return limit;
        }
        limit -= 1;
    }
    0
}

/// The last ends in a text.
pub fn last_ends(text: &[u8]) -> LastEnds
    ensures { AreLastEnds text.now result }
{
    LastEnds {
        tag: last_tag_end(text),
        nowiki: last_closing(text, Name::Nowiki),
        pre: last_closing(text, Name::Pre),
    }
}

/// Behind the `>` that ends a tag's attributes.
fn attributes(text: &[u8], limit: usize, from: usize) -> Option<TagEnd>
    requires inside { from ≤ length text.now }
    requires limit { NoTagEnd text.now limit }
    ensures same { attributes_lem false (drop from text.now) ≡ tag_rest_at text.now result }
    ensures ahead { IfSome result (λ o. from < o.place) }
    ensures inside { IfSome result (λ o. o.place ≤ length text.now) }
{
    if from >= limit {
        return None;
    }
    let mut slash = false;
    for at in from..text.len() {
        if text[at] == b'>' {
            return Some(TagEnd {
                closes_itself: slash,
                place: at + 1,
            });
        }
        slash = text[at] == b'/';
    }
    None
}

fn ends_name(b: u8) -> bool
    ensures { result ≡ ends_name_lem b }
{
    is_white(b) || b == b'>'
}

fn after_name(text: &[u8], limit: usize, at: usize) -> Option<TagEnd>
    requires inside { at ≤ length text.now }
    requires limit { NoTagEnd text.now limit }
    ensures same { after_name_lem (drop at text.now) ≡ tag_rest_at text.now result }
    ensures ahead { IfSome result (λ o. at < o.place) }
    ensures inside { IfSome result (λ o. o.place ≤ length text.now) }
{
    if at >= text.len() {
        return None;
    }
    if ends_name(text[at]) {
        return attributes(text, limit, at);
    }
    let Some(place) = behind_word(text, at, b"/>") else {
        return None;
    };
    Some(TagEnd {
        closes_itself: true,
        place,
    })
}

#[tactic(auto, unfolding(crate::specs::Shown::literal_tag))]
fn literal_tag(text: &[u8], limit: usize, at: usize, name: Name) -> Option<TagEnd>
    requires inside { at ≤ length text.now }
    requires limit { NoTagEnd text.now limit }
    ensures same { literal_tag_lem name (drop at text.now) ≡ tag_rest_at text.now result }
    ensures ahead { IfSome result (λ o. at < o.place) }
    ensures inside { IfSome result (λ o. o.place ≤ length text.now) }
{
    let Some(p) = behind_word(text, at, opening_word(name)) else {
        return None;
    };
    after_name(text, limit, p)
}

/// What the rule on `nowiki` and `pre` gives at a place. `tag_end` is the last `>` of the text, and `closed` the last
/// closing tag of the name.
#[tactic(auto, unfolding(crate::specs::Shown::literal))]
pub fn literal(text: &[u8], tag_end: usize, closed: usize, at: usize, name: Name) -> Option<Ruling>
    requires inside { at ≤ length text.now }
    requires tag_end { NoTagEnd text.now tag_end }
    requires closed { NoClosing name text.now closed }
    ensures same { literal_lem name (drop at text.now) ≡ optional_at text.now result }
    ensures ahead { IfSome result (λ t. at < place_of t) }
    ensures inside { IfSome result (λ t. place_of t ≤ length text.now) }
{
    let Some(opened) = literal_tag(text, tag_end, at, name) else {
        return None;
    };
    if opened.closes_itself {
        return Some(Ruling::Kept(opened.place));
    }
    if opened.place >= closed {
        return Some(Ruling::Plain(opened.place));
    }
    match find_closing(text, opened.place, name) {
        Some(tag) => Some(Ruling::Kept(tag.end)),
        None => Some(Ruling::Plain(opened.place)),
    }
}
