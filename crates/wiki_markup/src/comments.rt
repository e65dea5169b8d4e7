//! Comments, and lines that hold nothing else.
ghost use Rattle.std.specs.Prelude.{◌≡◌, ◌+◌, ◌<◌, ◌≤◌, Option, IfSome, length, drop};
ghost use Rattle.wiki_markup.specs.Shown.{behind, behind_next, or_end, comment_end as comment_end_lem, comment as comment_lem, comment_line as comment_line_lem};
ghost use Rattle.wiki_markup.specs.Places.{left_at};

use crate::words::{behind_word, past_blank};

/// The place behind the next `-->`, or the end of the text.
fn comment_end(text: &[u8], from: usize) -> usize
    requires { from ≤ length text.now }
    ensures same { or_end (behind_next (behind comment_end_lem) (drop from text.now))
        ≡ drop result text.now }
    ensures ahead { from ≤ result }
    ensures inside { result ≤ length text.now }
{
    for at in from..text.len() {
        if let Some(p) = behind_word(text, at, b"-->") {
            return p;
        }
    }
    text.len()
}

/// The place behind a comment, if one begins at a place. It runs to the end of the text where it isn't ended.
#[tactic(auto, unfolding(crate::specs::Shown::comment))]
pub fn comment(text: &[u8], at: usize) -> Option<usize>
    requires { at ≤ length text.now }
    ensures same { comment_lem (drop at text.now) ≡ left_at text.now result }
    ensures ahead { IfSome result (λ p. at < p) }
    ensures inside { IfSome result (λ p. p ≤ length text.now) }
{
    let Some(p) = behind_word(text, at, b"<!--") else {
        return None;
    };
    Some(comment_end(text, p))
}

/// The place behind a line that holds comments and blanks alone, if it begins at a place.
pub fn comment_line(text: &[u8], at: usize) -> Option<usize>
    requires { at ≤ length text.now }
    ensures same { comment_line_lem (drop at text.now) ≡ left_at text.now result }
    ensures ahead { IfSome result (λ p. at < p) }
    ensures inside { IfSome result (λ p. p ≤ length text.now) }
{
    let Some(first) = comment(text, past_blank(text, at)) else {
        return None;
    };
    let mut p = first;
    'comments: loop {
        let rest = past_blank(text, p);
        if let Some(end) = behind_word(text, rest, b"\n") {
            return Some(end);
        }
        let Some(next) = comment(text, rest) else {
            return None;
        };
        p = next;
    }
}
