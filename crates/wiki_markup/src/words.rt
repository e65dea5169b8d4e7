//! Words and white space in a text. A place stands for what is left of the text from there.
ghost use Rattle.std.specs.Prelude.{◌≡◌, ◌+◌, ◌≤◌, Option, IfSome, length, drop};
ghost use Rattle.wiki_markup.specs.Shown.{behind, past, is_blank as is_blank_lem, small as small_lem};
ghost use Rattle.wiki_markup.specs.Places.{left_at};
ghost use Rattle.wk_base.specs.Space.{is_white as is_white_lem};

use wk_base::space::is_white;

fn small(b: u8) -> u8
    ensures { result ≡ small_lem b }
{
    if b >= b'A' && b <= b'Z' { b + 32 } else { b }
}

fn is_blank(b: u8) -> bool
    ensures { result ≡ is_blank_lem b }
{
    b == b' ' || b == b'\t'
}

/// The place behind a word that is written in small letters, if the word stands at a place, in any case.
pub fn behind_word(text: &[u8], at: usize, word: &[u8]) -> Option<usize>
    requires { at ≤ length text.now }
    ensures same { behind word.now (drop at text.now) ≡ left_at text.now result }
    ensures size { IfSome result (λ p. p ≡ at + length word.now) }
    ensures inside { IfSome result (λ p. p ≤ length text.now) }
{
    let mut p = at;
    for w in word {
        if p >= text.len() {
            return None;
        }
        if *w != small(text[p]) {
            return None;
        }
        p += 1;
    }
    Some(p)
}

/// The place behind spaces and tabs.
pub fn past_blank(text: &[u8], from: usize) -> usize
    requires { from ≤ length text.now }
    ensures same { past is_blank_lem (drop from text.now) ≡ drop result text.now }
    ensures ahead { from ≤ result }
    ensures inside { result ≤ length text.now }
{
    for at in from..text.len() {
        if !is_blank(text[at]) {
            return at;
        }
    }
    text.len()
}

/// The place behind white space.
pub fn past_white(text: &[u8], from: usize) -> usize
    requires { from ≤ length text.now }
    ensures same { past is_white_lem (drop from text.now) ≡ drop result text.now }
    ensures ahead { from ≤ result }
    ensures inside { result ≤ length text.now }
{
    for at in from..text.len() {
        if !is_white(text[at]) {
            return at;
        }
    }
    text.len()
}
