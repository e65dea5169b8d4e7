//! Marks, keywords and the size of numerals.
ghost use Rattle.std.specs.Prelude.{◌≡◌, ◌≤◌, [], ◌∷◌, length, codes};
ghost use Rattle.std.specs.List.{prefix_len, list_any};
ghost use Rattle.lua_lexer.specs.Lexis.{same, keywords, is_keyword, exponent_size, numeral_size, is_single, mark_size, is_numeral};

use crate::brackets::rest;
use crate::classes::{at, is_digit, name_run, number_run};

/// Whether a word is a keyword.
pub fn is_keyword(word: &[u8]) -> bool
    ensures { result ≡ is_keyword word.now }
{
    is_early_keyword(word) || (is_middle_keyword(word) || is_late_keyword(word))
}

fn same(word: &[u8], other: &[u8]) -> bool
    ensures { result ≡ same word.now other.now }
{
    word == other
}

fn is_early_keyword(word: &[u8]) -> bool
    ensures { result ≡ list_any (λ k. same word.now k) (codes "and" ∷ codes "break" ∷ codes "do" ∷ codes "else" ∷ codes "elseif" ∷ codes "end" ∷ codes "false" ∷ []) }
{
    same(word, b"and")
        | same(word, b"break")
        | same(word, b"do")
        | same(word, b"else")
        | same(word, b"elseif")
        | same(word, b"end")
        | same(word, b"false")
}

fn is_middle_keyword(word: &[u8]) -> bool
    ensures { result ≡ list_any (λ k. same word.now k) (codes "for" ∷ codes "function" ∷ codes "if" ∷ codes "in" ∷ codes "local" ∷ codes "nil" ∷ codes "not" ∷ []) }
{
    same(word, b"for")
        | same(word, b"function")
        | same(word, b"if")
        | same(word, b"in")
        | same(word, b"local")
        | same(word, b"nil")
        | same(word, b"not")
}

fn is_late_keyword(word: &[u8]) -> bool
    ensures { result ≡ list_any (λ k. same word.now k) (codes "or" ∷ codes "repeat" ∷ codes "return" ∷ codes "then" ∷ codes "true" ∷ codes "until" ∷ codes "while" ∷ []) }
{
    same(word, b"or")
        | same(word, b"repeat")
        | same(word, b"return")
        | same(word, b"then")
        | same(word, b"true")
        | same(word, b"until")
        | same(word, b"while")
}

/// Whether a numeral begins at the front.
pub fn is_numeral(text: &[u8]) -> bool
    ensures { result ≡ is_numeral text.now }
{
    is_digit(at(text, 0)) || (at(text, 0) == 46 && is_digit(at(text, 1)))
}

fn exponent_size(text: &[u8]) -> usize
    ensures size { result ≡ exponent_size text.now }
    ensures inside { result ≤ length text.now }
{
    let letter = at(text, 0);
    let sign = at(text, 1);
    if letter != 101 && letter != 69 {
        0
    } else if sign == 43 || sign == 45 {
        2
    } else {
        1
    }
}

/// The size of the numeral at the front.
pub fn numeral_size(text: &[u8]) -> usize
    ensures size { result ≡ numeral_size text.now }
    ensures inside { result ≤ length text.now }
{
    let digits = number_run(text);
    let behind = rest(text, digits);
    let mark = exponent_size(behind);
    digits + mark + name_run(rest(behind, mark))
}

fn is_single(c: u16) -> bool
    ensures { result ≡ is_single c }
{
    (40 <= c && c <= 45)
        || (c == 47
            || (c == 37
                || (c == 94
                    || (c == 35
                        || (c == 123
                            || (c == 125 || (c == 91 || (c == 93 || (c == 59 || c == 58)))))))))
}

/// The size of the longest mark at the front, or 0.
pub fn mark_size(text: &[u8]) -> usize
    ensures size { result ≡ mark_size text.now }
    ensures inside { result ≤ length text.now }
{
    let first = at(text, 0);
    let second = at(text, 1);
    let third = at(text, 2);
    if first == 46 {
        if second != 46 {
            1
        } else if third != 46 {
            2
        } else {
            3
        }
    } else if first == 126 {
        if second == 61 { 2 } else { 0 }
    } else if first == 61 || (first == 60 || first == 62) {
        if second == 61 { 2 } else { 1 }
    } else if is_single(first) {
        1
    } else {
        0
    }
}
