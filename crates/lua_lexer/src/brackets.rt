//! Line breaks and long brackets.
ghost use Rattle.std.specs.Prelude.{◌≡◌, ◌+◌, ◌-◌, ◌^◌, ◌<◌, ◌≤◌, [], ◌∷◌, ◌++◌, length, drop, IfOk, OnOk, IfSome};
ghost use Rattle.lua_lexer.specs.Lexis.{break_size, breaks, with_line_feeds, long_text, equals_behind, opens_long, closes_long, before_closing};

use crate::classes::{at, byte, equals_run, is_break};
use lua_syntax::NoMemory;
use std::alloc::Global;

/// What follows the first n bytes.
pub fn rest(text: &[u8], n: usize) -> &[u8]
    requires { n ≤ length text.now }
    ensures { result.now ≡ drop n text.now }
{
    let (_, back) = text.split_at(n);
    back
}

/// The size of the line break at the front, or 0.
pub fn break_size(text: &[u8]) -> usize
    ensures size { result ≡ break_size text.now }
    ensures bound { result ≤ 2 }
{
    let first = at(text, 0);
    let second = at(text, 1);
    if !is_break(first) {
        0
    } else if !is_break(second) {
        1
    } else if first == second {
        1
    } else {
        2
    }
}

/// How many line breaks stand in the text.
pub fn breaks(text: &[u8]) -> usize
    ensures number { result ≡ breaks text.now }
    ensures bound { result ≤ length text.now }
{
    let mut count = 0;
    let mut passed = 0;
    for i in 0..text.len() {
        if passed > 0 {
            passed -= 1;
            continue;
        }
        if is_break(at(text, i)) {
            count += 1;
            passed = behind_break(rest(text, i));
        }
    }
    count
}

/// The size of the line break at the front without its first byte.
fn behind_break(text: &[u8]) -> usize
    ensures { result ≡ break_size text.now - 1 }
{
    break_size(text).saturating_sub(1)
}

/// The text with LF for each line break.
pub fn with_line_feeds(alloc: Global, text: &[u8]) -> Result<Vec<u8>, NoMemory>
    ensures { IfOk result (λ made. made.items ≡ with_line_feeds text.now) }
{
    let mut made = Vec::new(alloc);
    let mut passed = 0;
    for i in 0..text.len() {
        if passed > 0 {
            passed -= 1;
            continue;
        }
        let c = byte(text, i);
        if !is_break(u16::from(c)) {
            push(&mut made, c)?;
            continue;
        }
        push(&mut made, b'\n')?;
        passed = behind_break(rest(text, i));
    }
    Ok(made)
}

/// One byte more.
pub fn push(made: &mut Vec<u8>, c: u8) -> Result<(), NoMemory>
    ensures { OnOk result (made.new.items ≡ made.old.items ++ c ∷ []) }
{
    match made.push(c) {
        Ok(_) => Ok(()),
        Err(_) => Err(NoMemory),
    }
}

/// What stands between long brackets: without a first line break, and with LF for every other.
pub fn long_text(alloc: Global, inside: &[u8]) -> Result<Vec<u8>, NoMemory>
    ensures { IfOk result (λ made. made.items ≡ long_text inside.now) }
{
    let first = break_size(inside).min(inside.len());
    with_line_feeds(alloc, rest(inside, first))
}

/// How many `=` stand behind the first byte.
pub fn equals_behind(text: &[u8]) -> usize
    ensures number { result ≡ equals_behind text.now }
    ensures inside { result ≤ length text.now }
{
    if text.is_empty() {
        0
    } else {
        equals_run(rest(text, 1))
    }
}

/// Whether a long bracket opens at the front.
pub fn opens_long(text: &[u8]) -> bool
    ensures { result ≡ opens_long text.now }
{
    at(text, 0) == 91 && at(text, equals_behind(text) + 1) == 91
}

fn closes_long(level: usize, text: &[u8]) -> bool
    requires { level ≤ 2 ^ 62 }
    ensures { result ≡ closes_long level text.now }
{
    at(text, 0) == 93 && (equals_behind(text) == level && at(text, level + 1) == 93)
}

/// How many bytes stand before the first closing bracket of the level, if there is one.
pub fn before_closing(level: usize, text: &[u8]) -> Option<usize>
    requires { level ≤ 2 ^ 62 }
    ensures place { result ≡ before_closing level text.now }
    ensures inside { IfSome result (λ n. n + level + 2 ≤ length text.now) }
{
    for i in 0..text.len() {
        if closes_long(level, rest(text, i)) {
            return Some(i);
        }
    }
    None
}
