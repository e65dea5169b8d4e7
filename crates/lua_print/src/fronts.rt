//! What stands at the front of a text that is made of tokens: white space, a comment or a token.
ghost use Rattle.std.specs.Prelude.{◌≡◌, ◌≢◌, ◌+◌, ◌-◌, ◌^◌, ◌<◌, ◌≤◌, length, drop, not, true, false, IfSome};
ghost use Rattle.std.specs.List.{prefix_len};
ghost use Rattle.lua_lexer.specs.WkBaseSpace.{is_white};
ghost use Rattle.lua_lexer.specs.Lexis.{at, is_break, is_equals, break_size, breaks, equals_behind, opens_long, closes_long, before_closing, comment_of};
ghost use Rattle.lua_print.specs.Answers.{IsNext, IsFront, IsComment};

use crate::items::Front;
use lua_lexer::Token;
use lua_reading::tokens::class_of;

/// What follows the first n bytes.
fn rest(text: &[u8], n: usize) -> &[u8]
    requires { n ≤ length text.now }
    ensures { result.now ≡ drop n text.now }
{
    let (_, back) = text.split_at(n);
    back
}

/// The byte k places on, and 256 behind the last.
fn at(text: &[u8], k: usize) -> u16
    ensures value { result ≡ at text.now k }
    ensures bound { result ≤ 256 }
    ensures there { result < 256 → k < length text.now }
{
    if k < text.len() {
        u16::from(text[k])
    } else {
        256
    }
}

fn is_white(c: u16) -> bool
    ensures { result ≡ is_white c }
{
    c == 32 || (9 <= c && c <= 13)
}

fn is_break(c: u16) -> bool
    ensures { result ≡ is_break c }
{
    c == 10 || c == 13
}

/// How many bytes of white space stand at the front.
fn space_run(text: &[u8]) -> usize
    ensures size { result ≡ prefix_len is_white text.now }
    ensures inside { result ≤ length text.now }
{
    let mut n = 0;
    for c in text {
        if !is_white(u16::from(*c)) {
            return n;
        }
        n += 1;
    }
    n
}

/// How many bytes stand before the first line break.
fn line_run(text: &[u8]) -> usize
    ensures size { result ≡ prefix_len (λ c. not (is_break c)) text.now }
    ensures inside { result ≤ length text.now }
{
    let mut n = 0;
    for c in text {
        if is_break(u16::from(*c)) {
            return n;
        }
        n += 1;
    }
    n
}

fn equals_run(text: &[u8]) -> usize
    ensures size { result ≡ prefix_len is_equals text.now }
    ensures inside { result ≤ length text.now }
{
    let mut n = 0;
    for c in text {
        if *c != b'=' {
            return n;
        }
        n += 1;
    }
    n
}

/// The size of the line break at the front without its first byte.
fn behind_break(text: &[u8]) -> usize
    ensures { result ≡ break_size text.now - 1 }
{
    let first = at(text, 0);
    let second = at(text, 1);
    if !is_break(first) {
        0
    } else if !is_break(second) {
        0
    } else if first == second {
        0
    } else {
        1
    }
}

/// How many line breaks stand in the text.
pub fn breaks(text: &[u8]) -> usize
    ensures number { result ≡ breaks text.now }
    ensures bound { result ≤ length text.now }
{
    let mut count = 0;
    let mut passed = 0;
    for i in 0..text.len() {
        if passed > 0 {
            passed -= 1;
            continue;
        }
        if is_break(at(text, i)) {
            count += 1;
            passed = behind_break(rest(text, i));
        }
    }
    count
}

/// How many `=` stand behind the first byte.
fn equals_behind(text: &[u8]) -> usize
    ensures number { result ≡ equals_behind text.now }
    ensures inside { result ≤ length text.now }
{
    if text.is_empty() {
        0
    } else {
        equals_run(rest(text, 1))
    }
}

/// Whether a long bracket opens at the front.
fn opens_long(text: &[u8]) -> bool
    ensures { result ≡ opens_long text.now }
{
    at(text, 0) == 91 && at(text, equals_behind(text) + 1) == 91
}

fn closes_long(level: usize, text: &[u8]) -> bool
    requires { level ≤ 2 ^ 62 }
    ensures { result ≡ closes_long level text.now }
{
    at(text, 0) == 93 && (equals_behind(text) == level && at(text, level + 1) == 93)
}

/// How many bytes stand before the first closing bracket of the level, if there is one.
fn before_closing(level: usize, text: &[u8]) -> Option<usize>
    requires { level ≤ 2 ^ 62 }
    ensures place { result ≡ before_closing level text.now }
    ensures inside { IfSome result (λ n. n + level + 2 ≤ length text.now) }
{
    for i in 0..text.len() {
        if closes_long(level, rest(text, i)) {
            return Some(i);
        }
    }
    None
}

/// What follows a long bracket that opens at the front.
fn behind_opening(text: &[u8], level: usize) -> &[u8]
    requires opens { opens_long text.now ≡ true }
    requires level { level ≡ equals_behind text.now }
    ensures { result.now ≡ drop (level + 2) text.now }
{
    rest(text, (level + 2).min(text.len()))
}

/// The size of a comment, of which the text is what follows its `--`; none where it has no end.
fn comment_size(text: &[u8]) -> Option<usize>
    requires { length text.now < 2 ^ 62 }
    ensures { IsComment result (comment_of text.now) }
{
    if !opens_long(text) {
        return Some(2 + line_run(text));
    }
    let level = equals_behind(text);
    let n = before_closing(level, behind_opening(text, level))?;
    Some(level + 2 + n + (level + 2) + 2)
}

/// The token at the front.
fn token_front(left: &[u8], place: usize, token: &Token) -> Front
    requires next { IsNext left.now place token.now }
    requires here { token.now.start ≡ place }
    ensures { IsFront result left.now }
{
    let size = token.end - place;
    Front::Shown(Some(class_of(token)), size)
}

/// The comment at the front.
fn comment_front(left: &[u8], place: usize, token: &Token) -> Front
    requires short { length left.now < 2 ^ 62 }
    requires next { IsNext left.now place token.now }
    requires elsewhere { token.now.start ≢ place }
    requires dark { is_white (at left.now 0) ≡ false }
    ensures { IsFront result left.now }
{
    match comment_size(rest(left, 2)) {
        Some(size) => Front::Shown(None, size),
        None => unreachable!(),
    }
}

/// The white space at the front.
fn space_front(left: &[u8]) -> Front
    requires { is_white (at left.now 0) ≡ true }
    ensures { IsFront result left.now }
{
    Front::Space(space_run(left))
}

/// What stands at the front of a text that isn't empty, where `place` is the place of the text, and this is the next token.
pub fn front(left: &[u8], place: usize, token: &Token) -> Front
    requires short { length left.now < 2 ^ 62 }
    requires next { IsNext left.now place token.now }
    ensures { IsFront result left.now }
{
    if token.start == place {
        token_front(left, place, token)
    } else if is_white(at(left, 0)) {
        space_front(left)
    } else {
        comment_front(left, place, token)
    }
}
