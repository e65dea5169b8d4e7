//! Rows of `lua_lexer`, and of the looks at tokens of `lua_reading`.
//!
//! - `tokens`: the tokens of a text, as kind, start-end:line-end line=bytes, with `;` behind each; N name, W keyword, M mark,
//!   `#` numeral, T string, E end. Or the fault, as !number@line
//! - `looks`: each token as the parser looks at it: N for a name, E for the end and X for others, line-end line=bytes=copy of the bytes
//! - `levels`: how tightly the operator that is the first token binds, and its right side; zeros for what is none
//! - `goes`: what the first token goes on with or ends: `block`, `return`, `last` (it ends its block), `suffix`
ghost use Rattle.std.specs.Prelude.{◌<◌, length};

use crate::out::Out;
use lua_grammar::TokenClass;
use lua_lexer::{Token, TokenKind, lex};
use lua_reading::ends::{closes, goes_on_block, goes_on_return};
use lua_reading::operators::{is_suffix, level_of, op_of, right_level_of};
use lua_reading::tokens::{bytes_at, class_at, class_of, copy_at, end_line_at, line_at, token_at};
use lua_syntax::{FaultAt, SyntaxFault};

/// Longer texts have no places in 32 bits, and no row has one.
const LONGEST: usize = 4000000000;

fn letter(kind: &TokenKind) -> &'static [u8] {
    match kind {
        TokenKind::Name(_) => b"N",
        TokenKind::Word(_) => b"W",
        TokenKind::Mark(_) => b"M",
        TokenKind::Number(_) => b"#",
        TokenKind::Text(_) => b"T",
        TokenKind::End => b"E",
    }
}

fn bytes(kind: &TokenKind) -> &[u8] {
    match kind {
        TokenKind::Name(bytes)
        | TokenKind::Word(bytes)
        | TokenKind::Mark(bytes)
        | TokenKind::Number(bytes)
        | TokenKind::Text(bytes) => bytes.as_slice(),
        TokenKind::End => &[],
    }
}

fn put_places(out: &mut Out, token: &Token) {
    out.put_count(token.start);
    out.put(b"-");
    out.put_count(token.end);
}

fn put_token_lines(out: &mut Out, token: &Token) {
    out.put_line(token.line);
    out.put(b"-");
    out.put_line(token.end_line);
}

fn put_token(out: &mut Out, token: &Token) {
    out.put(letter(&token.kind));
    put_places(out, token);
    out.put(b":");
    put_token_lines(out, token);
    out.put(b"=");
    out.put(bytes(&token.kind));
    out.put(b";");
}

fn put_all(out: &mut Out, tokens: &[Token]) {
    for token in tokens {
        put_token(out, token);
    }
}

fn put_fault(out: &mut Out, fault: FaultAt) {
    out.put(b"!");
    out.put_line(u32::from(fault.kind));
    out.put(b"@");
    out.put_line(fault.line);
}

fn put_syntax_fault(out: &mut Out, fault: SyntaxFault) {
    match fault {
        SyntaxFault::At(fault) => put_fault(out, fault),
        SyntaxFault::NoMemory => out.lack(),
    }
}

fn class_letter(class: TokenClass) -> &'static [u8] {
    match class {
        TokenClass::Name => b"N",
        TokenClass::Eof => b"E",
        _ => b"X",
    }
}

/// Puts a letter where both looks at a token say the same.
fn put_class(out: &mut Out, tokens: &[Token], at: usize)
    requires { at < length tokens.now }
{
    let class = class_of(token_at(tokens, at));
    if class == class_at(tokens, at) {
        out.put(class_letter(class));
    }
}

fn put_copy(out: &mut Out, tokens: &[Token], at: usize)
    requires { at < length tokens.now }
{
    match copy_at(out.alloc, tokens, at) {
        Ok(copy) => out.put(copy.as_slice()),
        Err(_) => out.lack(),
    }
}

fn put_look(out: &mut Out, tokens: &[Token], at: usize)
    requires { at < length tokens.now }
{
    put_class(out, tokens, at);
    out.put_line(line_at(tokens, at));
    out.put(b"-");
    out.put_line(end_line_at(tokens, at));
    out.put(b"=");
    out.put(bytes_at(tokens, at));
    out.put(b"=");
    put_copy(out, tokens, at);
    out.put(b";");
}

fn put_each_look(out: &mut Out, tokens: &[Token]) {
    for at in 0..tokens.len() {
        put_look(out, tokens, at);
    }
}

/// What the first token of a text is to the grammar.
fn first_class(tokens: &[Token]) -> TokenClass {
    match tokens {
        [first, ..] => class_of(first),
        [] => TokenClass::Other,
    }
}

fn levels(class: TokenClass) -> (u8, u8) {
    match op_of(class) {
        Some(op) => (level_of(op), right_level_of(op)),
        None => (0, 0),
    }
}

fn put_levels(out: &mut Out, class: TokenClass) {
    let (left, right) = levels(class);
    out.put_line(u32::from(left));
    out.put(b" ");
    out.put_line(u32::from(right));
}

fn put_where(out: &mut Out, holds: bool, word: &[u8]) {
    if holds {
        out.put_word(word);
    }
}

fn put_goes(out: &mut Out, class: TokenClass) {
    put_where(out, goes_on_block(class), b"block");
    put_where(out, goes_on_return(class), b"return");
    put_where(out, closes(class), b"last");
    put_where(out, is_suffix(class), b"suffix");
}

/// What is asked of a text's tokens.
#[derive(Clone, Copy)]
pub(crate) enum Asked {
    Tokens,
    Looks,
    Levels,
    Goes,
}

fn put_asked(out: &mut Out, asked: Asked, tokens: &[Token]) {
    match asked {
        Asked::Tokens => put_all(out, tokens),
        Asked::Looks => put_each_look(out, tokens),
        Asked::Levels => put_levels(out, first_class(tokens)),
        Asked::Goes => put_goes(out, first_class(tokens)),
    }
}

pub(crate) fn put_lexed(out: &mut Out, asked: Asked, text: &[u8]) {
    if text.len() < LONGEST {
        match lex(out.alloc, text) {
            Ok(tokens) => put_asked(out, asked, tokens.as_slice()),
            Err(fault) => put_syntax_fault(out, fault),
        }
    }
}
