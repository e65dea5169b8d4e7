//! What stands at the front of a text: white space, a comment or a token.
ghost use Rattle.std.specs.Prelude.{◌≡◌, ◌+◌, ◌^◌, ◌<◌, ◌≤◌, ◌==◌, ◌&&◌, true, take, drop, length, Ok, IfOk, IfErr};
ghost use Rattle.std.specs.List.{prefix_len};
ghost use Rattle.lua_syntax.specs.WkBaseSpace.{is_white};
ghost use Rattle.lua_lexer.specs.Lexis.{at, is_letter, is_numeral, is_name_byte, is_quote, no_token, token_piece, word_kind, numeral_size, mark_size, comment_of, string_of, mark_of, opens_long, equals_behind, long_piece, long_string, piece_of};
ghost use Rattle.lua_lexer.specs.Answers.{IsPiece};

use crate::brackets::{before_closing, equals_behind, long_text, opens_long, rest};
use crate::classes::{at, is_letter, is_quote, is_white, line_run, name_run, space_run};
use crate::marks::{is_keyword, is_numeral, mark_size, numeral_size};
use crate::strings::string_body;
use crate::token::{Piece, Stop, TokenKind};
use lua_syntax::WkBaseBytes as Bytes;
use std::alloc::Global;

/// The piece at the front of a text.
pub fn piece(alloc: Global, text: &[u8]) -> Result<Piece, Stop>
    requires there { 0 < length text.now }
    requires short { length text.now < 2 ^ 62 }
    ensures found { IsPiece result (piece_of text.now) }
    ensures inside { IfOk result (λ p. (0 < p.size) × (p.size ≤ length text.now)) }
{
    let first = at(text, 0);
    if is_white(first) {
        return Ok(blank(text));
    }
    if is_letter(first) {
        return word(alloc, text);
    }
    if is_numeral(text) {
        return numeral(alloc, text);
    }
    if is_quote(first) {
        return quoted(alloc, text);
    }
    if opens_long(text) {
        return bracketed(alloc, text);
    }
    if opens_comment(text) {
        return comment(rest(text, 2));
    }
    mark(alloc, text)
}

fn blank(text: &[u8]) -> Piece
    requires there { 0 < length text.now }
    requires space { is_white (at text.now 0) ≡ true }
    ensures found { result ≡ no_token (prefix_len is_white text.now) }
    ensures inside { (0 < result.size) × (result.size ≤ length text.now) }
{
    Piece {
        kind: None,
        size: space_run(text),
    }
}

fn bytes_of(alloc: Global, text: &[u8], size: usize) -> Result<Bytes, Stop>
    requires { size ≤ length text.now }
    ensures ok { IfOk result (λ b. b ≡ take size text.now) }
    ensures err { IfErr result (λ e. e ≡ Stop.NoMemory) }
{
    let (front, _) = text.split_at(size);
    match Bytes::of(alloc, front) {
        Ok(bytes) => Ok(bytes),
        Err(_) => Err(Stop::NoMemory),
    }
}

fn word(alloc: Global, text: &[u8]) -> Result<Piece, Stop>
    requires there { 0 < length text.now }
    requires letter { is_letter (at text.now 0) ≡ true }
    ensures found { IsPiece result (Ok (token_piece (word_kind (take (prefix_len is_name_byte text.now) text.now)) (prefix_len is_name_byte text.now))) }
    ensures inside { IfOk result (λ p. (0 < p.size) × (p.size ≤ length text.now)) }
{
    let size = name_run(text);
    match bytes_of(alloc, text, size) {
        Err(stop) => Err(stop),
        Ok(bytes) => Ok(Piece {
            kind: Some(word_kind(bytes)),
            size,
        }),
    }
}

fn word_kind(bytes: Bytes) -> TokenKind
    ensures { result ≡ word_kind bytes }
{
    if is_keyword(bytes.as_slice()) {
        TokenKind::Word(bytes)
    } else {
        TokenKind::Name(bytes)
    }
}

fn numeral(alloc: Global, text: &[u8]) -> Result<Piece, Stop>
    requires there { 0 < length text.now }
    requires numeral { is_numeral text.now ≡ true }
    ensures found { IsPiece result (Ok (token_piece (TokenKind.Number (take (numeral_size text.now) text.now)) (numeral_size text.now))) }
    ensures inside { IfOk result (λ p. (0 < p.size) × (p.size ≤ length text.now)) }
{
    let size = numeral_size(text);
    match bytes_of(alloc, text, size) {
        Err(stop) => Err(stop),
        Ok(bytes) => Ok(Piece {
            kind: Some(TokenKind::Number(bytes)),
            size,
        }),
    }
}

fn quoted(alloc: Global, text: &[u8]) -> Result<Piece, Stop>
    requires { 0 < length text.now }
    ensures found { IsPiece result (string_of text.now) }
    ensures inside { IfOk result (λ p. (0 < p.size) × (p.size ≤ length text.now)) }
{
    match string_body(alloc, at(text, 0), rest(text, 1)) {
        Err(stop) => Err(stop),
        Ok(body) => Ok(Piece {
            kind: Some(TokenKind::Text(Bytes::of_vec(body.bytes))),
            size: body.size + 1,
        }),
    }
}

fn opens_comment(text: &[u8]) -> bool
    ensures { result ≡ (at text.now 0 == 45 && at text.now 1 == 45) }
{
    at(text, 0) == 45 && at(text, 1) == 45
}

fn bracketed(alloc: Global, text: &[u8]) -> Result<Piece, Stop>
    requires short { length text.now < 2 ^ 62 }
    requires opens { opens_long text.now ≡ true }
    ensures found { IsPiece result (long_piece long_string (equals_behind text.now) (drop (equals_behind text.now + 2) text.now)) }
    ensures inside { IfOk result (λ p. (0 < p.size) × (p.size ≤ length text.now)) }
{
    let level = equals_behind(text);
    let inside = behind_opening(text, level);
    match before_closing(level, inside) {
        None => Err(Stop::Fault(2)),
        Some(n) => {
            let (front, _) = inside.split_at(n);
            match long_text(alloc, front) {
                Err(_) => Err(Stop::NoMemory),
                Ok(made) => Ok(Piece {
                    kind: Some(TokenKind::Text(Bytes::of_vec(made))),
                    size: level + 2 + n + (level + 2),
                }),
            }
        }
    }
}

// What follows a long bracket that opens at the front.
fn behind_opening(text: &[u8], level: usize) -> &[u8]
    requires opens { opens_long text.now ≡ true }
    requires level { level ≡ equals_behind text.now }
    ensures { result.now ≡ drop (level + 2) text.now }
{
    rest(text, (level + 2).min(text.len()))
}

fn comment(text: &[u8]) -> Result<Piece, Stop>
    requires short { length text.now < 2 ^ 62 }
    ensures found { IsPiece result (comment_of text.now) }
    ensures inside { IfOk result (λ p. (0 < p.size) × (p.size ≤ length text.now + 2)) }
{
    if !opens_long(text) {
        return Ok(Piece {
            kind: None,
            size: 2 + line_run(text),
        });
    }
    let level = equals_behind(text);
    let inside = behind_opening(text, level);
    match before_closing(level, inside) {
        None => Err(Stop::Fault(2)),
        Some(n) => Ok(Piece {
            kind: None,
            size: level + 2 + n + (level + 2) + 2,
        }),
    }
}

fn mark(alloc: Global, text: &[u8]) -> Result<Piece, Stop>
    ensures found { IsPiece result (mark_of text.now) }
    ensures inside { IfOk result (λ p. (0 < p.size) × (p.size ≤ length text.now)) }
{
    let size = mark_size(text);
    if size == 0 {
        return Err(Stop::Fault(4));
    }
    match bytes_of(alloc, text, size) {
        Err(stop) => Err(stop),
        Ok(bytes) => Ok(Piece {
            kind: Some(TokenKind::Mark(bytes)),
            size,
        }),
    }
}
