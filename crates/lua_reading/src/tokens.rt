//! Tokens by their places, and their classes.
ghost use Rattle.std.specs.Prelude.{◌≡◌, ◌<◌, length, IfOk};
ghost use Rattle.lua_grammar.specs.Tokens.{word_class, mark_class, class_of, class_at, tok_at, bytes_of, kind_bytes};

use lua_grammar::TokenClass;
use lua_lexer::{Token, TokenKind};
use lua_syntax::{NoMemory, WkBaseBytes as Bytes};
use std::alloc::Global;

// The keywords (manual 2.1).
#[tactic(auto, unfolding(lua_grammar::specs::Tokens::word_class))]
fn word_class(word: &[u8]) -> TokenClass
    ensures { result ≡ word_class word.now }
{
    match word {
        b"and" => TokenClass::And,
        b"break" => TokenClass::Break,
        b"do" => TokenClass::Do,
        b"else" => TokenClass::Else,
        b"elseif" => TokenClass::Elseif,
        b"end" => TokenClass::End,
        b"false" => TokenClass::False,
        b"for" => TokenClass::For,
        b"function" => TokenClass::Function,
        b"if" => TokenClass::If,
        b"in" => TokenClass::In,
        b"local" => TokenClass::Local,
        b"nil" => TokenClass::Nil,
        b"not" => TokenClass::Not,
        b"or" => TokenClass::Or,
        b"repeat" => TokenClass::Repeat,
        b"return" => TokenClass::Return,
        b"then" => TokenClass::Then,
        b"true" => TokenClass::True,
        b"until" => TokenClass::Until,
        b"while" => TokenClass::While,
        _ => TokenClass::Other,
    }
}

// The other marks (manual 2.1).
#[inline(always)]
#[tactic(auto, unfolding(lua_grammar::specs::Tokens::mark_class))]
fn mark_class(mark: &[u8]) -> TokenClass
    ensures { result ≡ mark_class mark.now }
{
    match mark {
        b"+" => TokenClass::Plus,
        b"-" => TokenClass::Minus,
        b"*" => TokenClass::Star,
        b"/" => TokenClass::Slash,
        b"%" => TokenClass::Percent,
        b"^" => TokenClass::Caret,
        b"#" => TokenClass::Hash,
        b"==" => TokenClass::EqEq,
        b"~=" => TokenClass::NotEq,
        b"<=" => TokenClass::LessEq,
        b">=" => TokenClass::MoreEq,
        b"<" => TokenClass::Less,
        b">" => TokenClass::More,
        b"=" => TokenClass::Assign,
        b"(" => TokenClass::LeftParen,
        b")" => TokenClass::RightParen,
        b"{" => TokenClass::LeftBrace,
        b"}" => TokenClass::RightBrace,
        b"[" => TokenClass::LeftBracket,
        b"]" => TokenClass::RightBracket,
        b";" => TokenClass::Semicolon,
        b":" => TokenClass::Colon,
        b"," => TokenClass::Comma,
        b"." => TokenClass::Dot,
        b".." => TokenClass::DotDot,
        b"..." => TokenClass::Dots,
        _ => TokenClass::Other,
    }
}

/// What a token is to the grammar.
#[inline(always)]
pub fn class_of(token: &Token) -> TokenClass
    ensures { result ≡ class_of token.now }
{
    match &token.kind {
        TokenKind::Name(_) => TokenClass::Name,
        TokenKind::Word(word) => word_class(word.as_slice()),
        TokenKind::Mark(mark) => mark_class(mark.as_slice()),
        TokenKind::Number(_) => TokenClass::Number,
        TokenKind::Text(_) => TokenClass::Text,
        TokenKind::End => TokenClass::Eof,
    }
}

fn bytes_of(kind: &TokenKind) -> &[u8]
    ensures { result.now ≡ kind_bytes kind.now }
{
    match kind {
        TokenKind::Name(bytes) => bytes.as_slice(),
        TokenKind::Word(bytes) => bytes.as_slice(),
        TokenKind::Mark(bytes) => bytes.as_slice(),
        TokenKind::Number(bytes) => bytes.as_slice(),
        TokenKind::Text(bytes) => bytes.as_slice(),
        TokenKind::End => &[],
    }
}

/// The token at a place, counted from 0.
#[inline(always)]
pub fn token_at(toks: &[Token], i: usize) -> &Token
    requires { i < length toks.now }
    ensures { result.now ≡ tok_at toks.now i }
{
    &toks[i]
}

/// What the token at a place is to the grammar.
#[inline(always)]
pub fn class_at(toks: &[Token], i: usize) -> TokenClass
    requires { i < length toks.now }
    ensures { result ≡ class_at toks.now i }
{
    class_of(token_at(toks, i))
}

/// The line, counted from 1, where the token at a place begins.
pub fn line_at(toks: &[Token], i: usize) -> u32
    requires { i < length toks.now }
    ensures { result ≡ (tok_at toks.now i).line }
{
    token_at(toks, i).line
}

/// The line where it ends.
pub fn end_line_at(toks: &[Token], i: usize) -> u32
    requires { i < length toks.now }
    ensures { result ≡ (tok_at toks.now i).end_line }
{
    token_at(toks, i).end_line
}

/// Its bytes; those for which a string stands.
pub fn bytes_at(toks: &[Token], i: usize) -> &[u8]
    requires { i < length toks.now }
    ensures { result.now ≡ bytes_of (tok_at toks.now i) }
{
    bytes_of(&token_at(toks, i).kind)
}

/// A copy of these bytes. The only error is want of memory.
pub fn copy_at(alloc: Global, toks: &[Token], i: usize) -> Result<Bytes, NoMemory>
    requires { i < length toks.now }
    ensures { IfOk result (λ made. made ≡ bytes_of (tok_at toks.now i)) }
{
    Bytes::of(alloc, bytes_at(toks, i))
}
