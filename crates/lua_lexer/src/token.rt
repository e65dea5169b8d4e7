//! The tokens of Lua.
use lua_syntax::WkBaseBytes as Bytes;

/// What a token is. Names, keywords, marks and numerals have the bytes as they stand in the text.
#[derive(Drop, Debug)]
pub enum TokenKind {
    Name(Bytes),
    /// A keyword.
    Word(Bytes),
    Mark(Bytes),
    /// A numeral, whether it has a value or not.
    Number(Bytes),
    /// A string, by the bytes that it stands for.
    Text(Bytes),
    /// The end of the text.
    End,
}

/// A token, its place in bytes from `start` up to `end`, and the lines, counted from 1, at these two places.
#[derive(Drop, Debug)]
pub struct Token {
    pub kind: TokenKind,
    pub start: usize,
    pub end: usize,
    pub line: u32,
    pub end_line: u32,
}

/// What stands at a place: a token, or white space or a comment where `kind` is None. Its size is in bytes.
#[derive(Drop, Debug)]
pub struct Piece {
    pub kind: Option<TokenKind>,
    pub size: usize,
}

/// Why nothing stands at a place: a fault by its number, or want of memory.
#[derive(Clone, Copy, Debug, PartialEq, Eq)]
pub enum Stop {
    Fault(u8),
    NoMemory,
}
