//! The grammar of Lua (manual 8) as definitions: which tokens spell a chunk, and the first fault of those that spell none.
//! A chunk is a plain tree of `lua_syntax`.
//!
//! - `specs/Grammar.antt`: what spells a tree, case by case, and the faults; read it first
//! - `specs/Tokens.antt`: the classes of tokens
//! - `specs/Facts.antt`: what holds of the tree of every chunk, said of the tree alone
//! - `specs/Heights.antt`: the levels of nodes of a tree
//!
//! Functions with an empty body, whose contracts are statements about these definitions:
//!
//! - `laws`: what holds of every chunk (`specs/FactLaws.antt`), and of the first fault (`specs/FaultLaws.antt`)
//! - `examples`: small texts with their trees (`specs/Examples.antt`), and trees that no text spells (`specs/Misfits.antt`)
#![tactic(auto)]

pub mod examples;
pub mod laws;

/// What a token is to the grammar. `Other` is for bytes that are no keyword or mark of Lua.
#[derive(Clone, Copy, Debug, PartialEq, Eq)]
pub enum TokenClass {
    Name,
    Number,
    Text,
    Eof,
    And,
    Break,
    Do,
    Else,
    Elseif,
    End,
    False,
    For,
    Function,
    If,
    In,
    Local,
    Nil,
    Not,
    Or,
    Repeat,
    Return,
    Then,
    True,
    Until,
    While,
    Plus,
    Minus,
    Star,
    Slash,
    Percent,
    Caret,
    Hash,
    EqEq,
    NotEq,
    LessEq,
    MoreEq,
    Less,
    More,
    Assign,
    LeftParen,
    RightParen,
    LeftBrace,
    RightBrace,
    LeftBracket,
    RightBracket,
    Semicolon,
    Colon,
    Comma,
    Dot,
    DotDot,
    Dots,
    Other,
}

/// Where a tree stands: how many nodes are above it, whether in a loop of its function, and whether in a function
/// whose parameters end with `...`.
#[derive(Clone, Copy, Debug)]
pub struct Context {
    pub above: u32,
    pub inside_loop: bool,
    pub vararg: bool,
}
