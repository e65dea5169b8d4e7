//! The items of a pattern (Lua 5.1 manual, section 5.4.1, "Patterns").

use crate::prepared::PreparedSet;
use wk_base::List;

/// What a letter behind `%` stands for. A capital letter stands for the complement.
#[derive(Clone, Copy, Debug, PartialEq, Eq)]
pub enum Class {
    /// `%a`
    Letter,
    /// `%c`
    Control,
    /// `%d`
    Digit,
    /// `%l`
    Lower,
    /// `%p`
    Punctuation,
    /// `%s`
    Space,
    /// `%u`
    Upper,
    /// `%w`
    Alphanumeric,
    /// `%x`
    Hexadecimal,
    /// `%z`
    Zero,
}

/// A part of a set: a range with both its ends, or a class, which may be complemented.
#[derive(Clone, Copy, Debug)]
pub enum Part {
    Range(char, char),
    Kind(Class, bool),
}

/// `[..]`, or with `negated` `[^..]`, as it is written.
#[derive(Drop, Debug)]
pub struct Set {
    pub negated: bool,
    pub parts: List<Part>,
}

/// What one symbol is compared with.
#[derive(Drop, Debug)]
pub enum Single {
    /// `.`
    Any,
    Plain(char),
    /// A class, which may be complemented.
    Kind(Class, bool),
    Of(PreparedSet),
}

/// What a pattern is a sequence of.
#[derive(Drop, Debug)]
pub enum Item {
    One(Single),
    /// `*`
    Star(Single),
    /// `+`
    Plus(Single),
    /// `-`
    Minus(Single),
    /// `?`
    Maybe(Single),
    /// `%1` to `%9`: the text between two marks once more, which are counted from 0 in the order of the pattern.
    Back(usize, usize),
    /// `%bxy`
    Balance(char, char),
    /// `%f`
    Frontier(PreparedSet),
    /// A place that a capture keeps: a `(`, a `)` or a `()`.
    Mark,
    /// `$`
    End,
}
