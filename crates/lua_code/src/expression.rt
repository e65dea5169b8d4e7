//! Code of expressions. Texts and names stand among the constants of the module, and are named by their numbers there.
use crate::operator::Operator;
use crate::place::Place;
use lua_syntax::{UnaryOp, WkBaseList as List};

/// Code of an expression (manual 2.5). A line is given where an error may name it.
#[cycle(expressions)]
#[derive(Drop)]
pub enum Expression {
    Nil,
    Truth(bool),
    Number(i64),
    /// A text, by its number among the constants.
    Text(u32),
    /// `...`
    Dots,
    /// A closure of this function of the module, with what it captures from these places.
    Function(u32, List<Place>),
    Local(Place),
    /// A global variable, by the number of its name.
    Global(u32, u32),
    /// `of[key]`
    Index(Box<Expression>, Box<Expression>, u32),
    /// `called(arguments)`
    Call(Box<Expression>, List<Expression>, u32),
    /// `of:name(arguments)`, with the number of the name.
    Method(Box<Expression>, u32, List<Expression>, u32),
    /// `{ entries }`
    Table(List<Entry>, u32),
    And(Box<Expression>, Box<Expression>),
    Or(Box<Expression>, Box<Expression>),
    Operate(Operator, Box<Expression>, Box<Expression>, u32),
    Unary(UnaryOp, Box<Expression>, u32),
    /// An expression in parentheses, which has one value.
    Paren(Box<Expression>),
}

/// An entry of a table constructor (manual 2.5.7): the next place of the list, or a key with its value.
#[cycle(expressions)]
#[derive(Drop)]
pub enum Entry {
    Item(Expression),
    Pair(Expression, Expression),
}
