//! Code of statements.
use crate::expression::Expression;
use crate::place::Place;
use lua_syntax::WkBaseList as List;

/// What an assignment assigns to (manual 2.4.3).
#[derive(Drop)]
pub enum Target {
    Variable(Place),
    /// A global variable, by the number of its name.
    Global(u32, u32),
    /// `of[key]`
    At(Expression, Expression, u32),
    /// What no chunk assigns to.
    Refused,
}

/// Code of a statement (manual 2.4). A flag says that a variable has a cell.
#[cycle(statements)]
#[derive(Drop)]
pub enum Statement {
    Assign(List<Target>, List<Expression>),
    Call(Expression),
    /// `do .. end`
    Do(List<Statement>),
    /// `while test do .. end`
    While(Expression, List<Statement>),
    /// `repeat .. until test`
    Repeat(List<Statement>, Expression),
    /// `if`, its `elseif`s, and its `else`.
    If(List<Branch>, Option<List<Statement>>),
    /// `for name = first, last, step do .. end`, with the line of an error. The three are in boxes, so that other statements don't
    /// take the room of them.
    Count(bool, Box<Expression>, Box<Expression>, Option<Box<Expression>>, List<Statement>, u32),
    /// `for names in values do .. end`, with the line of an error.
    Each(List<bool>, List<Expression>, List<Statement>, u32),
    Return(List<Expression>),
    Break,
    /// `local names = values`
    Declare(List<bool>, List<Expression>),
    /// `local function name .. end`: the flag of the name, the function's number, and the places of what it captures.
    LocalFunction(bool, u32, List<Place>),
}

/// A test of an `if` or `elseif`, and what follows its `then`.
#[cycle(statements)]
#[derive(Drop)]
pub struct Branch {
    pub test: Expression,
    pub body: List<Statement>,
}
