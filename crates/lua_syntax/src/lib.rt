//! Syntax trees of Lua chunks (manual 8), and the faults of a text that is none.
//!
//! - this file: the types of the tree
//! - `fault`: the faults
//! - `fault_text`: what is told of a fault
//! - `functions`: a tree's functions
//! - `nodes`: the lines of a tree's nodes
//!
//! The definitions stand in `specs/Tree.antt` (a chunk as a plain tree; read it first), `specs/View.antt` (the plain tree of a tree of
//! the code), `specs/Functions.antt` and `specs/Nodes.antt`.
//!
//! What the grammar writes shorter is one form here. `a.b` is an index with a text as its key; `{x = e}` is a pair with a
//! text as its key; `function a.b:c() end` is an assignment of a function whose first parameter is `self`.
//!
//! A node is a statement or an expression, and has the line, counted from 1, on which it stands. A binary or unary node
//! has the line of its operator, an index that of its `.` or `[`, a method call that of its `:`, and a call that of the
//! first token of its arguments. Every other node has the line of its first token.
#![tactic(auto)]

pub mod fault;
pub mod fault_text;
pub mod functions;
pub mod nodes;

pub use fault::{FaultAt, SyntaxFault};
pub use fault_text::fault_message;
pub use functions::nested_functions;
pub use nodes::node_lines;
pub use wk_base::{Bytes as WkBaseBytes, List as WkBaseList, Namespace, NoMemory, Title};
use wk_base::{Bytes, List};

/// A whole text of Lua.
#[derive(Drop)]
pub struct Chunk {
    pub body: Block,
}

/// Statements in order.
#[cycle(tree)]
#[derive(Drop)]
pub struct Block {
    pub stats: List<Stat>,
}

/// A statement.
#[cycle(tree)]
#[derive(Drop)]
pub struct Stat {
    pub line: u32,
    pub kind: StatKind,
}

/// What a statement is.
#[cycle(tree)]
#[derive(Drop)]
pub enum StatKind {
    /// `targets = values`; a target is a name or an index.
    Assign(List<Expr>, List<Expr>),
    /// A call or a method call.
    Call(Expr),
    /// `do .. end`
    Do(Block),
    /// `while test do .. end`
    While(Expr, Block),
    /// `repeat .. until test`
    Repeat(Block, Expr),
    /// `if`, its `elseif`s, and its `else`.
    If(List<Arm>, Option<Block>),
    /// `for name = first, last, step do .. end`
    Count(Bytes, Expr, Expr, Option<Expr>, Block),
    /// `for names in values do .. end`
    Each(List<Bytes>, List<Expr>, Block),
    /// `local function name .. end`
    LocalFunction(Bytes, Function),
    /// `local names = values`
    Local(List<Bytes>, List<Expr>),
    /// `return values`
    Return(List<Expr>),
    Break,
}

/// A test of an `if` or `elseif`, and what follows its `then`.
#[cycle(tree)]
#[derive(Drop)]
pub struct Arm {
    pub test: Expr,
    pub body: Block,
}

/// An expression.
#[cycle(tree)]
#[derive(Drop)]
pub struct Expr {
    pub line: u32,
    pub kind: ExprKind,
}

/// What an expression is.
#[cycle(tree)]
#[derive(Drop)]
pub enum ExprKind {
    Nil,
    True,
    False,
    /// A numeral, by its value.
    Number(i64),
    /// A string, by its bytes.
    Text(Bytes),
    /// `...`
    Dots,
    Function(Function),
    Name(Bytes),
    /// `of[key]`, and `of.name` with a text as the key.
    Index(Box<Expr>, Box<Expr>),
    /// `called(arguments)`
    Call(Box<Expr>, List<Expr>),
    /// `of:name(arguments)`
    Method(Box<Expr>, Bytes, List<Expr>),
    /// `{ fields }`
    Table(List<Field>),
    Binary(BinaryOp, Box<Expr>, Box<Expr>),
    Unary(UnaryOp, Box<Expr>),
    /// An expression in parentheses, which has one value.
    Paren(Box<Expr>),
}

/// The parameters and the body of a function; `dots` where the parameters end with `...`.
#[cycle(tree)]
#[derive(Drop)]
pub struct Function {
    pub params: List<Bytes>,
    pub dots: bool,
    pub body: Block,
}

/// An entry of a table constructor: the next place of the list, or a key with its value.
#[cycle(tree)]
#[derive(Drop)]
pub enum Field {
    Item(Expr),
    Pair(Expr, Expr),
}

/// An operator between two operands, from the lowest precedence up.
#[derive(Clone, Copy, Debug, PartialEq, Eq)]
pub enum BinaryOp {
    Or,
    And,
    Lt,
    Gt,
    Le,
    Ge,
    Ne,
    Eq,
    Concat,
    Add,
    Sub,
    Mul,
    Div,
    Mod,
    Pow,
}

/// An operator before its operand.
#[derive(Clone, Copy, Debug, PartialEq, Eq)]
pub enum UnaryOp {
    Not,
    Len,
    Minus,
}
