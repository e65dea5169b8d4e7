//! What waits for an outcome, and what begins.
use crate::activation::Callee;
use crate::stack::Stack;
use crate::values::{Given, Values};
use lua_code::{Branch, Entry, Expression, Operator, Place, Statement, Target};
use lua_replacing::Replacing;
use lua_store::{Library, TableId, TextId, Value};
use lua_syntax::UnaryOp;
use mw_frame::{Bytes, List, Title};

/// A target of an assignment that is found (manual 2.4.3).
#[derive(Clone, Copy)]
pub enum Found {
    Variable(Place),
    /// A global variable, by the text of its name.
    Global(TextId, u32),
    /// The entry of a table or another value at a key.
    At(Value, Value, u32),
}

/// What waits for a target of an assignment: the targets behind it, those that are found, and the values.
#[derive(Drop)]
pub struct Finding<'m> {
    pub rest: &'m [Target],
    pub before: List<Found>,
    pub values: &'m List<Expression>,
}

/// A target with the value that it is to get.
#[derive(Clone, Copy)]
pub struct Setting {
    pub target: Found,
    pub value: Value,
}

/// A function of the library that waits for a call.
#[derive(Drop)]
pub enum Pending {
    Pcall,
    /// `xpcall` with its handler.
    Xpcall(Value),
    /// `xpcall` whose handler is called.
    Handler,
    ToString,
    Pairs,
    /// `gsub` that waits for the replacement of a match.
    Gsub(Box<Replacing>),
    /// The text of a module of this title is run.
    Module(Title),
}

/// A function of the library that waits for an answer from outside.
#[derive(Drop)]
pub enum Asked {
    /// `frame:expandTemplate`, with the text that names the template.
    Template(TextId),
    /// `frame:preprocess`
    Text,
    /// `mw.loadData`, with the text that names the module, and its title.
    Data(TextId, Title),
}

/// A generic loop (manual 2.4.5): the flags of its variables, its iterator and its state, its body, and its line.
#[derive(Clone, Copy)]
pub struct EachLoop<'m> {
    pub flags: &'m [bool],
    pub iterator: Value,
    pub state: Value,
    pub body: &'m List<Statement>,
    pub line: u32,
}

/// What begins at a step of its own. A line is given where a place of the newest function's text asks for it.
#[derive(Drop)]
pub enum Thing<'m> {
    WhileTurn(&'m Expression, &'m List<Statement>),
    RepeatTurn(&'m List<Statement>, &'m Expression),
    /// The flag of the variable, the index, the limit, the step, and the body.
    CountTurn(bool, i64, i64, i64, &'m List<Statement>),
    /// A turn of a generic loop with the iterator's results.
    EachTurn(Box<EachLoop<'m>>, Given),
    /// A function of Lua with its arguments.
    Body(Callee, Values, Option<u32>),
    /// A function of the library with its arguments.
    Library(Library, Values, Option<u32>),
    /// From an object to its handler for an index at this key.
    IndexLink(Value, Value, Value, Option<u32>),
    /// From an object to its handler for an assignment at this key to this value.
    SetLink(Value, Value, Value, Value, Option<u32>),
    /// From an object to its handler for a call. The object is the first of the arguments.
    CallLink(Value, Values, Option<u32>),
}

/// An expression, or a list of them, that waits for one of its operands (manual 2.5).
#[derive(Drop)]
pub enum InExpression<'m> {
    /// The first value alone counts.
    First,
    /// It is a truth, or its negation.
    Verdict(bool),
    KeyNext(&'m Expression, u32),
    IndexNow(Value, u32),
    /// The second operand, and the truth of the first one that makes it unneeded.
    DecideNext(bool, &'m Expression),
    OperandNext(Operator, &'m Expression, u32),
    OperateNow(Operator, Value, u32),
    UnaryNow(UnaryOp, u32),
    ArgumentsNext(&'m List<Expression>, u32),
    CallNow(Value, u32),
    /// The text of the method's name, and the arguments.
    MethodNext(TextId, &'m List<Expression>, u32),
    MethodNow(Value, &'m List<Expression>, u32),
    /// What is left of a list, and the values before.
    MoreNext(&'m [Expression], Values),
}

/// A table constructor that waits for one of its entries (manual 2.5.7). The table's next item has the place that is given.
#[derive(Drop)]
pub enum InConstructor<'m> {
    /// A constructor of this table whose next item has this place: an item is evaluated, with these entries behind it.
    ItemNow(TableId, usize, &'m [Entry], u32),
    /// The key of a pair is evaluated.
    PairNext(TableId, usize, &'m Expression, &'m [Entry], u32),
    /// The value of a pair is evaluated.
    PairNow(TableId, usize, Value, &'m [Entry], u32),
    /// An entry is set.
    FieldsNext(TableId, usize, &'m [Entry], u32),
    /// An entry is set, and these values are still to be set.
    ItemsNext(TableId, usize, Values, u32),
}

/// An assignment that waits for a part of a target, for its values, or for a target that is set (manual 2.4.3).
#[derive(Drop)]
pub enum InAssignment<'m> {
    /// The table of a target is evaluated, and then its key.
    TargetKey(&'m Expression, u32, Box<Finding<'m>>),
    /// The key of a target in this table is evaluated.
    TargetNow(Value, u32, Box<Finding<'m>>),
    /// The values for these targets are evaluated.
    AssignNow(List<Found>),
    /// A target is set, and these are still to be set.
    SetsNext(Stack<Setting>),
}

/// A block that waits for one of its statements, or a statement for what it evaluates first (manual 2.4).
#[derive(Drop)]
pub enum InStatement<'m> {
    DeclareNow(&'m [bool], &'m [Statement]),
    StatsNext(&'m [Statement]),
    /// A test of an `if`, with what follows its `then`, the branches behind it, and the `else`.
    BranchNext(&'m List<Statement>, &'m [Branch], Option<&'m List<Statement>>),
    ReturnNow,
}

/// A loop between its turns: it waits for a test, a bound, or an iterator (manual 2.4.4 and 2.4.5).
#[derive(Drop)]
pub enum InLoop<'m> {
    WhileTest(&'m Expression, &'m List<Statement>),
    CountFrom(bool, &'m Expression, Option<&'m Expression>, &'m List<Statement>, u32),
    CountTo(bool, Value, Option<&'m Expression>, &'m List<Statement>, u32),
    CountBy(bool, Value, Value, &'m List<Statement>, u32),
    EachValues(&'m [bool], &'m List<Statement>, u32),
    EachNext(Box<EachLoop<'m>>),
}

/// What is done at an end, whether it is come to or jumped out of: of a block, a function, or a turn of a loop.
#[derive(Drop)]
pub enum Ending<'m> {
    /// The end of a block that has so many registers below it.
    BlockEnd(usize),
    BodyEnd,
    LibraryEnd,
    WhileEnd(usize, &'m Expression, &'m List<Statement>),
    /// The body of a `repeat`, before its test.
    TestNext(&'m Expression, usize, &'m List<Statement>),
    TestNow(&'m Expression, usize, &'m List<Statement>),
    CountEnd(usize, bool, i64, i64, i64, &'m List<Statement>),
    /// The value is the one before.
    EachEnd(usize, Box<EachLoop<'m>>, Value),
}

/// A whole run that waits for its module, its function, or what that gives (Scribunto, "Invoking modules" and mw.loadData).
#[derive(Drop)]
pub enum InRun {
    /// The module's value is to come, whose function of this name gets this frame.
    ModuleFound(Bytes, Value),
    FunctionFound(Bytes, Value),
    AnswerNow,
    /// The text of a value of the answer is to come, with the values behind it and the texts before.
    TextNow(Values, List<TextId>),
    DataNow,
}

/// What waits for an outcome.
#[derive(Drop)]
pub enum Frame<'m> {
    Expression(InExpression<'m>),
    Constructor(InConstructor<'m>),
    Assignment(InAssignment<'m>),
    Statement(InStatement<'m>),
    Loop(InLoop<'m>),
    End(Ending<'m>),
    /// A function of the library that waits for a call; the line is that of its own call.
    Waits(Pending, Option<u32>),
    /// A function of the library that waits for an answer.
    Hears(Asked, Option<u32>),
    Run(InRun),
}
