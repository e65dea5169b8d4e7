//! The newest frame, where it is gone on with in place.
ghost use Rattle.std.specs.Prelude.{◌≡◌, ◌∷◌, [], List as Items, IfSome};
ghost use Rattle.lua_operators.specs.LuaStackDeclaredFrameEnding.{Ending as EndingValue};
ghost use Rattle.lua_strides.specs.LuaStackDeclaredFrameFrame.{Frame as FrameValue};
ghost use Rattle.lua_operators.specs.LuaStackDeclaredFrameFrameTheVariants as frame_kind;
ghost use Rattle.lua_operators.specs.LuaStackDeclaredFrameInAssignmentTheVariants as in_assignment;
ghost use Rattle.lua_operators.specs.LuaStackDeclaredFrameInExpressionTheVariants as in_expression;
ghost use Rattle.lua_turns.specs.Rows.{IsNewest};
ghost use Rattle.lua_turns.specs.Waiting.{Waits};

use lua_code::{Branch, Expression, List, Operator, Statement};
use lua_loops::{Ending, InLoop, Values};
use lua_operators::{Frame, Frames, InAssignment, InExpression, TextId, Value};
use lua_strides::{Found, InStatement};
use lua_syntax::UnaryOp;

/// A counting loop in one of its turns: how many registers are below those of the turn, whether the variable has a cell, the index, the
/// limit, the step, and the body.
#[derive(Clone, Copy)]
pub struct Count<'m> {
    pub depth: usize,
    pub boxed: bool,
    pub index: i64,
    pub limit: i64,
    pub step: i64,
    pub body: &'m List<Statement>,
}

/// What waits in the newest frame.
#[derive(Clone, Copy)]
pub enum Waiting<'m> {
    /// The statements behind one.
    Statements(&'m [Statement]),
    /// A declaration, and the statements behind it.
    Declares(&'m [bool], &'m [Statement]),
    /// A `return` of the values that are given.
    Returns,
    /// An operator for its first operand; the second one is evaluated then.
    Operand(Operator, &'m Expression, u32),
    /// An operator for its second operand.
    Operates(Operator, Value, u32),
    /// An operator that joins texts, for its second operand.
    Joins(Value, u32),
    /// A call, for what is called; its arguments are evaluated then.
    Callee(&'m List<Expression>, u32),
    /// A call of the method whose name has this text, for its object; its arguments are evaluated then.
    Object(TextId, &'m List<Expression>, u32),
    /// A call of this value, for its arguments.
    Calls(Value, u32),
    /// A list with nothing before, for its last expression.
    Last(&'m [Expression]),
    /// A list for one of its expressions; these are behind it.
    Item(&'m [Expression]),
    /// What gives the first value.
    First,
    /// `and` or `or` for its first operand, with the truth of it that makes the second one unneeded.
    Decides(bool, &'m Expression),
    /// An operator for its one operand.
    Applies(UnaryOp, u32),
    /// An index for its object; its key is evaluated then.
    Key(&'m Expression, u32),
    /// An index of this object, for its key.
    Indexes(Value, u32),
    /// One target for its value.
    Assigns(Found),
    /// An `if` for a test, with what follows its `then`, the branches behind it, and the `else`.
    Branches(&'m List<Statement>, &'m [Branch], Option<&'m List<Statement>>),
    /// A `while` for its test.
    Tests(&'m Expression, &'m List<Statement>),
    /// The end of a turn of a `while`.
    Repeats(usize, &'m Expression, &'m List<Statement>),
    /// The end of a block that has so many registers below it.
    Block(usize),
    /// The end of a function's body.
    Body,
    /// The end of a function of the library.
    Library,
    /// The end of a turn.
    Counts(Count<'m>),
    /// Another frame, or none.
    Other,
}

/// What waits at an end.
fn of_ending<'m>(ending: &Ending<'m>) -> Waiting<'m>
    ensures { (fs : Items FrameValue) → IsNewest fs (frame_kind.End ending.now) → Waits fs result }
{
    match ending {
        Ending::BlockEnd(depth) => Waiting::Block(*depth),
        Ending::BodyEnd => Waiting::Body,
        Ending::LibraryEnd => Waiting::Library,
        Ending::WhileEnd(depth, test, body) => Waiting::Repeats(*depth, *test, *body),
        Ending::CountEnd(depth, boxed, index, limit, step, body) => Waiting::Counts(Count {
            depth: *depth,
            boxed: *boxed,
            index: *index,
            limit: *limit,
            step: *step,
            body: *body,
        }),
        _ => Waiting::Other,
    }
}

/// Whether a list has one more expression, or values before.
fn of_list<'m>(rest: &'m [Expression], before: &Values) -> Waiting<'m>
    ensures { (fs : Items FrameValue) → IsNewest fs (frame_kind.Expression (in_expression.MoreNext rest.entry before.now)) → Waits fs result }
{
    if rest.len() == 0 && before.len() == 0 {
        return Waiting::Last(rest);
    }
    Waiting::Item(rest)
}

/// What waits for a second operand.
fn of_operator<'m>(op: Operator, a: Value, line: u32) -> Waiting<'m>
    ensures { (fs : Items FrameValue) → IsNewest fs (frame_kind.Expression (in_expression.OperateNow op a line)) → Waits fs result }
{
    match op {
        Operator::Concatenate => Waiting::Joins(a, line),
        _ => Waiting::Operates(op, a, line),
    }
}

/// What waits in an expression.
fn of_expression<'m>(frame: &InExpression<'m>) -> Waiting<'m>
    ensures { (fs : Items FrameValue) → IsNewest fs (frame_kind.Expression frame.now) → Waits fs result }
{
    match frame {
        InExpression::OperandNext(op, b, line) => Waiting::Operand(*op, *b, *line),
        InExpression::OperateNow(op, a, line) => of_operator(*op, *a, *line),
        InExpression::CallNow(called, line) => Waiting::Calls(*called, *line),
        InExpression::MoreNext(rest, before) => of_list(*rest, before),
        InExpression::First => Waiting::First,
        InExpression::DecideNext(deciding, b) => Waiting::Decides(*deciding, *b),
        InExpression::UnaryNow(op, line) => Waiting::Applies(*op, *line),
        InExpression::KeyNext(key, line) => Waiting::Key(*key, *line),
        InExpression::IndexNow(of, line) => Waiting::Indexes(*of, *line),
        InExpression::ArgumentsNext(list, line) => Waiting::Callee(*list, *line),
        InExpression::MethodNext(name, list, line) => Waiting::Object(*name, *list, *line),
        _ => Waiting::Other,
    }
}

/// What waits in a statement.
fn of_statement<'m>(frame: &InStatement<'m>) -> Waiting<'m>
    ensures { (fs : Items FrameValue) → IsNewest fs (frame_kind.Statement frame.now) → Waits fs result }
{
    match frame {
        InStatement::StatsNext(rest) => Waiting::Statements(*rest),
        InStatement::DeclareNow(flags, rest) => Waiting::Declares(*flags, *rest),
        InStatement::ReturnNow => Waiting::Returns,
        InStatement::BranchNext(body, more, other) => Waiting::Branches(*body, *more, *other),
    }
}

/// The one target of an assignment that has just one.
fn of_targets<'m>(targets: &List<Found>) -> Waiting<'m>
    ensures { (fs : Items FrameValue) → IsNewest fs (frame_kind.Assignment (in_assignment.AssignNow targets.now)) → Waits fs result }
{
    match targets.as_slice() {
        [target] => Waiting::Assigns(*target),
        _ => Waiting::Other,
    }
}

/// What waits in an assignment.
fn of_assignment<'m>(frame: &InAssignment<'m>) -> Waiting<'m>
    ensures { (fs : Items FrameValue) → IsNewest fs (frame_kind.Assignment frame.now) → Waits fs result }
{
    match frame {
        InAssignment::AssignNow(targets) => of_targets(targets),
        _ => Waiting::Other,
    }
}

/// What waits in a loop.
fn of_loop<'m>(frame: &InLoop<'m>) -> Waiting<'m>
    ensures { (fs : Items FrameValue) → IsNewest fs (frame_kind.Loop frame.now) → Waits fs result }
{
    match frame {
        InLoop::WhileTest(test, body) => Waiting::Tests(*test, *body),
        _ => Waiting::Other,
    }
}

/// What waits in a frame.
fn of_frame<'m>(frame: &Frame<'m>) -> Waiting<'m>
    ensures { (fs : Items FrameValue) → IsNewest fs frame.now → Waits fs result }
{
    match frame {
        Frame::Statement(frame) => of_statement(frame),
        Frame::End(ending) => of_ending(ending),
        Frame::Expression(frame) => of_expression(frame),
        Frame::Assignment(frame) => of_assignment(frame),
        Frame::Loop(frame) => of_loop(frame),
        _ => Waiting::Other,
    }
}

/// What waits in the newest frame.
pub fn of_newest<'m>(frames: &Frames<'m>) -> Waiting<'m>
    ensures { Waits frames.now result }
{
    match frames.get(0) {
        Some(frame) => of_frame(frame),
        None => Waiting::Other,
    }
}

/// The newest frame waits no more.
pub fn drop_newest<'m>(frames: &mut Frames<'m>)
    ensures { (f : FrameValue) (more : Items FrameValue) → frames.old ≡ f ∷ more → frames.new ≡ more }
{
    let count = frames.len();
    frames.cut(count.saturating_sub(1));
}

/// Another frame waits in the place of the newest one.
pub fn swap_newest<'m>(frames: &mut Frames<'m>, frame: Frame<'m>)
    ensures { (f : FrameValue) (more : Items FrameValue) → frames.old ≡ f ∷ more → frames.new ≡ frame.entry ∷ more }
{
    frames.set(0, frame);
}
