//! How an arm ends.
use lua_basic::Value;
use lua_number::NumberFault;
use lua_stack::{Focus, Which};

/// What failed; the message gets the place of the line in front.
#[derive(Clone, Copy)]
pub enum Failure {
    CannotIndex(Value),
    CannotCall(Value),
    CannotCalculate(Value),
    CannotConcatenate(Value),
    CannotCompare(Value, Value),
    NoLength(Value),
    Number(NumberFault),
    NilKey,
    ReadOnly,
    NoInitialValue,
    NoLimit,
    NoStep,
}

/// A move without its charges: on to what comes next, or an error at this line.
#[derive(Drop)]
pub enum Step<'m> {
    On(Focus<'m>),
    Fails(Option<u32>, Failure),
}

/// A step whose charges are taken, or an allowance that is spent.
#[derive(Drop)]
pub enum Paid<'m> {
    Goes(Step<'m>),
    Spent(Which),
}
