//! The operators whose operands are both evaluated.

/// An operator of arithmetic (manual 2.5.1).
#[derive(Clone, Copy, Debug, PartialEq, Eq)]
pub enum Arithmetic {
    Plus,
    Minus,
    Times,
    Divide,
    Modulo,
    Power,
}

/// An operator whose operands are both evaluated (manual 2.5): all but `and` and `or`.
#[derive(Clone, Copy, Debug, PartialEq, Eq)]
pub enum Operator {
    Less,
    Greater,
    AtMost,
    AtLeast,
    Equal,
    Unequal,
    Concatenate,
    Calculate(Arithmetic),
}
