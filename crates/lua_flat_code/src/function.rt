//! Functions and modules.
use crate::op::Step;
use crate::operand::{Constant, Origin};
use lua_code::{Bytes, List};

/// A function in flat code: for each parameter whether it has a cell, whether `...` follows them, how many registers it needs; its steps,
/// and beside them their lines; and the lists of which its operations name parts: which new variables have cells, and where cells that a new
/// function captures come from.
#[derive(Drop)]
pub struct Function {
    pub flags: List<bool>,
    pub dots: bool,
    pub registers: u32,
    pub steps: List<Step>,
    pub lines: List<u32>,
    pub cells: List<bool>,
    pub origins: List<Origin>,
}

/// The functions of a module in flat code. Number 0 is the module's text as a whole; the others are numbered from 1. Constants are
/// numbered from 0: texts and names first, and then the others.
#[derive(Drop)]
pub struct Functions {
    pub text: Function,
    pub functions: List<Function>,
    pub texts: List<Bytes>,
    pub constants: List<Constant>,
}
