//! Operations and steps, a step in 24 bytes.
const _: () = prove!(size_of::<Step>() == 24);

use crate::operand::{Operand, Wanted};
use lua_code::Operator;
use lua_syntax::UnaryOp;

/// A jump whose target is not known yet has this one.
pub const OPEN: u32 = u32::MAX;

/// An operation. `to` is the register for what it gives, and a target is a place in the code. Lists stand beside the code: `first` and
/// `count` say which part of the list they are.
#[derive(Clone, Copy)]
pub enum Op {
    /// Nothing but its charge.
    Pay,
    Load {
        to: u32,
        from: Operand,
    },
    Nils {
        to: u32,
        count: u32,
    },
    /// The values of `...`.
    Dots {
        to: u32,
        wanted: Wanted,
    },
    /// A new function of this number, with the origins of what it captures.
    Closure {
        to: u32,
        index: u32,
        first: u32,
        count: u32,
    },
    /// The same, where it may capture its own variable, which has a cell where it says so.
    Named {
        boxed: bool,
        to: u32,
        index: u32,
        first: u32,
        count: u32,
    },
    /// The values in these registers become variables, some of which have cells.
    Open {
        at: u32,
        first: u32,
        count: u32,
    },
    GetCell {
        to: u32,
        cell: u32,
    },
    SetCell {
        cell: u32,
        from: Operand,
    },
    GetUp {
        to: u32,
        captured: u32,
    },
    SetUp {
        captured: u32,
        from: Operand,
    },
    GetGlobal {
        to: u32,
        name: u32,
    },
    SetGlobal {
        name: u32,
        from: Operand,
    },
    Index {
        to: u32,
        of: Operand,
        key: Operand,
    },
    SetIndex {
        of: Operand,
        key: Operand,
        from: Operand,
    },
    /// The function of that name comes to the register `to`, and the object behind it.
    Method {
        to: u32,
        of: Operand,
        name: u32,
    },
    /// A new table, an entry of it, the entry of this place, and those from this place on: values from a register up to the top.
    Table {
        to: u32,
    },
    SetField {
        table: u32,
        key: Operand,
        from: Operand,
    },
    SetItem {
        table: u32,
        place: u32,
        from: Operand,
    },
    SetItems {
        table: u32,
        place: u32,
        from: u32,
    },
    Operate {
        op: Operator,
        to: u32,
        a: Operand,
        b: Operand,
    },
    Unary {
        op: UnaryOp,
        to: u32,
        a: Operand,
    },
    Jump {
        target: u32,
    },
    /// Jumps where a value's truth is this one.
    Test {
        when: bool,
        a: Operand,
        target: u32,
    },
    /// Jumps where a comparison's truth is this one.
    Compare {
        op: Operator,
        a: Operand,
        b: Operand,
        when: bool,
        target: u32,
    },
    /// The registers from `base` on have the index, the limit and the step of a counting loop, and its variable. It jumps where it is over.
    CountBegins {
        base: u32,
        target: u32,
    },
    /// It jumps where it goes on.
    CountGoesOn {
        base: u32,
        target: u32,
    },
    /// The registers from `base` on have the iterator, the state and the value before, and the variables. The iterator is called.
    EachCalls {
        base: u32,
        count: u32,
    },
    /// It jumps where the first is nil.
    EachTests {
        base: u32,
        target: u32,
    },
    /// The function is in the register `base`, and its arguments are behind it.
    Call {
        to: u32,
        base: u32,
        arguments: Wanted,
        results: Wanted,
    },
    Return {
        from: u32,
        count: Wanted,
    },
    /// An assignment to what can't be assigned to.
    Refuse,
}

/// An operation, with the steps of the nodes and turns that began since the operation before.
#[derive(Clone, Copy)]
pub struct Step {
    pub charge: u32,
    pub op: Op,
}
