//! Counts of a function in flat code, and where its jumps lead.
use lua_flat_code::{Function, Op};

/// Operations, registers, and what all operations charge, once each.
#[derive(Clone, Copy, Debug, PartialEq, Eq)]
pub struct Counts {
    pub steps: usize,
    pub registers: u32,
    pub charges: u64,
}

/// The counts of a function.
pub fn counts_of(function: &Function) -> Counts {
    let mut charges = 0u64;
    for step in function.steps.as_slice() {
        charges = charges.saturating_add(u64::from(step.charge));
    }
    Counts {
        steps: function.steps.as_slice().len(),
        registers: function.registers,
        charges,
    }
}

/// Where the test of a value that stands at a place jumps to.
pub fn target_at(function: &Function, at: usize) -> Option<u32> {
    let step = function.steps.as_slice().get(at)?;
    match step.op {
        Op::Test {
            when: _,
            a: _,
            target,
        } => Some(target),
        _ => None,
    }
}
