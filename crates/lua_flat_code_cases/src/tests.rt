//! Texts with their counts, worked out by hand: the nodes that begin are what the operations charge.
use crate::made::made_of;
use crate::{Counts, counts_of, target_at};
use lua_flat_code::{MOST, Operand, Wanted};
use std::alloc::Global;
use std::hash::RandomState;
use std::process::Abort;
use std::test::Fail;

/// A text, the counts of its own code, and how many functions stand in it.
struct Row {
    text: &'static str,
    own: Counts,
    functions: usize,
}

const ROWS: [Row; 9] = [
    // each function ends with a return of nothing
    Row {
        text: "",
        own: Counts {
            steps: 1,
            registers: 0,
            charges: 0,
        },
        functions: 0,
    },
    // a constant comes to a register
    Row {
        text: "return 1",
        own: Counts {
            steps: 3,
            registers: 1,
            charges: 2,
        },
        functions: 0,
    },
    // a plain variable is returned from its own register
    Row {
        text: "local a = 1 return a",
        own: Counts {
            steps: 3,
            registers: 1,
            charges: 4,
        },
        functions: 0,
    },
    // an operation for the table and one for each item
    Row {
        text: "local t = {1, 2}",
        own: Counts {
            steps: 4,
            registers: 1,
            charges: 4,
        },
        functions: 0,
    },
    // the last call of a constructor gives all its values
    Row {
        text: "local t = {1, f()}",
        own: Counts {
            steps: 6,
            registers: 2,
            charges: 5,
        },
        functions: 0,
    },
    // the turn is paid by its first operation, and `break` jumps behind the jump back
    Row {
        text: "while true do break end",
        own: Counts {
            steps: 4,
            registers: 0,
            charges: 4,
        },
        functions: 0,
    },
    // a function and its argument stand in a row
    Row {
        text: "f(1)",
        own: Counts {
            steps: 4,
            registers: 2,
            charges: 4,
        },
        functions: 0,
    },
    // a comparison is tested by one operation; the last branch goes on at the end
    Row {
        text: "local a if a < 1 then a = 2 end",
        own: Counts {
            steps: 4,
            registers: 1,
            charges: 7,
        },
        functions: 0,
    },
    Row {
        text: "return function(a, ...) return a, ... end",
        own: Counts {
            steps: 3,
            registers: 1,
            charges: 2,
        },
        functions: 1,
    },
];

/// The code of a text has these counts.
fn check(
    rt: &impl Abort,
    alloc: Global,
    seed: RandomState,
    text: &[u8],
    own: Counts,
    functions: usize,
) -> Result<(), Fail> {
    let made = made_of(alloc, seed, text)?;
    let counts = counts_of(&made.text);
    assert_eq!(rt; counts.steps, own.steps);
    assert_eq!(rt; counts.registers, own.registers);
    assert_eq!(rt; counts.charges, own.charges);
    assert_eq!(rt; made.functions.as_slice().len(), functions);
    Ok(())
}

#[test]
fn texts_are_made(rt: HostRuntime) -> Result<(), Fail> {
    let alloc = rt.alloc();
    let seed = RandomState::new(&rt)?;
    for row in ROWS.iter() {
        check(
            &rt,
            alloc,
            seed,
            row.text.as_bytes(),
            row.own,
            row.functions,
        )?;
    }
    Ok(())
}

/// Nodes without an operation are paid before more than 2^16 of them are owed.
#[test]
fn what_is_owed_is_paid(rt: HostRuntime) -> Result<(), Fail> {
    let alloc = rt.alloc();
    let seed = RandomState::new(&rt)?;
    let mut text = Vec::new(alloc);
    for _ in 0..70_000 {
        text.extend_from_slice(b"do end ")?;
    }
    let own = Counts {
        steps: 2,
        registers: 0,
        charges: 70_000,
    };
    check(&rt, alloc, seed, text.as_slice(), own, 0)
}

/// A jump over more than 2^16 operations leads behind them all: two for each call, behind that of `a` and the test.
#[test]
fn jumps_lead_far(rt: HostRuntime) -> Result<(), Fail> {
    let alloc = rt.alloc();
    let seed = RandomState::new(&rt)?;
    let mut text = Vec::new(alloc);
    text.extend_from_slice(b"if a then ")?;
    for _ in 0..70_000 {
        text.extend_from_slice(b"f() ")?;
    }
    text.extend_from_slice(b"end")?;
    let made = made_of(alloc, seed, text.as_slice())?;
    let target = target_at(&made.text, 1);
    assert!(rt; target == Some(140_002));
    Ok(())
}

/// A register and a constant have a number below 2^31, and a number of values is below 2^32 - 1.
#[test]
fn numbers_are_bounded(rt: HostRuntime) -> Result<(), Fail> {
    assert!(rt; Operand::register(MOST - 1).is_ok());
    assert!(rt; Operand::register(MOST).is_err());
    assert!(rt; Operand::constant(MOST - 1).is_ok());
    assert!(rt; Operand::constant(MOST).is_err());
    let most = Wanted::exactly(u32::MAX - 1)?;
    assert!(rt; most.one_more().is_err());
    assert!(rt; Wanted::exactly(u32::MAX).is_err());
    let every = Wanted::every().one_more()?;
    assert_eq!(rt; every.code, u32::MAX);
    Ok(())
}
