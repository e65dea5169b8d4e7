//! Runs of the loop, with the registers as `lua5.1` has the variables, and the steps worked out by hand: one for each node that begins, and
//! for each turn. What the loop leaves to others, as it does each `return`, is not paid.
use crate::runs::{Begin, EMPTY, run_text};
use lua_flat_loop::{Exit, Slot, Value, Which};
use std::alloc::Global;
use std::hash::RandomState;
use std::process::Abort;
use std::test::Fail;

/// A text, the steps that it may take, why the loop leaves, the steps that are then left, and the values of the first registers: those with
/// nothing are not looked at.
struct Row {
    text: &'static str,
    steps: u64,
    exit: Exit,
    rest: u64,
    values: [Option<Value>; 3],
}

const SUM: &str = "local s, i = 0, 1 while i <= 10 do s = s + i i = i + 1 end return s";

const ROWS: [Row; 19] = [
    // a constant comes to a register, which pays for the return too
    Row {
        text: "return 1",
        steps: 5,
        exit: Exit::Aside,
        rest: 3,
        values: [Some(Value::Number(1)), None, None],
    },
    // twelve steps a turn, three for the last test, and four before it all
    Row {
        text: SUM,
        steps: 200,
        exit: Exit::Aside,
        rest: 73,
        values: [Some(Value::Number(55)), Some(Value::Number(11)), None],
    },
    // the return needs two steps: with one it is spent, with both it is left to others
    Row {
        text: SUM,
        steps: 128,
        exit: Exit::Spent(Which::Steps),
        rest: 0,
        values: [Some(Value::Number(55)), Some(Value::Number(11)), None],
    },
    Row {
        text: SUM,
        steps: 129,
        exit: Exit::Aside,
        rest: 2,
        values: [Some(Value::Number(55)), Some(Value::Number(11)), None],
    },
    // the fifth turn is cut off between its assignments, and then before them
    Row {
        text: SUM,
        steps: 60,
        exit: Exit::Spent(Which::Steps),
        rest: 0,
        values: [Some(Value::Number(15)), Some(Value::Number(5)), None],
    },
    Row {
        text: SUM,
        steps: 59,
        exit: Exit::Spent(Which::Steps),
        rest: 0,
        values: [Some(Value::Number(10)), Some(Value::Number(5)), None],
    },
    Row {
        text: SUM,
        steps: 0,
        exit: Exit::Spent(Which::Steps),
        rest: 0,
        values: [Some(Value::Nil), Some(Value::Nil), Some(Value::Nil)],
    },
    // the test of a `repeat` sees the variable of its body
    Row {
        text: "local n = 1 repeat local done = n >= 2 n = n + 1 until done",
        steps: 23,
        exit: Exit::Aside,
        rest: 0,
        values: [Some(Value::Number(3)), Some(Value::Bool(true)), None],
    },
    Row {
        text: "local a, b = 7, 0 if a % 2 == 1 then b = a * a - 1 else b = 1 end return b",
        steps: 20,
        exit: Exit::Aside,
        rest: 5,
        values: [Some(Value::Number(7)), Some(Value::Number(48)), None],
    },
    Row {
        text: "local a, b = true, nil local c = 0 if a then c = c + 1 end if b then c = c + 10 end if not b then c = c + 100 end return c",
        steps: 22,
        exit: Exit::Aside,
        rest: 2,
        values: [
            Some(Value::Bool(true)),
            Some(Value::Nil),
            Some(Value::Number(101)),
        ],
    },
    // loops in one another, left by `break`
    Row {
        text: "local n, i = 0, 0 while true do i = i + 1 local j = 0 while j < i do j = j + 1 n = n + j end if i == 4 then break end end return n",
        steps: 200,
        exit: Exit::Aside,
        rest: 11,
        values: [
            Some(Value::Number(20)),
            Some(Value::Number(4)),
            Some(Value::Number(4)),
        ],
    },
    // each comparison has a bit
    Row {
        text: "local a, b, c = 3, 5, 0 if a < b then c = c + 1 end if a > b then c = c + 2 end if a <= b then c = c + 4 end if a >= b then c = c + 8 end if a == b then c = c + 16 end if a ~= b then c = c + 32 end return c",
        steps: 42,
        exit: Exit::Aside,
        rest: 2,
        values: [
            Some(Value::Number(3)),
            Some(Value::Number(5)),
            Some(Value::Number(37)),
        ],
    },
    Row {
        text: "local a = 7 + 5 local b = a * 3 - 40 local c = b % 9 return c",
        steps: 16,
        exit: Exit::Aside,
        rest: 2,
        values: [
            Some(Value::Number(12)),
            Some(Value::Number(-4)),
            Some(Value::Number(5)),
        ],
    },
    Row {
        text: "local a = 2 ^ 10 local b = a / 4 local c = 7 - b return c",
        steps: 14,
        exit: Exit::Aside,
        rest: 2,
        values: [
            Some(Value::Number(1024)),
            Some(Value::Number(256)),
            Some(Value::Number(-249)),
        ],
    },
    Row {
        text: "local a, b = 3, 4 local c = 0 if a < b and b < 5 then c = 1 end if a > b or b > 5 then c = 2 end return c",
        steps: 25,
        exit: Exit::Aside,
        rest: 2,
        values: [
            Some(Value::Number(3)),
            Some(Value::Number(4)),
            Some(Value::Number(1)),
        ],
    },
    Row {
        text: "local a, b = 1, 2 a, b = b, a return a",
        steps: 8,
        exit: Exit::Aside,
        rest: 2,
        values: [Some(Value::Number(2)), Some(Value::Number(1)), None],
    },
    // texts stand in front of the other constants
    Row {
        text: "local a, b, c = 'x', 7, false return 'y'",
        steps: 6,
        exit: Exit::Aside,
        rest: 0,
        values: [None, Some(Value::Number(7)), Some(Value::Bool(false))],
    },
    // what two numbers don't have, and what isn't a number, is left to others, unpaid
    Row {
        text: "local a, z = 1, 0 local b = a / z return b",
        steps: 20,
        exit: Exit::Aside,
        rest: 17,
        values: [Some(Value::Number(1)), Some(Value::Number(0)), None],
    },
    Row {
        text: "local a = nil if a < 1 then a = 2 end return a",
        steps: 20,
        exit: Exit::Aside,
        rest: 18,
        values: [Some(Value::Nil), None, None],
    },
];

/// Whether a register holds the value that is asked for, if one is.
fn holds(slot: Slot, value: Option<Value>) -> bool {
    match (slot, value) {
        (_, None) => true,
        (Slot::Plain(held), Some(value)) => held == value,
        (Slot::Boxed(_), Some(_)) => false,
    }
}

/// A run of the text ends as the row says.
fn check(rt: &impl Abort, alloc: Global, seed: RandomState, row: &Row) -> Result<(), Fail> {
    let mut regs = [EMPTY; 8];
    let begin = Begin {
        index: 0,
        base: 0,
        steps: row.steps,
    };
    let ended = run_text(alloc, seed, row.text.as_bytes(), begin, &mut regs)?;
    assert!(rt; ended.exit == row.exit, "{}", row.text);
    assert_eq!(rt; ended.rest, row.rest);
    assert!(rt; holds(regs[0], row.values[0]), "{}", row.text);
    assert!(rt; holds(regs[1], row.values[1]), "{}", row.text);
    assert!(rt; holds(regs[2], row.values[2]), "{}", row.text);
    Ok(())
}

#[test]
fn texts_are_run(rt: HostRuntime) -> Result<(), Fail> {
    let alloc = rt.alloc();
    let seed = RandomState::new(&rt)?;
    for row in ROWS.iter() {
        check(&rt, alloc, seed, row)?;
    }
    Ok(())
}

/// Ten thousand turns of eight steps each, with six steps around them.
#[test]
fn loops_go_on(rt: HostRuntime) -> Result<(), Fail> {
    let alloc = rt.alloc();
    let seed = RandomState::new(&rt)?;
    let text = b"local i = 0 while i < 10000 do i = i + 1 end";
    let mut regs = [EMPTY; 1];
    let begin = Begin {
        index: 0,
        base: 0,
        steps: 80_006,
    };
    let ended = run_text(alloc, seed, text, begin, &mut regs)?;
    assert!(rt; ended.exit == Exit::Aside);
    assert_eq!(rt; ended.rest, 0);
    assert!(rt; holds(regs[0], Some(Value::Number(10_000))));
    Ok(())
}

/// A function has its parameters from its base on, and leaves the registers below alone.
#[test]
fn functions_have_a_base(rt: HostRuntime) -> Result<(), Fail> {
    let alloc = rt.alloc();
    let seed = RandomState::new(&rt)?;
    let text = b"return function(a, b) local c = a - b return c end";
    let mut regs = [
        Slot::Plain(Value::Number(7)),
        Slot::Plain(Value::Number(50)),
        Slot::Plain(Value::Number(8)),
        EMPTY,
    ];
    let begin = Begin {
        index: 1,
        base: 1,
        steps: 10,
    };
    let ended = run_text(alloc, seed, text, begin, &mut regs)?;
    assert!(rt; ended.exit == Exit::Aside);
    assert_eq!(rt; ended.rest, 6);
    assert!(rt; holds(regs[0], Some(Value::Number(7))));
    assert!(rt; holds(regs[3], Some(Value::Number(42))));
    Ok(())
}

/// Where a register is not there, the operation that writes it is neither done nor paid; and where a function is not there, none is.
#[test]
fn what_is_not_there(rt: HostRuntime) -> Result<(), Fail> {
    let alloc = rt.alloc();
    let seed = RandomState::new(&rt)?;
    let text = b"local a, b = 1, 2 return a";
    let mut regs = [EMPTY; 1];
    let mut begin = Begin {
        index: 0,
        base: 0,
        steps: 10,
    };
    let full = run_text(alloc, seed, text, begin, &mut regs)?;
    assert!(rt; full.exit == Exit::Full);
    assert_eq!(rt; full.pc, 1);
    assert_eq!(rt; full.rest, 8);
    begin.index = 1;
    let mut others = [EMPTY; 1];
    let absent = run_text(alloc, seed, text, begin, &mut others)?;
    assert!(rt; absent.exit == Exit::Aside);
    assert_eq!(rt; absent.pc, 0);
    assert_eq!(rt; absent.rest, 10);
    Ok(())
}
