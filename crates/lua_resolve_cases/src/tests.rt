//! Texts with their counts and their constants, worked out by hand.
use crate::modules::{BOOK, DATA, INFOBOX, LANGUAGES, TEXT};
use crate::{Counts, counts_of, has_constants, returns};
use lua_code::NoMemory;
use lua_parser::parse;
use lua_resolve::{is_made_once, resolve};
use lua_syntax::SyntaxFault;
use std::alloc::Global;
use std::hash::RandomState;
use std::process::Abort;
use std::test::Fail;

/// A text, its variables with cells, those in plain registers, and its functions.
struct Row {
    text: &'static str,
    boxed: usize,
    plain: usize,
    functions: usize,
}

const ROWS: [Row; 18] = [
    // the value is global: its name is not local yet
    Row {
        text: "local x = x",
        boxed: 0,
        plain: 1,
        functions: 0,
    },
    // a function that captures itself
    Row {
        text: "local function f() return f() end",
        boxed: 1,
        plain: 0,
        functions: 1,
    },
    // one that only has the name from outside
    Row {
        text: "local f = function() return f() end",
        boxed: 0,
        plain: 1,
        functions: 1,
    },
    Row {
        text: "local a, b = 1, 2 return function() return a end",
        boxed: 1,
        plain: 1,
        functions: 1,
    },
    // the test sees the variable of the body, and captures it
    Row {
        text: "repeat local done = f() until (function() return done end)()",
        boxed: 1,
        plain: 0,
        functions: 1,
    },
    Row {
        text: "for i = 1, 3 do local f = function() return i end end",
        boxed: 1,
        plain: 1,
        functions: 1,
    },
    Row {
        text: "for k, v in pairs(t) do f(k, function() return v end) end",
        boxed: 1,
        plain: 1,
        functions: 1,
    },
    // two parameters of one name: the second is captured
    Row {
        text: "local function f(a, a) return function() return a end end",
        boxed: 1,
        plain: 2,
        functions: 2,
    },
    // a captured name that the inner function has itself
    Row {
        text: "local x return function(x) return x end",
        boxed: 0,
        plain: 2,
        functions: 1,
    },
    // captured through a function that does not use it
    Row {
        text: "local x return function() return function() x = 1 end end",
        boxed: 1,
        plain: 0,
        functions: 2,
    },
    // the inner one of two with one name
    Row {
        text: "local x do local x return function() return x end end",
        boxed: 1,
        plain: 1,
        functions: 1,
    },
    Row {
        text: "if a then local b elseif c then local d else local e f(function() e = 1 end) end",
        boxed: 1,
        plain: 2,
        functions: 1,
    },
    Row {
        text: "function t.a.b:c(d) return self, d end while a do local x end",
        boxed: 0,
        plain: 3,
        functions: 1,
    },
    // p; list, between, text, i and item; text and class
    Row {
        text: TEXT,
        boxed: 0,
        plain: 8,
        functions: 2,
    },
    // data with a cell, since both functions read it; p; code and language; names, code and language
    Row {
        text: LANGUAGES,
        boxed: 1,
        plain: 6,
        functions: 2,
    },
    // text and languages with cells; p; frame, args and cells; frame, links, i and title
    Row {
        text: BOOK,
        boxed: 2,
        plain: 8,
        functions: 2,
    },
    // a table alone
    Row {
        text: DATA,
        boxed: 0,
        plain: 0,
        functions: 0,
    },
    // row with a cell, since main calls it; p; box, label, value and tr; frame, args and box
    Row {
        text: INFOBOX,
        boxed: 1,
        plain: 8,
        functions: 2,
    },
];

/// A text has these counts, and its code is made once.
fn check(
    rt: &impl Abort,
    alloc: Global,
    seed: RandomState,
    text: &[u8],
    expected: Counts,
) -> Result<(), Fail> {
    if text.len() >= 4000000000 {
        return Err(Fail::from(NoMemory));
    }
    let chunk = parse(alloc, text)?;
    let counts = counts_of(&resolve(alloc, seed, &chunk)?);
    assert_eq!(rt; counts.boxed, expected.boxed);
    assert_eq!(rt; counts.plain, expected.plain);
    assert_eq!(rt; counts.functions, expected.functions);
    let is_once = is_made_once(alloc, seed, &chunk)?;
    assert_eq!(rt; is_once, true);
    Ok(())
}

#[test]
fn texts_are_resolved(rt: HostRuntime) -> Result<(), Fail> {
    let alloc = rt.alloc();
    let seed = RandomState::new(&rt)?;
    for row in ROWS.iter() {
        let expected = Counts {
            boxed: row.boxed,
            plain: row.plain,
            functions: row.functions,
        };
        check(&rt, alloc, seed, row.text.as_bytes(), expected)?;
    }
    Ok(())
}

/// A text of many pieces: what stands in front, a piece and how often it stands, what is in the middle, and a piece that stands as often behind.
struct Long {
    pieces: [&'static str; 4],
    times: usize,
    counts: Counts,
}

const LONG: [Long; 3] = [
    // one name, shadowed many times, each time by a value of the one before
    Long {
        pieces: ["", "local x = x ", "return x", ""],
        times: 200000,
        counts: Counts {
            boxed: 0,
            plain: 200000,
            functions: 0,
        },
    },
    // a variable that many functions capture, each through all those around it: 199 nodes stand above its use, and 201 would above the next
    Long {
        pieces: ["local x = 1 ", "return function() ", "return x", " end"],
        times: 99,
        counts: Counts {
            boxed: 1,
            plain: 0,
            functions: 99,
        },
    },
    // the same with local functions, each a single node: 200 nodes stand above the use, as many as may
    Long {
        pieces: ["local x = 1 ", "local function f() ", "return x", " end"],
        times: 199,
        counts: Counts {
            boxed: 1,
            plain: 199,
            functions: 199,
        },
    },
];

fn text_of(alloc: Global, long: &Long) -> Result<Vec<u8>, Fail> {
    let mut text = Vec::new(alloc);
    text.extend_from_slice(long.pieces[0].as_bytes())?;
    for _ in 0..long.times {
        text.extend_from_slice(long.pieces[1].as_bytes())?;
    }
    text.extend_from_slice(long.pieces[2].as_bytes())?;
    for _ in 0..long.times {
        text.extend_from_slice(long.pieces[3].as_bytes())?;
    }
    Ok(text)
}

#[test]
fn long_texts_are_resolved(rt: HostRuntime) -> Result<(), Fail> {
    let alloc = rt.alloc();
    let seed = RandomState::new(&rt)?;
    for long in LONG.iter() {
        let text = text_of(alloc, long)?;
        check(&rt, alloc, seed, text.as_slice(), long.counts)?;
    }
    Ok(())
}

/// Functions inside one another, each with a parameter; the innermost gives all of them.
fn with_parameters(alloc: Global, levels: usize) -> Result<Vec<u8>, Fail> {
    let mut text = Vec::new(alloc);
    for level in 0..levels {
        let head = format!(in alloc; "local function f(a{level}) ")?;
        text.extend_from_slice(head.as_bytes())?;
    }
    text.extend_from_slice(b"return 0")?;
    for level in 0..levels {
        let item = format!(in alloc; ",a{level}")?;
        text.extend_from_slice(item.as_bytes())?;
    }
    for _ in 0..levels {
        text.extend_from_slice(b" end")?;
    }
    Ok(text)
}

#[test]
fn parameters_of_all_levels_are_captured(rt: HostRuntime) -> Result<(), Fail> {
    let alloc = rt.alloc();
    let seed = RandomState::new(&rt)?;
    let text = with_parameters(alloc, 199)?;
    // the innermost function's own parameter is plain, as is each function
    let expected = Counts {
        boxed: 198,
        plain: 200,
        functions: 199,
    };
    check(&rt, alloc, seed, text.as_slice(), expected)
}

/// Variables with names of their own, and a function that captures the first of them.
fn with_names(alloc: Global, count: usize) -> Result<Vec<u8>, Fail> {
    let mut text = Vec::new(alloc);
    for n in 0..count {
        let item = format!(in alloc; "local v{n} = 1 ")?;
        text.extend_from_slice(item.as_bytes())?;
    }
    text.extend_from_slice(b"return function() return v0 end")?;
    Ok(text)
}

#[test]
fn many_variables_are_resolved(rt: HostRuntime) -> Result<(), Fail> {
    let alloc = rt.alloc();
    let seed = RandomState::new(&rt)?;
    let text = with_names(alloc, 200000)?;
    // all but the first are plain
    let expected = Counts {
        boxed: 1,
        plain: 199999,
        functions: 1,
    };
    check(&rt, alloc, seed, text.as_slice(), expected)
}

/// A text that returns three names and texts, the numbers of these, and the constants of its module.
struct Named {
    text: &'static str,
    numbers: [u32; 3],
    constants: [&'static str; 2],
}

const NAMED: [Named; 4] = [
    // a name that is used twice has one number
    Named {
        text: "return x, y, x",
        numbers: [0, 1, 0],
        constants: ["x", "y"],
    },
    // and so has a text
    Named {
        text: "return 'a', 'b', 'a'",
        numbers: [0, 1, 0],
        constants: ["a", "b"],
    },
    // names and texts share numbers, those of methods and fields among them, and of what is assigned to
    Named {
        text: "a = a:b(a.b) return 'b', b, 'a'",
        numbers: [1, 1, 0],
        constants: ["a", "b"],
    },
    // functions share them with the text around; local variables have none
    Named {
        text: "local f = function(p) return p, y end return x, 'y', 'x'",
        numbers: [1, 0, 1],
        constants: ["y", "x"],
    },
];

/// What the text of a row returns has the numbers of the row, and its module the constants.
fn check_named(rt: &impl Abort, alloc: Global, seed: RandomState, row: &Named) -> Result<(), Fail> {
    let text = row.text.as_bytes();
    if text.len() >= 4000000000 {
        return Err(Fail::from(NoMemory));
    }
    let chunk = parse(alloc, text)?;
    let protos = resolve(alloc, seed, &chunk)?;
    assert!(rt; returns(&protos, &row.numbers));
    assert!(rt; has_constants(&protos, &row.constants));
    Ok(())
}

#[test]
fn constants_are_numbered(rt: HostRuntime) -> Result<(), Fail> {
    let alloc = rt.alloc();
    let seed = RandomState::new(&rt)?;
    for row in NAMED.iter() {
        check_named(&rt, alloc, seed, row)?;
    }
    Ok(())
}
