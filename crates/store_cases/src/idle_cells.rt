//! Cells that nothing captures, in code that is made by hand.
use crate::start::holds;
use lua_cells::has_no_idle_cell;
use lua_code::{Expression, Place, Proto, Statement};
use std::alloc::Global;
use std::process::Abort;
use std::test::Fail;
use wk_base::{List, NoMemory};

/// A text of these statements.
fn text(alloc: Global, body: List<Statement>) -> Proto {
    Proto {
        flags: List::new(alloc),
        dots: false,
        body,
    }
}

/// `local x`, with a cell or without one, where its flag is given.
fn declare(alloc: Global, flags: List<bool>) -> Result<Proto, NoMemory> {
    let values: List<Expression> = List::new(alloc);
    let mut body = List::new(alloc);
    body.push(Statement::Declare(flags, values))?;
    Ok(text(alloc, body))
}

/// `local x`, with a cell or without one.
fn declared(alloc: Global, boxed: bool) -> Result<Proto, NoMemory> {
    let mut flags = List::new(alloc);
    flags.push(boxed)?;
    declare(alloc, flags)
}

/// A local function that captures what stands at these places.
fn capture(alloc: Global, places: List<Place>) -> Result<Proto, NoMemory> {
    let mut body = List::new(alloc);
    body.push(Statement::LocalFunction(true, 1, places))?;
    Ok(text(alloc, body))
}

/// A local function that captures itself.
fn captured(alloc: Global) -> Result<Proto, NoMemory> {
    let mut places = List::new(alloc);
    places.push(Place::Cell(0))?;
    capture(alloc, places)
}

/// Whether code has no cell that nothing captures.
fn answer(alloc: Global, made: Result<Proto, NoMemory>) -> Result<bool, NoMemory> {
    let text = made?;
    has_no_idle_cell(alloc, &text)
}

/// Looks for such cells.
fn find_idle(rt: &impl Abort, alloc: Global) {
    holds(
        rt,
        answer(alloc, declared(alloc, false)) == Ok(true),
        "no cell",
    );
    holds(
        rt,
        answer(alloc, declared(alloc, true)) == Ok(false),
        "an idle cell",
    );
    holds(
        rt,
        answer(alloc, captured(alloc)) == Ok(true),
        "a captured cell",
    );
}

#[test]
fn idle_cells_are_found(rt: HostRuntime) -> Result<(), Fail> {
    find_idle(&rt, rt.alloc());
    Ok(())
}
