//! A stack, values in flight, local variables, and places of errors. Expected values were worked out by hand from the manual.
ghost use Rattle.std.specs.Prelude.{◌≡◌, ◌∷◌, [], IfOk, OnOk};
ghost use Rattle.lua_store.specs.Parts.{IsTextOf, IsCellOf, IsClosureOf};
ghost use Rattle.lua_stack.specs.Of.{RegistersOf};

use crate::start::{fixed_seed, holds, left_with};
use bumpalo::Bump;
use lua_code::Place;
use lua_heap::Library;
use lua_stack::opening::{open, open_all};
use lua_stack::raising::{raise_paid, raise_text};
use lua_stack::register::{captures, read, write};
use lua_stack::values::{is_function, is_nil, is_true};
use lua_stack::{Activations, Callee, Given, Level, Raising, Slot, Stack, Values, laws};
use lua_store::{CellId, ClosureId, ClosureKind, ProtoId, Store, TextId, Value};
use std::alloc::Global;
use std::hash::RandomState;
use std::process::Abort;
use std::test::Fail;
use wk_base::{List, NoMemory};

/// Of 1, 2, 3 and 4 the oldest becomes 9 and the newest is cut off; the next one is taken, and two are left.
fn changed(stack: &mut Stack<u8>) -> (Option<u8>, usize, Option<u8>) {
    stack.set(3, 9);
    stack.cut(3);
    (stack.pop(), stack.len(), stack.get(1).copied())
}

/// Numbers in order.
fn numbers(alloc: Global, from: i64, to: i64) -> Result<Values, NoMemory> {
    let mut values = Values::new(alloc);
    for n in from..to {
        values.add(Value::Number(n))?;
    }
    Ok(values)
}

/// The numbers 0 to 2.
fn with_zero(alloc: Global) -> Result<Values, NoMemory> {
    let mut values = numbers(alloc, 1, 3)?;
    values.put(Value::Number(0))?;
    Ok(values)
}

/// The numbers 3 and 4.
fn more(alloc: Global) -> Result<Given, NoMemory> {
    let more = numbers(alloc, 3, 5)?;
    Ok(Given::Many(Values::of_list(more.into_list())))
}

/// The numbers 0 to 4, put together at both ends.
fn joined(alloc: Global) -> Result<Values, NoMemory> {
    let more = more(alloc)?;
    let values = with_zero(alloc)?;
    more.behind(values)
}

/// How many there are, the first, which is taken out, and the next one.
fn taken(values: &mut Values) -> (usize, Value, Value) {
    (values.len(), values.take_first(), values.first())
}

fn copied(alloc: Global, values: &Values) -> Result<Values, NoMemory> {
    let copy = values.copy(alloc)?;
    let given = Given::Many(copy);
    let _first = given.first();
    given.into_values(alloc)
}

/// Whether values are the numbers 1 to 4.
fn are_four(alloc: Global, values: &[Value]) -> bool {
    match numbers(alloc, 1, 5) {
        Ok(numbers) => numbers.into_list().as_slice() == values,
        Err(_) => false,
    }
}

/// Whether the copy of values is the numbers 1 to 4.
fn copies_four(alloc: Global, values: &Values) -> bool {
    match copied(alloc, values) {
        Ok(copy) => are_four(alloc, copy.into_list().as_slice()),
        Err(_) => false,
    }
}

/// A variable without a cell, one with a cell, and another one without.
fn open_three(
    store: &mut Store,
    regs: &mut Stack<Slot>,
    values: &mut Values,
) -> Result<(), NoMemory>
    requires registers { RegistersOf store.old regs.old }
    requires values { values.old ≡ [] }
    ensures { OnOk result (RegistersOf store.new regs.new) }
{
    values.add(Value::Number(1))?;
    open_all(store, regs, &[false, true], values)?;
    open(store, regs, false, Value::Bool(true))
}

/// What is read at a place once it is written.
fn rewritten(store: &mut Store, regs: &mut Stack<Slot>, place: Place, n: i64) -> Value
    requires { RegistersOf store.old regs.old }
    ensures { RegistersOf store.new regs.new }
{
    write(store, regs, None, place, Value::Number(n));
    read(store, regs, None, place)
}

fn capture(alloc: Global, store: &Store, regs: &Stack<Slot>) -> Result<usize, NoMemory>
    requires { RegistersOf store.now regs.now }
{
    let places = [Place::Cell(0), Place::Cell(1), Place::Captured(0)];
    let cells = captures(alloc, store, regs, None, &places)?;
    Ok(cells.as_slice().len())
}

/// A list of one cell.
fn cell_list(alloc: Global, cell: CellId) -> Result<List<CellId>, NoMemory>
    ensures { IfOk result (λ cells. cells ≡ cell ∷ []) }
{
    let mut cells = List::new(alloc);
    cells.push(cell)?;
    Ok(cells)
}

/// A function that captured a cell.
fn capturing(
    alloc: Global,
    store: &mut Store,
    title: TextId,
    cell: CellId,
) -> Result<ClosureId, NoMemory>
    requires title { IsTextOf store.old title }
    requires cell { IsCellOf store.old cell }
    ensures { IfOk result (IsClosureOf store.new) }
{
    let cells = cell_list(alloc, cell)?;
    store.new_closure(ClosureKind::Function(ProtoId { title, index: 1 }), cells)
}

/// What a function reads from the cell that it captured.
fn captured(alloc: Global, store: &mut Store) -> Result<Value, NoMemory> {
    let cell = store.new_cell(Value::Number(8))?;
    let title = store.text(b"Module:A")?;
    let id = capturing(alloc, store, title, cell)?;
    let regs = Stack::new(alloc);
    Ok(read(store, &regs, Some(id), Place::Captured(0)))
}

/// A function of a module is entered.
fn enter(
    alloc: Global,
    functions: &mut Activations,
    source: TextId,
    line: Option<u32>,
) -> Result<(), NoMemory> {
    let callee = Callee {
        source,
        index: 0,
        closure: None,
    };
    functions.enter(&callee, Values::new(alloc), line, 0)
}

/// The line of a level of an error at line 7, and whether it is in this module.
fn level(functions: &Activations, module: TextId, at: usize) -> Option<(bool, u32)> {
    match functions.place_of_level(Some(7), at) {
        Some(level) => Some((level.source == module, level.line)),
        None => None,
    }
}

/// No line called the first function; line 3 of it called the second, and line 5 of that the third.
fn enter_all(
    alloc: Global,
    functions: &mut Activations,
    a: TextId,
    b: TextId,
) -> Result<(), NoMemory> {
    enter(alloc, functions, b, Some(1))?;
    enter(alloc, functions, a, None)?;
    enter(alloc, functions, b, Some(3))?;
    enter(alloc, functions, a, Some(5))
}

/// Whether an error at line 12 has this message, and the steps that are left of so many.
fn message(
    alloc: Global,
    store: &mut Store,
    source: TextId,
    steps: u64,
    expected: &[u8],
) -> Result<(bool, u64), NoMemory>
    requires { IsTextOf store.old source }
{
    let mut left = left_with(steps);
    let place = Some(Level { source, line: 12 });
    match raise_text(alloc, store, &mut left, place, b"no")? {
        Raising::Raises(Value::Text(text)) => Ok((store.bytes(text) == expected, left.steps)),
        _ => Ok((expected.is_empty(), left.steps)),
    }
}

/// Pushes the numbers 1 to 4 in order.
fn push_all(stack: &mut Stack<u8>) -> Result<(), NoMemory> {
    for item in 1..5 {
        stack.push(item)?;
    }
    Ok(())
}

#[test]
fn lists_are_held(rt: HostRuntime) -> Result<(), Fail> {
    let mut stack = Stack::new(rt.alloc());
    holds(&rt, push_all(&mut stack).is_ok(), "pushed");
    holds(&rt, changed(&mut stack) == (Some(3), 2, Some(9)), "stack");
    Ok(())
}

/// Takes the first of the numbers 0 to 4, and copies those that are left.
fn take_and_copy(rt: &impl Abort, alloc: Global, values: &mut Values) {
    let first = (5, Value::Number(0), Value::Number(1));
    holds(rt, taken(values) == first, "taken");
    holds(rt, copies_four(alloc, values), "copied");
}

/// Asks of which kind values are.
fn ask_kinds(rt: &impl Abort) {
    let function = Value::Builtin(Library::BasicNext);
    holds(rt, is_nil(Value::Nil), "nil");
    holds(rt, is_true(function), "true");
    holds(rt, is_function(function), "a function");
}

#[test]
fn values_are_held(rt: HostRuntime) -> Result<(), Fail> {
    let mut values = joined(rt.alloc())?;
    take_and_copy(&rt, rt.alloc(), &mut values);
    ask_kinds(&rt);
    Ok(())
}

/// Reads and writes three variables.
fn use_variables(rt: &impl Abort, alloc: Global, store: &mut Store, regs: &mut Stack<Slot>)
    requires { RegistersOf store.old regs.old }
{
    let plain = rewritten(store, regs, Place::Register(2), 10);
    holds(rt, plain == Value::Number(10), "a register");
    let shared = rewritten(store, regs, Place::Cell(1), 20);
    holds(rt, shared == Value::Number(20), "a cell");
    let none = rewritten(store, regs, Place::Captured(0), 30);
    holds(rt, none == Value::Nil, "nothing");
    holds(rt, capture(alloc, store, regs) == Ok(1), "captured");
}

/// Opens three variables, and reads and writes them.
fn open_variables(rt: &impl Abort, alloc: Global, store: &mut Store) -> Result<(), NoMemory> {
    let mut regs = Stack::new(alloc);
    let mut values = Values::new(alloc);
    open_three(store, &mut regs, &mut values)?;
    use_variables(rt, alloc, store, &mut regs);
    Ok(())
}

/// Reads and writes variables over a new store.
fn use_in_new_store(rt: &impl Abort, alloc: Global, seed: RandomState) {
    let arena = Bump::new(alloc);
    let mut store = Store::new(alloc, &arena, seed);
    let opened = open_variables(rt, alloc, &mut store);
    holds(rt, opened.is_ok(), "opened");
    let captured = captured(alloc, &mut store);
    holds(rt, captured == Ok(Value::Number(8)), "captured");
}

#[test]
fn variables_are_read_and_written(rt: HostRuntime) -> Result<(), Fail> {
    let seed = fixed_seed()?;
    use_in_new_store(&rt, rt.alloc(), seed);
    Ok(())
}

/// The places of the levels 0 to 4, from the newest of those functions on.
fn have_places(functions: &Activations, a: TextId) -> bool {
    level(functions, a, 0) == None
        && level(functions, a, 1) == Some((true, 7))
        && level(functions, a, 2) == Some((false, 5))
        && level(functions, a, 3) == Some((true, 3))
        && level(functions, a, 4) == None
}

/// Leaves the newest function; whether there is one still.
fn leave(functions: &mut Activations) -> bool {
    let _left = functions.leave();
    functions.newest().is_some()
}

/// Enters functions of two modules.
fn use_functions(rt: &impl Abort, alloc: Global, a: TextId, b: TextId) {
    let mut functions = Activations::new(alloc);
    let entered = enter_all(alloc, &mut functions, a, b);
    holds(rt, entered.is_ok(), "entered");
    holds(rt, have_places(&functions, a), "levels");
    holds(rt, leave(&mut functions), "left");
}

/// The names of two modules.
fn two_names(store: &mut Store) -> Result<(TextId, TextId), NoMemory> {
    let a = store.text(b"Module:A")?;
    let b = store.text(b"Module:B")?;
    Ok((a, b))
}

/// Places errors in modules that a new store names.
fn place_in_new_store(rt: &impl Abort, alloc: Global, seed: RandomState) {
    let arena = Bump::new(alloc);
    let mut store = Store::new(alloc, &arena, seed);
    match two_names(&mut store) {
        Ok((a, b)) => use_functions(rt, alloc, a, b),
        Err(_) => holds(rt, false, "names"),
    }
}

#[test]
fn errors_have_places(rt: HostRuntime) -> Result<(), Fail> {
    let seed = fixed_seed()?;
    place_in_new_store(&rt, rt.alloc(), seed);
    Ok(())
}

/// An error with a message, where memory for it is there.
fn raises(alloc: Global, store: &mut Store) -> Result<(bool, u64), NoMemory> {
    let source = store.text(b"Module:A")?;
    message(alloc, store, source, 20, b"Module:A:12: no")
}

/// Whether one step is too little for a message.
fn is_spent(store: &mut Store) -> bool {
    let mut left = left_with(1);
    matches!(raise_paid(store, &mut left, b"no"), Ok(Raising::Spent(_)))
}

fn state_laws() {
    laws::registers_stay();
    laws::activations_stay();
    laws::frames_stay();
    laws::focus_stays();
    laws::environment_stays();
}

/// Raises errors in a new store.
fn raise_in_new_store(rt: &impl Abort, alloc: Global, seed: RandomState) {
    let arena = Bump::new(alloc);
    let mut store = Store::new(alloc, &arena, seed);
    holds(rt, raises(alloc, &mut store) == Ok((true, 5)), "paid");
    holds(rt, is_spent(&mut store), "spent");
    state_laws();
}

#[test]
fn errors_cost_their_messages(rt: HostRuntime) -> Result<(), Fail> {
    let seed = fixed_seed()?;
    raise_in_new_store(&rt, rt.alloc(), seed);
    Ok(())
}
