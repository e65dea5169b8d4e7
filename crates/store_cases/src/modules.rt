//! Modules are found by their titles, and functions and constants by their numbers.
ghost use Rattle.std.specs.Prelude.{◌≡◌, true, IfOk};
ghost use Rattle.wk_base.specs.Titles.{is_module};

use crate::start::{fixed_seed, holds};
use lua_code::{Module, Modules, Proto, Protos};
use lua_syntax::FaultAt;
use std::alloc::Global;
use std::hash::RandomState;
use std::process::Abort;
use std::test::Fail;
use wk_base::{Bytes, List, Namespace, NoMemory, Title};

fn title(alloc: Global, name: &[u8]) -> Result<Title, NoMemory>
    ensures { IfOk result (λ title. is_module title.ns ≡ true) }
{
    let name = Bytes::of(alloc, name)?;
    Ok(Title {
        ns: Namespace::Module,
        name,
    })
}

fn proto(alloc: Global, dots: bool) -> Proto {
    Proto {
        flags: List::new(alloc),
        dots,
        body: List::new(alloc),
    }
}

fn add_constant(alloc: Global, constants: &mut List<Bytes>, text: &[u8]) -> Result<(), NoMemory> {
    let text = Bytes::of(alloc, text)?;
    constants.push(text)
}

fn constants(alloc: Global) -> Result<List<Bytes>, NoMemory> {
    let mut constants = List::new(alloc);
    add_constant(alloc, &mut constants, b"print")?;
    add_constant(alloc, &mut constants, b"n")?;
    Ok(constants)
}

fn functions(alloc: Global) -> Result<List<Proto>, NoMemory> {
    let mut functions = List::new(alloc);
    functions.push(proto(alloc, true))?;
    Ok(functions)
}

/// A text with one function, which takes `...`, and two constants.
fn protos(alloc: Global) -> Result<Protos, NoMemory> {
    let constants = constants(alloc)?;
    let functions = functions(alloc)?;
    Ok(Protos {
        text: proto(alloc, false),
        functions,
        constants,
    })
}

/// Adds a module where none has its title.
fn add(
    alloc: Global,
    modules: &mut Modules,
    name: &[u8],
    size: u64,
    code: Result<Protos, FaultAt>,
) -> Result<(), NoMemory> {
    let title = title(alloc, name)?;
    if modules.get(&title).is_some() {
        return Ok(());
    }
    modules.add(title, size, code)
}

fn add_code(alloc: Global, modules: &mut Modules) -> Result<(), NoMemory> {
    let code = protos(alloc)?;
    add(alloc, modules, b"a", 20, Ok(code))
}

/// Two modules: one with a function, one with a fault.
fn modules(alloc: Global, seed: RandomState) -> Result<Modules, NoMemory> {
    let mut modules = Modules::new(alloc, seed);
    add_code(alloc, &mut modules)?;
    let fault = FaultAt { kind: 5, line: 3 };
    add(alloc, &mut modules, b"b", 30, Err(fault))?;
    Ok(modules)
}

/// What is told of a module: its length, and the line of its fault or else 0.
fn told(module: &Module) -> (u64, u32) {
    match &module.code {
        Ok(_) => (module.size, 0),
        Err(fault) => (module.size, fault.line),
    }
}

/// Whether that is told of a module.
fn tells(alloc: Global, modules: &Modules, name: &[u8], wanted: Option<(u64, u32)>) -> bool {
    match title(alloc, name) {
        Ok(title) => match modules.get(&title) {
            Some(module) => Some(told(module)) == wanted,
            None => wanted == None,
        },
        Err(_) => false,
    }
}

/// Whether a module is found by the text of its title.
fn is_found(alloc: Global, modules: &Modules, text: &[u8]) -> Option<bool> {
    match modules.find_text(alloc, text) {
        Ok(found) => Some(found.is_some()),
        Err(_) => None,
    }
}

/// Finds those modules.
fn find_all(rt: &impl Abort, alloc: Global, modules: &Modules) {
    holds(rt, tells(alloc, modules, b"a", Some((20, 0))), "a");
    holds(rt, tells(alloc, modules, b"b", Some((30, 3))), "b");
    holds(rt, tells(alloc, modules, b"c", None), "c");
    holds(
        rt,
        is_found(alloc, modules, b"Module:a") == Some(true),
        "Module:a",
    );
    holds(
        rt,
        is_found(alloc, modules, b"Module:c") == Some(false),
        "Module:c",
    );
    holds(
        rt,
        is_found(alloc, modules, b"a") == Some(false),
        "no prefix",
    );
}

#[test]
fn modules_are_found(rt: HostRuntime) -> Result<(), Fail> {
    let seed = fixed_seed()?;
    let modules = modules(rt.alloc(), seed)?;
    find_all(&rt, rt.alloc(), &modules);
    Ok(())
}

/// Whether the function of a number takes `...`.
fn takes_more(protos: &Protos, index: u32) -> Option<bool> {
    match protos.get(index) {
        Some(proto) => Some(proto.dots),
        None => None,
    }
}

/// Whether the constant of a number is this one.
fn has_constant(protos: &Protos, number: u32, constant: &[u8]) -> bool {
    protos.constant(number) == constant
}

/// Asks for functions and constants by their numbers.
fn ask_by_number(rt: &impl Abort, protos: &Protos) {
    holds(rt, takes_more(protos, 0) == Some(false), "the text");
    holds(rt, takes_more(protos, 1) == Some(true), "function 1");
    holds(rt, takes_more(protos, 2) == None, "function 2");
    holds(rt, has_constant(protos, 0, b"print"), "constant 0");
    holds(rt, has_constant(protos, 1, b"n"), "constant 1");
    holds(rt, has_constant(protos, 2, b""), "constant 2");
}

#[test]
fn functions_and_constants_are_numbered(rt: HostRuntime) -> Result<(), Fail> {
    let protos = protos(rt.alloc())?;
    ask_by_number(&rt, &protos);
    Ok(())
}
