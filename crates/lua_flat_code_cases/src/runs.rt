//! One run of the loop over a function of a module, in a store of its own.
ghost use Rattle.std.specs.Prelude.{◌≡◌, None};
ghost use Rattle.lua_flat_loop.specs.LuaStoreSeen.{StoreView};
ghost use Rattle.lua_flat_loop.specs.LuaStackOf.{RegistersOf};

use crate::made::made_of;
use bumpalo::Bump;
use lua_code::NoMemory;
use lua_flat_code::Functions;
use lua_flat_loop::{Act, At, Exit, Left, Purse, Slot, Store, Value, go, prepare};
use std::alloc::Global;
use std::hash::RandomState;
use std::test::Fail;

/// A register that holds nil.
pub const EMPTY: Slot = Slot::Plain(Value::Nil);

/// Where a run begins: the function of this number, its first register, and the steps that it may take.
#[derive(Clone, Copy)]
pub struct Begin {
    pub index: u32,
    pub base: u32,
    pub steps: u64,
}

/// How a run ended: why the loop left, at which place, and the steps that were left.
#[derive(Clone, Copy)]
pub struct Ended {
    pub exit: Exit,
    pub pc: usize,
    pub rest: u64,
}

/// Nothing is left beside steps.
fn empty_purse() -> Purse {
    Purse {
        left: Left {
            steps: 0,
            nodes: 0,
            bytes: 0,
            calls: 0,
            depth: 0,
            templates: 0,
        },
        calls: 0,
        height: 0,
    }
}

/// The place of the function's first operation, with no other function in progress.
fn first_place(begin: Begin) -> At
    ensures steps { result.total ≡ result.rest }
    ensures alone { result.depth ≡ 0 }
    ensures plain { result.act.closure ≡ None }
{
    At {
        act: Act {
            source: 0,
            index: begin.index,
            pc: 0,
            base: begin.base,
            frames: 0,
            dots: 0,
            closure: None,
            called_at: None,
        },
        depth: 0,
        top: 0,
        rest: begin.steps,
        total: begin.steps,
    }
}

/// Lets the loop go once, over registers that hold no names of a store.
fn run(
    alloc: Global,
    seed: RandomState,
    functions: &Functions,
    begin: Begin,
    regs: &mut [Slot],
) -> Result<Ended, NoMemory>
    requires { (s : StoreView) → RegistersOf s regs.old }
{
    let arena = Bump::new(alloc);
    let mut store = Store::new(alloc, &arena, seed);
    let globals = store.new_table()?;
    let title = store.text(b"Module:Case")?;
    let module = prepare(alloc, &mut store, title, functions)?;
    let modules = [module];
    let mut acts: [Act; 0] = [];
    let mut purse = empty_purse();
    let at = first_place(begin);
    let halt = go(
        &mut store, &modules, globals, regs, &mut acts, &mut purse, at,
    );
    Ok(Ended {
        exit: halt.exit,
        pc: halt.at.act.pc,
        rest: halt.at.rest,
    })
}

/// The same over the code of a text.
pub fn run_text(
    alloc: Global,
    seed: RandomState,
    text: &[u8],
    begin: Begin,
    regs: &mut [Slot],
) -> Result<Ended, Fail>
    requires { (s : StoreView) → RegistersOf s regs.old }
{
    let made = made_of(alloc, seed, text)?;
    let ended = run(alloc, seed, &made, begin, regs)?;
    Ok(ended)
}
