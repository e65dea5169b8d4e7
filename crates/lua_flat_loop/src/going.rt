//! The loop.
ghost use Rattle.lua_flat_loop.specs.Standing.{Sound, Stand};
ghost use Rattle.lua_flat_loop.specs.Stops.{Stopped};

use crate::calculating::{compared, is_true, operated, place_behind};
use crate::reading::{operand, place, step_at};
use crate::ready::{Ready, code_of};
use crate::standing::{Act, At, Exit, Halt, Purse};
use lua_flat_code::Op;
use lua_stack::Slot;
use lua_store::{Store, TableId};
use page_run::Which;

/// Does operation after operation, until one comes that it leaves to others.
#[inline(never)]
#[tactic(auto, using(crate::proofs::Looping::stops_aside, crate::proofs::Looping::stops_full, crate::proofs::Looping::stops_spent, crate::proofs::Looping::stops_late))]
pub fn go(
    store: &mut Store<'_>,
    modules: &[Ready<'_>],
    globals: TableId,
    regs: &mut [Slot],
    acts: &mut [Act],
    purse: &mut Purse,
    begin: At,
) -> Halt
    requires { Sound (record { store = store.old; modules = modules.now; globals = globals; regs = regs.old; acts = acts.old; purse = purse.old; at = begin }) }
    ensures { Stopped
        (record { store = store.old; modules = modules.now; globals = globals; regs = regs.old; acts = acts.old; purse = purse.old; at = begin })
        result.exit
        (record { store = store.new; modules = modules.now; globals = globals; regs = regs.new; acts = acts.new; purse = purse.new; at = result.at }) }
{
    let mut at = begin;
    let Some(code) = code_of(modules, at.act.source, at.act.index) else {
        return Halt {
            exit: Exit::Aside,
            at,
        };
    };
    'steps: for _ in 0..u64::MAX {
        let Some(step) = step_at(code.steps, at.act.pc) else {
            return Halt {
                exit: Exit::Aside,
                at,
            };
        };
        let charge = u64::from(step.charge);
        if at.rest < charge {
            at.rest = 0;
            return Halt {
                exit: Exit::Spent(Which::Steps),
                at,
            };
        }
        let next = at.act.pc + 1;
        match step.op {
            Op::Pay => at.act.pc = next,
            Op::Load { to, from } => {
                let to = place(at.act.base, to);
                if to >= regs.len() {
                    return Halt {
                        exit: Exit::Full,
                        at,
                    };
                }
                let value = operand(regs, code.constants, at.act.base, from);
                regs[to] = Slot::Plain(value);
                at.act.pc = next;
            }
            Op::Operate { op, to, a, b } => {
                let to = place(at.act.base, to);
                if to >= regs.len() {
                    return Halt {
                        exit: Exit::Full,
                        at,
                    };
                }
                let a = operand(regs, code.constants, at.act.base, a);
                let b = operand(regs, code.constants, at.act.base, b);
                let Some(value) = operated(op, a, b) else {
                    return Halt {
                        exit: Exit::Aside,
                        at,
                    };
                };
                regs[to] = Slot::Plain(value);
                at.act.pc = next;
            }
            Op::Jump { target } => at.act.pc = target as usize,
            Op::Test { when, a, target } => {
                let truth = is_true(operand(regs, code.constants, at.act.base, a));
                at.act.pc = place_behind(when, truth, target, next);
            }
            Op::Compare {
                op,
                a,
                b,
                when,
                target,
            } => {
                let a = operand(regs, code.constants, at.act.base, a);
                let b = operand(regs, code.constants, at.act.base, b);
                let Some(truth) = compared(op, a, b) else {
                    return Halt {
                        exit: Exit::Aside,
                        at,
                    };
                };
                at.act.pc = place_behind(when, truth, target, next);
            }
            _ => {
                return Halt {
                    exit: Exit::Aside,
                    at,
                };
            }
        }
        at.rest -= charge;
    }
    Halt {
        exit: Exit::NoMemory,
        at,
    }
}
