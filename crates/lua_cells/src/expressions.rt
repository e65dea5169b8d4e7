//! Code of expressions, and of what is assigned to, is gone over. Its depth is bounded, as that of the tree that it was made of.
#![tactic(auto, using(crate::proofs::Codes::codes))]

ghost use Rattle.std.specs.Prelude.{◌≡◌, map};
ghost use Rattle.lua_code.specs.LuaSlotsCode.{CFields};
ghost use Rattle.lua_code.specs.Seen.{expression_seen, expressions_seen, entry_seen, entries_seen, target_seen};
ghost use Rattle.lua_cells.specs.Registers.{expression_gone, expressions_gone, fields_gone, target_gone, targets_gone};

use crate::registers::Registers;
use lua_code::{Entry, Expression, Target};

#[cycle(expressions)]
pub(crate) fn expression(code: &Expression, registers: &mut Registers)
    ensures { registers.new ≡ expression_gone (expression_seen code.now) registers.old }
{
    match code {
        Expression::Nil
        | Expression::Truth(_)
        | Expression::Number(_)
        | Expression::Text(_)
        | Expression::Dots
        | Expression::Local(_)
        | Expression::Global(_, _) => {}
        Expression::Function(_, places) => registers.capture(places.as_slice()),
        Expression::Index(of, key, _) => {
            expression(of, registers);
            expression(key, registers)
        }
        Expression::Call(called, arguments, _) => {
            expression(called, registers);
            expressions(arguments.as_slice(), registers)
        }
        Expression::Method(of, _, arguments, _) => {
            expression(of, registers);
            expressions(arguments.as_slice(), registers)
        }
        Expression::Table(list, _) => entries(list.as_slice(), registers),
        Expression::And(left, right) => {
            expression(left, registers);
            expression(right, registers)
        }
        Expression::Or(left, right) => {
            expression(left, registers);
            expression(right, registers)
        }
        Expression::Operate(_, left, right, _) => {
            expression(left, registers);
            expression(right, registers)
        }
        Expression::Unary(_, of, _) => expression(of, registers),
        Expression::Paren(of) => expression(of, registers),
    }
}

#[cycle(expressions)]
pub(crate) fn expressions(list: &[Expression], registers: &mut Registers)
    ensures { registers.new ≡ expressions_gone (expressions_seen list.now) registers.old }
{
    for code in list {
        expression(code, registers);
    }
}

// With whatever entries come after it.
#[cycle(expressions)]
fn entry(code: &Entry, registers: &mut Registers)
    ensures { (rest : CFields) → fields_gone rest registers.new ≡ fields_gone (entry_seen code.now rest) registers.old }
{
    match code {
        Entry::Item(item) => expression(item, registers),
        Entry::Pair(key, item) => {
            expression(key, registers);
            expression(item, registers)
        }
    }
}

#[cycle(expressions)]
fn entries(list: &[Entry], registers: &mut Registers)
    ensures { registers.new ≡ fields_gone (entries_seen list.now) registers.old }
{
    for code in list {
        entry(code, registers);
    }
}

fn target(code: &Target, registers: &mut Registers)
    ensures { registers.new ≡ target_gone (target_seen code.now) registers.old }
{
    match code {
        Target::Variable(_) | Target::Global(_, _) | Target::Refused => {}
        Target::At(of, key, _) => {
            expression(of, registers);
            expression(key, registers)
        }
    }
}

pub(crate) fn targets(list: &[Target], registers: &mut Registers)
    ensures { registers.new ≡ targets_gone (map target_seen list.now) registers.old }
{
    for code in list {
        target(code, registers);
    }
}
