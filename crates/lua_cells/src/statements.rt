//! Code of statements and blocks is gone over. Its depth is bounded, as that of the tree that it was made of.
#![tactic(auto, using(crate::proofs::Codes::codes))]

ghost use Rattle.std.specs.Prelude.{◌≡◌, OnOk};
ghost use Rattle.lua_code.specs.LuaSlotsCode.{CBlock, CArms};
ghost use Rattle.lua_code.specs.Seen.{expression_seen, statement_seen, block_seen, branch_seen, branches_seen};
ghost use Rattle.lua_cells.specs.Registers.{opened_one, opened, scoped, expression_gone, block_gone, arms_gone};

use crate::watch::Watch;
use lua_code::{Branch, Expression, NoMemory, Statement};

/// Statements, whose variables stay open.
#[cycle(statements)]
pub(crate) fn statements(list: &[Statement], registers: &mut Watch) -> Result<(), NoMemory>
    ensures { OnOk result (registers.new ≡ block_gone (block_seen list.now) registers.old) }
{
    for code in list {
        statement(code, registers)?;
    }
    Ok(())
}

/// A block, whose variables end with it.
#[cycle(statements)]
fn block(list: &[Statement], registers: &mut Watch) -> Result<(), NoMemory>
    ensures { OnOk result (registers.new ≡ scoped (λ r. block_gone (block_seen list.now) r) registers.old) }
{
    let count = registers.len();
    statements(list, registers)?;
    registers.close(count);
    Ok(())
}

/// A block that sees one variable more.
#[cycle(statements)]
fn counted(boxed: bool, list: &[Statement], registers: &mut Watch) -> Result<(), NoMemory>
    ensures { OnOk result (registers.new ≡ scoped (λ r. block_gone (block_seen list.now) (opened_one boxed r)) registers.old) }
{
    let count = registers.len();
    registers.open_one(boxed)?;
    statements(list, registers)?;
    registers.close(count);
    Ok(())
}

/// A block that sees some variables more.
#[cycle(statements)]
pub(crate) fn inner(
    flags: &[bool],
    list: &[Statement],
    registers: &mut Watch,
) -> Result<(), NoMemory>
    ensures { OnOk result (registers.new ≡ scoped (λ r. block_gone (block_seen list.now) (opened flags.now r)) registers.old) }
{
    let count = registers.len();
    registers.open(flags)?;
    statements(list, registers)?;
    registers.close(count);
    Ok(())
}

/// A block, and a test that sees its variables.
#[cycle(statements)]
fn repeated(list: &[Statement], until: &Expression, registers: &mut Watch) -> Result<(), NoMemory>
    ensures { OnOk result (registers.new ≡ scoped (λ r. expression_gone (expression_seen until.now) (block_gone (block_seen list.now) r)) registers.old) }
{
    let count = registers.len();
    statements(list, registers)?;
    registers.expression(until);
    registers.close(count);
    Ok(())
}

// With whatever statements come after it.
#[cycle(statements)]
fn statement(code: &Statement, registers: &mut Watch) -> Result<(), NoMemory>
    ensures { OnOk result ((rest : CBlock) → block_gone rest registers.new ≡ block_gone (statement_seen code.now rest) registers.old) }
{
    match code {
        Statement::Assign(left, values) => {
            registers.targets(left.as_slice());
            registers.expressions(values.as_slice());
            Ok(())
        }
        Statement::Call(call) => {
            registers.expression(call);
            Ok(())
        }
        Statement::Do(body) => block(body.as_slice(), registers),
        Statement::While(test, body) => {
            registers.expression(test);
            block(body.as_slice(), registers)
        }
        Statement::Repeat(body, test) => repeated(body.as_slice(), test, registers),
        Statement::If(list, other) => {
            branches(list.as_slice(), registers)?;
            match other {
                None => Ok(()),
                Some(body) => block(body.as_slice(), registers),
            }
        }
        Statement::Count(boxed, from, to, by, body, _) => {
            registers.expression(from);
            registers.expression(to);
            match by {
                None => {}
                Some(by) => registers.expression(by),
            }
            counted(*boxed, body.as_slice(), registers)
        }
        Statement::Each(flags, values, body, _) => {
            registers.expressions(values.as_slice());
            inner(flags.as_slice(), body.as_slice(), registers)
        }
        Statement::Declare(flags, values) => {
            registers.expressions(values.as_slice());
            registers.open(flags.as_slice())
        }
        Statement::LocalFunction(boxed, _, places) => {
            registers.open_one(*boxed)?;
            registers.capture(places.as_slice());
            Ok(())
        }
        Statement::Return(values) => {
            registers.expressions(values.as_slice());
            Ok(())
        }
        Statement::Break => Ok(()),
    }
}

// With whatever arms come after it.
#[cycle(statements)]
fn branch(code: &Branch, registers: &mut Watch) -> Result<(), NoMemory>
    ensures { OnOk result ((rest : CArms) → arms_gone rest registers.new ≡ arms_gone (branch_seen code.now rest) registers.old) }
{
    registers.expression(&code.test);
    block(code.body.as_slice(), registers)
}

#[cycle(statements)]
fn branches(list: &[Branch], registers: &mut Watch) -> Result<(), NoMemory>
    ensures { OnOk result (registers.new ≡ arms_gone (branches_seen list.now) registers.old) }
{
    for code in list {
        branch(code, registers)?;
    }
    Ok(())
}
