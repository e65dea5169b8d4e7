//! What is next behind several moves at once. It is smaller than a `Focus`, since several strides in a row hand it on.
ghost use Rattle.std.specs.Prelude.{◌≡◌, IfOk};
ghost use Rattle.lua_strides.specs.Next.{focus_of};

use lua_code::{Expression, NoMemory, Statement};
use lua_state::{Focus, Given, Jump, Setting, Stack, Value, Values};
use std::alloc::Global;

/// What is next.
#[derive(Drop)]
pub enum Next<'m> {
    /// One value for the newest frame.
    Gives(Value),
    /// These values for the newest frame.
    GivesAll(Values),
    /// No value for the newest frame.
    GivesNone,
    /// A `return` of one value reaches the newest frame.
    Returns(Value),
    Evaluates(&'m Expression),
    /// An entry is to be set.
    Sets(Setting),
    Runs(&'m [Statement]),
}

/// The same as the machine has it.
pub fn focus_for<'m>(alloc: Global, next: Next<'m>) -> Result<Focus<'m>, NoMemory>
    ensures { IfOk result (λ f. f ≡ focus_of next.entry) }
{
    match next {
        Next::Gives(value) => Ok(Focus::Gives(Given::One(value))),
        Next::GivesAll(values) => Ok(Focus::Gives(Given::Many(values))),
        Next::GivesNone => Ok(Focus::Gives(Given::Many(Values::new(alloc)))),
        Next::Returns(value) => Ok(Focus::Jumps(Jump::Returned(Given::One(value)))),
        Next::Evaluates(expression) => Ok(Focus::Evaluates(expression)),
        Next::Sets(setting) => {
            let mut sets = Stack::new(alloc);
            sets.push(setting)?;
            Ok(Focus::Sets(sets))
        }
        Next::Runs(statements) => Ok(Focus::Runs(statements)),
    }
}
