//! Charges of several parts.
ghost use Rattle.std.specs.Prelude.{◌≡◌, ◌+◌, ◌^◌, ◌<◌};
ghost use Rattle.lua_tables.specs.Paying.{Takes};
ghost use Rattle.lua_basic.specs.LuaMeaningTableLibrary as meaning;

use lua_basic::stop::pay;
use lua_basic::{Left, Stop};

/// Takes so many steps, or all that are left where that is fewer.
pub(crate) fn take(left: &mut Left, steps: u64) -> Result<(), Stop>
    ensures { Takes steps left.old left.new result }
{
    pay(left, steps)
}

/// Takes two charges, whose sum may be greater than any number of steps.
pub(crate) fn take_both(left: &mut Left, first: u64, second: u64) -> Result<(), Stop>
    ensures { Takes (first + second) left.old left.new result }
{
    take(left, first)?;
    take(left, second)
}

/// Takes all steps, for a charge that no number of steps covers.
fn spend(left: &mut Left) -> Stop
    ensures stop_ { result ≡ Stop.Spent }
    ensures rest { left.new ≡ record left.old { steps = 0 } }
    ensures within { left.old.steps < 2 ^ 64 }
{
    let _steps = left.steps;
    left.steps = 0;
    Stop::Spent
}

/// Takes what it costs to put so many values in order: their number times its binary digits.
fn take_order(left: &mut Left, count: u64) -> Result<(), Stop>
    ensures { Takes (meaning.order_charge count) left.old left.new result }
{
    let digits = u64::from(64 - count.leading_zeros());
    match count.checked_mul(digits) {
        Some(steps) => take(left, steps),
        None => Err(spend(left)),
    }
}

/// Takes what it costs to put so many values in order and to write them.
pub(crate) fn take_sort(left: &mut Left, count: u64) -> Result<(), Stop>
    ensures { Takes (meaning.order_charge count + count) left.old left.new result }
{
    take_order(left, count)?;
    take(left, count)
}
