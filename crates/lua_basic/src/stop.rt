//! Why a function of the library gives no values, and what it costs.
ghost use Rattle.std.specs.Prelude.{◌≡◌, ◌-◌, ◌<◌, ◌≤◌, Ok, Err, OnOk, OnErr};

use lua_number::{Left, NoMemory};
use lua_store::Value;

/// Why a function of the library gives no values.
#[derive(Clone, Copy, Debug, PartialEq, Eq)]
pub enum Stop {
    /// It raises a value (manual 5.1, `error`). The place of the level does not stand in front of it yet: level 1 is the place
    /// that called the function, and at 0 and below there is none.
    Raised(Value, i64),
    /// Fewer steps were left than it costs.
    Spent,
    NoMemory,
}

impl From<NoMemory> for Stop {
    ghost use Rattle.lua_basic.specs.declared.stop.Stop.TheVariants as stop;

    ghost from_gives = { λ _ e. e ≡ stop.NoMemory };

    fn from(_error: NoMemory) -> Stop {
        Stop::NoMemory
    }
}

/// Takes so many steps, or all that are left where that is fewer.
pub fn pay(left: &mut Left, steps: u64) -> Result<(), Stop>
    ensures covered { OnOk result (steps ≤ left.old.steps) }
    ensures short { OnErr result (left.old.steps < steps) }
    ensures spent { OnErr result (result ≡ Err Stop.Spent) }
    ensures rest { left.new ≡ record left.old { steps = left.old.steps - steps } }
{
    if left.take_steps(steps) {
        Ok(())
    } else {
        Err(Stop::Spent)
    }
}
