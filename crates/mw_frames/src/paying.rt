//! What functions of frames cost: steps, and bytes of arguments.
ghost use Rattle.std.specs.Prelude.{◌≡◌, ◌+◌, ◌∷◌, [], length, MatchOption};
ghost use Rattle.lua_home.specs.LuaMeaningFrames.{args_charge};
ghost use Rattle.mw_frames.specs.Costs.{Pays};
ghost use Rattle.lua_basic.specs.LuaMeaningCharges.{argument_charge};

use lua_basic::charges::ARGUMENT_CHARGE;
use lua_basic::{Left, Stop, stop};
use mw_frame::Arg;

/// Takes so many steps.
pub fn pay(left: &mut Left, steps: u64) -> Result<(), Stop>
    ensures { Pays steps left.old left.new result }
{
    stop::pay(left, steps)
}

/// Takes a step for each byte of two texts.
pub fn pay_texts(left: &mut Left, a: &[u8], b: &[u8]) -> Result<(), Stop>
    ensures { Pays (length a.now + length b.now) left.old left.new result }
{
    pay(left, a.len() as u64)?;
    pay(left, b.len() as u64)
}

/// Takes what an argument of a frame costs.
fn pay_arg(left: &mut Left, arg: &Arg) -> Result<(), Stop>
    ensures { Pays (argument_charge + length arg.now.name + length arg.now.value) left.old
        left.new result }
{
    pay(left, ARGUMENT_CHARGE)?;
    pay_texts(left, arg.name.as_slice(), arg.value.as_slice())
}

pub fn split_args(args: &[Arg]) -> Option<(&Arg, &[Arg])>
    ensures { MatchOption result (args.now ≡ []) (λ p. args.now ≡ p.0.now ∷ p.1.now) }
{
    match args {
        [arg, more @ ..] => Some((arg, more)),
        [] => None,
    }
}

/// Takes what arguments cost where they stand in a frame.
pub fn pay_args(left: &mut Left, args: &[Arg]) -> Result<(), Stop>
    ensures { Pays (args_charge args.now) left.old left.new result }
{
    let mut rest = args;
    'each: while let Some((arg, more)) = split_args(rest) {
        pay_arg(left, arg)?;
        rest = more;
    }
    Ok(())
}
