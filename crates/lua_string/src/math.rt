//! The functions of `math` on whole numbers (Lua 5.1 manual, 5.6).
ghost use Rattle.std.specs.Prelude.{◌≡◌};
ghost use Rattle.lua_number.specs.Whole.{power_of};
ghost use Rattle.lua_string.specs.Whole.{abs_of, fmod_of, greatest as greatest_lem, least as least_lem, max_of, min_of};

use lua_number::NumberFault;

/// `math.abs(n)`: refused for the least number.
pub fn abs(n: i64) -> Result<i64, NumberFault>
    ensures { result ≡ abs_of n }
{
    n.checked_abs().ok_or(NumberFault::OutOfRange)
}

/// `math.ceil(n)`: the number itself.
pub fn ceil(n: i64) -> i64
    ensures { result ≡ n }
{
    n
}

/// `math.floor(n)`: the number itself.
pub fn floor(n: i64) -> i64
    ensures { result ≡ n }
{
    n
}

/// `math.fmod(a, b)`: the rest of the division towards zero, with the sign of `a`.
pub fn fmod(a: i64, b: i64) -> Result<i64, NumberFault>
    ensures { result ≡ fmod_of a b }
{
    if b == 0 {
        return Err(NumberFault::ByZero);
    }
    // The processor has no remainder of the least number by -1.
    Ok(a.checked_rem(b).unwrap_or(0))
}

/// `math.pow(a, b)`, as `a ^ b`.
pub fn pow(a: i64, b: i64) -> Result<i64, NumberFault>
    ensures { result ≡ power_of a b }
{
    lua_number::pow(a, b)
}

fn greatest(first: i64, others: &[i64]) -> i64
    ensures { result ≡ greatest_lem first others.now }
{
    let mut most = first;
    let mut left = others;
    'others: while let [next, rest @ ..] = left {
        if most < *next {
            most = *next;
        }
        left = rest;
    }
    most
}

fn least(first: i64, others: &[i64]) -> i64
    ensures { result ≡ least_lem first others.now }
{
    let mut fewest = first;
    let mut left = others;
    'others: while let [next, rest @ ..] = left {
        if *next < fewest {
            fewest = *next;
        }
        left = rest;
    }
    fewest
}

/// `math.max(..)`: None of no numbers.
pub fn max(values: &[i64]) -> Option<i64>
    ensures { result ≡ max_of values.now }
{
    match values {
        [] => None,
        [first, others @ ..] => Some(greatest(*first, others)),
    }
}

/// `math.min(..)`: None of no numbers.
pub fn min(values: &[i64]) -> Option<i64>
    ensures { result ≡ min_of values.now }
{
    match values {
        [] => None,
        [first, others @ ..] => Some(least(*first, others)),
    }
}
