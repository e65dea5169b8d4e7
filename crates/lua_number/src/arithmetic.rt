//! The operations of Lua's numbers (manual 2.5.1) on whole numbers of 64 bits.
ghost use Rattle.std.specs.Prelude.{◌≡◌, ◌≢◌, pos, negsuc, int_rem, IfOk};
ghost use Rattle.std.specs.Int.{int_pow};
ghost use Rattle.lua_number.specs.Whole.{sum_of, difference_of, product_of, quotient_of, remainder_of, power_of, inverse_power_of, in_range_or_fault, negative_of, rest_beside, IsRest};

/// Why an operation has no result.
#[derive(Clone, Copy, Debug, PartialEq, Eq)]
pub enum NumberFault {
    /// The result is no whole number from -2^63 to 2^63 - 1.
    OutOfRange,
    /// The result is no whole number: a quotient with a remainder, or a negative power.
    NotWhole,
    /// A division or remainder by 0, or a negative power of 0.
    ByZero,
}

/// `a + b`.
pub fn add(a: i64, b: i64) -> Result<i64, NumberFault>
    ensures { result ≡ sum_of a b }
{
    a.checked_add(b).ok_or(NumberFault::OutOfRange)
}

/// `a - b`.
pub fn sub(a: i64, b: i64) -> Result<i64, NumberFault>
    ensures { result ≡ difference_of a b }
{
    a.checked_sub(b).ok_or(NumberFault::OutOfRange)
}

/// `a * b`.
pub fn mul(a: i64, b: i64) -> Result<i64, NumberFault>
    ensures { result ≡ product_of a b }
{
    a.checked_mul(b).ok_or(NumberFault::OutOfRange)
}

/// `-a`.
pub fn neg(a: i64) -> Result<i64, NumberFault>
    ensures { result ≡ negative_of a }
{
    a.checked_neg().ok_or(NumberFault::OutOfRange)
}

/// `a % b`, which is `a - floor(a / b) * b` and so has the sign of `b`.
pub fn rem(a: i64, b: i64) -> Result<i64, NumberFault>
    ensures value { result ≡ remainder_of a b }
    ensures rest { IfOk result (λ r. IsRest a b r) }
{
    if b == 0 {
        return Err(NumberFault::ByZero);
    }
    // The processor has no remainder of the least number by -1.
    if b == -1 {
        return Ok(0);
    }
    Ok(rest_beside(rest_towards_zero(a, b), b))
}

fn rest_towards_zero(a: i64, b: i64) -> i64
    requires zero { b ≢ pos 0 }
    requires minus_one { b ≢ negsuc 0 }
    ensures { result ≡ int_rem a b }
{
    a % b
}

// The rest on the side of `b`.
fn rest_beside(rest: i64, b: i64) -> i64
    ensures { result ≡ rest_beside rest b }
{
    let on_other_side = if b < 0 { rest > 0 } else { rest < 0 };
    if on_other_side { rest + b } else { rest }
}

/// `a / b`, which has to be whole.
pub fn div(a: i64, b: i64) -> Result<i64, NumberFault>
    ensures { result ≡ quotient_of a b }
{
    match rem(a, b) {
        Err(fault) => Err(fault),
        Ok(rest) => {
            if rest == 0 {
                a.checked_div(b).ok_or(NumberFault::OutOfRange)
            } else {
                Err(NumberFault::NotWhole)
            }
        }
    }
}

/// `a ^ b`, where `0 ^ 0` is 1.
pub fn pow(a: i64, b: i64) -> Result<i64, NumberFault>
    ensures { result ≡ power_of a b }
{
    if b < 0 {
        inverse_power(a, b.unsigned_abs())
    } else {
        power(a, b.unsigned_abs())
    }
}

fn power(a: i64, exponent: u64) -> Result<i64, NumberFault>
    ensures { result ≡ in_range_or_fault (int_pow a exponent) }
{
    if exponent < 64 {
        a.checked_pow(exponent as u32)
            .ok_or(NumberFault::OutOfRange)
    } else if a == 0 {
        Ok(0)
    } else if a == 1 {
        Ok(1)
    } else if a == -1 {
        Ok(minus_one_power(exponent))
    } else {
        Err(NumberFault::OutOfRange)
    }
}

// 1 over `a ^ exponent`.
fn inverse_power(a: i64, exponent: u64) -> Result<i64, NumberFault>
    ensures { result ≡ inverse_power_of a exponent }
{
    if a == 0 {
        Err(NumberFault::ByZero)
    } else if a == 1 {
        Ok(1)
    } else if a == -1 {
        Ok(minus_one_power(exponent))
    } else {
        Err(NumberFault::NotWhole)
    }
}

fn minus_one_power(exponent: u64) -> i64
    ensures { result ≡ int_pow (negsuc 0) exponent }
{
    if exponent % 2 == 0 { 1 } else { -1 }
}
