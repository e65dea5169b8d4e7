//! The digits of a number, and that they read back.
ghost use Rattle.std.specs.Prelude.{◌≡◌, IfOk, Some};
ghost use Rattle.std.specs.Fmt.{signed_decimal};
ghost use Rattle.lua_number.specs.Numerals.{read_number_of};

use itoa::Buffer;
use std::alloc::Global;
use wk_base::NoMemory;

/// The decimal digits of a number, with `-` before them where it is below 0, and no other zeros, signs or space
/// (`tostring`, manual 5.1).
pub fn text(alloc: Global, n: i64) -> Result<Vec<u8>, NoMemory>
    ensures { IfOk result (λ made. made.items ≡ signed_decimal n) }
{
    let mut buffer = Buffer::new();
    match Vec::from_slice(alloc, buffer.format(n).as_bytes()) {
        Ok(made) => Ok(made),
        Err(_) => Err(NoMemory),
    }
}

/// The law that the digits of a number read back as this number.
pub fn reads_back(n: i64)
    ensures { read_number_of (signed_decimal n) ≡ Some n }
{
    let _same = n;
}
