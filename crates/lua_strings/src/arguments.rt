//! All arguments as numbers or codes (manual 5.4, `string.char`; 5.6, `math.max`).
ghost use Rattle.std.specs.Prelude.{◌≡◌, ◌+◌, ℕ, List as Items, Some, None, Ok, IfOk, IfErr, OnOk, MatchOption};
ghost use Rattle.std.specs.Prelude.{unsigned_abs, false, true};
ghost use Rattle.lua_basic.specs.LuaMeaningScope.{Bytes};
ghost use Rattle.lua_basic.specs.LuaStoreSeen.{seen};
ghost use Rattle.lua_basic.specs.LuaStoreParts.{IsOf, IsLater};
ghost use Rattle.lua_string.specs.Texts.{is_code};
ghost use Rattle.lua_basic.specs.Seen.{values_seen, AllOf, StopOf, Refuses};
ghost use Rattle.lua_basic.specs.LuaMeaningChecks.{codes_from, numbers_from};
ghost use Rattle.lua_strings.specs.Found.{found_numbers, checked_codes, code_of, codes_of};

use crate::messages::{refuse, refuse_kind};
use crate::paying::split_values;
use lua_basic::values::number_in;
use lua_basic::{Stop, Store, Value};
use lua_pattern::List;
use lua_string::NoMemory;
use std::alloc::Global;

/// All arguments as numbers; or the number of the first that is none, and the arguments from it on.
#[derive(Drop)]
pub enum NumbersRead<'a> {
    All(List<i64>),
    Refused(u64, &'a [Value]),
}

/// That all arguments are codes of bytes; or the first that is none.
#[derive(Drop)]
pub enum CodesCheck<'a> {
    All,
    NotANumber(u64, &'a [Value]),
    OutOfRange(u64),
}

/// The number behind one.
fn next_number(n: u64) -> Result<u64, NoMemory>
    ensures { IfOk result (λ next. next ≡ n + 1) }
{
    match n.checked_add(1) {
        Some(next) => Ok(next),
        None => Err(NoMemory),
    }
}

fn read_numbers<'a>(
    alloc: Global,
    store: &Store,
    args: &'a [Value],
) -> Result<NumbersRead<'a>, NoMemory>
    requires { AllOf store.now args.now }
    ensures { IfOk result (λ read.
        (function : Bytes)
        → numbers_from 1 function (values_seen store.now.texts args.now)
        ≡ found_numbers function store.now.texts read) }
{
    let mut numbers = List::new(alloc);
    let mut n: u64 = 1;
    let mut rest = args;
    'values: while let Some((value, more)) = split_values(rest) {
        let Some(number) = number_in(store, value) else {
            return Ok(NumbersRead::Refused(n, rest));
        };
        numbers.push(number)?;
        n = next_number(n)?;
        rest = more;
    }
    Ok(NumbersRead::All(numbers))
}

/// All arguments of a function, which must be numbers.
pub fn all_numbers(
    alloc: Global,
    store: &mut Store,
    function: &[u8],
    args: &[Value],
) -> Result<List<i64>, Stop>
    requires { AllOf store.old args.now }
    ensures found { IfOk result (λ numbers.
        numbers_from 1 function.now (values_seen store.old.texts args.now) ≡ Ok numbers) }
    ensures same { OnOk result (store.new ≡ store.old) }
    ensures refused { IfErr result (Refuses
        (numbers_from 1 function.now (values_seen store.old.texts args.now)) store.old store.new) }
    ensures of { IfErr result (StopOf store.new) }
    ensures later { IsLater store.old store.new }
{
    let read = read_numbers(alloc, store, args)?;
    match read {
        NumbersRead::All(numbers) => Ok(numbers),
        NumbersRead::Refused(n, given) => {
            Err(refuse_kind(alloc, store, n, function, b"number", given))
        }
    }
}

/// The byte with a code.
fn byte_with(code: i64) -> Option<u8>
    ensures { MatchOption result (is_code code ≡ false) (λ byte.
        (is_code code ≡ true) × (byte ≡ unsigned_abs code)) }
{
    u8::try_from(code).ok()
}

fn check_each<'a>(store: &Store, args: &'a [Value]) -> Result<CodesCheck<'a>, NoMemory>
    requires { AllOf store.now args.now }
    ensures { IfOk result (λ check.
        (function : Bytes)
        → codes_from 1 function (values_seen store.now.texts args.now)
        ≡ checked_codes function store.now.texts
        (codes_of (values_seen store.now.texts args.now)) check) }
{
    let mut n: u64 = 1;
    let mut rest = args;
    'values: while let Some((value, more)) = split_values(rest) {
        let Some(number) = number_in(store, value) else {
            return Ok(CodesCheck::NotANumber(n, rest));
        };
        let Some(_) = byte_with(number) else {
            return Ok(CodesCheck::OutOfRange(n));
        };
        n = next_number(n)?;
        rest = more;
    }
    Ok(CodesCheck::All)
}

/// Refuses arguments of a function of which one is no code of a byte.
pub fn check_codes(
    alloc: Global,
    store: &mut Store,
    function: &[u8],
    args: &[Value],
) -> Result<(), Stop>
    requires { AllOf store.old args.now }
    ensures found { OnOk result (codes_from 1 function.now (values_seen store.old.texts args.now)
        ≡ Ok (codes_of (values_seen store.old.texts args.now))) }
    ensures same { OnOk result (store.new ≡ store.old) }
    ensures refused { IfErr result (Refuses
        (codes_from 1 function.now (values_seen store.old.texts args.now)) store.old store.new) }
    ensures of { IfErr result (StopOf store.new) }
    ensures later { IsLater store.old store.new }
{
    let check = check_each(store, args)?;
    match check {
        CodesCheck::All => Ok(()),
        CodesCheck::NotANumber(n, given) => {
            Err(refuse_kind(alloc, store, n, function, b"number", given))
        }
        CodesCheck::OutOfRange(n) => Err(refuse(alloc, store, n, function, b"out of range")),
    }
}

/// The byte whose code a value is, or 0 where it is none.
fn byte_of(store: &Store, value: Value) -> u8
    requires { IsOf store.now value }
    ensures { result ≡ code_of (seen store.now.texts value) }
{
    let Some(number) = number_in(store, value) else {
        return 0;
    };
    byte_with(number).unwrap_or(0)
}

/// The bytes whose codes the values are.
pub fn bytes_of(alloc: Global, store: &Store, values: &[Value]) -> Result<List<u8>, NoMemory>
    requires { AllOf store.now values.now }
    ensures { IfOk result (λ bytes. bytes ≡ codes_of (values_seen store.now.texts values.now)) }
{
    let mut bytes = List::new(alloc);
    let mut rest = values;
    'values: while let Some((value, more)) = split_values(rest) {
        bytes.push(byte_of(store, value))?;
        rest = more;
    }
    Ok(bytes)
}
