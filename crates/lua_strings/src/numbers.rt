//! The functions of `math` (manual 5.6), which cost nothing.
ghost use Rattle.std.specs.Prelude.{◌≡◌, Result as Either, ℤ};
ghost use Rattle.lua_string.specs.LuaNumberDeclaredArithmeticNumberFault.{NumberFault as Fault};
ghost use Rattle.lua_basic.specs.LuaStoreParts.{IsLater};
ghost use Rattle.lua_basic.specs.Seen.{values_seen, AllOf, Free, AnswerOf};
ghost use Rattle.lua_basic.specs.LuaMeaningNumbers as meaning;
ghost use Rattle.lua_strings.specs.Found.{one_of, two_of, all_of};

use crate::arguments::all_numbers;
use crate::messages::refuse_kind;
use lua_basic::arguments::a_number;
use lua_basic::messages::{fail, number_fault};
use lua_basic::values::{rest, single};
use lua_basic::{Stop, Store, Value};
use lua_pattern::List;
use lua_string::NumberFault;
use std::alloc::Global;

/// What a number becomes.
#[derive(Clone, Copy)]
pub enum OfOne {
    Abs,
    Itself,
}

/// What two numbers become.
#[derive(Clone, Copy)]
pub enum OfTwo {
    Fmod,
    Pow,
}

/// Which of numbers is chosen.
#[derive(Clone, Copy)]
pub enum OfAll {
    Greatest,
    Least,
}

fn one_of_them(which: OfOne, n: i64) -> Result<i64, NumberFault>
    ensures { result ≡ one_of which n }
{
    match which {
        OfOne::Abs => lua_string::abs(n),
        OfOne::Itself => Ok(n),
    }
}

fn two_of_them(which: OfTwo, a: i64, b: i64) -> Result<i64, NumberFault>
    ensures { result ≡ two_of which a b }
{
    match which {
        OfTwo::Fmod => lua_string::fmod(a, b),
        OfTwo::Pow => lua_string::pow(a, b),
    }
}

fn all_of_them(which: OfAll, numbers: &[i64]) -> Option<i64>
    ensures { result ≡ all_of which numbers.now }
{
    match which {
        OfAll::Greatest => lua_string::max(numbers),
        OfAll::Least => lua_string::min(numbers),
    }
}

/// A number is given, or the message of its fault.
fn give_number(
    alloc: Global,
    store: &mut Store,
    number: Result<i64, NumberFault>,
) -> Result<List<Value>, Stop>
    ensures answer { Free (meaning.gives_number store.old.heap number) store.new result }
    ensures of { AnswerOf store.new result }
    ensures later { IsLater store.old store.new }
{
    match number {
        Ok(n) => {
            let values = single(alloc, Value::Number(n))?;
            Ok(values)
        }
        Err(fault) => Err(fail(store, number_fault(fault))),
    }
}

fn of_number(
    alloc: Global,
    store: &mut Store,
    which: OfOne,
    function: &[u8],
    args: &[Value],
) -> Result<List<Value>, Stop>
    requires { AllOf store.old args.now }
    ensures answer { Free
        (meaning.of_number function.now (one_of which) (values_seen store.old.texts args.now)
        store.old.heap)
        store.new result }
    ensures of { AnswerOf store.new result }
    ensures later { IsLater store.old store.new }
{
    let n = a_number(alloc, store, 1, function, args)?;
    give_number(alloc, store, one_of_them(which, n))
}

fn of_two(
    alloc: Global,
    store: &mut Store,
    which: OfTwo,
    function: &[u8],
    args: &[Value],
) -> Result<List<Value>, Stop>
    requires { AllOf store.old args.now }
    ensures answer { Free
        (meaning.of_two function.now (two_of which) (values_seen store.old.texts args.now)
        store.old.heap)
        store.new result }
    ensures of { AnswerOf store.new result }
    ensures later { IsLater store.old store.new }
{
    let a = a_number(alloc, store, 1, function, args)?;
    let b = a_number(alloc, store, 2, function, rest(args))?;
    give_number(alloc, store, two_of_them(which, a, b))
}

fn of_all(
    alloc: Global,
    store: &mut Store,
    which: OfAll,
    function: &[u8],
    args: &[Value],
) -> Result<List<Value>, Stop>
    requires { AllOf store.old args.now }
    ensures answer { Free
        (meaning.of_all function.now (all_of which) (values_seen store.old.texts args.now)
        store.old.heap)
        store.new result }
    ensures of { AnswerOf store.new result }
    ensures later { IsLater store.old store.new }
{
    let numbers = all_numbers(alloc, store, function, args)?;
    match all_of_them(which, numbers.as_slice()) {
        Some(n) => {
            let values = single(alloc, Value::Number(n))?;
            Ok(values)
        }
        None => Err(refuse_kind(alloc, store, 1, function, b"number", &[])),
    }
}

/// `math.abs(n)`: without its sign; out of range for the least number.
pub fn abs(alloc: Global, store: &mut Store, args: &[Value]) -> Result<List<Value>, Stop>
    requires { AllOf store.old args.now }
    ensures answer { Free (meaning.abs (values_seen store.old.texts args.now) store.old.heap)
        store.new result }
    ensures of { AnswerOf store.new result }
    ensures later { IsLater store.old store.new }
{
    of_number(alloc, store, OfOne::Abs, b"abs", args)
}

/// `math.ceil(n)`: n, since every number is whole.
pub fn ceil(alloc: Global, store: &mut Store, args: &[Value]) -> Result<List<Value>, Stop>
    requires { AllOf store.old args.now }
    ensures answer { Free (meaning.ceil (values_seen store.old.texts args.now) store.old.heap)
        store.new result }
    ensures of { AnswerOf store.new result }
    ensures later { IsLater store.old store.new }
{
    of_number(alloc, store, OfOne::Itself, b"ceil", args)
}

/// `math.floor(n)`: n, since every number is whole.
pub fn floor(alloc: Global, store: &mut Store, args: &[Value]) -> Result<List<Value>, Stop>
    requires { AllOf store.old args.now }
    ensures answer { Free (meaning.floor (values_seen store.old.texts args.now) store.old.heap)
        store.new result }
    ensures of { AnswerOf store.new result }
    ensures later { IsLater store.old store.new }
{
    of_number(alloc, store, OfOne::Itself, b"floor", args)
}

/// `math.fmod(a, b)`: the rest of the division towards zero, which has the sign of a.
pub fn fmod(alloc: Global, store: &mut Store, args: &[Value]) -> Result<List<Value>, Stop>
    requires { AllOf store.old args.now }
    ensures answer { Free (meaning.fmod (values_seen store.old.texts args.now) store.old.heap)
        store.new result }
    ensures of { AnswerOf store.new result }
    ensures later { IsLater store.old store.new }
{
    of_two(alloc, store, OfTwo::Fmod, b"fmod", args)
}

/// `math.pow(a, b)`: as `a ^ b`.
pub fn pow(alloc: Global, store: &mut Store, args: &[Value]) -> Result<List<Value>, Stop>
    requires { AllOf store.old args.now }
    ensures answer { Free (meaning.pow (values_seen store.old.texts args.now) store.old.heap)
        store.new result }
    ensures of { AnswerOf store.new result }
    ensures later { IsLater store.old store.new }
{
    of_two(alloc, store, OfTwo::Pow, b"pow", args)
}

/// `math.max(..)`: the greatest of its arguments, of which there must be one.
pub fn max(alloc: Global, store: &mut Store, args: &[Value]) -> Result<List<Value>, Stop>
    requires { AllOf store.old args.now }
    ensures answer { Free (meaning.max (values_seen store.old.texts args.now) store.old.heap)
        store.new result }
    ensures of { AnswerOf store.new result }
    ensures later { IsLater store.old store.new }
{
    of_all(alloc, store, OfAll::Greatest, b"max", args)
}

/// `math.min(..)`: the least of its arguments, of which there must be one.
pub fn min(alloc: Global, store: &mut Store, args: &[Value]) -> Result<List<Value>, Stop>
    requires { AllOf store.old args.now }
    ensures answer { Free (meaning.min (values_seen store.old.texts args.now) store.old.heap)
        store.new result }
    ensures of { AnswerOf store.new result }
    ensures later { IsLater store.old store.new }
{
    of_all(alloc, store, OfAll::Least, b"min", args)
}
