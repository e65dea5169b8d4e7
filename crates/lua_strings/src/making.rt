//! `string.char`, `len`, `lower`, `upper`, `rep` and `reverse` (manual 5.4). What a text costs is taken before it is made.
ghost use Rattle.std.specs.Prelude.{◌≡◌, IfOk};
ghost use Rattle.lua_basic.specs.LuaMeaningArguments.{gives_text};
ghost use Rattle.lua_basic.specs.LuaStoreParts.{IsLater};
ghost use Rattle.lua_string.specs.Texts.{rep_of};
ghost use Rattle.lua_basic.specs.Seen.{values_seen, AllOf, Free, Paid, AnswerOf};
ghost use Rattle.lua_basic.specs.LuaMeaningStrings as meaning;
ghost use Rattle.lua_strings.specs.Found.{change_of, codes_of};

use crate::arguments::{bytes_of, check_codes};
use crate::captures::number_value;
use crate::paying::{take, text_value};
use lua_basic::arguments::{a_number, a_text};
use lua_basic::values::{rest, single};
use lua_basic::{Left, Stop, Store, Value};
use lua_pattern::List;
use lua_string::{NoMemory, rep_length};
use std::alloc::Global;

/// What a text becomes; it keeps its length.
#[derive(Clone, Copy)]
pub enum Change {
    Lower,
    Upper,
    Reverse,
}

fn changed(alloc: Global, which: Change, s: &[u8]) -> Result<Vec<u8>, NoMemory>
    ensures { IfOk result (λ made. made.items ≡ change_of which s.now) }
{
    match which {
        Change::Lower => lua_string::lower(alloc, s),
        Change::Upper => lua_string::upper(alloc, s),
        Change::Reverse => lua_string::reverse(alloc, s),
    }
}

fn give_changed(
    alloc: Global,
    store: &mut Store,
    left: &mut Left,
    which: Change,
    s: &[u8],
) -> Result<List<Value>, Stop>
    ensures answer { Paid (gives_text store.old.heap (change_of which s.now)) store.old left.old
        store.new left.new result }
    ensures of { AnswerOf store.new result }
    ensures later { IsLater store.old store.new }
{
    take(left, s.len() as u64)?;
    let made = changed(alloc, which, s)?;
    let values = text_value(alloc, store, made.as_slice())?;
    Ok(values)
}

/// A text that is made of the first argument.
fn of_text(
    alloc: Global,
    store: &mut Store,
    left: &mut Left,
    which: Change,
    function: &[u8],
    args: &[Value],
) -> Result<List<Value>, Stop>
    requires { AllOf store.old args.now }
    ensures answer { Paid
        (meaning.of_text function.now (change_of which) (values_seen store.old.texts args.now)
        store.old.heap)
        store.old left.old store.new left.new result }
    ensures of { AnswerOf store.new result }
    ensures later { IsLater store.old store.new }
{
    let text = a_text(alloc, store, 1, function, args)?;
    give_changed(alloc, store, left, which, text.as_slice())
}

/// `string.lower(s)`: the letters of ASCII become small.
pub fn lower(
    alloc: Global,
    store: &mut Store,
    left: &mut Left,
    args: &[Value],
) -> Result<List<Value>, Stop>
    requires { AllOf store.old args.now }
    ensures answer { Paid (meaning.lower (values_seen store.old.texts args.now) store.old.heap)
        store.old left.old store.new left.new result }
    ensures of { AnswerOf store.new result }
    ensures later { IsLater store.old store.new }
{
    of_text(alloc, store, left, Change::Lower, b"lower", args)
}

/// `string.upper(s)`: the letters of ASCII become capitals.
pub fn upper(
    alloc: Global,
    store: &mut Store,
    left: &mut Left,
    args: &[Value],
) -> Result<List<Value>, Stop>
    requires { AllOf store.old args.now }
    ensures answer { Paid (meaning.upper (values_seen store.old.texts args.now) store.old.heap)
        store.old left.old store.new left.new result }
    ensures of { AnswerOf store.new result }
    ensures later { IsLater store.old store.new }
{
    of_text(alloc, store, left, Change::Upper, b"upper", args)
}

/// `string.reverse(s)`: the bytes from the last to the first.
pub fn reverse(
    alloc: Global,
    store: &mut Store,
    left: &mut Left,
    args: &[Value],
) -> Result<List<Value>, Stop>
    requires { AllOf store.old args.now }
    ensures answer { Paid (meaning.reverse (values_seen store.old.texts args.now) store.old.heap)
        store.old left.old store.new left.new result }
    ensures of { AnswerOf store.new result }
    ensures later { IsLater store.old store.new }
{
    of_text(alloc, store, left, Change::Reverse, b"reverse", args)
}

/// So many copies of a text. Their length is told before they are made.
fn give_copies(
    alloc: Global,
    store: &mut Store,
    left: &mut Left,
    s: &[u8],
    n: i64,
) -> Result<List<Value>, Stop>
    ensures answer { Paid (gives_text store.old.heap (rep_of s.now n)) store.old left.old
        store.new left.new result }
    ensures of { AnswerOf store.new result }
    ensures later { IsLater store.old store.new }
{
    take(left, rep_length(s, n))?;
    let made = lua_string::rep(alloc, s, n)?;
    let values = text_value(alloc, store, made.as_slice())?;
    Ok(values)
}

/// `string.rep(s, n)`: empty where n is below 1.
pub fn rep(
    alloc: Global,
    store: &mut Store,
    left: &mut Left,
    args: &[Value],
) -> Result<List<Value>, Stop>
    requires { AllOf store.old args.now }
    ensures answer { Paid (meaning.rep (values_seen store.old.texts args.now) store.old.heap)
        store.old left.old store.new left.new result }
    ensures of { AnswerOf store.new result }
    ensures later { IsLater store.old store.new }
{
    let text = a_text(alloc, store, 1, b"rep", args)?;
    let count = a_number(alloc, store, 2, b"rep", rest(args))?;
    give_copies(alloc, store, left, text.as_slice(), count)
}

/// The bytes with these codes are given, each for a step.
fn give_bytes(
    alloc: Global,
    store: &mut Store,
    left: &mut Left,
    args: &[Value],
) -> Result<List<Value>, Stop>
    requires { AllOf store.old args.now }
    ensures answer { Paid
        (gives_text store.old.heap (codes_of (values_seen store.old.texts args.now))) store.old
        left.old store.new left.new result }
    ensures of { AnswerOf store.new result }
    ensures later { IsLater store.old store.new }
{
    take(left, args.len() as u64)?;
    let made = bytes_of(alloc, store, args)?;
    let values = text_value(alloc, store, made.as_slice())?;
    Ok(values)
}

/// `string.char(..)`: the bytes with these codes, which are from 0 to 255.
pub fn char_of(
    alloc: Global,
    store: &mut Store,
    left: &mut Left,
    args: &[Value],
) -> Result<List<Value>, Stop>
    requires { AllOf store.old args.now }
    ensures answer { Paid (meaning.char_of (values_seen store.old.texts args.now) store.old.heap)
        store.old left.old store.new left.new result }
    ensures of { AnswerOf store.new result }
    ensures later { IsLater store.old store.new }
{
    check_codes(alloc, store, b"char", args)?;
    give_bytes(alloc, store, left, args)
}

/// `string.len(s)`
pub fn len(alloc: Global, store: &mut Store, args: &[Value]) -> Result<List<Value>, Stop>
    requires { AllOf store.old args.now }
    ensures answer { Free (meaning.len (values_seen store.old.texts args.now) store.old.heap)
        store.new result }
    ensures of { AnswerOf store.new result }
    ensures later { IsLater store.old store.new }
{
    let text = a_text(alloc, store, 1, b"len", args)?;
    let length = number_value(text.as_slice().len())?;
    let values = single(alloc, length)?;
    Ok(values)
}
