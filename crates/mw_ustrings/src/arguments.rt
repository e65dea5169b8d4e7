//! Arguments that are texts (Scribunto, Ustring and Text libraries). `given` are the arguments from number n on.
ghost use Rattle.std.specs.Prelude.{◌≡◌, ◌<◌, ◌^◌, ◌++◌, IsUtf8, Ok, IfOk, IfErr, OnOk};
ghost use Rattle.std.specs.Option.{option_map};
ghost use Rattle.std.specs.Str.{is_utf8 as is_utf8_lem};
ghost use Rattle.mw_frame_texts.specs.LuaMeaningArguments.{fails};
ghost use Rattle.mw_frame_texts.specs.LuaMeaningMessages as messages;
ghost use Rattle.mw_frame_texts.specs.LuaStoreParts.{IsLater};
ghost use Rattle.mw_frame_texts.specs.LuaBasicArguments.{text_bytes};
ghost use Rattle.mw_frame_texts.specs.LuaBasicSeen.{values_seen, AllOf, Stops, StopOf, Refuses};
ghost use Rattle.mw_ustrings.specs.Faults.{FaultStops};
ghost use Rattle.mw_frame_texts.specs.LuaMeaningChecks as checks;
ghost use Rattle.mw_frame_texts.specs.LuaMeaningTextArguments as meaning;

use lua_number::NoMemory;
use lua_pattern::PatternFault;
use mw_frame_texts::{Stop, Store, TextIn, Value, a_text, expected, fail, first, is_nil, refuse};
use mw_text::push_all;
use std::alloc::Global;

/// Whether these bytes are UTF-8.
pub fn is_utf8(bytes: &[u8]) -> bool
    ensures { result ≡ is_utf8_lem bytes.now }
{
    std::str::from_utf8(bytes).is_ok()
}

/// A text that was found, where it is in UTF-8.
fn in_utf8<'b>(
    alloc: Global,
    store: &mut Store<'b>,
    n: u8,
    function: &[u8],
    text: TextIn<'b>,
) -> Result<TextIn<'b>, Stop>
    ensures found { IfOk result (λ made.
        meaning.in_utf8 n function.now (Ok (text_bytes text.entry)) ≡ Ok (text_bytes made)) }
    ensures utf8 { IfOk result (λ made. IsUtf8 (text_bytes made)) }
    ensures same { OnOk result (store.new ≡ store.old) }
    ensures refused { IfErr result (Refuses
        (meaning.in_utf8 n function.now (Ok (text_bytes text.entry))) store.old store.new) }
    ensures of { IfErr result (StopOf store.new) }
    ensures later { IsLater store.old store.new }
{
    if is_utf8(text.as_slice()) {
        return Ok(text);
    }
    Err(refuse(alloc, store, n, function, b"not UTF-8"))
}

/// An argument that must be a text in UTF-8, or a number, which gives its digits.
pub fn utf8_text<'b>(
    alloc: Global,
    store: &mut Store<'b>,
    n: u8,
    function: &[u8],
    given: &[Value],
) -> Result<TextIn<'b>, Stop>
    requires { AllOf store.old given.now }
    ensures found { IfOk result (λ text.
        meaning.utf8_text n function.now (values_seen store.old.texts given.now)
        ≡ Ok (text_bytes text)) }
    ensures utf8 { IfOk result (λ text. IsUtf8 (text_bytes text)) }
    ensures same { OnOk result (store.new ≡ store.old) }
    ensures refused { IfErr result (Refuses
        (meaning.utf8_text n function.now (values_seen store.old.texts given.now)) store.old
        store.new) }
    ensures of { IfErr result (StopOf store.new) }
    ensures later { IsLater store.old store.new }
{
    match a_text(alloc, store, n, function, given) {
        Ok(text) => in_utf8(alloc, store, n, function, text),
        Err(stop) => Err(stop),
    }
}

/// A text that may be left out, or be nil.
pub fn text_or<'b>(
    alloc: Global,
    store: &mut Store<'b>,
    default: &'static [u8],
    n: u8,
    function: &[u8],
    given: &[Value],
) -> Result<TextIn<'b>, Stop>
    requires { AllOf store.old given.now }
    ensures found { IfOk result (λ text.
        checks.text_or default.now n function.now (values_seen store.old.texts given.now)
        ≡ Ok (text_bytes text)) }
    ensures same { OnOk result (store.new ≡ store.old) }
    ensures refused { IfErr result (Refuses
        (checks.text_or default.now n function.now (values_seen store.old.texts given.now))
        store.old store.new) }
    ensures of { IfErr result (StopOf store.new) }
    ensures later { IsLater store.old store.new }
{
    if is_nil(first(given)) {
        return Ok(TextIn::Kept(default));
    }
    a_text(alloc, store, n, function, given)
}

/// A text in UTF-8 that may be left out, or be nil.
pub fn utf8_text_or<'b>(
    alloc: Global,
    store: &mut Store<'b>,
    default: &'static [u8],
    n: u8,
    function: &[u8],
    given: &[Value],
) -> Result<TextIn<'b>, Stop>
    requires { AllOf store.old given.now }
    ensures found { IfOk result (λ text.
        meaning.utf8_text_or default.now n function.now (values_seen store.old.texts given.now)
        ≡ Ok (text_bytes text)) }
    ensures utf8 { IfOk result (λ text. IsUtf8 (text_bytes text)) }
    ensures same { OnOk result (store.new ≡ store.old) }
    ensures refused { IfErr result (Refuses
        (meaning.utf8_text_or default.now n function.now (values_seen store.old.texts given.now))
        store.old store.new) }
    ensures of { IfErr result (StopOf store.new) }
    ensures later { IsLater store.old store.new }
{
    match text_or(alloc, store, default, n, function, given) {
        Ok(text) => in_utf8(alloc, store, n, function, text),
        Err(stop) => Err(stop),
    }
}

/// A text in UTF-8, or none where it is left out or nil.
pub fn utf8_text_if_any<'b>(
    alloc: Global,
    store: &mut Store<'b>,
    n: u8,
    function: &[u8],
    given: &[Value],
) -> Result<Option<TextIn<'b>>, Stop>
    requires { AllOf store.old given.now }
    ensures found { IfOk result (λ text.
        meaning.utf8_text_if_any n function.now (values_seen store.old.texts given.now)
        ≡ Ok (option_map text_bytes text)) }
    ensures same { OnOk result (store.new ≡ store.old) }
    ensures refused { IfErr result (Refuses
        (meaning.utf8_text_if_any n function.now (values_seen store.old.texts given.now)) store.old
        store.new) }
    ensures of { IfErr result (StopOf store.new) }
    ensures later { IsLater store.old store.new }
{
    if is_nil(first(given)) {
        return Ok(None);
    }
    match utf8_text(alloc, store, n, function, given) {
        Ok(text) => Ok(Some(text)),
        Err(stop) => Err(stop),
    }
}

/// That an argument of a function is bad, and why. There may be more than 255 of them, counted from 1.
fn bad_argument(alloc: Global, n: usize, function: &[u8], why: &[u8]) -> Result<Vec<u8>, NoMemory>
    requires { n < 2 ^ 63 }
    ensures { IfOk result (λ text. text.items ≡ messages.bad_argument n function.now why.now) }
{
    let mut text = Vec::new(alloc);
    push_all(&mut text, b"bad argument #")?;
    let number = lua_number::text(alloc, n as i64)?;
    push_all(&mut text, number.as_slice())?;
    push_all(&mut text, b" to '")?;
    push_all(&mut text, function)?;
    push_all(&mut text, b"' (")?;
    push_all(&mut text, why)?;
    push_all(&mut text, b")")?;
    Ok(text)
}

/// An argument with any number is bad.
pub fn refuse_at(alloc: Global, store: &mut Store, n: usize, function: &[u8], why: &[u8]) -> Stop
    requires { n < 2 ^ 63 }
    ensures raises { Stops (fails store.old.heap (messages.bad_argument n function.now why.now))
        store.new result }
    ensures of { StopOf store.new result }
    ensures later { IsLater store.old store.new }
{
    match bad_argument(alloc, n, function, why) {
        Ok(message) => fail(store, message.as_slice()),
        Err(_) => Stop::NoMemory,
    }
}

/// An argument with any number is of another kind than was wanted; `given` are the arguments from it on.
pub fn refuse_kind_at(
    alloc: Global,
    store: &mut Store,
    n: usize,
    function: &[u8],
    wanted: &[u8],
    given: &[Value],
) -> Stop
    requires { n < 2 ^ 63 }
    ensures raises { Stops
        (fails store.old.heap
        (messages.bad_argument n function.now
        (messages.expected wanted.now (values_seen store.old.texts given.now))))
        store.new result }
    ensures of { StopOf store.new result }
    ensures later { IsLater store.old store.new }
{
    match expected(alloc, wanted, given) {
        Ok(why) => refuse_at(alloc, store, n, function, why.as_slice()),
        Err(_) => Stop::NoMemory,
    }
}

/// That a pattern has this fault.
fn malformed(alloc: Global, n: u8) -> Result<Vec<u8>, NoMemory>
    ensures { IfOk result (λ text. text.items ≡ checks.malformed n) }
{
    let mut text = Vec::new(alloc);
    push_all(&mut text, b"malformed pattern (")?;
    let number = lua_number::text(alloc, i64::from(n))?;
    push_all(&mut text, number.as_slice())?;
    push_all(&mut text, b")")?;
    Ok(text)
}

/// A pattern, or a set, is none.
pub fn refuse_pattern(alloc: Global, store: &mut Store, fault: PatternFault) -> Stop
    ensures stops { FaultStops store.old store.new fault result }
    ensures of { StopOf store.new result }
    ensures later { IsLater store.old store.new }
{
    match fault {
        PatternFault::At(n) => match malformed(alloc, n) {
            Ok(message) => fail(store, message.as_slice()),
            Err(_) => Stop::NoMemory,
        },
        PatternFault::NoMemory => Stop::NoMemory,
    }
}
