//! `trim` and `encode`, with the set of code points that they take (Scribunto, mw.text.trim, mw.text.encode).
ghost use Rattle.std.specs.Prelude.{◌≡◌, ℕ, IsUtf8};
ghost use Rattle.std.specs.Option.{option_map};
ghost use Rattle.mw_text.specs.Answers.{IsText};
ghost use Rattle.mw_text.specs.Sets.{chosen_set};
ghost use Rattle.mw_ustrings.specs.LuaMeaningArguments.{with_charge};
ghost use Rattle.mw_ustrings.specs.LuaMeaningScope.{Bytes};
ghost use Rattle.mw_ustrings.specs.LuaStoreParts.{IsLater};
ghost use Rattle.mw_ustrings.specs.LuaBasicArguments.{text_bytes};
ghost use Rattle.mw_ustrings.specs.LuaBasicSeen.{values_seen, AllOf, Paid, AnswerOf};
ghost use Rattle.mw_ustrings.specs.LuaMeaningTexts as meaning;

use lua_string::List;
use mw_text::TextAnswer;
use mw_ustrings::arguments::{refuse_pattern, utf8_text, utf8_text_if_any};
use mw_ustrings::giving::{give_text, spend};
use mw_ustrings::{Left, Stop, Store, TextIn, Value, pay, rest};
use std::alloc::Global;

/// A text is given after its tries. The answer was made within the steps that are left.
fn give_answer(
    alloc: Global,
    store: &mut Store,
    left: &mut Left,
    answer: &TextAnswer,
) -> Result<List<Value>, Stop>
    ensures answer { (tries : ℕ) (text : Bytes) → IsText left.old.steps tries text answer.now
        → Paid (meaning.gives_tried store.old.heap tries text) store.old left.old
        store.new left.new result }
    ensures of { AnswerOf store.new result }
    ensures later { IsLater store.old store.new }
{
    match answer {
        TextAnswer::Spent => Err(spend(left)),
        TextAnswer::Text(text, tries) => {
            pay(left, *tries)?;
            give_text(alloc, store, left, text.as_slice())
        }
    }
}

/// The bytes of a set, if there is one.
fn set_bytes<'s>(set: &'s Option<TextIn<'_>>) -> Option<&'s [u8]>
    ensures { option_map (λ bytes. bytes.now) result ≡ option_map text_bytes set.now }
{
    match set {
        Some(text) => Some(text.as_slice()),
        None => None,
    }
}

/// What it costs to read a set.
fn set_cost(set: Option<&[u8]>) -> u64
    ensures { result ≡ meaning.set_charge (option_map (λ bytes. bytes.now) set.entry) }
{
    match set {
        Some(bytes) => bytes.len() as u64,
        None => 0,
    }
}

/// A text is trimmed, where its set has been paid for.
fn trim_by(
    alloc: Global,
    store: &mut Store,
    left: &mut Left,
    s: &[u8],
    set: Option<&[u8]>,
) -> Result<List<Value>, Stop>
    requires { IsUtf8 s.now }
    ensures answer { Paid
        (meaning.by_set store.old.heap (meaning.trims store.old.heap s.now)
        (chosen_set (option_map (λ bytes. bytes.now) set.entry)))
        store.old left.old store.new left.new result }
    ensures of { AnswerOf store.new result }
    ensures later { IsLater store.old store.new }
{
    match mw_text::trim(alloc, s, set, left.steps) {
        Err(fault) => Err(refuse_pattern(alloc, store, fault)),
        Ok(answer) => give_answer(alloc, store, left, &answer),
    }
}

/// A text is encoded, where its set has been paid for.
fn encode_by(
    alloc: Global,
    store: &mut Store,
    left: &mut Left,
    s: &[u8],
    set: Option<&[u8]>,
) -> Result<List<Value>, Stop>
    requires { IsUtf8 s.now }
    ensures answer { Paid
        (meaning.by_set store.old.heap (meaning.encodes store.old.heap s.now)
        (chosen_set (option_map (λ bytes. bytes.now) set.entry)))
        store.old left.old store.new left.new result }
    ensures of { AnswerOf store.new result }
    ensures later { IsLater store.old store.new }
{
    match mw_text::encode(alloc, s, set, left.steps) {
        Err(fault) => Err(refuse_pattern(alloc, store, fault)),
        Ok(answer) => give_answer(alloc, store, left, &answer),
    }
}

/// Both in a row for `trim`.
fn trim_with(
    alloc: Global,
    store: &mut Store,
    left: &mut Left,
    s: &[u8],
    set: &Option<TextIn>,
) -> Result<List<Value>, Stop>
    requires { IsUtf8 s.now }
    ensures answer { Paid
        (with_charge (meaning.set_charge (option_map text_bytes set.now))
        (meaning.by_set store.old.heap (meaning.trims store.old.heap s.now)
        (chosen_set (option_map text_bytes set.now))))
        store.old left.old store.new left.new result }
    ensures of { AnswerOf store.new result }
    ensures later { IsLater store.old store.new }
{
    pay(left, set_cost(set_bytes(set)))?;
    trim_by(alloc, store, left, s, set_bytes(set))
}

/// Both in a row for `encode`.
fn encode_with(
    alloc: Global,
    store: &mut Store,
    left: &mut Left,
    s: &[u8],
    set: &Option<TextIn>,
) -> Result<List<Value>, Stop>
    requires { IsUtf8 s.now }
    ensures answer { Paid
        (with_charge (meaning.set_charge (option_map text_bytes set.now))
        (meaning.by_set store.old.heap (meaning.encodes store.old.heap s.now)
        (chosen_set (option_map text_bytes set.now))))
        store.old left.old store.new left.new result }
    ensures of { AnswerOf store.new result }
    ensures later { IsLater store.old store.new }
{
    pay(left, set_cost(set_bytes(set)))?;
    encode_by(alloc, store, left, s, set_bytes(set))
}

/// `mw.text.trim(s, set)`: the text without the code points of the set at both ends; without a set white space goes.
pub fn trim(
    alloc: Global,
    store: &mut Store,
    left: &mut Left,
    args: &[Value],
) -> Result<List<Value>, Stop>
    requires { AllOf store.old args.now }
    ensures answer { Paid (meaning.trim (values_seen store.old.texts args.now) store.old.heap)
        store.old left.old store.new left.new result }
    ensures of { AnswerOf store.new result }
    ensures later { IsLater store.old store.new }
{
    let text = utf8_text(alloc, store, 1, b"trim", args)?;
    let others = rest(args);
    let set = utf8_text_if_any(alloc, store, 2, b"trim", others)?;
    trim_with(alloc, store, left, text.as_slice(), &set)
}

/// `mw.text.encode(s, set)`: the code points of the set as character references; without a set `&`, `<`, `>`, `"`, `'` and U+00A0.
pub fn encode(
    alloc: Global,
    store: &mut Store,
    left: &mut Left,
    args: &[Value],
) -> Result<List<Value>, Stop>
    requires { AllOf store.old args.now }
    ensures answer { Paid (meaning.encode (values_seen store.old.texts args.now) store.old.heap)
        store.old left.old store.new left.new result }
    ensures of { AnswerOf store.new result }
    ensures later { IsLater store.old store.new }
{
    let text = utf8_text(alloc, store, 1, b"encode", args)?;
    let others = rest(args);
    let set = utf8_text_if_any(alloc, store, 2, b"encode", others)?;
    encode_with(alloc, store, left, text.as_slice(), &set)
}
