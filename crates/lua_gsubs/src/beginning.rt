//! A call of `gsub` answers at once where a text replaces, or else begins to ask a table or a function.
ghost use Rattle.std.specs.Prelude.{◌≡◌, Some, MatchResult, IfOk};
ghost use Rattle.lua_pattern.specs.Read.{Fine, read_of, codes};
ghost use Rattle.lua_pattern.specs.Reads.{IsReadFault};
ghost use Rattle.lua_replacing.specs.LuaMeaningGsub as meaning;
ghost use Rattle.lua_replacing.specs.LuaStoreParts.{IsLater};
ghost use Rattle.lua_iterators.specs.LuaBasicSeen.{values_seen, AllOf, Paid, AnswerOf};
ghost use Rattle.lua_iterators.specs.MwFramesCosts.{Pays};
ghost use Rattle.lua_replacing.specs.Seen.{alphabet_in, anchored_in, items_in, slots_in, replacer_seen, ReplacerOf};
ghost use Rattle.lua_gsubs.specs.Begun.{free_by, free_read, IsBegun, BegunOf};
ghost use Rattle.lua_gsubs.specs.Given.{by_seen, given_seen, ByOf};
ghost use Rattle.lua_gsubs.specs.Table.{alphabet_of};

use crate::answering::answer_by_text;
use crate::arguments::{By, GivenIn, read_given};
use crate::table::GsubFunction;
use lua_iterators::{Left, Stop, Store, pay, pay_given, refuse_pattern};
use lua_number::NoMemory;
use lua_pattern::{List, OneByte, OnePoint, Pattern, PatternFault};
use lua_replacing::{AnyPattern, Job, Replacer, Value};
use std::alloc::Global;

/// A call that has answered, or that begins to ask for the replacements of at most so many matches.
#[derive(Drop)]
pub enum Begun {
    Answers(List<Value>),
    Asks(Job, u64),
}

/// Reads a pattern over bytes.
fn read_bytes(alloc: Global, bytes: &[u8]) -> Result<AnyPattern, PatternFault>
    ensures read { MatchResult result
        (λ p.
        read_of (codes (meaning.letters meaning.OfBytes) bytes.now)
        ≡ Fine (anchored_in p) (items_in p) (slots_in p))
        (λ e. IsReadFault (read_of (codes (meaning.letters meaning.OfBytes) bytes.now)) e) }
    ensures alphabet { IfOk result (λ p. alphabet_in p ≡ meaning.OfBytes) }
{
    match Pattern::<OneByte>::read(alloc, bytes) {
        Ok(pattern) => Ok(AnyPattern::Bytes(pattern)),
        Err(fault) => Err(fault),
    }
}

/// Reads a pattern over code points.
fn read_points(alloc: Global, bytes: &[u8]) -> Result<AnyPattern, PatternFault>
    ensures read { MatchResult result
        (λ p.
        read_of (codes (meaning.letters meaning.OfPoints) bytes.now)
        ≡ Fine (anchored_in p) (items_in p) (slots_in p))
        (λ e. IsReadFault (read_of (codes (meaning.letters meaning.OfPoints) bytes.now)) e) }
    ensures alphabet { IfOk result (λ p. alphabet_in p ≡ meaning.OfPoints) }
{
    match Pattern::<OnePoint>::read(alloc, bytes) {
        Ok(pattern) => Ok(AnyPattern::Points(pattern)),
        Err(fault) => Err(fault),
    }
}

/// Reads the pattern of a function.
fn read_pattern(
    alloc: Global,
    which: GsubFunction,
    bytes: &[u8],
) -> Result<AnyPattern, PatternFault>
    ensures read { MatchResult result
        (λ p.
        read_of (codes (meaning.letters (alphabet_of which)) bytes.now)
        ≡ Fine (anchored_in p) (items_in p) (slots_in p))
        (λ e. IsReadFault (read_of (codes (meaning.letters (alphabet_of which)) bytes.now)) e) }
    ensures alphabet { IfOk result (λ p. alphabet_in p ≡ alphabet_of which) }
{
    match which {
        GsubFunction::OfBytes => read_bytes(alloc, bytes),
        GsubFunction::OfPoints => read_points(alloc, bytes),
    }
}

/// It begins to ask.
fn begin_job(
    store: &mut Store,
    left: &Left,
    s: &[u8],
    pattern: AnyPattern,
    by: Replacer,
    limit: u64,
) -> Result<Begun, Stop>
    requires { ReplacerOf store.old by }
    ensures begun { IsBegun
        (meaning.GsubAsks 0
        (record
        { alphabet = alphabet_in pattern; subject = s.now; anchored = anchored_in pattern; items = items_in pattern; slots = slots_in pattern; by = replacer_seen store.old.texts by })
        limit)
        store.old left.now store.new left.now result }
    ensures of { BegunOf store.new result }
    ensures later { IsLater store.old store.new }
{
    let subject = store.text(s)?;
    Ok(Begun::Asks(
        Job {
            subject,
            pattern,
            by,
        },
        limit,
    ))
}

/// A pattern that was read is gone through.
fn begin_by(
    alloc: Global,
    store: &mut Store,
    left: &mut Left,
    s: &[u8],
    pattern: AnyPattern,
    by: &By,
    limit: u64,
) -> Result<Begun, Stop>
    requires { ByOf store.old by.now }
    ensures begun { IsBegun
        (free_by (alphabet_in pattern) store.old.heap s.now limit (anchored_in pattern)
        (items_in pattern) (slots_in pattern) (by_seen store.old.texts by.now))
        store.old left.old store.new left.new result }
    ensures of { BegunOf store.new result }
    ensures later { IsLater store.old store.new }
{
    match by {
        By::Text(text) => {
            let replacement = text.as_slice();
            match answer_by_text(alloc, store, left, &pattern, s, replacement, limit) {
                Ok(values) => Ok(Begun::Answers(values)),
                Err(stop) => Err(stop),
            }
        }
        By::Asked(replacer) => begin_job(store, left, s, pattern, *replacer, limit),
    }
}

/// The pattern is read, which has been paid for.
fn begin_read(
    alloc: Global,
    store: &mut Store,
    left: &mut Left,
    which: GsubFunction,
    given: GivenIn,
) -> Result<Begun, Stop>
    requires { ByOf store.old given.by }
    ensures begun { IsBegun
        (free_read (alphabet_of which) store.old.heap (given_seen store.old.texts given.entry)
        (read_of
        (codes (meaning.letters (alphabet_of which))
        (given_seen store.old.texts given.entry).pattern)))
        store.old left.old store.new left.new result }
    ensures of { BegunOf store.new result }
    ensures later { IsLater store.old store.new }
{
    match read_pattern(alloc, which, given.pattern.as_slice()) {
        Err(fault) => Err(refuse_pattern(alloc, store, fault)),
        Ok(pattern) => {
            let s = given.subject.as_slice();
            begin_by(alloc, store, left, s, pattern, &given.by, given.limit)
        }
    }
}

/// What is given is read, behind the charge of the arguments.
fn begin_given(
    alloc: Global,
    store: &mut Store,
    left: &mut Left,
    which: GsubFunction,
    args: &[Value],
) -> Result<Begun, Stop>
    requires { AllOf store.old args.now }
    ensures begun { IsBegun
        (meaning.by_given (alphabet_of which) store.old.heap 0
        (meaning.given_in (alphabet_of which) (values_seen store.old.texts args.now)))
        store.old left.old store.new left.new result }
    ensures of { BegunOf store.new result }
    ensures later { IsLater store.old store.new }
{
    let given = read_given(alloc, store, which, args)?;
    pay(left, given.pattern.as_slice().len() as u64)?;
    begin_read(alloc, store, left, which, given)
}

/// Takes what the arguments cost: over code points the bytes of those that are strings.
fn pay_args(store: &Store, left: &mut Left, which: GsubFunction, args: &[Value]) -> Result<(), Stop>
    requires { AllOf store.now args.now }
    ensures { Pays (meaning.args_charge (alphabet_of which) (values_seen store.now.texts args.now))
        left.old left.new result }
{
    match which {
        GsubFunction::OfBytes => pay(left, 0),
        GsubFunction::OfPoints => pay_given(store, left, args),
    }
}

/// A call of `gsub` with these arguments: what it gives behind its charge, or the job that begins behind its charge.
///
/// It is `Stop::Raised` exactly where it raises and its charge is covered, with the level whose place the caller puts in front, and
/// `Stop::Spent` exactly where its charge is not covered; then the store is as it was.
pub fn gsub_begin(
    alloc: Global,
    store: &mut Store,
    left: &mut Left,
    which: GsubFunction,
    args: &[Value],
) -> Result<Begun, Stop>
    requires { AllOf store.old args.now }
    ensures begun { IsBegun
        (meaning.gsub_form (alphabet_of which) (values_seen store.old.texts args.now)
        store.old.heap)
        store.old left.old store.new left.new result }
    ensures of { BegunOf store.new result }
    ensures later { IsLater store.old store.new }
{
    pay_args(store, left, which, args)?;
    begin_given(alloc, store, left, which, args)
}
