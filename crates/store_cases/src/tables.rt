//! Rows from Lua's rules, and sequences of calls beside a plain list of entries.
use crate::start::{fixed_seed, holds, sides, words};
use lua_table::{NoSuchKey, SetFault, Slot, Table};
use std::alloc::{AllocError, Global};
use std::hash::RandomState;
use std::process::Abort;
use std::test::Fail;

/// A value of the tests: nil, a number or a letter.
#[derive(Clone, Copy, Debug, PartialEq, Eq, Hash)]
enum Word {
    Nil,
    Number(i64),
    Letter(u8),
}

impl Slot for Word {
    ghost use Rattle.std.specs.Prelude.{◌≡◌, ℤ, true, Option, Some, None, refl};
    ghost use Rattle.std.proofs.Common.{rules, arith, ap};
    ghost use Rattle.std.proofs.lemmas.Bool.{eqb-true};
    ghost use Rattle.std.proofs.lemmas.Bool.Decides.{Decides-int_eq};
    ghost use Rattle.store_cases.specs.declared.tables.Word.{Word};
    ghost use Rattle.store_cases.specs.declared.tables.Word.TheVariants.{Nil, Number, Letter};

    ghost nil_value = { Nil };

    ghost number_of = { Number };

    ghost whole_of = { λ w. elim w [ Nil ↦ None | Number n ↦ Some n | Letter b ↦ None ] };

    ghost same = { λ a. elim a as (λ x. (b : Word) → Self.eq x b ≡ true → x ≡ b) [
      | Nil ↦ (λ b. elim b as (λ y. Self.eq Nil y ≡ true → Nil ≡ y) [ Nil ↦ (λ h. refl) | Number n ↦ (λ h. Prim.cc) | Letter c ↦ (λ h. Prim.cc) ])
      | Number m ↦ (λ b. elim b as (λ y. Self.eq (Number m) y ≡ true → Number m ≡ y) [ Nil ↦ (λ h. Prim.cc) | Number n ↦ (λ h. ap Number (Prim.grind (arith, rules, Decides-int_eq m n))) | Letter c ↦ (λ h. Prim.cc) ])
      | Letter c ↦ (λ b. elim b as (λ y. Self.eq (Letter c) y ≡ true → Letter c ≡ y) [ Nil ↦ (λ h. Prim.cc) | Number n ↦ (λ h. Prim.cc) | Letter d ↦ (λ h. ap Letter (eqb-true c d h)) ])
    ] };

    ghost reads_back = { λ n. refl };

    ghost only = { λ a n. elim a as (λ w. (let whole : Option ℤ = elim w [ Nil ↦ None | Number m ↦ Some m | Letter b ↦ None ] in whole ≡ Some n) → w ≡ Number n)
        [ Nil ↦ (λ h. Prim.cc) | Number m ↦ (λ h. Prim.cc) | Letter b ↦ (λ h. Prim.cc) ] };

    ghost no_number = { refl };

    fn nil() -> Word {
        Word::Nil
    }

    fn is_nil(&self) -> bool {
        *self == Word::Nil
    }

    fn number(n: i64) -> Word {
        Word::Number(n)
    }

    fn whole(&self) -> Option<i64> {
        match self {
            Word::Number(n) => Some(*n),
            _ => None,
        }
    }
}

const NIL: Word = Word::Nil;

fn n(number: i64) -> Word {
    Word::Number(number)
}

fn l(letter: u8) -> Word {
    Word::Letter(letter)
}

/// What a plain list of entries holds at a key.
fn plain_get(entries: &[(Word, Word)], key: Word) -> Word {
    for (entry_key, value) in entries {
        if *entry_key == key {
            return *value;
        }
    }
    NIL
}

/// The entry of a plain list at a place.
fn plain_at(entries: &[(Word, Word)], place: usize) -> Option<(Word, Word)> {
    entries.get(place).copied()
}

fn plain_set(entries: &mut Vec<(Word, Word)>, key: Word, value: Word) -> Result<bool, AllocError> {
    for entry in entries.iter_mut() {
        if entry.0 == key {
            entry.1 = value;
            return Ok(false);
        }
    }
    if value == NIL {
        return Ok(false);
    }
    entries.push((key, value))?;
    Ok(true)
}

/// The key and the value after `key` that are not cleared, and how many cleared ones stand between.
fn plain_next(entries: &[(Word, Word)], key: Word) -> Option<(Word, Word, u64)> {
    let mut found = key == NIL;
    let mut passed = 0u64;
    for (entry_key, value) in entries {
        if found && *value != NIL {
            return Some((*entry_key, *value, passed));
        }
        if found {
            passed = passed.wrapping_add(1);
        }
        if *entry_key == key {
            found = true;
        }
    }
    if found {
        Some((NIL, NIL, passed))
    } else {
        None
    }
}

fn plain_border(entries: &[(Word, Word)]) -> i64 {
    for border in 0..i64::MAX {
        if plain_get(entries, n(border + 1)) == NIL {
            return border;
        }
    }
    i64::MAX
}

fn next(table: &Table<Word>, key: Word) -> Option<(Word, Word, u64)> {
    match table.next(&key) {
        Ok(step) => Some((step.key, step.value, step.passed)),
        Err(NoSuchKey) => None,
    }
}

/// The table answers as the list does, at one key.
fn agrees_at(table: &Table<Word>, entries: &[(Word, Word)], key: Word) -> bool {
    table.get(&key) == plain_get(entries, key)
        && next(table, key) == plain_next(entries, key)
        && table.border() == plain_border(entries)
        && table.has(&key) == entries.iter().any(|entry| entry.0 == key)
}

/// The table has the entries of the list at the ends, in the middle, and past the last one.
fn agrees_by_place(table: &Table<Word>, entries: &[(Word, Word)]) -> bool {
    let last = entries.len();
    for place in [0, last / 2, last.saturating_sub(1), last, usize::MAX] {
        if table.at(place) != plain_at(entries, place) {
            return false;
        }
    }
    true
}

/// A whole walk over the table comes where one over the list does.
fn agrees_along(table: &Table<Word>, entries: &[(Word, Word)]) -> bool {
    let mut at = NIL;
    for _ in 0..100 {
        let step = next(table, at);
        if step != plain_next(entries, at) {
            return false;
        }
        match step {
            Some((key, _, _)) if key != NIL => at = key,
            _ => return true,
        }
    }
    true
}

/// Sets a key in both, and compares what that gives, and the two afterwards.
fn agrees(
    table: &mut Table<Word>,
    entries: &mut Vec<(Word, Word)>,
    key: Word,
    value: Word,
) -> bool {
    match plain_set(entries, key, value) {
        Ok(made) => {
            table.set(key, value) == Ok(made)
                && agrees_at(table, entries, key)
                && agrees_by_place(table, entries)
                && agrees_along(table, entries)
        }
        Err(_) => false,
    }
}

/// A value of a row: `nil`, a number, or a letter.
fn read_word(text: &str) -> Word {
    match text.parse::<i64>() {
        Ok(number) => Word::Number(number),
        Err(_) => letter(text.as_bytes()),
    }
}

fn letter(text: &[u8]) -> Word {
    match text {
        [letter] => Word::Letter(*letter),
        _ => NIL,
    }
}

/// A step of a row: a key, a value, and how many cleared entries were passed; or `none`.
fn step(text: &str) -> Option<(Word, Word, u64)> {
    if text == "none" {
        return None;
    }
    let (key, rest) = words(text);
    let (value, passed) = words(rest);
    let passed = passed.parse::<u64>().unwrap_or(99);
    Some((read_word(key), read_word(value), passed))
}

/// How a row tells what setting a key gave.
fn told(answer: Result<bool, SetFault>) -> &'static str {
    match answer {
        Ok(true) => "new",
        Ok(false) => "old",
        Err(SetFault::Frozen) => "frozen",
        Err(SetFault::NotAKey) => "no key",
        Err(SetFault::NoMemory) => "no memory",
    }
}

/// Whether setting a key gives this.
fn sets(table: &mut Table<Word>, entry: &str, wanted: &str) -> bool {
    let (key, value) = words(entry);
    told(table.set(read_word(key), read_word(value))) == wanted
}

/// Whether a call gives this.
fn gives(table: &mut Table<Word>, name: &str, given: &str, wanted: &str) -> bool {
    match name {
        "set" => sets(table, given, wanted),
        "after" => next(table, read_word(given)) == step(wanted),
        "get" => table.get(&read_word(given)) == read_word(wanted),
        "has" => table.has(&read_word(given)) == (wanted == "true"),
        _ => read_word(wanted) == n(table.border()),
    }
}

/// Whether a row holds of a table.
fn row_holds(table: &mut Table<Word>, row: &str) -> bool {
    let (call, wanted) = sides(row);
    let (name, given) = words(call);
    gives(table, name, given, wanted)
}

fn all_hold(rt: &impl Abort, table: &mut Table<Word>, rows: &str) {
    for row in rows.lines() {
        holds(rt, row_holds(table, row), row);
    }
}

/// Keys that are set with their values, whether that makes an entry, and the border behind it; what comes `after` a key: the next
/// key, its value, and how many cleared entries stand between.
const IN_ORDER: &str = "set 1 a => new
border => 1
set 2 b => new
border => 2
set x c => new
border => 2
set 2 nil => old
border => 1
set 3 d => new
border => 1
after 1 => x c 1
set 2 e => old
border => 3
set 9 nil => old
border => 3
after nil => 1 a 0
after 1 => 2 e 0
after 2 => x c 0
after x => 3 d 0
after 3 => nil nil 0
after 9 => none
set nil 1 => no key";

/// The same table, once it is read-only.
const FROZEN: &str = "set 1 1 => frozen
set nil 1 => frozen
get 1 => a
has 1 => true
has 9 => false
has nil => false";

/// Gives a table a metatable and entries, and makes it read-only.
fn fill_and_freeze(rt: &impl Abort, table: &mut Table<Word>) {
    if !table.is_frozen() {
        table.set_meta(n(7));
    }
    holds(rt, table.meta() == n(7), "metatable");
    all_hold(rt, table, IN_ORDER);
    holds(rt, !table.is_frozen(), "not frozen");
    table.freeze();
    holds(rt, table.is_frozen(), "frozen");
    all_hold(rt, table, FROZEN);
}

#[test]
fn entries_keep_the_order_of_first_insertion(rt: HostRuntime) -> Result<(), Fail> {
    let mut table = Table::new(rt.alloc(), fixed_seed()?);
    fill_and_freeze(&rt, &mut table);
    Ok(())
}

/// Holes in the array and behind it, the ends of the range, and keys that are no places of a sequence. Cleared keys have an entry.
const FAR_KEYS: &str = "set 1 10 => new
border => 1
set 2 20 => new
border => 2
set 9223372036854775807 1 => new
border => 2
set -9223372036854775808 2 => new
border => 2
set 0 3 => new
border => 2
set 4 40 => new
border => 2
set 3 30 => new
border => 4
set 1 nil => old
border => 0
set 5 50 => new
border => 0
set 1 11 => old
border => 5
set 3 nil => old
border => 2
set 5 nil => old
border => 2
set 3 31 => old
border => 4
after 9223372036854775807 => -9223372036854775808 2 0
after 3 => nil nil 1
after 6 => none
has 5 => true
get 5 => nil";

#[test]
fn borders_and_far_keys(rt: HostRuntime) -> Result<(), Fail> {
    let mut table = Table::new(rt.alloc(), fixed_seed()?);
    all_hold(&rt, &mut table, FAR_KEYS);
    Ok(())
}

/// Whether each key from 1 to 100 makes an entry.
fn fills(table: &mut Table<Word>) -> bool {
    for number in 1..101 {
        if table.set(n(number), n(0)) != Ok(true) {
            return false;
        }
    }
    true
}

/// Whether a walk comes to each of them while it clears the last one.
fn clears(table: &mut Table<Word>) -> bool {
    let mut at = NIL;
    for number in 1..101 {
        if next(table, at) != Some((n(number), n(0), 0)) {
            return false;
        }
        at = n(number);
        if table.set(at, NIL) != Ok(false) {
            return false;
        }
    }
    true
}

/// Fills a table, and clears it.
fn fill_and_clear(rt: &impl Abort, table: &mut Table<Word>) {
    holds(rt, fills(table), "filled");
    holds(rt, clears(table), "cleared");
    let rows = "after 100 => nil nil 0
after nil => nil nil 100";
    all_hold(rt, table, rows);
}

#[test]
fn a_walk_may_clear_what_it_comes_to(rt: HostRuntime) -> Result<(), Fail> {
    let mut table = Table::new(rt.alloc(), fixed_seed()?);
    fill_and_clear(&rt, &mut table);
    Ok(())
}

/// The number that comes behind a number that was drawn.
fn drawn(seed: u64) -> u64 {
    seed.wrapping_mul(6364136223846793005)
        .wrapping_add(1442695040888963407)
}

/// The key with a number: 1 to 8, 0, the ends of the range, and two letters.
fn key_at(at: u64) -> Word {
    match at {
        8 => n(0),
        9 => n(i64::MAX),
        10 => n(i64::MIN),
        11 => l(b'a'),
        12 => l(b'b'),
        _ => n((at % 8) as i64 + 1),
    }
}

/// The value that is set in a step. No run has so many steps that two have the same.
fn value_of(step: u64) -> Word {
    n((step % 1_000) as i64)
}

/// A step of a run: early on the next number is likely, so that runs differ in how far the array goes.
fn step_agrees(
    table: &mut Table<Word>,
    entries: &mut Vec<(Word, Word)>,
    run: u64,
    step: u64,
    seed: u64,
) -> bool {
    let pick = (seed >> 33) % 13;
    let at = if step < run % 8 { step % 8 } else { pick };
    let value = if (seed >> 50) % 3 == 0 {
        NIL
    } else {
        value_of(step)
    };
    agrees(table, entries, key_at(at), value)
}

/// Whether a table and a list agree along the steps of a run, from a number that was drawn. Gives the last one that was.
fn run_agrees(alloc: Global, seed: RandomState, run: u64, first: u64) -> Option<u64> {
    let mut table = Table::new(alloc, seed);
    let mut entries = Vec::new(alloc);
    let mut last = first;
    for step in 0..60u64 {
        last = drawn(last);
        if !step_agrees(&mut table, &mut entries, run, step, last) {
            return None;
        }
    }
    Some(last)
}

fn runs_agree(alloc: Global, seed: RandomState) -> bool {
    let mut last = 20061121u64;
    for run in 0..200u64 {
        match run_agrees(alloc, seed, run, last) {
            Some(number) => last = number,
            None => return false,
        }
    }
    true
}

#[test]
fn seeded_calls_agree_with_a_plain_list(rt: HostRuntime) -> Result<(), Fail> {
    let seed = fixed_seed()?;
    holds(&rt, runs_agree(rt.alloc(), seed), "runs");
    Ok(())
}

/// The key that a step of the test below sets: first 1 to 60, then 100 down to 62, then one of these 39, then any up to 100,
/// of which the first four are the likeliest.
fn key_of_step(step: u64, seed: u64) -> Word {
    let pick = (seed >> 33) % 100;
    let place = if step < 60 {
        step
    } else if step < 99 {
        158 - step
    } else if step < 120 {
        61 + pick % 39
    } else if (seed >> 20) % 2 == 0 {
        pick % 4
    } else {
        pick
    };
    n(place as i64 + 1)
}

/// A step of the long run.
fn long_step_agrees(
    table: &mut Table<Word>,
    entries: &mut Vec<(Word, Word)>,
    step: u64,
    seed: u64,
) -> bool {
    let value = if step >= 99 && (step < 120 || (seed >> 50) % 2 == 0) {
        NIL
    } else {
        value_of(step)
    };
    agrees(table, entries, key_of_step(step, seed), value)
}

fn long_run_agrees(alloc: Global, seed: RandomState) -> bool {
    let mut table = Table::new(alloc, seed);
    let mut entries = Vec::new(alloc);
    let mut last = 19931001u64;
    for step in 0..900u64 {
        last = drawn(last);
        if !long_step_agrees(&mut table, &mut entries, step, last) {
            return false;
        }
    }
    true
}

#[test]
fn keys_are_cleared_and_filled_below_a_long_run(rt: HostRuntime) -> Result<(), Fail> {
    let seed = fixed_seed()?;
    holds(&rt, long_run_agrees(rt.alloc(), seed), "a long run");
    Ok(())
}
