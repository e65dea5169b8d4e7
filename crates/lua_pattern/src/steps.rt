//! The comparisons of one item.
ghost use Rattle.std.specs.Prelude.{◌≡◌, ℕ, List, ◌+◌, ◌-◌, ◌<◌, ◌≤◌, ◌∷◌, [], length, drop, Some, None, IfSome, MatchOption, true};
ghost use Rattle.lua_pattern.specs.Way.{Rest, run, comparisons, most_first, begins, bytes_compared, first_code, code_before, is_frontier, closing};
ghost use Rattle.lua_pattern.specs.Trail.{downwards};

use crate::alphabet::Alphabet;
use crate::fits::fit;
use crate::item::Single;
use crate::prepared::PreparedSet;

/// The text from a place on.
pub fn text_from(subject: &[u8], at: usize) -> &[u8]
    ensures { result.now ≡ drop at subject.now }
{
    match subject.get(at..) {
        Some(text) => text,
        None => &[],
    }
}

/// The symbol at a place, and how many bytes it takes.
pub fn symbol_at<A: Alphabet>(subject: &[u8], at: usize) -> Option<(char, usize)>
    ensures symbols { MatchOption result (A.letters.symbols (drop at subject.now) ≡ []) (λ p. A.letters.symbols (drop at subject.now) ≡ record { code = p.0; size = p.1 } ∷ A.letters.symbols (drop (at + p.1) subject.now)) }
    ensures within { IfSome result (λ p. (0 < p.1) × (at + p.1 ≤ length subject.now)) }
{
    let text = text_from(subject, at);
    if text.is_empty() {
        None
    } else {
        Some(A::first(text))
    }
}

/// How many bytes the symbols take that fit, from a place on. Each comparison takes one of the tries that are left;
/// where these do not suffice, no further symbol is looked at.
pub fn count_run<A: Alphabet>(
    single: &Single,
    subject: &[u8],
    at: usize,
    left: &mut u64,
) -> Option<usize>
    ensures value { MatchOption result (left.old < comparisons A.letters single.now (A.letters.symbols (drop at subject.now))) (λ n. (n ≡ run A.letters single.now (A.letters.symbols (drop at subject.now))) × (comparisons A.letters single.now (A.letters.symbols (drop at subject.now)) ≤ left.old) × (left.new ≡ left.old - comparisons A.letters single.now (A.letters.symbols (drop at subject.now)))) }
    ensures places { IfSome result (λ n. (rest : Rest) (marks : List ℕ) → most_first A.letters single.now (A.letters.symbols (drop at subject.now)) rest at marks ≡ downwards A.letters subject.now n rest at marks) }
    ensures short { IfSome result (λ n. n ≤ length subject.now - at) }
    ensures fewer { left.new ≤ left.old }
    ensures paid { IfSome result (λ n. 0 < n → left.new < left.old) }
{
    let mut place = at;
    'symbols: loop {
        let Some((symbol, size)) = symbol_at::<A>(subject, place) else {
            return Some(place - at);
        };
        if *left == 0 {
            return None;
        }
        *left -= 1;
        if !fit::<A>(single, symbol) {
            return Some(place - at);
        }
        place += size;
    }
}

/// The last place from `high` down to `low` at which a symbol begins, or `low`.
pub fn settle<A: Alphabet>(subject: &[u8], low: usize, high: usize) -> usize
    requires { low ≤ high }
    ensures within { (low ≤ result) × (result ≤ high) }
    ensures begins { low < result → A.letters.starts (drop result subject.now) ≡ true }
    ensures same { (rest : Rest) (marks : List ℕ) → downwards A.letters subject.now (high - low) rest low marks ≡ downwards A.letters subject.now (result - low) rest low marks }
{
    let mut place = high;
    'places: while low < place {
        if A::starts(text_from(subject, place)) {
            return place;
        }
        place -= 1;
    }
    place
}

/// Whether a text begins with a word, and how many bytes are compared.
pub fn compare(word: &[u8], text: &[u8]) -> (bool, usize)
    ensures begins { result.0 ≡ begins word.now text.now }
    ensures compared { result.1 ≡ bytes_compared word.now text.now }
    ensures short { result.0 ≡ true → length word.now ≤ length text.now }
{
    let mut word = word;
    let mut text = text;
    let mut count: usize = 0;
    while let [first, words @ ..] = word {
        let [byte, rest @ ..] = text else {
            return (false, count);
        };
        count += 1;
        if *first != *byte {
            return (false, count);
        }
        word = words;
        text = rest;
    }
    (true, count)
}

/// How many bytes a text takes from a place on that closes each mark, if there is one, and how many symbols are compared.
pub fn close<A: Alphabet>(
    begin: char,
    shut: char,
    subject: &[u8],
    at: usize,
) -> (Option<usize>, usize)
    ensures value { MatchOption result.0 ((closing begin shut 0 (A.letters.symbols (drop at subject.now)) ≡ None) × (result.1 ≡ length (A.letters.symbols (drop at subject.now)))) (λ n. closing begin shut 0 (A.letters.symbols (drop at subject.now)) ≡ Some (result.1, n)) }
    ensures short { IfSome result.0 (λ n. n ≤ length subject.now - at) }
{
    let mut place = at;
    let mut depth: usize = 0;
    let mut count: usize = 0;
    'symbols: loop {
        let Some((symbol, size)) = symbol_at::<A>(subject, place) else {
            return (None, count);
        };
        count += 1;
        place += size;
        if symbol == shut {
            if depth == 0 {
                return (Some(place - at), count);
            }
            depth -= 1;
        } else if symbol == begin {
            depth += 1;
        }
    }
}

/// The symbol at a place, or zero.
fn symbol_or_zero<A: Alphabet>(subject: &[u8], at: usize) -> char
    ensures { result ≡ first_code (A.letters.symbols (drop at subject.now)) }
{
    match symbol_at::<A>(subject, at) {
        Some((symbol, _)) => symbol,
        None => '\0',
    }
}

/// The symbol before a place, or zero.
fn symbol_before<A: Alphabet>(subject: &[u8], at: usize) -> char
    ensures { result ≡ code_before A.letters subject.now at }
{
    let mut place = at;
    'places: while 0 < place {
        place -= 1;
        if A::starts(text_from(subject, place)) {
            return symbol_or_zero::<A>(subject, place);
        }
    }
    '\0'
}

/// Whether a place is the first of a set behind one that is not in it.
pub fn is_at_frontier<A: Alphabet>(set: &PreparedSet, subject: &[u8], at: usize) -> bool
    ensures { result ≡ is_frontier A.letters set.now subject.now at }
{
    !set.has::<A>(symbol_before::<A>(subject, at)) && set.has::<A>(symbol_or_zero::<A>(subject, at))
}
