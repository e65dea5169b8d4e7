//! `trim`, within a budget of steps (Scribunto manual, mw.text.trim).
ghost use Rattle.std.specs.Prelude.{◌≡◌, ◌-◌, ◌<◌, ◌≤◌, reverse, chars, encode_utf8_all, IsUtf8, MatchOption, MatchResult};
ghost use Rattle.std.specs.Option.{option_map};
ghost use Rattle.mw_text.specs.Sets.{chosen_set, member, IsChoiceFault};
ghost use Rattle.mw_text.specs.Trim.{is_space, skipped, looked, trimmed, trim_tries, IsTrimmed};

use crate::answers::TextAnswer;
use crate::ends::{first_point, last_point};
use crate::sets::{is_trimmed, read_choice};
use mw_ustring::{PatternFault, PreparedSet, text_of};
use std::alloc::Global;

/// The text behind the members of a set in front. Each comparison takes one of the tries that are left; where these do not
/// suffice, there is no answer.
fn skip_front<'t>(set: &Option<PreparedSet>, text: &'t str, left: &mut u64) -> Option<&'t str>
    ensures { MatchOption result (left.old < looked (member is_space set.now) (chars text.now)) (λ rest. (chars rest.now ≡ skipped (member is_space set.now) (chars text.now)) × (looked (member is_space set.now) (chars text.now) ≤ left.old) × (left.new ≡ left.old - looked (member is_space set.now) (chars text.now))) }
{
    let mut rest = text;
    'points: loop {
        let Some((point, behind)) = first_point(rest) else {
            return Some(rest);
        };
        if *left == 0 {
            return None;
        }
        *left -= 1;
        if !is_trimmed(set, point) {
            return Some(rest);
        }
        rest = behind;
    }
}

/// The same from the back.
fn skip_back<'t>(set: &Option<PreparedSet>, text: &'t str, left: &mut u64) -> Option<&'t str>
    ensures { MatchOption result (left.old < looked (member is_space set.now) (reverse (chars text.now))) (λ rest. (reverse (chars rest.now) ≡ skipped (member is_space set.now) (reverse (chars text.now))) × (looked (member is_space set.now) (reverse (chars text.now)) ≤ left.old) × (left.new ≡ left.old - looked (member is_space set.now) (reverse (chars text.now)))) }
{
    let mut rest = text;
    'points: loop {
        let Some((point, before)) = last_point(rest) else {
            return Some(rest);
        };
        if *left == 0 {
            return None;
        }
        *left -= 1;
        if !is_trimmed(set, point) {
            return Some(rest);
        }
        rest = before;
    }
}

/// The part of a text that stays, if the tries that are left suffice.
fn middle<'t>(set: &Option<PreparedSet>, text: &'t str, left: &mut u64) -> Option<&'t [u8]>
    ensures { MatchOption result (left.old < trim_tries (member is_space set.now) (chars text.now)) (λ rest. (rest.now ≡ encode_utf8_all (trimmed (member is_space set.now) (chars text.now))) × (trim_tries (member is_space set.now) (chars text.now) ≤ left.old) × (left.new ≡ left.old - trim_tries (member is_space set.now) (chars text.now))) }
{
    let Some(rest) = skip_front(set, text, left) else {
        return None;
    };
    match skip_back(set, rest, left) {
        Some(kept) => Some(kept.as_bytes()),
        None => None,
    }
}

/// `mw.text.trim(s, set)`: the text without the code points of the set at both ends. `set` is what stands between `[` and
/// `]` in a pattern; without it tab, line feed, form feed, carriage return and space go.
///
/// It is `Spent` exactly where the comparisons and the bytes of what stays together exceed the budget. The fault is that of
/// the set, whatever the budget is.
pub fn trim(
    alloc: Global,
    s: &[u8],
    set: Option<&[u8]>,
    budget: u64,
) -> Result<TextAnswer, PatternFault>
    requires text { IsUtf8 s.now }
    ensures { MatchResult result (λ made. IsTrimmed budget s.now (chosen_set (option_map (λ t. t.now) set.entry)) made) (λ e. IsChoiceFault (chosen_set (option_map (λ t. t.now) set.entry)) e) }
{
    let set = match read_choice(alloc, set) {
        Ok(set) => set,
        Err(fault) => return Err(fault),
    };
    let mut left = budget;
    let Some(kept) = middle(&set, text_of(s), &mut left) else {
        return Ok(TextAnswer::Spent);
    };
    if left < kept.len() as u64 {
        return Ok(TextAnswer::Spent);
    }
    match kept.to_vec(alloc) {
        Ok(made) => Ok(TextAnswer::Text(made, budget - left)),
        Err(_) => Err(PatternFault::NoMemory),
    }
}
