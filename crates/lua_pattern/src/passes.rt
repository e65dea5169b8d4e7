//! One turn of a search: an item is passed, or a choice is taken up again.
ghost use Rattle.std.specs.Prelude.{◌≡◌, ℕ, List, ◌+◌, ◌-◌, ◌*◌, ◌<◌, ◌≤◌, ◌∷◌, length, drop, slice_index, true, false, IfOk, MatchOption, []};
ghost use Rattle.lua_pattern.specs.Way.{one, star, least_first, maybe, same_again, balanced, test_way, item_way, between_marks, way, or_else};
ghost use Rattle.lua_pattern.specs.Trail.{tried, again, backwards, chosen, one_more, downwards};
ghost use Rattle.lua_pattern.specs.Runs.{IsNoted};
ghost use Rattle.lua_pattern.specs.Letters.{Letters};
ghost use Rattle.lua_pattern.specs.declared.item.Item.{Item as AnItem};
ghost use Rattle.lua_pattern.specs.Search.{from_here, Follows, Lighter, load, heavy, weight, unit, price};

use crate::alphabet::Alphabet;
use crate::fits::fit;
use crate::item::{Item, Single};
use crate::items::{Run, behind_few};
use crate::steps::{close, compare, count_run, is_at_frontier, settle, symbol_at, text_from};
use crate::trail::{Choice, Trail};
use wk_base::NoMemory;

/// Where a search stands.
#[derive(Clone, Copy, Debug)]
pub enum Now {
    /// At the items from one on, at a place of the subject.
    At(usize, usize),
    /// The present way has failed.
    Back,
    /// The next try would exceed the budget.
    Spent,
}

/// Takes tries from those that are left, if they are there.
pub fn spend(left: &mut u64, tries: usize) -> bool
    ensures yes { result ≡ true → (tries ≤ left.old) × (left.new ≡ left.old - tries) }
    ensures no { result ≡ false → (left.old < tries) × (left.new ≡ left.old) }
{
    if tries as u64 <= *left {
        *left -= tries as u64;
        true
    } else {
        false
    }
}

/// A single character: one comparison.
fn pass_one<A: Alphabet>(
    single: &Single,
    items: &[Item],
    subject: &[u8],
    next: usize,
    at: usize,
    left: &mut u64,
    trail: &Trail,
) -> Now
    ensures follows { Follows A.letters items.now subject.now (or_else (one A.letters single.now (A.letters.symbols (drop at subject.now)) (way A.letters (drop next items.now) subject.now) at trail.now.marks) (tried A.letters items.now subject.now trail.now.choices trail.now.marks)) left.old result left.new trail.now }
    ensures lighter { Lighter (length items.now) (length subject.now) next trail.now left.old result left.new trail.now }
{
    let Some((symbol, size)) = symbol_at::<A>(subject, at) else {
        return Now::Back;
    };
    if !spend(left, 1) {
        Now::Spent
    } else if fit::<A>(single, symbol) {
        Now::At(next, at + size)
    } else {
        Now::Back
    }
}

/// The items from one on, at the last place from `high` down to `low` at which a symbol begins; the others are a choice.
#[tactic(auto, using(crate::proofs::StepLemmas::descend_step, crate::proofs::StepLemmas::descend_stay, crate::proofs::Loads::descend_load))]
fn descend<A: Alphabet>(
    items: &[Item],
    subject: &[u8],
    item: usize,
    low: usize,
    high: usize,
    trail: &mut Trail,
) -> Result<Now, NoMemory>
    requires { low ≤ high }
    ensures follows { IfOk result (λ now. (left : ℕ) → Follows A.letters items.now subject.now (or_else (downwards A.letters subject.now (high - low) (way A.letters (drop item items.now) subject.now) low trail.old.marks) (tried A.letters items.now subject.now trail.old.choices trail.old.marks)) left now left trail.new) }
    ensures light { IfOk result (λ now. weight (length items.now) now + heavy (length items.now) trail.new.choices ≤ 2 * (length items.now - item) + 1 + (high - low) * unit (length items.now) + heavy (length items.now) trail.old.choices) }
{
    let place = settle::<A>(subject, low, high);
    if low < place {
        trail.down(item, low, place - 1)?;
        Ok(Now::At(item, place))
    } else {
        Ok(Now::At(item, low))
    }
}

/// `*`
#[tactic(auto, using(crate::proofs::StepLemmas::star_step, crate::proofs::StepLemmas::star_spends, crate::proofs::Loads::star_load))]
fn pass_star<A: Alphabet>(
    single: &Single,
    items: &[Item],
    subject: &[u8],
    next: usize,
    at: usize,
    left: &mut u64,
    trail: &mut Trail,
) -> Result<Now, NoMemory>
    ensures follows { IfOk result (λ now. Follows A.letters items.now subject.now (or_else (star A.letters single.now (A.letters.symbols (drop at subject.now)) (way A.letters (drop next items.now) subject.now) at trail.old.marks) (tried A.letters items.now subject.now trail.old.choices trail.old.marks)) left.old now left.new trail.new) }
    ensures lighter { IfOk result (λ now. Lighter (length items.now) (length subject.now) next trail.old left.old now left.new trail.new) }
{
    match count_run::<A>(single, subject, at, left) {
        None => Ok(Now::Spent),
        Some(count) => {
            let now = descend::<A>(items, subject, next, at, at + count, trail)?;
            Ok(now)
        }
    }
}

/// `?`
#[tactic(auto, using(crate::proofs::Loads::maybe_load))]
fn pass_maybe<A: Alphabet>(
    single: &Single,
    items: &[Item],
    subject: &[u8],
    next: usize,
    at: usize,
    left: &mut u64,
    trail: &mut Trail,
) -> Result<Now, NoMemory>
    ensures follows { IfOk result (λ now. Follows A.letters items.now subject.now (or_else (maybe A.letters single.now (A.letters.symbols (drop at subject.now)) (way A.letters (drop next items.now) subject.now) at trail.old.marks) (tried A.letters items.now subject.now trail.old.choices trail.old.marks)) left.old now left.new trail.new) }
    ensures lighter { IfOk result (λ now. Lighter (length items.now) (length subject.now) next trail.old left.old now left.new trail.new) }
{
    let Some((symbol, size)) = symbol_at::<A>(subject, at) else {
        return Ok(Now::At(next, at));
    };
    if !spend(left, 1) {
        Ok(Now::Spent)
    } else if fit::<A>(single, symbol) {
        trail.down(next, at, at)?;
        Ok(Now::At(next, at + size))
    } else {
        Ok(Now::At(next, at))
    }
}

/// `+`
#[tactic(auto, using(crate::proofs::StepLemmas::plus_step, crate::proofs::Loads::plus_load))]
fn pass_plus<A: Alphabet>(
    single: &Single,
    items: &[Item],
    subject: &[u8],
    next: usize,
    at: usize,
    left: &mut u64,
    trail: &mut Trail,
) -> Result<Now, NoMemory>
    ensures follows { IfOk result (λ now. Follows A.letters items.now subject.now (or_else (one A.letters single.now (A.letters.symbols (drop at subject.now)) (λ p. star A.letters single.now (A.letters.symbols (drop p subject.now)) (way A.letters (drop next items.now) subject.now) p) at trail.old.marks) (tried A.letters items.now subject.now trail.old.choices trail.old.marks)) left.old now left.new trail.new) }
    ensures lighter { IfOk result (λ now. Lighter (length items.now) (length subject.now) next trail.old left.old now left.new trail.new) }
{
    let Some((symbol, size)) = symbol_at::<A>(subject, at) else {
        return Ok(Now::Back);
    };
    if !spend(left, 1) {
        Ok(Now::Spent)
    } else if fit::<A>(single, symbol) {
        pass_star::<A>(single, items, subject, next, at + size, left, trail)
    } else {
        Ok(Now::Back)
    }
}

/// A back reference to a text.
fn pass_back<A: Alphabet>(
    word: &[u8],
    items: &[Item],
    subject: &[u8],
    next: usize,
    at: usize,
    left: &mut u64,
    trail: &Trail,
) -> Now
    ensures follows { Follows A.letters items.now subject.now (or_else (same_again word.now (drop at subject.now) (way A.letters (drop next items.now) subject.now) at trail.now.marks) (tried A.letters items.now subject.now trail.now.choices trail.now.marks)) left.old result left.new trail.now }
    ensures lighter { Lighter (length items.now) (length subject.now) next trail.now left.old result left.new trail.now }
{
    let (begins, tries) = compare(word, text_from(subject, at));
    if !spend(left, tries) {
        Now::Spent
    } else if begins {
        Now::At(next, at + word.len())
    } else {
        Now::Back
    }
}

/// `%b`
fn pass_balance<A: Alphabet>(
    begin: char,
    shut: char,
    items: &[Item],
    subject: &[u8],
    next: usize,
    at: usize,
    left: &mut u64,
    trail: &Trail,
) -> Now
    ensures follows { Follows A.letters items.now subject.now (or_else (balanced begin shut (A.letters.symbols (drop at subject.now)) (way A.letters (drop next items.now) subject.now) at trail.now.marks) (tried A.letters items.now subject.now trail.now.choices trail.now.marks)) left.old result left.new trail.now }
    ensures lighter { Lighter (length items.now) (length subject.now) next trail.now left.old result left.new trail.now }
{
    let Some((symbol, size)) = symbol_at::<A>(subject, at) else {
        return Now::Back;
    };
    if !spend(left, 1) {
        return Now::Spent;
    }
    if symbol != begin {
        return Now::Back;
    }
    let (closed, tries) = close::<A>(begin, shut, subject, at + size);
    if !spend(left, tries) {
        return Now::Spent;
    }
    match closed {
        Some(count) => Now::At(next, at + size + count),
        None => Now::Back,
    }
}

/// An anchor or a frontier, of which it is known whether it holds.
fn pass_test<A: Alphabet>(
    holds: bool,
    items: &[Item],
    subject: &[u8],
    next: usize,
    at: usize,
    left: &mut u64,
    trail: &Trail,
) -> Now
    ensures follows { Follows A.letters items.now subject.now (or_else (test_way holds (way A.letters (drop next items.now) subject.now) at trail.now.marks) (tried A.letters items.now subject.now trail.now.choices trail.now.marks)) left.old result left.new trail.now }
    ensures lighter { Lighter (length items.now) (length subject.now) next trail.now left.old result left.new trail.now }
{
    if !spend(left, 1) {
        Now::Spent
    } else if holds {
        Now::At(next, at)
    } else {
        Now::Back
    }
}

/// A mark of a capture.
fn pass_mark<A: Alphabet>(
    items: &[Item],
    subject: &[u8],
    next: usize,
    at: usize,
    left: &mut u64,
    trail: &mut Trail,
) -> Result<Now, NoMemory>
    ensures follows { IfOk result (λ now. Follows A.letters items.now subject.now (or_else (item_way A.letters Item.Mark subject.now (way A.letters (drop next items.now) subject.now) at trail.old.marks) (tried A.letters items.now subject.now trail.old.choices trail.old.marks)) left.old now left.new trail.new) }
    ensures lighter { IfOk result (λ now. Lighter (length items.now) (length subject.now) next trail.old left.old now left.new trail.new) }
{
    if !spend(left, 1) {
        return Ok(Now::Spent);
    }
    trail.mark(at)?;
    Ok(Now::At(next, at))
}

/// `-`, with those that stand behind it: none takes a symbol at first, and one more of one of them is a choice.
fn pass_minus<A: Alphabet>(
    single: &Single,
    items: &[Item],
    few: &[usize],
    subject: &[u8],
    index: usize,
    at: usize,
    left: &mut u64,
    trail: &mut Trail,
) -> Result<Now, NoMemory>
    requires inside { index < length items.now }
    requires item { drop index items.now ≡ Item.Minus single.now ∷ drop (index + 1) items.now }
    requires few { IsNoted Run.Few items.now few.now }
    ensures follows { IfOk result (λ now. Follows A.letters items.now subject.now (or_else (least_first A.letters single.now (A.letters.symbols (drop at subject.now)) (way A.letters (drop (index + 1) items.now) subject.now) at trail.old.marks) (tried A.letters items.now subject.now trail.old.choices trail.old.marks)) left.old now left.new trail.new) }
    ensures lighter { IfOk result (λ now. Lighter (length items.now) (length subject.now) (index + 1) trail.old left.old now left.new trail.new) }
{
    let next = behind_few(few, index, index + 1);
    trail.up(index, next, at)?;
    Ok(Now::At(next, at))
}

/// The text between two marks.
fn word_between<'s>(subject: &'s [u8], marks: &[usize], first: usize, last: usize) -> &'s [u8]
    ensures { result.now ≡ between_marks subject.now first last marks.now }
{
    let from = mark_at(marks, first);
    let text = text_from(subject, from);
    let wanted = mark_at(marks, last).saturating_sub(from);
    match text.get(..wanted) {
        Some(word) => word,
        None => text,
    }
}

/// The place that a mark keeps, or 0.
pub fn mark_at(marks: &[usize], index: usize) -> usize
    ensures { result ≡ slice_index marks.now index }
{
    match marks.get(index) {
        Some(mark) => *mark,
        None => 0,
    }
}

/// The item at an index.
pub fn item_at(items: &[Item], index: usize) -> Option<&Item>
    ensures { MatchOption result (drop index items.now ≡ []) (λ item. (index < length items.now) × (drop index items.now ≡ item.now ∷ drop (index + 1) items.now)) }
{
    let [item, ..] = items_from(items, index) else {
        return None;
    };
    Some(item)
}

fn items_from(items: &[Item], index: usize) -> &[Item]
    ensures { result.now ≡ drop index items.now }
{
    match items.get(index..) {
        Some(rest) => rest,
        None => &[],
    }
}

/// Passes an item.
#[tactic(auto, using(crate::proofs::StepLemmas::item_step))]
pub fn pass<A: Alphabet>(
    item: &Item,
    items: &[Item],
    few: &[usize],
    subject: &[u8],
    index: usize,
    at: usize,
    left: &mut u64,
    trail: &mut Trail,
) -> Result<Now, NoMemory>
    requires inside { index < length items.now }
    requires item { drop index items.now ≡ item.now ∷ drop (index + 1) items.now }
    requires few { IsNoted Run.Few items.now few.now }
    ensures follows { IfOk result (λ now. Follows A.letters items.now subject.now (from_here A.letters items.now subject.now (Now.At index at) trail.old) left.old now left.new trail.new) }
    ensures lighter { IfOk result (λ now. load (length items.now) (length subject.now) now left.new trail.new < load (length items.now) (length subject.now) (Now.At index at) left.old trail.old) }
{
    let next = index + 1;
    match item {
        Item::One(single) => Ok(pass_one::<A>(single, items, subject, next, at, left, trail)),
        Item::Star(single) => pass_star::<A>(single, items, subject, next, at, left, trail),
        Item::Plus(single) => pass_plus::<A>(single, items, subject, next, at, left, trail),
        Item::Minus(single) => pass_minus::<A>(single, items, few, subject, index, at, left, trail),
        Item::Maybe(single) => pass_maybe::<A>(single, items, subject, next, at, left, trail),
        Item::Back(first, last) => {
            let word = word_between(subject, trail.marks(), *first, *last);
            Ok(pass_back::<A>(word, items, subject, next, at, left, trail))
        }
        Item::Balance(begin, shut) => {
            Ok(pass_balance::<A>(*begin, *shut, items, subject, next, at, left, trail))
        }
        Item::Frontier(set) => {
            let holds = is_at_frontier::<A>(set, subject, at);
            Ok(pass_test::<A>(holds, items, subject, next, at, left, trail))
        }
        Item::Mark => pass_mark::<A>(items, subject, next, at, left, trail),
        Item::End => {
            let holds = at == subject.len();
            Ok(pass_test::<A>(holds, items, subject, next, at, left, trail))
        }
    }
}

/// Goes on with one symbol more of an item that takes as few as it can.
#[tactic(auto, using(crate::proofs::StepLemmas::one_more_step, crate::proofs::Loads::one_more_load))]
fn take_one_more<A: Alphabet>(
    single: &Single,
    items: &[Item],
    subject: &[u8],
    index: usize,
    at: usize,
    left: &mut u64,
    trail: &Trail,
) -> Now
    requires inside { index < length items.now }
    requires item { drop index items.now ≡ Item.Minus single.now ∷ drop (index + 1) items.now }
    ensures follows { Follows A.letters items.now subject.now (or_else (one_more A.letters single.now (A.letters.symbols (drop at subject.now)) (way A.letters (drop (index + 1) items.now) subject.now) at trail.now.marks) (tried A.letters items.now subject.now trail.now.choices trail.now.marks)) left.old result left.new trail.now }
    ensures lighter { load (length items.now) (length subject.now) result left.new trail.now < 1 + heavy (length items.now) trail.now.choices + left.old * price (length items.now) (length subject.now) }
{
    let Some((symbol, size)) = symbol_at::<A>(subject, at) else {
        return Now::Back;
    };
    if !spend(left, 1) {
        Now::Spent
    } else if fit::<A>(single, symbol) {
        Now::At(index, at + size)
    } else {
        Now::Back
    }
}

/// The last item of those whose one symbol more is a choice: those from one on, up to another. The rest stays a choice.
#[tactic(auto, using(crate::proofs::StepLemmas::last_step, crate::proofs::StepLemmas::only_step, crate::proofs::Loads::last_load))]
fn last_of(first: usize, behind: usize, at: usize, trail: &mut Trail) -> Result<usize, NoMemory>
    ensures same { IfOk result (λ index. (a : Letters) (items : List AnItem) (subject : List ℕ) → or_else (backwards a items subject first (behind - 1 - first) at trail.old.marks) (tried a items subject trail.old.choices trail.old.marks) ≡ or_else (again a (drop index items) subject at trail.new.marks) (tried a items subject trail.new.choices trail.new.marks)) }
    ensures lighter { IfOk result (λ index. (count : ℕ) → 1 + heavy count trail.new.choices ≤ behind - 1 - first + 1 + heavy count trail.old.choices) }
{
    let last = behind.saturating_sub(1);
    if first < last {
        trail.up(first, last, at)?;
        Ok(last)
    } else {
        Ok(first)
    }
}

/// One symbol more of the item at an index, if it takes as few as it can.
fn go_again<A: Alphabet>(
    items: &[Item],
    subject: &[u8],
    index: usize,
    at: usize,
    left: &mut u64,
    trail: &Trail,
) -> Now
    ensures follows { Follows A.letters items.now subject.now (or_else (again A.letters (drop index items.now) subject.now at trail.now.marks) (tried A.letters items.now subject.now trail.now.choices trail.now.marks)) left.old result left.new trail.now }
    ensures lighter { load (length items.now) (length subject.now) result left.new trail.now < 1 + heavy (length items.now) trail.now.choices + left.old * price (length items.now) (length subject.now) }
{
    let Some(Item::Minus(single)) = item_at(items, index) else {
        return Now::Back;
    };
    take_one_more::<A>(single, items, subject, index, at, left, trail)
}

/// Takes a choice up again.
#[tactic(auto, using(crate::proofs::StepLemmas::again_step, crate::proofs::Loads::again_load))]
pub fn resume<A: Alphabet>(
    choice: Choice,
    items: &[Item],
    subject: &[u8],
    left: &mut u64,
    trail: &mut Trail,
) -> Result<Now, NoMemory>
    ensures follows { IfOk result (λ now. Follows A.letters items.now subject.now (or_else (chosen A.letters items.now subject.now choice trail.old.marks) (tried A.letters items.now subject.now trail.old.choices trail.old.marks)) left.old now left.new trail.new) }
    ensures lighter { IfOk result (λ now. load (length items.now) (length subject.now) now left.new trail.new < heavy (length items.now) (choice ∷ trail.old.choices) + left.old * price (length items.now) (length subject.now)) }
{
    match choice {
        Choice::Down(item, low, high, _) => {
            if low < high {
                let now = descend::<A>(items, subject, item, low, high, trail)?;
                Ok(now)
            } else {
                Ok(Now::At(item, low))
            }
        }
        Choice::Up(first, behind, at, _) => {
            let index = last_of(first, behind, at, trail)?;
            Ok(go_again::<A>(items, subject, index, at, left, trail))
        }
    }
}
