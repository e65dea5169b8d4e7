//! The search: a stack of choices, and a budget of tries.
ghost use Rattle.std.specs.Prelude.{◌≡◌, ◌-◌, ◌≤◌, [], length, drop, IfOk};
ghost use Rattle.lua_pattern.specs.Way.{way, costs, starting, first_of, first};
ghost use Rattle.lua_pattern.specs.Runs.{IsNoted};
ghost use Rattle.lua_pattern.specs.Trail.{TrailState};
ghost use Rattle.lua_pattern.specs.Search.{Gives, Meets};

use crate::alphabet::Alphabet;
use crate::item::Item;
use crate::items::{Run, go_on_from};
use crate::passes::{Now, item_at, pass, resume, spend};
use crate::steps::symbol_at;
use crate::trail::Trail;
use wk_base::NoMemory;

/// What the items give at one start; with a match, where it ends, and the marks lie in the trail.
#[derive(Clone, Copy, Debug)]
pub enum Tried {
    Hit(usize),
    Miss,
    Spent,
}

/// Matches the items at one place.
#[tactic(auto, using(crate::proofs::StepLemmas::chain, crate::proofs::Skips::skip_hits, crate::proofs::Skips::skip_turns, crate::proofs::Skips::skip_lighter, crate::proofs::Ends::miss_ends))]
fn attempt<A: Alphabet>(
    items: &[Item],
    idle: &[usize],
    few: &[usize],
    subject: &[u8],
    from: usize,
    left: &mut u64,
    trail: &mut Trail,
) -> Result<Tried, NoMemory>
    requires idle { IsNoted Run.Idle items.now idle.now }
    requires few { IsNoted Run.Few items.now few.now }
    requires fresh { trail.old ≡ record { choices = []; marks = [] } }
    ensures { IfOk result (λ r. Gives (way A.letters items.now subject.now from []) left.old r left.new trail.new.marks) }
{
    let mut now = Now::At(0, from);
    'turns: loop {
        match now {
            Now::At(index, at) => {
                let index = go_on_from::<A>(idle, subject, index, at);
                let Some(item) = item_at(items, index) else {
                    return Ok(Tried::Hit(at));
                };
                now = pass::<A>(item, items, few, subject, index, at, left, trail)?;
            }
            Now::Back => {
                let Some(choice) = trail.pop() else {
                    return Ok(Tried::Miss);
                };
                now = resume::<A>(choice, items, subject, left, trail)?;
            }
            Now::Spent => return Ok(Tried::Spent),
        }
    }
}

/// What the starts give; with a match, where it starts and ends, and the marks lie in the trail.
#[derive(Clone, Copy, Debug)]
pub enum Met {
    Hit(usize, usize),
    Nowhere,
    Spent,
}

/// The first start from a place on with a match.
#[tactic(auto, using(crate::proofs::Starts::start_hits, crate::proofs::Starts::start_ends, crate::proofs::Starts::start_spends))]
fn first_start<A: Alphabet>(
    items: &[Item],
    idle: &[usize],
    few: &[usize],
    subject: &[u8],
    from: usize,
    left: &mut u64,
    trail: &mut Trail,
) -> Result<Met, NoMemory>
    requires idle { IsNoted Run.Idle items.now idle.now }
    requires few { IsNoted Run.Few items.now few.now }
    requires inside { from ≤ length subject.now }
    ensures { IfOk result (λ r. Meets (first_of A.letters items.now subject.now (A.letters.symbols (drop from subject.now)) from) left.old r left.new trail.new.marks) }
{
    let mut start = from;
    'starts: loop {
        trail.clear();
        match attempt::<A>(items, idle, few, subject, start, left, trail)? {
            Tried::Hit(end) => return Ok(Met::Hit(start, end)),
            Tried::Spent => return Ok(Met::Spent),
            Tried::Miss => {
                let Some((_, size)) = symbol_at::<A>(subject, start) else {
                    return Ok(Met::Nowhere);
                };
                start += size;
            }
        }
    }
}

/// A match under `^`, at its only start.
fn only_start<A: Alphabet>(
    items: &[Item],
    idle: &[usize],
    few: &[usize],
    subject: &[u8],
    from: usize,
    left: &mut u64,
    trail: &mut Trail,
) -> Result<Met, NoMemory>
    requires idle { IsNoted Run.Idle items.now idle.now }
    requires few { IsNoted Run.Few items.now few.now }
    ensures { IfOk result (λ r. Meets (starting from (costs 1 (way A.letters items.now subject.now from []))) left.old r left.new trail.new.marks) }
{
    trail.clear();
    if !spend(left, 1) {
        return Ok(Met::Spent);
    }
    match attempt::<A>(items, idle, few, subject, from, left, trail)? {
        Tried::Hit(end) => Ok(Met::Hit(from, end)),
        Tried::Spent => Ok(Met::Spent),
        Tried::Miss => Ok(Met::Nowhere),
    }
}

/// The first match of the items, under `^` at its only start.
pub fn first_met<A: Alphabet>(
    anchored: bool,
    items: &[Item],
    idle: &[usize],
    few: &[usize],
    subject: &[u8],
    from: usize,
    left: &mut u64,
    trail: &mut Trail,
) -> Result<Met, NoMemory>
    requires idle { IsNoted Run.Idle items.now idle.now }
    requires few { IsNoted Run.Few items.now few.now }
    requires inside { from ≤ length subject.now }
    ensures { IfOk result (λ r. Meets (first A.letters anchored items.now subject.now from) left.old r left.new trail.new.marks) }
{
    if anchored {
        only_start::<A>(items, idle, few, subject, from, left, trail)
    } else {
        first_start::<A>(items, idle, few, subject, from, left, trail)
    }
}
