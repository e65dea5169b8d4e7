//! Many runs of one case.
use crate::case::Case;
use crate::runs::{Allowed, Ended, end_of};
use lua_code::NoMemory;
use page_run::Which;
use std::alloc::Global;
use std::hash::RandomState;

/// What many runs come to: all are as they should be, from this number of steps or calls on; or this number gives something else.
#[derive(Clone, Copy)]
pub enum Found {
    From(u64),
    Differs(u64),
    /// The first run was spent.
    Endless,
}

/// Numbers of steps and calls that are left over.
const MORE: [u64; 5] = [0, 1, 2, 7, 1000];

/// What a start takes at once.
pub const START: u64 = 1000;

/// Of the numbers of steps below the first that is tried without a gap, every so many one is tried.
const GAP: u64 = 61;

/// Whether a number of steps is tried.
fn is_tried(steps: u64, first: u64) -> bool {
    steps >= first || steps % GAP == 0
}

/// Whether a run was spent for want of steps, and none are left.
fn wants_steps(end: &Ended) -> bool {
    matches!(end.spent, Some(Which::Steps)) && end.steps == 0
}

/// Whether a run was spent for want of calls, and gave back all of them.
fn wants_calls(end: &Ended, calls: u64) -> bool {
    matches!(end.spent, Some(Which::Calls)) && end.calls == calls
}

/// Whether two runs ended in the same words.
fn ends_alike(a: &Ended, b: &Ended) -> bool {
    a.said.text.as_bytes() == b.said.text.as_bytes()
}

/// Whether a run with so many steps is spent as it should be.
fn is_too_short(
    alloc: Global,
    seed: RandomState,
    case: &Case,
    allowed: Allowed,
) -> Result<bool, NoMemory> {
    let end = end_of(alloc, seed, case, allowed)?;
    Ok(wants_steps(&end))
}

/// Whether a run ends like the whole one, with so many steps left.
fn leaves(
    alloc: Global,
    seed: RandomState,
    case: &Case,
    whole: &Ended,
    allowed: Allowed,
    left: u64,
) -> Result<bool, NoMemory> {
    let end = end_of(alloc, seed, case, allowed)?;
    Ok(ends_alike(&end, whole) && end.steps == left)
}

/// Of the numbers of steps that are tried below what a case needs the first with which it isn't spent as it should be.
fn first_wrong(
    alloc: Global,
    seed: RandomState,
    case: &Case,
    need: Allowed,
    first: u64,
) -> Result<Option<u64>, NoMemory> {
    let calls = need.calls;
    for steps in 0..need.steps {
        if is_tried(steps, first) && !is_too_short(alloc, seed, case, Allowed { steps, calls })? {
            return Ok(Some(steps));
        }
    }
    Ok(None)
}

/// Whether runs with so many steps, and with some more, all give an end, and what is more is left.
fn same_above(
    alloc: Global,
    seed: RandomState,
    case: &Case,
    whole: &Ended,
    need: Allowed,
) -> Result<bool, NoMemory> {
    let calls = need.calls;
    for more in MORE {
        let steps = need.steps.saturating_add(more);
        if !leaves(alloc, seed, case, whole, Allowed { steps, calls }, more)? {
            return Ok(false);
        }
    }
    Ok(true)
}

/// What is told of a case that needs so many steps, once none below them differs.
fn found_above(
    alloc: Global,
    seed: RandomState,
    case: &Case,
    whole: &Ended,
    need: Allowed,
) -> Result<Found, NoMemory> {
    match same_above(alloc, seed, case, whole, need) {
        Ok(true) => Ok(Found::From(need.steps)),
        Ok(false) => Ok(Found::Differs(need.steps)),
        Err(NoMemory) => Err(NoMemory),
    }
}

fn found_around(
    alloc: Global,
    seed: RandomState,
    case: &Case,
    whole: &Ended,
    need: Allowed,
    first: u64,
) -> Result<Found, NoMemory> {
    match first_wrong(alloc, seed, case, need, first) {
        Ok(Some(steps)) => Ok(Found::Differs(steps)),
        Ok(None) => found_above(alloc, seed, case, whole, need),
        Err(NoMemory) => Err(NoMemory),
    }
}

/// What the runs come to beside the whole one.
fn steps_beside(
    alloc: Global,
    seed: RandomState,
    case: &Case,
    whole: &Ended,
    allowed: Allowed,
    first: u64,
) -> Result<Found, NoMemory> {
    if matches!(whole.spent, Some(Which::Steps)) {
        return Ok(Found::Endless);
    }
    let need = Allowed {
        steps: allowed.steps.saturating_sub(whole.steps),
        calls: allowed.calls,
    };
    found_around(alloc, seed, case, whole, need, first)
}

/// Runs a case with each number of steps from the first one on up to what it needs, with some numbers below the first one, and with some
/// steps more than it needs.
pub fn every_step(
    alloc: Global,
    seed: RandomState,
    case: &Case,
    allowed: Allowed,
    first: u64,
) -> Result<Found, NoMemory> {
    let whole = end_of(alloc, seed, case, allowed)?;
    steps_beside(alloc, seed, case, &whole, allowed, first)
}

/// Whether a run ends like the whole one, and gives back all calls.
fn gives_back(
    alloc: Global,
    seed: RandomState,
    case: &Case,
    whole: &Ended,
    allowed: Allowed,
) -> Result<bool, NoMemory> {
    let end = end_of(alloc, seed, case, allowed)?;
    Ok(ends_alike(&end, whole) && end.calls == allowed.calls)
}

/// Whether runs with some more calls all give an end, and give back all calls.
fn same_with_more(
    alloc: Global,
    seed: RandomState,
    case: &Case,
    whole: &Ended,
    need: Allowed,
) -> Result<bool, NoMemory> {
    let steps = need.steps;
    for more in MORE {
        let calls = need.calls.saturating_add(more);
        if !gives_back(alloc, seed, case, whole, Allowed { steps, calls })? {
            return Ok(false);
        }
    }
    Ok(true)
}

/// What a run with fewer calls shows.
#[derive(Clone, Copy)]
enum Shown {
    /// It is spent for want of calls, and gives them back.
    TooFew,
    /// It isn't spent.
    Enough,
    Wrong,
}

fn shown_by(end: &Ended, calls: u64) -> Shown {
    match end.spent {
        None => Shown::Enough,
        Some(_) if wants_calls(end, calls) => Shown::TooFew,
        Some(_) => Shown::Wrong,
    }
}

fn shown_with(
    alloc: Global,
    seed: RandomState,
    case: &Case,
    allowed: Allowed,
) -> Result<Shown, NoMemory> {
    let end = end_of(alloc, seed, case, allowed)?;
    Ok(shown_by(&end, allowed.calls))
}

/// Below so many calls, the first number with which a case isn't spent for want of them, and what it shows.
fn first_enough(
    alloc: Global,
    seed: RandomState,
    case: &Case,
    allowed: Allowed,
) -> Result<(u64, Shown), NoMemory> {
    let steps = allowed.steps;
    for calls in 0..allowed.calls {
        match shown_with(alloc, seed, case, Allowed { steps, calls })? {
            Shown::TooFew => {}
            shown => return Ok((calls, shown)),
        }
    }
    Ok((allowed.calls, Shown::TooFew))
}

fn found_from(
    alloc: Global,
    seed: RandomState,
    case: &Case,
    whole: &Ended,
    need: Allowed,
) -> Result<Found, NoMemory> {
    match same_with_more(alloc, seed, case, whole, need) {
        Ok(true) => Ok(Found::From(need.calls)),
        Ok(false) => Ok(Found::Differs(need.calls)),
        Err(NoMemory) => Err(NoMemory),
    }
}

/// What the runs come to beside the whole one.
fn calls_beside(
    alloc: Global,
    seed: RandomState,
    case: &Case,
    whole: &Ended,
    allowed: Allowed,
) -> Result<Found, NoMemory> {
    if whole.spent.is_some() {
        return Ok(Found::Endless);
    }
    let steps = allowed.steps;
    match first_enough(alloc, seed, case, allowed)? {
        (calls, Shown::Enough) => found_from(alloc, seed, case, whole, Allowed { steps, calls }),
        (calls, Shown::Wrong) => Ok(Found::Differs(calls)),
        (calls, Shown::TooFew) => Ok(Found::From(calls)),
    }
}

/// The least number of calls with which a case isn't spent; below it each run is spent for want of calls, and gives them back.
pub fn least_calls(
    alloc: Global,
    seed: RandomState,
    case: &Case,
    allowed: Allowed,
) -> Result<Found, NoMemory> {
    let whole = end_of(alloc, seed, case, allowed)?;
    calls_beside(alloc, seed, case, &whole, allowed)
}
