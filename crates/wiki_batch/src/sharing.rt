//! Shares of a list, and what is made of them, put together in order.
ghost use Rattle.std.specs.Prelude.{◌≡◌, ℕ, ◌≤◌, ◌<◌, ◌*◌, ◌++◌, IfOk, OnOk, length, drop, take};
ghost use Rattle.wiki_batch.specs.Shares.{Joined};

use std::alloc::Global;
use wk_base::{List, NoMemory};

/// How many shares there are for a job, where there are as many items. Jobs take shares in turn, and one of them waits for the others' last
/// share at the end.
const SHARES_FOR_JOB: usize = 128;

/// How many items a share has, where `count` items are made by `jobs` threads.
pub(crate) fn share_size(count: usize, jobs: usize) -> usize
    requires { 1 ≤ jobs }
    ensures { 0 < result }
{
    count.saturating_sub(1) / jobs.saturating_mul(SHARES_FOR_JOB) + 1
}

/// How many shares of `size` items there are.
pub(crate) fn share_count(count: usize, size: usize) -> usize
    requires { 0 < size }
    ensures within { (j : ℕ) → j < result → j * size ≤ count }
    ensures whole { count ≤ result * size }
{
    count.div_ceil(size)
}

/// The items of the share with the number j, where a share has `size` items.
pub(crate) fn share_of<T>(items: &[T], size: usize, j: usize) -> &[T]
    requires { j * size ≤ length items.now }
    ensures { result.now ≡ take size (drop (j * size) items.now) }
{
    let rest = &items[j * size..];
    &rest[..rest.len().min(size)]
}

/// Adds the items of a part.
fn append<T: Drop>(all: &mut List<T>, part: List<T>) -> Result<(), NoMemory>
    ensures { OnOk result (all.new ≡ all.old ++ part) }
{
    for item in part.into_vec() {
        all.push(item)?;
    }
    Ok(())
}

/// The items of all parts, where none lacked memory.
pub(crate) fn gathered<T: Drop>(
    alloc: Global,
    parts: Vec<Result<List<T>, NoMemory>>,
) -> Result<List<T>, NoMemory>
    ensures { IfOk result (λ all. Joined parts.items all) }
{
    let mut all = List::new(alloc);
    for part in parts {
        append(&mut all, part?)?;
    }
    Ok(all)
}
