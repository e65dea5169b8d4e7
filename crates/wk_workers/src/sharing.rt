//! Calls with all numbers below a count, by some workers.
ghost use Rattle.std.specs.Prelude.{◌≡◌, ℕ, ◌<◌, IfOk, vec_len};
ghost use Rattle.std.specs.Fork.{GivesEach};
ghost use Rattle.wk_workers.specs.Given.{AreGiven};

use crate::placing::ordered;
use crate::taking::{Given, take_calls};
use std::alloc::Global;
use std::sync::atomic::AtomicUsize;
use std::thread;
use std::thread::Threads;
use wk_base::{List, NoMemory};

/// What each worker's calls gave, in as many threads as there are workers.
fn calls_of_workers<R: Threads + Sync, X: Send + Drop, F: Fn(usize) -> X + Sync>(
    rt: &R,
    alloc: Global,
    workers: usize,
    count: usize,
    f: &F,
) -> Result<Vec<Result<List<Given<X>>, NoMemory>>, NoMemory>
    requires { (i : ℕ) → i < count → F.pre f.now i }
    ensures { IfOk result (λ parts. AreGiven F.Fn f.now count parts.items) }
{
    let next = AtomicUsize::new(0);
    match thread::map_indices(
        rt,
        alloc,
        workers,
        &|_worker| take_calls(alloc, &next, count, f),
    ) {
        Ok(parts) => Ok(parts),
        Err(_) => Err(NoMemory),
    }
}

/// Calls f(0) to f(count - 1), by so many workers, each in a thread of its own where one can be made, and gives the results in the order of the
/// numbers. Each worker makes the next call that nobody has begun, so that none waits while calls are left. On `Err`, which means that memory ran
/// out, the results are dropped.
pub fn map_by_workers<R: Threads + Sync, X: Send + Drop, F: Fn(usize) -> X + Sync>(
    rt: &R,
    alloc: Global,
    workers: usize,
    count: usize,
    f: &F,
) -> Result<Vec<X>, NoMemory>
    requires accepts { (i : ℕ) → i < count → F.pre f.now i }
    ensures len { IfOk result (λ values. vec_len values ≡ count) }
    ensures each { IfOk result (λ values. GivesEach F.Fn f.now count values.items) }
{
    let parts = calls_of_workers(rt, alloc, workers, count, f)?;
    ordered(alloc, count, parts, f)
}
