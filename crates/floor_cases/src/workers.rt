//! Calls that workers share: what they give, by tables; and that a worker that waits holds back no call but its own.

use crate::rows::holds;
use std::alloc::Global;
use std::hint::spin_loop;
use std::sync::atomic::{AtomicU64, Ordering};
use std::test::Fail;
use std::thread::Threads;
use wk_base::NoMemory;
use wk_workers::map_by_workers;

/// How many turns a worker waits at most.
const PATIENCE: u64 = 1_000_000_000;

/// Numbers of workers and of calls.
const ROWS: [(usize, usize); 8] = [
    (1, 0),
    (3, 0),
    (1, 1),
    (2, 1),
    (4, 3),
    (1, 100),
    (4, 100),
    (64, 1000),
];

fn doubles<R: Threads + Sync>(
    rt: &R,
    alloc: Global,
    workers: usize,
    count: usize,
) -> Result<Vec<usize>, NoMemory> {
    map_by_workers(rt, alloc, workers, count, &|i| i.saturating_mul(2))
}

/// Whether these are as many doubles, in order.
fn are_doubles(values: &[usize], count: usize) -> bool {
    for i in 0..values.len() {
        if values[i] != i.saturating_mul(2) {
            return false;
        }
    }
    values.len() == count
}

/// Whether so many workers give so many doubles.
fn give<R: Threads + Sync>(rt: &R, alloc: Global, workers: usize, count: usize) -> bool {
    match doubles(rt, alloc, workers, count) {
        Ok(values) => are_doubles(values.as_slice(), count),
        Err(_) => false,
    }
}

/// Whether each row gives its doubles.
fn rows_give<R: Threads + Sync>(rt: &R, alloc: Global) -> bool {
    for (workers, count) in ROWS {
        if !give(rt, alloc, workers, count) {
            return false;
        }
    }
    true
}

#[test]
fn results_come_in_the_order_of_the_numbers(rt: HostRuntime) -> Result<(), Fail> {
    holds(&rt, rows_give(&rt, rt.alloc()), "doubles");
    Ok(())
}

/// Whether two others have begun, for which call 0 waits; the others count themselves.
fn meets(begun: &AtomicU64, number: usize) -> bool {
    if number > 0 {
        begun.fetch_add(1, Ordering::SeqCst);
        return true;
    }
    for _ in 0..PATIENCE {
        if begun.load(Ordering::SeqCst) == 2 {
            return true;
        }
        spin_loop();
    }
    false
}

fn met<R: Threads + Sync>(rt: &R, alloc: Global) -> Result<Vec<bool>, NoMemory> {
    let begun = AtomicU64::new(0);
    map_by_workers(rt, alloc, 2, 3, &|number| meets(&begun, number))
}

/// Whether all three calls gave that they met.
fn all_met<R: Threads + Sync>(rt: &R, alloc: Global) -> bool {
    match met(rt, alloc) {
        Ok(met) => matches!(met.as_slice(), [true, true, true]),
        Err(_) => false,
    }
}

#[test]
fn a_call_that_waits_holds_no_other_back(rt: HostRuntime) -> Result<(), Fail> {
    holds(&rt, all_met(&rt, rt.alloc()), "met");
    Ok(())
}
