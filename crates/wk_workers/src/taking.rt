//! The calls that one worker makes.
ghost use Rattle.std.specs.Prelude.{◌≡◌, ℕ, ◌<◌, IfOk, All};
ghost use Rattle.wk_workers.specs.Given.{IsGiven};

use std::alloc::Global;
use std::sync::atomic::{AtomicUsize, Ordering};
use wk_base::{List, NoMemory};

/// What a call gave, with the number that it was made with.
#[derive(Drop)]
pub(crate) struct Given<X> {
    pub(crate) number: usize,
    pub(crate) value: X,
}

/// Calls f with the next number, again and again, until none below `count` is left. Other workers take numbers from the same counter.
pub(crate) fn take_calls<X: Drop, F: Fn(usize) -> X>(
    alloc: Global,
    next: &AtomicUsize,
    count: usize,
    f: &F,
) -> Result<List<Given<X>>, NoMemory>
    requires { (i : ℕ) → i < count → F.pre f.now i }
    ensures { IfOk result (λ given. All (IsGiven F.Fn f.now count) given) }
{
    let mut all = List::new(alloc);
    for _ in 0..count {
        let number = next.fetch_add(1, Ordering::SeqCst);
        if number >= count {
            break;
        }
        let value = f(number);
        all.push(Given { number, value })?;
    }
    Ok(all)
}
