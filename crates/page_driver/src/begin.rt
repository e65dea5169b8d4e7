//! What a page, or an invocation by itself, begins with.
ghost use Rattle.std.specs.Prelude.{◌≡◌, []};
ghost use Rattle.mw_frame.specs.WkBaseAllowances.{IsCountable};
ghost use Rattle.page_driver.specs.Driven.{Fits};
ghost use Rattle.page_driver.specs.Page.{full_of};

use crate::tower::Tower;
use mw_frame::Limits;
use page_tasks::{Keep, Left, Numbers, Stack};
use std::alloc::Global;
use std::hash::RandomState;

/// Nothing waits, and nothing is kept.
pub(crate) fn empty_tower<'w>(alloc: Global, seed: RandomState, numbers: Numbers) -> Tower<'w>
    ensures stack { result.stack ≡ [] }
    ensures keep { result.keep ≡ [] }
    ensures repeat_charges { result.repeat_charges ≡ 0 }
    ensures numbers { result.numbers ≡ numbers }
{
    Tower {
        stack: Stack::new(alloc),
        keep: Keep::new(alloc, seed),
        repeat_charges: 0,
        numbers,
    }
}

/// All that may be used.
pub(crate) fn full_left(limits: &Limits) -> Left
    requires { IsCountable limits.now }
    ensures full { result ≡ full_of limits.now }
    ensures fits { Fits result }
{
    let limits = *limits;
    Left::full(&limits)
}
