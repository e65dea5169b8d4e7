//! What is rare or large stands behind a box, so that what is handed from move to move stays small.
ghost use Rattle.std.specs.Prelude.{◌≡◌, IfOk};

use mw_frame::NoMemory;
use std::alloc::Global;

/// A box for a value.
pub fn boxed<T: Drop>(alloc: Global, value: T) -> Result<Box<T>, NoMemory>
    ensures { IfOk result (λ b. b.value ≡ value) }
{
    match Box::new(alloc, value) {
        Ok(held) => Ok(held),
        Err(_) => Err(NoMemory),
    }
}
