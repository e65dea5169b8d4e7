//! A copy of a text without the white space at its ends.
ghost use Rattle.std.specs.Prelude.{◌≡◌, IfOk};
ghost use Rattle.wk_base.specs.Space.{trim};

use crate::texts::copied;
use std::alloc::Global;
use wk_base::NoMemory;
use wk_base::space::trim;

/// A copy of the text without the white space at its ends.
pub fn trimmed(alloc: Global, text: &[u8]) -> Result<Vec<u8>, NoMemory>
    ensures { IfOk result (λ made. made.items ≡ trim text.now) }
{
    copied(alloc, trim(text))
}
