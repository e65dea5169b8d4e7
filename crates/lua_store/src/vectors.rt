//! Changes of a vector.
ghost use Rattle.std.specs.Prelude.{◌≡◌, ◌++◌, ◌∷◌, ◌<◌, [], Some, length, slice_get, slice_set, IfOk, OnErr};

use wk_base::NoMemory;

/// Adds an item at the end, and gives its place.
pub fn push<T: Drop>(items: &mut Vec<T>, item: T) -> Result<usize, NoMemory>
    ensures ok { IfOk result (λ at. (at ≡ length items.old.items) × (items.new.items ≡ items.old.items ++ item ∷ [])) }
    ensures err { OnErr result (items.new.items ≡ items.old.items) }
{
    let at = items.len();
    match items.push(item) {
        Ok(_) => Ok(at),
        Err(_) => Err(NoMemory),
    }
}

/// Puts an item at a place, and gives back the one that was there.
pub fn replace<T: Drop>(items: &mut Vec<T>, at: usize, item: T) -> T
    requires { at < length items.old.items }
    ensures was { slice_get items.old.items at ≡ Some result }
    ensures set { items.new.items ≡ slice_set items.old.items at item }
{
    std::mem::replace(&mut items[at], item)
}
