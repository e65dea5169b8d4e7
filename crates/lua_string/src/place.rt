//! Places of Lua in a text, and the parts between them (Lua 5.1 manual, 5.4).
ghost use Rattle.std.specs.Prelude.{◌≡◌, ◌≤◌, IfOk};
ghost use Rattle.lua_string.specs.Places.{first_place as first_place_lem, last_place as last_place_lem, sub_of};

use lua_number::NoMemory;
use lua_pattern::List;
use std::alloc::Global;

/// How many bytes stand before a place, in a text of `len` bytes.
pub fn first_place(len: usize, place: i64) -> usize
    ensures place { result ≡ first_place_lem len place }
    ensures within { result ≤ len }
{
    let distance = place.unsigned_abs();
    if place < 0 {
        return (len as u64).saturating_sub(distance) as usize;
    }
    distance.saturating_sub(1).min(len as u64) as usize
}

/// How many bytes stand up to a place and at it, in a text of `len` bytes.
pub fn last_place(len: usize, place: i64) -> usize
    ensures place { result ≡ last_place_lem len place }
    ensures within { result ≤ len }
{
    let distance = place.unsigned_abs();
    if place < 0 {
        return (len as u64).saturating_sub(distance - 1) as usize;
    }
    distance.min(len as u64) as usize
}

/// The bytes from one place to another, both included, in the text itself.
pub fn part(s: &[u8], from: i64, to: i64) -> &[u8]
    ensures { result.now ≡ sub_of s.now from to }
{
    let first = first_place(s.len(), from);
    let last = last_place(s.len(), to);
    if last <= first {
        return &[];
    }
    &s[first..last]
}

/// `string.sub(s, from, to)`
pub fn sub(alloc: Global, s: &[u8], from: i64, to: i64) -> Result<Vec<u8>, NoMemory>
    ensures { IfOk result (λ made. made.items ≡ sub_of s.now from to) }
{
    match part(s, from, to).to_vec(alloc) {
        Ok(made) => Ok(made),
        Err(_) => Err(NoMemory),
    }
}

/// `string.byte(s, from, to)`: the codes.
pub fn byte(alloc: Global, s: &[u8], from: i64, to: i64) -> Result<List<u8>, NoMemory>
    ensures { IfOk result (λ codes. codes ≡ sub_of s.now from to) }
{
    Ok(List::of_vec(sub(alloc, s, from, to)?))
}
