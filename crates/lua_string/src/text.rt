//! Texts that are made of others (Lua 5.1 manual, 5.4).
ghost use Rattle.std.specs.Prelude.{◌≡◌, ◌++◌, length, map, reverse as reverse_lem, IfOk, OnOk, Some, None, MatchOption};
ghost use Rattle.std.specs.Char.{to_ascii_lowercase, to_ascii_uppercase};
ghost use Rattle.lua_string.specs.Texts.{bytes_of, how_many, rep_of, copies, saturated};

use lua_number::NoMemory;
use std::alloc::Global;

/// `string.char(..)`: the bytes with these codes; None where one is not from 0 to 255.
pub fn char_of(alloc: Global, codes: &[i64]) -> Result<Option<Vec<u8>>, NoMemory>
    ensures { IfOk result (λ made. MatchOption made (bytes_of codes.now ≡ None) (λ v. bytes_of codes.now ≡ Some v.items)) }
{
    let mut made = Vec::new(alloc);
    let mut left = codes;
    'codes: while let [code, rest @ ..] = left {
        let Ok(byte) = u8::try_from(*code) else {
            return Ok(None);
        };
        match made.push(byte) {
            Ok(_) => {}
            Err(_) => return Err(NoMemory),
        }
        left = rest;
    }
    Ok(Some(made))
}

/// `string.len(s)`
pub fn len(s: &[u8]) -> usize
    ensures { result ≡ length s.now }
{
    s.len()
}

/// `string.lower(s)`: the letters of ASCII.
pub fn lower(alloc: Global, s: &[u8]) -> Result<Vec<u8>, NoMemory>
    ensures { IfOk result (λ made. made.items ≡ map to_ascii_lowercase s.now) }
{
    match s
        .iter()
        .map(|byte| byte.to_ascii_lowercase())
        .collect(alloc)
    {
        Ok(made) => Ok(made),
        Err(_) => Err(NoMemory),
    }
}

/// `string.upper(s)`: the letters of ASCII.
pub fn upper(alloc: Global, s: &[u8]) -> Result<Vec<u8>, NoMemory>
    ensures { IfOk result (λ made. made.items ≡ map to_ascii_uppercase s.now) }
{
    match s
        .iter()
        .map(|byte| byte.to_ascii_uppercase())
        .collect(alloc)
    {
        Ok(made) => Ok(made),
        Err(_) => Err(NoMemory),
    }
}

/// `string.reverse(s)`
pub fn reverse(alloc: Global, s: &[u8]) -> Result<Vec<u8>, NoMemory>
    ensures { IfOk result (λ made. made.items ≡ reverse_lem s.now) }
{
    match s.iter().rev().copied().collect(alloc) {
        Ok(made) => Ok(made),
        Err(_) => Err(NoMemory),
    }
}

fn count_of(n: i64) -> u64
    ensures { result ≡ how_many n }
{
    if n < 0 { 0 } else { n.unsigned_abs() }
}

/// Appends bytes.
pub fn push_all(out: &mut Vec<u8>, bytes: &[u8]) -> Result<(), NoMemory>
    ensures { OnOk result (out.new.items ≡ out.old.items ++ bytes.now) }
{
    match out.extend_from_slice(bytes) {
        Ok(_) => Ok(()),
        Err(_) => Err(NoMemory),
    }
}

#[tactic(auto, using(crate::proofs::Copies::copies_more))]
fn repeated(alloc: Global, s: &[u8], count: u64) -> Result<Vec<u8>, NoMemory>
    ensures { IfOk result (λ made. made.items ≡ copies count s.now) }
{
    let mut made = Vec::new(alloc);
    'copies: for _turn in 0..count {
        push_all(&mut made, s)?;
    }
    Ok(made)
}

/// `string.rep(s, n)`: empty where `n` is below 1.
#[tactic(auto, using(crate::proofs::Copies::copies_none))]
pub fn rep(alloc: Global, s: &[u8], n: i64) -> Result<Vec<u8>, NoMemory>
    ensures { IfOk result (λ made. made.items ≡ rep_of s.now n) }
{
    if s.is_empty() {
        return Ok(Vec::new(alloc));
    }
    repeated(alloc, s, count_of(n))
}

/// How many bytes `rep` gives, without making them; the greatest number where they are more.
#[tactic(auto, using(crate::proofs::Copies::copies_length))]
pub fn rep_length(s: &[u8], n: i64) -> u64
    ensures { result ≡ saturated (length (rep_of s.now n)) }
{
    (s.len() as u64).saturating_mul(count_of(n))
}
