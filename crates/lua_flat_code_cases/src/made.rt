//! Flat code of a text.
use lua_code::NoMemory;
use lua_flat_code::{Functions, make};
use lua_parser::parse;
use lua_resolve::resolve;
use lua_syntax::SyntaxFault;
use std::alloc::Global;
use std::hash::RandomState;
use std::test::Fail;

/// The code of a text.
pub fn made_of(alloc: Global, seed: RandomState, text: &[u8]) -> Result<Functions, Fail> {
    if text.len() >= 4000000000 {
        return Err(Fail::from(NoMemory));
    }
    let chunk = parse(alloc, text)?;
    let protos = resolve(alloc, seed, &chunk)?;
    let made = make(alloc, protos)?;
    Ok(made)
}
