//! Parameters of functions (manual 2.5.9).
ghost use Rattle.std.specs.Prelude.{◌≡◌, ◌<◌, ◌≤◌, ◌+◌, length, IfOk, IfErr};
ghost use Rattle.lua_reading.specs.declared.answer.Fault.TheVariants.{NoMemory};
ghost use Rattle.lua_reading.specs.LuaGrammarTokens.{class_at, tok_at};
ghost use Rattle.lua_reading.specs.Parsing.{HasOneEnd};
ghost use Rattle.lua_reading.specs.Answers.{self_first, MaybeEmpty, params_lang, params_goes};
ghost use Rattle.lua_parser.specs.Parts.{params_view};

use lua_lexer::Token;
use lua_reading::tokens::{class_at, copy_at};
use lua_reading::{Fault, Reading, TokenClass, fault_at};
use lua_syntax::{WkBaseBytes as Bytes, WkBaseList as List};
use std::alloc::Global;

/// The names of parameters, and whether `...` follows them.
#[derive(Drop)]
pub struct ParameterList {
    pub names: List<Bytes>,
    pub dots: bool,
}

// Parameters, up to their `)`.
pub(crate) fn params(
    alloc: Global,
    toks: &[Token],
    i: usize,
) -> Result<Reading<ParameterList>, Fault>
    requires ended { HasOneEnd toks.now }
    requires inside { i < length toks.now }
    ensures { (a : _)
        → MaybeEmpty toks.now params_view (params_lang toks.now) params_goes a i result }
{
    let mut names = List::new(alloc);
    if let TokenClass::RightParen = class_at(toks, i) {
        return Ok(ended(names, false, i));
    }
    let mut at = i;
    'params: loop {
        match class_at(toks, at) {
            TokenClass::Dots => return Ok(ended(names, true, at + 1)),
            TokenClass::Name => {
                names.push(copy_at(alloc, toks, at)?)?;
                let TokenClass::Comma = class_at(toks, at + 1) else {
                    return Ok(ended(names, false, at + 1));
                };
                at += 2;
            }
            _ => return fault_at(5, at),
        }
    }
}

// The parameters up to a place.
fn ended(names: List<Bytes>, dots: bool, end: usize) -> Reading<ParameterList>
    ensures { result
        ≡ record { tree = record { names = names; dots = dots }; end = end; height = 0 } }
{
    Reading {
        tree: ParameterList { names, dots },
        end,
        height: 0,
    }
}

// A method has `self` before its parameters.
pub(crate) fn with_self(
    alloc: Global,
    method: bool,
    names: List<Bytes>,
) -> Result<List<Bytes>, Fault>
    ensures ok { IfOk result (λ ns. ns ≡ self_first method names) }
    ensures err { IfErr result (λ e. e ≡ NoMemory) }
{
    if !method {
        return Ok(names);
    }
    let mut all = names.into_vec();
    all.insert(0, Bytes::of(alloc, b"self")?)?;
    Ok(List::of_vec(all))
}
