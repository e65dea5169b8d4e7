//! A whole text as its chunk.
ghost use Rattle.std.specs.Prelude.{◌≡◌, ◌<◌, length};
ghost use Rattle.lua_reading.specs.Parsing.{HasOneEnd};
ghost use Rattle.lua_parser.specs.Chunks.{ChunkAnswer, IsParsed};

use crate::blocks::block;
use lua_lexer::{Token, lex};
use lua_reading::tokens::{class_at, line_at};
use lua_reading::{Context, Fault, TokenClass, fault_at};
use lua_syntax::{Block, Chunk, FaultAt, SyntaxFault};
use std::alloc::Global;

/// The chunk that a text spells (manual 8), or its first fault.
///
/// A fault of the lexis comes first (1 to 4). Else the fault is at the first token with which the tokens so far begin no
/// chunk, tried in this order: 5 unexpected token, 6 numeral without a value, 7 a node with more than 200 nodes above it,
/// 8 `break` outside a loop of its function, 9 the `(` of a call on another line than the end of the token before it,
/// 10 `...` outside a vararg function.
pub fn parse(alloc: Global, text: &[u8]) -> Result<Chunk, SyntaxFault>
    requires { length text.now < 4000000000 }
    ensures { IsParsed result text.now }
{
    match lex(alloc, text) {
        Err(fault) => Err(fault),
        Ok(tokens) => {
            let toks = tokens.as_slice();
            match chunk(alloc, toks) {
                Ok(body) => Ok(Chunk { body }),
                Err(Fault::NoMemory) => Err(SyntaxFault::NoMemory),
                Err(Fault::At(fault)) => {
                    let line = line_at(toks, fault.place);
                    let kind = fault.kind;
                    Err(SyntaxFault::At(FaultAt { kind, line }))
                }
            }
        }
    }
}

// The block that all tokens but the end spell.
fn chunk(alloc: Global, toks: &[Token]) -> Result<Block, Fault>
    requires { HasOneEnd toks.now }
    ensures { ChunkAnswer toks.now result }
{
    let context = Context {
        above: 0,
        inside_loop: false,
        vararg: true,
    };
    let body = block(alloc, toks, 0, context)?;
    let TokenClass::Eof = class_at(toks, body.end) else {
        return fault_at(5, body.end);
    };
    Ok(body.tree)
}
