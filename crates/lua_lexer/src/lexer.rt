//! A whole text as its tokens.
ghost use Rattle.std.specs.Prelude.{◌≡◌, ◌+◌, ◌^◌, ◌<◌, ◌++◌, ◌∷◌, [], length, IfOk, IfErr, OnOk};
ghost use Rattle.lua_lexer.specs.Lexis.{tokens_of, end_token};
ghost use Rattle.lua_lexer.specs.Answers.{IsLexed, IsStop, OneList, NoListWithFault, OneFault};

use crate::brackets::breaks;
use crate::pieces::piece;
use crate::token::{Piece, Stop, Token, TokenKind};
use lua_syntax::{FaultAt, SyntaxFault, WkBaseList as List};
use std::alloc::Global;

/// The tokens of a text, the last of them `End`, with white space and comments left out (manual 2.1).
///
/// Where the text is not white space, comments and tokens in turn, the answer is the fault at the first place where none
/// of them stands, with the line of that place: 1 unfinished string, 2 unfinished long bracket or long comment, 3 escape
/// above 255, 4 a byte that begins no token.
pub fn lex(alloc: Global, text: &[u8]) -> Result<List<Token>, SyntaxFault>
    requires { length text.now < 4000000000 }
    ensures { IsLexed result text.now }
{
    let mut tokens = List::new(alloc);
    let mut left = text;
    let mut place = 0;
    let mut line = 1;
    while !left.is_empty() {
        match piece(alloc, left) {
            Err(stop) => return Err(fault(stop, line)),
            Ok(piece) => {
                let size = piece.size;
                let (front, back) = left.split_at(size);
                let end_line = line + breaks(front) as u32;
                add(&mut tokens, piece, place, line, end_line)?;
                left = back;
                place += size;
                line = end_line;
            }
        }
    }
    end(tokens, place, line)
}

fn fault(stop: Stop, line: u32) -> SyntaxFault
    ensures { IsStop result stop line }
{
    match stop {
        Stop::Fault(kind) => SyntaxFault::At(FaultAt { kind, line }),
        Stop::NoMemory => SyntaxFault::NoMemory,
    }
}

// The token that a piece is, if it is one, put behind the others.
fn add(
    tokens: &mut List<Token>,
    piece: Piece,
    place: usize,
    line: u32,
    end_line: u32,
) -> Result<(), SyntaxFault>
    requires { place + piece.size < 2 ^ 64 }
    ensures ok { OnOk result (tokens.new ≡ tokens.old ++ tokens_of piece place line end_line) }
    ensures err { IfErr result (λ e. e ≡ SyntaxFault.NoMemory) }
{
    let Piece { kind, size } = piece;
    match kind {
        None => Ok(()),
        Some(kind) => push(
            tokens,
            Token {
                kind,
                start: place,
                end: place + size,
                line,
                end_line,
            },
        ),
    }
}

fn push(tokens: &mut List<Token>, token: Token) -> Result<(), SyntaxFault>
    ensures ok { OnOk result (tokens.new ≡ tokens.old ++ token ∷ []) }
    ensures err { IfErr result (λ e. e ≡ SyntaxFault.NoMemory) }
{
    match tokens.push(token) {
        Ok(_) => Ok(()),
        Err(_) => Err(SyntaxFault::NoMemory),
    }
}

// The whole list, ended by `End`.
fn end(mut tokens: List<Token>, place: usize, line: u32) -> Result<List<Token>, SyntaxFault>
    ensures ok { IfOk result (λ list. list ≡ tokens ++ end_token place line ∷ []) }
    ensures err { IfErr result (λ e. e ≡ SyntaxFault.NoMemory) }
{
    let token = Token {
        kind: TokenKind::End,
        start: place,
        end: place,
        line,
        end_line: line,
    };
    push(&mut tokens, token)?;
    Ok(tokens)
}

/// The law that a text has at most one list of tokens, and none where it has a fault.
pub fn is_lexed_once(text: &[u8])
    ensures tokens { OneList text.now }
    ensures fault { NoListWithFault text.now }
    ensures faults { OneFault text.now }
{
    let _same = text;
}
