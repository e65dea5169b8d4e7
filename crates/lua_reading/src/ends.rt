//! Which tokens end a block.
ghost use Rattle.std.specs.Prelude.{◌≡◌};
ghost use Rattle.lua_reading.specs.Parsing.{block_goes, last_goes};
ghost use Rattle.lua_reading.specs.StatAnswers.{closing};

use lua_grammar::TokenClass;

/// Whether a block goes on with a token.
pub fn goes_on_block(class: TokenClass) -> bool
    ensures { result ≡ block_goes class }
{
    match class {
        TokenClass::Else
        | TokenClass::Elseif
        | TokenClass::End
        | TokenClass::Until
        | TokenClass::Eof => false,
        _ => true,
    }
}

/// Whether a token can't be behind a `return` that is whole.
pub fn goes_on_return(class: TokenClass) -> bool
    ensures { result ≡ last_goes class }
{
    match class {
        TokenClass::Semicolon => false,
        _ => goes_on_block(class),
    }
}

/// Whether a statement that begins so ends its block.
pub fn closes(class: TokenClass) -> bool
    ensures { result ≡ closing class }
{
    match class {
        TokenClass::Return | TokenClass::Break => true,
        _ => false,
    }
}
