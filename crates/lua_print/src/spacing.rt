//! Which items open and close a level, and which stand beside one another without a space.
ghost use Rattle.std.specs.Prelude.{◌≡◌, ◌==◌};
ghost use Rattle.lua_lexer.specs.Lexis.{at};
ghost use Rattle.lua_print.specs.Layout.{is_opening, is_closing, is_outdented, hugs_left, hugs_right, can_be_called, calls_or_indexes, is_left_bracket, is_left_brace, is_right_brace, is_tight};

use lua_reading::TokenClass;

/// `do then repeat function {`
pub fn is_opening(class: Option<TokenClass>) -> bool
    ensures { result ≡ is_opening class }
{
    matches!(
        class,
        Some(
            TokenClass::Do
                | TokenClass::Then
                | TokenClass::Repeat
                | TokenClass::Function
                | TokenClass::LeftBrace
        )
    )
}

/// `end until elseif }`
pub fn is_closing(class: Option<TokenClass>) -> bool
    ensures { result ≡ is_closing class }
{
    matches!(
        class,
        Some(TokenClass::End | TokenClass::Until | TokenClass::Elseif | TokenClass::RightBrace)
    )
}

/// `end until elseif else }`: what stands one level less deep than the items before it.
pub fn is_outdented(class: Option<TokenClass>) -> bool
    ensures { result ≡ is_outdented class }
{
    match class {
        Some(TokenClass::Else) => true,
        class => is_closing(class),
    }
}

// , ; ) ] . :
fn hugs_left(class: Option<TokenClass>) -> bool
    ensures { result ≡ hugs_left class }
{
    matches!(
        class,
        Some(
            TokenClass::Comma
                | TokenClass::Semicolon
                | TokenClass::RightParen
                | TokenClass::RightBracket
                | TokenClass::Dot
                | TokenClass::Colon
        )
    )
}

// ( # . :
fn hugs_right(class: Option<TokenClass>) -> bool
    ensures { result ≡ hugs_right class }
{
    matches!(
        class,
        Some(TokenClass::LeftParen | TokenClass::Hash | TokenClass::Dot | TokenClass::Colon)
    )
}

fn can_be_called(class: Option<TokenClass>) -> bool
    ensures { result ≡ can_be_called class }
{
    matches!(
        class,
        Some(TokenClass::Name | TokenClass::RightParen | TokenClass::RightBracket)
    )
}

fn calls_or_indexes(class: Option<TokenClass>) -> bool
    ensures { result ≡ calls_or_indexes class }
{
    matches!(class, Some(TokenClass::LeftParen | TokenClass::LeftBracket))
}

fn is_left_bracket(class: Option<TokenClass>) -> bool
    ensures { result ≡ is_left_bracket class }
{
    matches!(class, Some(TokenClass::LeftBracket))
}

fn is_left_brace(class: Option<TokenClass>) -> bool
    ensures { result ≡ is_left_brace class }
{
    matches!(class, Some(TokenClass::LeftBrace))
}

fn is_right_brace(class: Option<TokenClass>) -> bool
    ensures { result ≡ is_right_brace class }
{
    matches!(class, Some(TokenClass::RightBrace))
}

/// Whether the text begins with `[`.
fn begins_with_bracket(bytes: &[u8]) -> bool
    ensures { result ≡ (at bytes.now 0 == 91) }
{
    match bytes {
        [first, ..] => *first == b'[',
        [] => false,
    }
}

/// Whether no space stands between two items on one line, the second of which has these bytes.
pub fn is_tight(before: Option<TokenClass>, class: Option<TokenClass>, bytes: &[u8]) -> bool
    ensures { result ≡ is_tight before class bytes.now }
{
    hugs_left(class)
        || (hugs_right(before)
            || ((can_be_called(before) && calls_or_indexes(class))
                || ((is_left_brace(before) && is_right_brace(class))
                    || (is_left_bracket(before) && !begins_with_bracket(bytes)))))
}
