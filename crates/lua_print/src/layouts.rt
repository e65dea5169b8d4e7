//! The layout of a text, or its first fault.
ghost use Rattle.std.specs.Prelude.{◌≡◌, ◌<◌, length, IfOk};
ghost use Rattle.lua_print.specs.Items.{items_of};
ghost use Rattle.lua_print.specs.Layout.{layout_of};
ghost use Rattle.lua_print.specs.Answers.{IsChecked, IsArranged, IsLayout, ParsesSame};

use crate::items::items_of;
use crate::laying::laid;
use lua_lexer::lex;
use lua_parser::parse;
use lua_syntax::{NoMemory, SyntaxFault, WkBaseBytes as Bytes};
use std::alloc::Global;

/// Whether the text is a chunk.
fn check(alloc: Global, text: &[u8]) -> Result<(), SyntaxFault>
    requires { length text.now < 4000000000 }
    ensures { IsChecked result text.now }
{
    match parse(alloc, text) {
        Ok(chunk) => {
            drop(chunk);
            Ok(())
        }
        Err(fault) => Err(fault),
    }
}

/// The text's items, laid out.
fn arranged(alloc: Global, text: &[u8]) -> Result<Bytes, SyntaxFault>
    requires { length text.now < 4000000000 }
    ensures { IsArranged result text.now }
{
    match lex(alloc, text) {
        Err(fault) => Err(fault),
        Ok(tokens) => match items_of(alloc, text, tokens.as_slice()) {
            Err(NoMemory) => Err(SyntaxFault::NoMemory),
            Ok(items) => match laid(alloc, items.as_slice()) {
                Err(NoMemory) => Err(SyntaxFault::NoMemory),
                Ok(made) => Ok(made),
            },
        },
    }
}

/// The layout of a text: its tokens and comments with the white space between them in order, or the fault that `parse` gives.
pub fn layout(alloc: Global, text: &[u8]) -> Result<Bytes, SyntaxFault>
    requires { length text.now < 4000000000 }
    ensures answer { IsLayout result text.now }
    // A layout has the items of its text,
    ensures items { IfOk result (λ bytes. items_of bytes ≡ items_of text.now) }
    // is the same chunk, lines aside,
    ensures same { IfOk result (λ bytes. ParsesSame bytes text.now) }
    // and is its own layout.
    ensures again { IfOk result (λ bytes. layout_of bytes ≡ bytes) }
{
    match check(alloc, text) {
        Err(fault) => Err(fault),
        Ok(()) => arranged(alloc, text),
    }
}
