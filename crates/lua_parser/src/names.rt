//! Lists of names (manual 8).
ghost use Rattle.std.specs.Prelude.{◌≡◌, ◌<◌, length};
ghost use Rattle.lua_reading.specs.LuaGrammarTokens.{class_at};
ghost use Rattle.lua_reading.specs.LuaGrammarDeclaredTokenClassTheVariants.{Name};
ghost use Rattle.lua_reading.specs.Parsing.{HasOneEnd};
ghost use Rattle.lua_reading.specs.StatAnswers.{NamesAnswer};

use lua_lexer::Token;
use lua_reading::short_lists::short_list;
use lua_reading::tokens::{class_at, copy_at};
use lua_reading::{Fault, Reading, TokenClass, fault_at};
use lua_syntax::{WkBaseBytes as Bytes, WkBaseList as List};
use std::alloc::Global;

// The name at i, and more names with commas between them.
pub(crate) fn names(alloc: Global, toks: &[Token], i: usize) -> Result<Reading<List<Bytes>>, Fault>
    requires ended { HasOneEnd toks.now }
    requires inside { i < length toks.now }
    requires begins { class_at toks.now i ≡ Name }
    ensures { NamesAnswer toks.now i result }
{
    let mut tree = short_list(alloc)?;
    let first = copy_at(alloc, toks, i)?;
    tree.push(first)?;
    let mut end = i + 1;
    'names: loop {
        let TokenClass::Comma = class_at(toks, end) else {
            return Ok(Reading {
                tree,
                end,
                height: 0,
            });
        };
        let TokenClass::Name = class_at(toks, end + 1) else {
            return fault_at(5, end + 1);
        };
        let next = copy_at(alloc, toks, end + 1)?;
        tree.push(next)?;
        end += 2;
    }
}
