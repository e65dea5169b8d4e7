//! What is told of a text that is no Lua (manual 1: a chunk that does not compile has an error message with its place).
ghost use Rattle.std.specs.Prelude.{◌≡◌, ◌++◌, IfOk, OnOk};
ghost use Rattle.lua_syntax.specs.FaultTexts.{fault_text, fault_message};

use crate::fault::FaultAt;
use itoa::Buffer;
use std::alloc::Global;
use wk_base::{NoMemory, Title};

/// More bytes behind a text.
fn append(made: &mut Vec<u8>, more: &[u8]) -> Result<(), NoMemory>
    ensures { OnOk result (made.new.items ≡ made.old.items ++ more.now) }
{
    match made.extend_from_slice(more) {
        Ok(_) => Ok(()),
        Err(_) => Err(NoMemory),
    }
}

/// What is wrong with the text of a module, by the number of its fault.
fn fault_text(kind: u8) -> &'static [u8]
    ensures { result.now ≡ fault_text kind }
{
    match kind {
        0 => b"unfinished string",
        1 => b"unfinished string",
        2 => b"unfinished long bracket",
        3 => b"escape out of range",
        4 => b"unexpected byte",
        5 => b"unexpected token",
        6 => b"numeral is not a whole number in range",
        7 => b"nested too deeply",
        8 => b"break outside a loop",
        9 => b"call on a new line",
        10 => b"... outside a vararg function",
        _ => b"",
    }
}

/// What is wrong with the text of a module, with its place in front.
pub fn fault_message(alloc: Global, title: &Title, fault: &FaultAt) -> Result<Vec<u8>, NoMemory>
    ensures { IfOk result (λ made. made.items ≡ fault_message title.now fault.now) }
{
    let mut buffer = Buffer::new();
    let name = title.text()?;
    let mut made = Vec::new(alloc);
    append(&mut made, name.as_slice())?;
    append(&mut made, b":")?;
    append(&mut made, buffer.format(fault.line).as_bytes())?;
    append(&mut made, b": ")?;
    append(&mut made, fault_text(fault.kind))?;
    Ok(made)
}
