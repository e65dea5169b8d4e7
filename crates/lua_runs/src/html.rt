//! Texts without marks of HTML.
ghost use Rattle.std.specs.Prelude.{◌≡◌, ◌++◌, ◌∷◌, [], flat_map, IfOk, OnOk, MatchOption};
ghost use Rattle.lua_code.specs.LuaMeaningStart.{escape_byte};

use lua_code::NoMemory;
use std::alloc::Global;

/// More bytes behind these.
pub fn append(made: &mut Vec<u8>, more: &[u8]) -> Result<(), NoMemory>
    ensures { OnOk result (made.new.items ≡ made.old.items ++ more.now) }
{
    match made.extend_from_slice(more) {
        Ok(_) => Ok(()),
        Err(_) => Err(NoMemory),
    }
}

/// Adds a byte, or the reference for it.
fn put(made: &mut Vec<u8>, byte: u8) -> Result<(), NoMemory>
    ensures { OnOk result (made.new.items ≡ made.old.items ++ escape_byte byte) }
{
    if byte == b'&' {
        return append(made, b"&amp;");
    }
    if byte == b'<' {
        return append(made, b"&lt;");
    }
    if byte == b'>' {
        return append(made, b"&gt;");
    }
    append(made, &[byte])
}

/// The first byte of a text and those behind it.
fn split(text: &[u8]) -> Option<(u8, &[u8])>
    ensures { MatchOption result (text.now ≡ []) (λ p. text.now ≡ p.0 ∷ p.1.now) }
{
    match text {
        [byte, behind @ ..] => Some((*byte, behind)),
        [] => None,
    }
}

/// The text with `&`, `<` and `>` as references, so that it can stand in a page as it is.
pub fn escaped(alloc: Global, text: &[u8]) -> Result<Vec<u8>, NoMemory>
    ensures { IfOk result (λ made. made.items ≡ flat_map escape_byte text.now) }
{
    let mut made = Vec::new(alloc);
    let mut rest = text;
    'bytes: while let Some((byte, behind)) = split(rest) {
        put(&mut made, byte)?;
        rest = behind;
    }
    Ok(made)
}
