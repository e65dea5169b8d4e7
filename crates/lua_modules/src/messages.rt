//! Texts of failures (manual 2.7; Scribunto, "require" and mw.loadData).
ghost use Rattle.std.specs.Prelude.{◌≡◌, ◌++◌, IfOk, OnOk};
ghost use Rattle.lua_state.specs.LuaMeaningMessages as meaning;

use lua_code::NoMemory;
use std::alloc::Global;

/// More bytes behind a text.
fn append(made: &mut Vec<u8>, more: &[u8]) -> Result<(), NoMemory>
    ensures { OnOk result (made.new.items ≡ made.old.items ++ more.now) }
{
    match made.extend_from_slice(more) {
        Ok(_) => Ok(()),
        Err(_) => Err(NoMemory),
    }
}

/// That there is no module of the title that this text names.
pub fn no_module(alloc: Global, text: &[u8]) -> Result<Vec<u8>, NoMemory>
    ensures { IfOk result (λ made. made.items ≡ meaning.no_module text.now) }
{
    let mut made = Vec::new(alloc);
    append(&mut made, b"module '")?;
    append(&mut made, text)?;
    append(&mut made, b"' not found")?;
    Ok(made)
}

/// That a module of this name requires itself.
pub fn loop_in_require(alloc: Global, text: &[u8]) -> Result<Vec<u8>, NoMemory>
    ensures { IfOk result (λ made. made.items ≡ meaning.loop_in_require text.now) }
{
    let mut made = Vec::new(alloc);
    append(&mut made, b"loop in require of '")?;
    append(&mut made, text)?;
    append(&mut made, b"'")?;
    Ok(made)
}

/// That there is no data module of the title that this text names.
pub fn no_data_module(alloc: Global, text: &[u8]) -> Result<Vec<u8>, NoMemory>
    ensures { IfOk result (λ made. made.items ≡ meaning.no_data_module text.now) }
{
    let mut made = Vec::new(alloc);
    append(&mut made, b"data module '")?;
    append(&mut made, text)?;
    append(&mut made, b"' not found")?;
    Ok(made)
}
