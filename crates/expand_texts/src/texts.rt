//! The texts that stand where an expansion is refused.
ghost use Rattle.std.specs.Prelude.{◌≡◌, ◌++◌, codes, flat_map, IfOk, OnOk};
ghost use Rattle.expand_meaning.specs.Texts.{node_text, size_text, depth_text, loop_text, missing_text, escape_byte, escaped, error_text, no_function_text, no_module_text};

use std::alloc::Global;
use wk_base::{NoMemory, Title};

/// A copy of a text.
pub fn copied(alloc: Global, text: &[u8]) -> Result<Vec<u8>, NoMemory>
    ensures { IfOk result (λ made. made.items ≡ text.now) }
{
    match text.to_vec(alloc) {
        Ok(made) => Ok(made),
        Err(_) => Err(NoMemory),
    }
}

/// A text behind another one.
pub fn append(out: &mut Vec<u8>, text: &[u8]) -> Result<(), NoMemory>
    ensures { OnOk result (out.new.items ≡ out.old.items ++ text.now) }
{
    match out.extend_from_slice(text) {
        Ok(_) => Ok(()),
        Err(_) => Err(NoMemory),
    }
}

/// Three texts in a row.
pub fn joined(alloc: Global, first: &[u8], second: &[u8], third: &[u8]) -> Result<Vec<u8>, NoMemory>
    ensures { IfOk result (λ made. made.items ≡ first.now ++ second.now ++ third.now) }
{
    let mut out = copied(alloc, first)?;
    append(&mut out, second)?;
    append(&mut out, third)?;
    Ok(out)
}

/// No node is left.
#[tactic(auto, unfolding(expand_meaning::specs::Texts::node_text))]
pub fn node_text() -> &'static [u8]
    ensures { result.now ≡ node_text }
{
    b"<span class=\"error\">Node limit exceeded</span>"
}

/// No byte is left.
#[tactic(auto, unfolding(expand_meaning::specs::Texts::size_text))]
pub fn size_text() -> &'static [u8]
    ensures { result.now ≡ size_text }
{
    b"<span class=\"error\">Include size exceeded</span>"
}

/// No level of depth or of templates is left.
#[tactic(auto, unfolding(expand_meaning::specs::Texts::depth_text))]
pub fn depth_text() -> &'static [u8]
    ensures { result.now ≡ depth_text }
{
    b"<span class=\"error\">Expansion depth limit exceeded</span>"
}

/// A template includes itself.
#[tactic(auto, unfolding(expand_meaning::specs::Texts::loop_text))]
pub fn loop_text(alloc: Global, title: &Title) -> Result<Vec<u8>, NoMemory>
    ensures { IfOk result (λ made. made.items ≡ loop_text title.now) }
{
    let name = title.text()?;
    let made = joined(
        alloc,
        b"<span class=\"error\">Template loop detected: [[:",
        name.as_slice(),
        b"]]</span>",
    )?;
    Ok(made)
}

/// A link to a page that isn't held.
#[tactic(auto, unfolding(expand_meaning::specs::Texts::missing_text))]
pub fn missing_text(alloc: Global, title: &Title) -> Result<Vec<u8>, NoMemory>
    ensures { IfOk result (λ made. made.items ≡ missing_text title.now) }
{
    let name = title.text()?;
    let made = joined(alloc, b"[[:", name.as_slice(), b"]]")?;
    Ok(made)
}

/// A byte as HTML writes it.
#[tactic(auto, unfolding(expand_meaning::specs::Texts::escape_byte))]
fn append_escaped(out: &mut Vec<u8>, byte: u8) -> Result<(), NoMemory>
    ensures { OnOk result (out.new.items ≡ out.old.items ++ escape_byte byte) }
{
    if byte == b'&' {
        append(out, b"&amp;")?;
        return Ok(());
    }
    if byte == b'<' {
        append(out, b"&lt;")?;
        return Ok(());
    }
    if byte == b'>' {
        append(out, b"&gt;")?;
        return Ok(());
    }
    append(out, &[byte])?;
    Ok(())
}

/// A text as HTML writes it.
fn append_all_escaped(out: &mut Vec<u8>, mut text: &[u8]) -> Result<(), NoMemory>
    ensures { OnOk result (out.new.items ≡ out.old.items ++ escaped text.now) }
{
    while let [first, rest @ ..] = text {
        append_escaped(out, *first)?;
        text = rest;
    }
    Ok(())
}

/// What an `#invoke` that fails stands for.
#[tactic(auto, unfolding(expand_meaning::specs::Texts::error_text))]
fn error_text(alloc: Global, message: &[u8]) -> Result<Vec<u8>, NoMemory>
    ensures { IfOk result (λ made. made.items ≡ error_text message.now) }
{
    let mut out = copied(alloc, b"<strong class=\"error\">")?;
    append_all_escaped(&mut out, message)?;
    append(&mut out, b"</strong>")?;
    Ok(out)
}

/// An `#invoke` without a second part.
#[tactic(auto, unfolding(expand_meaning::specs::Texts::no_function_text))]
pub fn no_function_text(alloc: Global) -> Result<Vec<u8>, NoMemory>
    ensures { IfOk result (λ made. made.items ≡ no_function_text) }
{
    let made = error_text(alloc, b"Script error: You must specify a function to call.")?;
    Ok(made)
}

/// An `#invoke` of a module that isn't held.
#[tactic(auto, unfolding(expand_meaning::specs::Texts::no_module_text))]
pub fn no_module_text(alloc: Global, name: &[u8]) -> Result<Vec<u8>, NoMemory>
    ensures { IfOk result (λ made. made.items ≡ no_module_text name.now) }
{
    let message = joined(alloc, b"Script error: No such module \"", name, b"\".")?;
    let made = error_text(alloc, &message)?;
    Ok(made)
}
