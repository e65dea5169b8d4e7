//! What a tag costs: a step for each of its bytes, which are taken part by part before it is written.
ghost use Rattle.std.specs.Prelude.{◌≡◌, ◌+◌, ◌∷◌, [], List, length, MatchOption};
ghost use Rattle.mw_frames.specs.LuaHeapValue.{Value as Plain};
ghost use Rattle.mw_frames.specs.LuaMeaningArguments.{text_charge};
ghost use Rattle.mw_frames.specs.LuaMeaningTag as meaning;
ghost use Rattle.mw_frames.specs.LuaStoreSeen.{seen};
ghost use Rattle.mw_frames.specs.LuaStoreParts.{IsOf};
ghost use Rattle.mw_frames.specs.LuaBasicSeen.{values_seen, AllOf};
ghost use Rattle.mw_frames.specs.Costs.{Pays};
ghost use Rattle.mw_frame_texts.specs.Written.{attr_written, attrs_written, content_written, tag_written};

use crate::attributes::AttrText;
use crate::contents::Content;
use mw_frames::paying::pay;
use mw_frames::{Left, Stop, Store, Value};

/// How many bytes are written for a byte.
fn reference_cost(byte: u8) -> u64
    ensures { result ≡ length (meaning.reference byte) }
{
    match byte {
        b'&' => 5,
        b'<' => 4,
        b'>' => 4,
        b'"' => 6,
        b'\'' => 5,
        _ => 1,
    }
}

/// How many bytes are written for a byte between others.
fn byte_cost(before: u8, byte: u8, behind: &[u8]) -> u64
    ensures { result ≡ length (meaning.encode_byte before byte behind.now) }
{
    if byte == 0xC2 && behind.first() == Some(&0xA0) {
        return 0;
    }
    if before == 0xC2 && byte == 0xA0 {
        return 6;
    }
    reference_cost(byte)
}

fn split_bytes(bytes: &[u8]) -> Option<(u8, &[u8])>
    ensures { MatchOption result (bytes.now ≡ []) (λ p. bytes.now ≡ p.0 ∷ p.1.now) }
{
    match bytes {
        [byte, behind @ ..] => Some((*byte, behind)),
        [] => None,
    }
}

/// Takes what the value of an attribute costs.
fn pay_value(left: &mut Left, value: &[u8]) -> Result<(), Stop>
    ensures { Pays (length (meaning.encode value.now)) left.old left.new result }
{
    let mut before = 0;
    let mut rest = value;
    'bytes: while let Some((byte, behind)) = split_bytes(rest) {
        pay(left, byte_cost(before, byte, behind))?;
        before = byte;
        rest = behind;
    }
    Ok(())
}

/// Takes what an attribute costs.
fn pay_attr(left: &mut Left, attr: &AttrText) -> Result<(), Stop>
    ensures { Pays (length (attr_written attr.now)) left.old left.new result }
{
    pay(left, 1)?;
    pay(left, attr.name.as_slice().len() as u64)?;
    match &attr.value {
        None => Ok(()),
        Some(value) => {
            pay(left, 3)?;
            pay_value(left, value.as_slice())
        }
    }
}

/// Takes what attributes cost.
fn pay_attrs(left: &mut Left, attrs: &[AttrText]) -> Result<(), Stop>
    ensures { Pays (length (attrs_written attrs.now)) left.old left.new result }
{
    'attrs: for attr in attrs {
        pay_attr(left, attr)?;
    }
    Ok(())
}

/// Takes what follows the attributes.
fn pay_content(left: &mut Left, name: &[u8], content: &Content) -> Result<(), Stop>
    ensures { Pays (length (content_written name.now content.now)) left.old left.new result }
{
    match content {
        Content::Nothing => pay(left, 1),
        Content::Closed => pay(left, 3),
        Content::Text(text) => {
            pay(left, 4)?;
            pay(left, name.len() as u64)?;
            pay(left, text.as_slice().len() as u64)
        }
    }
}

/// Takes what a tag costs.
pub fn pay_tag(
    left: &mut Left,
    name: &[u8],
    attrs: &[AttrText],
    content: &Content,
) -> Result<(), Stop>
    ensures { Pays (length (tag_written name.now attrs.now content.now)) left.old left.new result }
{
    pay(left, 1)?;
    pay(left, name.len() as u64)?;
    pay_attrs(left, attrs)?;
    pay_content(left, name, content)
}

/// What a value costs as an argument: its bytes, where it is a text.
fn text_cost(store: &Store, value: Value) -> u64
    requires { IsOf store.now value }
    ensures { (more : List Plain)
        → text_charge (seen store.now.texts value ∷ more) ≡ result + text_charge more }
{
    match value {
        Value::Text(text) => store.bytes(text).len() as u64,
        Value::Nil => 0,
        Value::Bool(_) => 0,
        Value::Number(_) => 0,
        Value::Table(_) => 0,
        Value::Closure(_) => 0,
        Value::Builtin(_) => 0,
        Value::Markup(_) => 0,
    }
}

/// Takes a step for each byte of the arguments that are texts.
pub fn pay_given(store: &Store, left: &mut Left, given: &[Value]) -> Result<(), Stop>
    requires { AllOf store.now given.now }
    ensures { Pays (text_charge (values_seen store.now.texts given.now)) left.old left.new result }
{
    let mut rest = given;
    'values: while let Some((value, more)) = split_values(rest) {
        pay(left, text_cost(store, value))?;
        rest = more;
    }
    Ok(())
}

fn split_values(values: &[Value]) -> Option<(Value, &[Value])>
    ensures { MatchOption result (values.now ≡ []) (λ p. values.now ≡ p.0 ∷ p.1.now) }
{
    match values {
        [value, more @ ..] => Some((*value, more)),
        [] => None,
    }
}
