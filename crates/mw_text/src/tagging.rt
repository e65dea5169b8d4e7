//! `tag`: an element of HTML as a text (Scribunto manual, mw.text.tag).
ghost use Rattle.std.specs.Prelude.{◌≡◌, [], ◌∷◌, ◌++◌, IfOk, OnOk, MatchOption};
ghost use Rattle.mw_text.specs.Tag.{reference as reference_lem, encode_byte, encode, attribute, attributes, closed_by, tag_of};

use mw_ustring::{Bytes, NoMemory, push_all};
use std::alloc::Global;

/// The value of an attribute; `Alone` where it is written without one.
#[derive(Drop, Debug)]
pub enum TagValue {
    Text(Bytes),
    Alone,
}

/// An attribute with its name.
#[derive(Drop, Debug)]
pub struct TagAttr {
    pub name: Bytes,
    pub value: TagValue,
}

/// What follows the attributes: `>` alone, ` />`, or a text and the closing tag.
#[derive(Drop, Debug)]
pub enum TagContent {
    Nothing,
    Closed,
    Text(Bytes),
}

/// How a byte of a value is written, if not as itself.
fn reference(byte: u8) -> Option<&'static [u8]>
    ensures { MatchOption result (reference_lem byte ≡ byte ∷ []) (λ text. text.now ≡ reference_lem byte) }
{
    match byte {
        b'&' => Some(b"&amp;"),
        b'<' => Some(b"&lt;"),
        b'>' => Some(b"&gt;"),
        b'"' => Some(b"&quot;"),
        b'\'' => Some(b"&#39;"),
        _ => None,
    }
}

fn put_byte(made: &mut Vec<u8>, before: u8, byte: u8, behind: &[u8]) -> Result<(), NoMemory>
    ensures { OnOk result (made.new.items ≡ made.old.items ++ encode_byte before byte behind.now) }
{
    if byte == 0xC2 && behind.first() == Some(&0xA0) {
        return Ok(());
    }
    if before == 0xC2 && byte == 0xA0 {
        return push_all(made, b"&nbsp;");
    }
    match reference(byte) {
        Some(text) => push_all(made, text),
        None => push_all(made, &[byte]),
    }
}

/// Adds a value with `&`, `<`, `>`, `"`, `'` and U+00A0 as references.
fn put_value(made: &mut Vec<u8>, value: &[u8]) -> Result<(), NoMemory>
    ensures { OnOk result (made.new.items ≡ made.old.items ++ encode value.now) }
{
    let mut before = 0;
    let mut rest = value;
    'bytes: while let [byte, behind @ ..] = rest {
        put_byte(made, before, *byte, behind)?;
        before = *byte;
        rest = behind;
    }
    Ok(())
}

fn put_attribute(made: &mut Vec<u8>, attr: &TagAttr) -> Result<(), NoMemory>
    ensures { OnOk result (made.new.items ≡ made.old.items ++ attribute attr.now.name attr.now.value) }
{
    push_all(made, b" ")?;
    push_all(made, attr.name.as_slice())?;
    match &attr.value {
        TagValue::Alone => Ok(()),
        TagValue::Text(text) => {
            push_all(made, b"=\"")?;
            put_value(made, text.as_slice())?;
            push_all(made, b"\"")
        }
    }
}

fn put_attributes(made: &mut Vec<u8>, attrs: &[TagAttr]) -> Result<(), NoMemory>
    ensures { OnOk result (made.new.items ≡ made.old.items ++ attributes attrs.now) }
{
    let mut rest = attrs;
    'attrs: while let [attr, behind @ ..] = rest {
        put_attribute(made, attr)?;
        rest = behind;
    }
    Ok(())
}

fn put_content(made: &mut Vec<u8>, name: &[u8], content: &TagContent) -> Result<(), NoMemory>
    ensures { OnOk result (made.new.items ≡ made.old.items ++ closed_by name.now content.now) }
{
    match content {
        TagContent::Nothing => push_all(made, b">"),
        TagContent::Closed => push_all(made, b" />"),
        TagContent::Text(text) => {
            push_all(made, b">")?;
            push_all(made, text.as_slice())?;
            push_all(made, b"</")?;
            push_all(made, name)?;
            push_all(made, b">")
        }
    }
}

/// `mw.text.tag(name, attrs, content)`: the tag with its attributes in this order. In their values `&`, `<`, `>`, `"`, `'`
/// and U+00A0 are written as references; the name and the content stay as they are.
pub fn tag(
    alloc: Global,
    name: &[u8],
    attrs: &[TagAttr],
    content: &TagContent,
) -> Result<Vec<u8>, NoMemory>
    ensures { IfOk result (λ made. made.items ≡ tag_of name.now attrs.now content.now) }
{
    let mut made = Vec::new(alloc);
    push_all(&mut made, b"<")?;
    push_all(&mut made, name)?;
    put_attributes(&mut made, attrs)?;
    put_content(&mut made, name, content)?;
    Ok(made)
}
