//! The texts of a tag, copied for `mw_text::tag`. All that is copied is paid for.
ghost use Rattle.std.specs.Prelude.{◌≡◌, IfOk};
ghost use Rattle.mw_frames.specs.LuaMeaningScope.{Bytes as Text};
ghost use Rattle.mw_text.specs.Tag as plain;
ghost use Rattle.mw_frame_texts.specs.Written.{attr_written, attrs_written, content_written, tag_written};

use crate::attributes::AttrText;
use crate::contents::Content;
use lua_number::NoMemory;
use mw_text::{Bytes, List, TagAttr, TagContent, TagValue, tag};
use std::alloc::Global;

/// An attribute with copies of its texts.
fn copy_attr(alloc: Global, attr: &AttrText) -> Result<TagAttr, NoMemory>
    ensures { IfOk result (λ copy. plain.attribute copy.name copy.value ≡ attr_written attr.now) }
{
    let name = Bytes::of(alloc, attr.name.as_slice())?;
    match &attr.value {
        None => Ok(TagAttr {
            name,
            value: TagValue::Alone,
        }),
        Some(value) => {
            let copy = Bytes::of(alloc, value.as_slice())?;
            Ok(TagAttr {
                name,
                value: TagValue::Text(copy),
            })
        }
    }
}

/// Attributes with copies of their texts.
fn copy_attrs(alloc: Global, attrs: &[AttrText]) -> Result<List<TagAttr>, NoMemory>
    ensures { IfOk result (λ copies. plain.attributes copies ≡ attrs_written attrs.now) }
{
    let mut copies = List::new(alloc);
    'attrs: for attr in attrs {
        let copy = copy_attr(alloc, attr)?;
        copies.push(copy)?;
    }
    Ok(copies)
}

/// What follows the attributes, with a copy of its text.
fn copy_content(alloc: Global, content: &Content) -> Result<TagContent, NoMemory>
    ensures { IfOk result (λ copy.
        (name : Text) → plain.closed_by name copy ≡ content_written name content.now) }
{
    match content {
        Content::Nothing => Ok(TagContent::Nothing),
        Content::Closed => Ok(TagContent::Closed),
        Content::Text(text) => {
            let copy = Bytes::of(alloc, text.as_slice())?;
            Ok(TagContent::Text(copy))
        }
    }
}

/// The text of a tag.
pub fn written(
    alloc: Global,
    name: &[u8],
    attrs: &[AttrText],
    content: &Content,
) -> Result<Vec<u8>, NoMemory>
    ensures { IfOk result (λ text. text.items ≡ tag_written name.now attrs.now content.now) }
{
    let attrs = copy_attrs(alloc, attrs)?;
    let content = copy_content(alloc, content)?;
    let text = tag(alloc, name, attrs.as_slice(), &content)?;
    Ok(text)
}
