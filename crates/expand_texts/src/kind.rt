//! What the text of a construct's first part stands for.
ghost use Rattle.std.specs.Prelude.{◌≡◌, ◌≤◌, bytes_eq, min, take, drop, length, option_map, IfOk};
ghost use Rattle.expand_meaning.specs.Kind.{behind as behind_of, unsubstituted, title_named as title_at, word_of as word_at, function_or_title as other_of, kind_of as kind_at};
ghost use Rattle.std.specs.Str.{str_eq_ignore_ascii_case};
ghost use Rattle.expand_texts.specs.Kinds.{kind_in};

use crate::texts::copied;
use std::alloc::Global;
use wk_base::space::trim;
use wk_base::{Namespace, NoMemory, Title, TitleFault};

/// The kind of a construct, with what stands behind the colon of a parser function.
#[derive(Drop)]
pub enum Kind<'t> {
    /// It stands as it is written.
    Written,
    /// A text of its own.
    Word(Vec<u8>),
    If(&'t [u8]),
    IfEq(&'t [u8]),
    Switch(&'t [u8]),
    Invoke(&'t [u8]),
    /// A template, or another page that is included.
    Include(Title),
}

/// The first bytes of a text, and the others.
fn cut(text: &[u8], at: usize) -> (&[u8], &[u8])
    requires { at ≤ length text.now }
    ensures front { result.0.now ≡ take at text.now }
    ensures rest { result.1.now ≡ drop at text.now }
{
    text.split_at(at)
}

/// The lesser of two numbers.
fn least(a: usize, b: usize) -> usize
    ensures { result ≡ min a b }
{
    a.min(b)
}

/// Whether two texts are the same but for the case of their letters.
fn is_spelled(text: &[u8], word: &[u8]) -> bool
    ensures { result ≡ str_eq_ignore_ascii_case text.now word.now }
{
    text.eq_ignore_ascii_case(word)
}

/// What stands behind a prefix, in any case of its letters.
fn behind<'t>(prefix: &[u8], text: &'t [u8]) -> Option<&'t [u8]>
    ensures { option_map (λ rest. rest.now) result ≡ behind_of prefix.now text.now }
{
    let (front, rest) = cut(text, least(prefix.len(), text.len()));
    if is_spelled(front, prefix) {
        Some(rest)
    } else {
        None
    }
}

/// The text without `safesubst:` in front.
fn unsubstituted(text: &[u8]) -> &[u8]
    ensures { result.now ≡ unsubstituted text.now }
{
    match behind(b"safesubst:", text) {
        Some(rest) => trim(rest),
        None => trim(text),
    }
}

/// The title that a text is read as, if it is one.
#[tactic(auto, unfolding(expand_meaning::specs::Kind::title_named))]
pub fn title_named(
    alloc: Global,
    text: &[u8],
    default: Namespace,
) -> Result<Option<Title>, NoMemory>
    ensures { IfOk result (λ title. title ≡ title_at text.now default) }
{
    match Title::read(alloc, text, default) {
        Ok(title) => Ok(Some(title)),
        Err(TitleFault::NoMemory) => Err(NoMemory),
        Err(TitleFault::Empty) => Ok(None),
        Err(TitleFault::BadByte) => Ok(None),
        Err(TitleFault::TooLong) => Ok(None),
    }
}

fn is_word(text: &[u8], word: &[u8]) -> bool
    ensures { result ≡ bytes_eq text.now word.now }
{
    text == word
}

/// What a construct of one part stands for, where it is one of the words.
#[tactic(auto, unfolding(expand_meaning::specs::Kind::word_of))]
fn word_of(alloc: Global, page: &Title, text: &[u8]) -> Result<Option<Vec<u8>>, NoMemory>
    ensures { IfOk result (λ word. option_map (λ text. text.items) word ≡ word_at page.now text.now) }
{
    if is_word(text, b"!") {
        let made = copied(alloc, b"|")?;
        return Ok(Some(made));
    }
    if is_word(text, b"=") {
        let made = copied(alloc, b"=")?;
        return Ok(Some(made));
    }
    if is_word(text, b"PAGENAME") {
        let made = copied(alloc, page.name.as_slice())?;
        return Ok(Some(made));
    }
    if is_word(text, b"FULLPAGENAME") {
        let name = page.text()?;
        return Ok(Some(name.into_vec()));
    }
    if is_word(text, b"NAMESPACE") {
        let made = copied(alloc, page.ns.prefix().as_bytes())?;
        return Ok(Some(made));
    }
    Ok(None)
}

/// A parser function, or the title of a page.
#[tactic(auto, unfolding(expand_meaning::specs::Kind::function_or_title))]
fn function_or_title<'t>(alloc: Global, text: &'t [u8]) -> Result<Kind<'t>, NoMemory>
    ensures { IfOk result (λ kind. kind_in kind ≡ other_of text.now) }
{
    if let Some(test) = behind(b"#if:", text) {
        return Ok(Kind::If(test));
    }
    if let Some(left) = behind(b"#ifeq:", text) {
        return Ok(Kind::IfEq(left));
    }
    if let Some(value) = behind(b"#switch:", text) {
        return Ok(Kind::Switch(value));
    }
    if let Some(name) = behind(b"#invoke:", text) {
        return Ok(Kind::Invoke(name));
    }
    match title_named(alloc, text, Namespace::Template)? {
        Some(title) => Ok(Kind::Include(title)),
        None => Ok(Kind::Written),
    }
}

/// The kind of a construct, by the trimmed text of its first part. `alone`: it has one part.
#[tactic(auto, unfolding(expand_meaning::specs::Kind::kind_of))]
pub fn kind_of<'t>(
    alloc: Global,
    alone: bool,
    page: &Title,
    text: &'t [u8],
) -> Result<Kind<'t>, NoMemory>
    ensures { IfOk result (λ kind. kind_in kind ≡ kind_at alone page.now text.now) }
{
    let text = unsubstituted(text);
    if let Some(_rest) = behind(b"subst:", text) {
        return Ok(Kind::Written);
    }
    if alone {
        if let Some(word) = word_of(alloc, page, text)? {
            return Ok(Kind::Word(word));
        }
    }
    let kind = function_or_title(alloc, text)?;
    Ok(kind)
}
