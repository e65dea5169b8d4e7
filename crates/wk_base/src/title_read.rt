//! Reading a text as the title of a page (MediaWiki, Manual:Page title).
//!
//! An underscore counts as a space throughout, so the functions here say what they do with the `with_spaces` text.
ghost use Rattle.std.specs.Prelude.{◌≡◌, ◌⊎◌, ◌==◌, ◌&&◌, option_map, IfOk, IfErr};
ghost use Rattle.std.specs.List.{list_any};
ghost use Rattle.std.specs.Str.{is_utf8, str_eq_ignore_ascii_case};
ghost use Rattle.wk_base.specs.Space.{trim_start, trim_end, trim};
ghost use Rattle.wk_base.specs.Titles.{ReadsBack, title_of, title_in, open_colon, cut_prefix, namespace_named, cut_at_colon, is_forbidden, is_bad, as_space, with_spaces, begins_with, squeeze, tidy, with_capital};

use crate::space::is_white;
use crate::{Bytes, Namespace, NoMemory, Title};
use std::alloc::{AllocError, Global};

/// Why a text is no title.
#[derive(Clone, Copy, Debug, PartialEq, Eq)]
pub enum TitleFault {
    /// No name is left behind the prefix.
    Empty,
    /// The name isn't UTF-8, begins with a colon, or holds one of `# < > [ ] { | }`, a byte below 32 or the byte 127.
    BadByte,
    /// The name has more than 255 bytes.
    TooLong,
    /// Memory ran out.
    NoMemory,
}

impl From<AllocError> for TitleFault {
    ghost use Rattle.std.specs.Prelude.{◌≡◌};
    ghost use Rattle.wk_base.specs.declared.title_read.TitleFault.TheVariants.{NoMemory};

    ghost from_gives = { λ _ fault. fault ≡ NoMemory };

    fn from(_error: AllocError) -> TitleFault {
        TitleFault::NoMemory
    }
}

const MOST_BYTES: usize = 255;

impl Title {
    /// Reads a text as a title. A prefix such as `Template:` chooses the namespace, in any case of its letters; a colon in
    /// front chooses the main one; else it is `default`. Underscores are spaces, spaces at the ends don't count, and each
    /// run of them is one. A first letter of ASCII becomes a capital.
    pub fn read(alloc: Global, text: &[u8], default: Namespace) -> Result<Title, TitleFault>
        ensures title { IfOk result (λ title. title_of text.now default ≡ Ok title) }
        ensures fault { IfErr result (λ fault. (fault ≡ TitleFault.NoMemory) ⊎ (title_of text.now default ≡ Err fault)) }
    {
        let (default, text) = open_colon(trim(text), default);
        let (ns, rest) = cut_prefix(text).unwrap_or((default, text));
        title_in(ns, tidy_name(alloc, rest)?)
    }
}

/// A law on titles, with nothing to run: the text of a title that was read is read as that title, with the main
/// namespace as default. A title that is made by hand may read otherwise, as the name `Talk:x` in the main namespace does.
pub fn text_reads_back(text: &[u8], default: Namespace)
    ensures { ReadsBack text.now default }
{}

/// The white space at the start is left out.
fn trim_start(mut text: &[u8]) -> &[u8]
    ensures { with_spaces result.now ≡ trim_start (with_spaces text.now) }
{
    while let [first, rest @ ..] = text
        && is_white(as_space(*first))
    {
        text = rest;
    }
    text
}

/// The white space at the end is left out.
fn trim_end(mut text: &[u8]) -> &[u8]
    ensures { with_spaces result.now ≡ trim_end (with_spaces text.now) }
{
    while let [rest @ .., last] = text
        && is_white(as_space(*last))
    {
        text = rest;
    }
    text
}

fn trim(text: &[u8]) -> &[u8]
    ensures { with_spaces result.now ≡ trim (with_spaces text.now) }
{
    trim_end(trim_start(text))
}

fn as_space(byte: u8) -> u8
    ensures { result ≡ as_space byte }
{
    if byte == b'_' { b' ' } else { byte }
}

/// Takes off a colon in front, which leads to the main namespace.
fn open_colon(text: &[u8], default: Namespace) -> (Namespace, &[u8])
    ensures { (result.0, with_spaces result.1.now) ≡ open_colon (with_spaces text.now) default }
{
    match text {
        [b':', rest @ ..] => (Namespace::Main, trim_start(rest)),
        _ => (default, text),
    }
}

/// The namespace that the text before the first colon names, with what stands behind the colon.
fn cut_prefix(text: &[u8]) -> Option<(Namespace, &[u8])>
    ensures { option_map (λ cut. (cut.0, with_spaces cut.1.now)) result ≡ cut_prefix (with_spaces text.now) }
{
    let (prefix, rest) = cut_at_colon(text)?;
    let ns = namespace_named(trim(prefix))?;
    Some((ns, rest))
}

/// What stands before the first colon, and what stands behind it.
fn cut_at_colon(text: &[u8]) -> Option<(&[u8], &[u8])>
    ensures { option_map (λ cut. (with_spaces cut.0.now, with_spaces cut.1.now)) result ≡ cut_at_colon (with_spaces text.now) }
{
    for (at, byte) in text.iter().enumerate() {
        if *byte == b':' {
            return Some((&text[..at], &text[at + 1..]));
        }
    }
    None
}

/// The namespaces that have a prefix.
const PREFIXED: [Namespace; 17] = [
    Namespace::Talk,
    Namespace::User,
    Namespace::UserTalk,
    Namespace::Project,
    Namespace::ProjectTalk,
    Namespace::File,
    Namespace::FileTalk,
    Namespace::MediaWiki,
    Namespace::MediaWikiTalk,
    Namespace::Template,
    Namespace::TemplateTalk,
    Namespace::Help,
    Namespace::HelpTalk,
    Namespace::Category,
    Namespace::CategoryTalk,
    Namespace::Module,
    Namespace::ModuleTalk,
];

/// The namespace of this prefix, in any case and with any runs of spaces for one.
#[tactic(auto, unfolding(crate::specs::Titles::namespace_named, crate::specs::Titles::prefixed_namespaces))]
fn namespace_named(prefix: &[u8]) -> Option<Namespace>
    ensures { result ≡ namespace_named (squeeze (with_spaces prefix.now)) }
{
    PREFIXED
        .iter()
        .copied()
        .find(|ns| is_spelled(ns.prefix().as_bytes(), prefix))
}

/// Whether the text is this prefix, in any case and with any runs of spaces for one.
fn is_spelled(mut prefix: &[u8], mut text: &[u8]) -> bool
    ensures { result ≡ str_eq_ignore_ascii_case (squeeze (with_spaces text.now)) prefix.now }
{
    while let [first, rest @ ..] = text {
        if !is_doubled(*first, rest) {
            match prefix {
                [wanted, others @ ..] if wanted.eq_ignore_ascii_case(&as_space(*first)) => {
                    prefix = others;
                }
                _ => return false,
            }
        }
        text = rest;
    }
    prefix.is_empty()
}

/// Whether a byte is a space that another one follows.
fn is_doubled(byte: u8, after: &[u8]) -> bool
    ensures { result ≡ (as_space byte == 32 && begins_with 32 (with_spaces after.now)) }
{
    match after {
        [next, ..] => as_space(byte) == b' ' && as_space(*next) == b' ',
        [] => false,
    }
}

/// The text trimmed, with each run of spaces made one.
fn tidy_name(alloc: Global, text: &[u8]) -> Result<Vec<u8>, AllocError>
    ensures { IfOk result (λ name. name.items ≡ tidy (with_spaces text.now)) }
{
    let mut left = trim(text);
    let mut name = Vec::with_capacity(alloc, left.len())?;
    while let [first, rest @ ..] = left {
        if !is_doubled(*first, rest) {
            name.push(as_space(*first))?;
        }
        left = rest;
    }
    Ok(name)
}

/// The title of this name, whose first letter becomes a capital if it is one of ASCII.
fn title_in(ns: Namespace, mut name: Vec<u8>) -> Result<Title, TitleFault>
    ensures { result ≡ title_in ns name.items }
{
    if name.is_empty() {
        return Err(TitleFault::Empty);
    }
    if is_bad(&name) {
        return Err(TitleFault::BadByte);
    }
    if name.len() > MOST_BYTES {
        return Err(TitleFault::TooLong);
    }
    capitalise(&mut name);
    Ok(Title {
        ns,
        name: Bytes::of_vec(name),
    })
}

fn is_bad(name: &[u8]) -> bool
    ensures { result ≡ is_bad name.now }
{
    !is_utf8(name) || begins_with(b':', name) || holds_forbidden(name)
}

fn is_utf8(bytes: &[u8]) -> bool
    ensures { result ≡ is_utf8 bytes.now }
{
    std::str::from_utf8(bytes).is_ok()
}

fn begins_with(byte: u8, text: &[u8]) -> bool
    ensures { result ≡ begins_with byte text.now }
{
    matches!(text, [first, ..] if *first == byte)
}

fn holds_forbidden(name: &[u8]) -> bool
    ensures { result ≡ list_any is_forbidden name.now }
{
    name.iter().any(|byte| is_forbidden(*byte))
}

fn is_forbidden(byte: u8) -> bool
    ensures { result ≡ is_forbidden byte }
{
    matches!(
        byte,
        0..=31 | 127 | b'#' | b'<' | b'>' | b'[' | b']' | b'{' | b'|' | b'}'
    )
}

/// Makes a first letter of ASCII a capital.
fn capitalise(name: &mut [u8])
    ensures { name.new ≡ with_capital name.old }
{
    if let [first, ..] = name {
        *first = first.to_ascii_uppercase();
    }
}
