//! A text between spaces and zeros.
ghost use Rattle.std.specs.Prelude.{◌≡◌, ◌≤◌, ◌+◌, ◌-◌, ◌&&◌, ◌++◌, [], ◌∷◌, length, MatchOption, OnOk, replicate};
ghost use Rattle.lua_format.specs.Layouts.{filled as filled_lem, quoted, quoted_byte};
ghost use Rattle.lua_format.specs.Pieces.{prefix_bytes, source_bytes, fraction_bytes, content_body, layout_bytes, piece_bytes};
ghost use Rattle.lua_format.specs.Lengths.{saturated};

use crate::directive::Flags;
use crate::short::Short;
use lua_number::NoMemory;

/// What stands before the digits of a number.
#[derive(Clone, Copy, Debug, PartialEq, Eq)]
pub enum Prefix {
    Empty,
    Minus,
    Plus,
    Space,
    /// `0x`, or `0X` where it is capital.
    Hexadecimal(bool),
}

/// Bytes of a value, or digits of a number.
#[derive(Drop)]
pub enum Source<'v> {
    Given(&'v [u8]),
    Made(Short),
}

/// A text with what stands before and behind it: a prefix and zeros, and a point and zeros.
#[derive(Drop)]
pub struct Content<'v> {
    pub prefix: Prefix,
    pub zeros: usize,
    pub source: Source<'v>,
    pub point: bool,
    pub fraction: usize,
}

/// A content with spaces on one side.
#[derive(Drop)]
pub struct Layout<'v> {
    pub before: usize,
    pub content: Content<'v>,
    pub after: usize,
}

/// What a directive writes of a value.
#[derive(Drop)]
pub enum Piece<'v> {
    Laid(Layout<'v>),
    Quoted(Source<'v>),
}

fn push_copies(out: &mut Vec<u8>, byte: u8, count: usize) -> Result<(), NoMemory>
    ensures { OnOk result (out.new.items ≡ out.old.items ++ replicate count byte) }
{
    'copies: for _turn in 0..count {
        match out.push(byte) {
            Ok(_) => {}
            Err(_) => return Err(NoMemory),
        }
    }
    Ok(())
}

fn push_all(out: &mut Vec<u8>, bytes: &[u8]) -> Result<(), NoMemory>
    ensures { OnOk result (out.new.items ≡ out.old.items ++ bytes.now) }
{
    match out.extend_from_slice(bytes) {
        Ok(_) => Ok(()),
        Err(_) => Err(NoMemory),
    }
}

/// The first byte of a text, and the text behind it.
pub fn first_byte(text: &[u8]) -> Option<(u8, &[u8])>
    ensures { MatchOption result (text.now ≡ []) (λ p. text.now ≡ p.0 ∷ p.1.now) }
{
    match text {
        [] => None,
        [byte, rest @ ..] => Some((*byte, rest)),
    }
}

impl Prefix {
    fn bytes(self) -> &'static [u8]
        ensures { result.now ≡ prefix_bytes self }
    {
        match self {
            Prefix::Empty => b"",
            Prefix::Minus => b"-",
            Prefix::Plus => b"+",
            Prefix::Space => b" ",
            Prefix::Hexadecimal(false) => b"0x",
            Prefix::Hexadecimal(true) => b"0X",
        }
    }
}

impl<'v> Source<'v> {
    pub fn bytes(&self) -> &[u8]
        ensures { result.now ≡ source_bytes self.now }
    {
        match self {
            Source::Given(bytes) => bytes,
            Source::Made(short) => short.as_slice(),
        }
    }
}

impl<'v> Content<'v> {
    /// The bytes of a text alone.
    pub fn of(source: Source<'v>) -> Content<'v>
        ensures body { content_body result ≡ source_bytes source.entry }
        ensures prefix { prefix_bytes result.prefix ≡ [] }
        ensures zeros { result.zeros ≡ 0 }
    {
        Content {
            prefix: Prefix::Empty,
            zeros: 0,
            source,
            point: false,
            fraction: 0,
        }
    }

    fn body_len(&self) -> u64
        ensures { result ≡ saturated (length (content_body self.now)) }
    {
        let fraction = if self.point {
            (self.fraction as u64).saturating_add(1)
        } else {
            0
        };
        let source = self.source.bytes().len() as u64;
        (self.zeros as u64)
            .saturating_add(source)
            .saturating_add(fraction)
    }

    fn len(&self) -> u64
        ensures { result ≡ saturated (length (prefix_bytes self.now.prefix ++ content_body self.now)) }
    {
        (self.prefix.bytes().len() as u64).saturating_add(self.body_len())
    }

    fn write_fraction(&self, out: &mut Vec<u8>) -> Result<(), NoMemory>
        ensures { OnOk result (out.new.items ≡ out.old.items ++ fraction_bytes self.now) }
    {
        if !self.point {
            return Ok(());
        }
        push_all(out, b".")?;
        push_copies(out, b'0', self.fraction)
    }

    fn write(&self, out: &mut Vec<u8>) -> Result<(), NoMemory>
        ensures { OnOk result (out.new.items ≡ out.old.items ++ (prefix_bytes self.now.prefix ++ content_body self.now)) }
    {
        push_all(out, self.prefix.bytes())?;
        push_copies(out, b'0', self.zeros)?;
        push_all(out, self.source.bytes())?;
        self.write_fraction(out)
    }
}

/// How many bytes a text of `len` bytes is short of a width.
fn shortage(width: usize, len: u64) -> usize
    ensures { result ≡ width - len }
{
    (width as u64).saturating_sub(len) as usize
}

fn takes_noughts(flags: Flags, zeros: bool) -> bool
    ensures { result ≡ (flags.zero && zeros) }
{
    flags.zero && zeros
}

/// Fills a content up to a width.
pub fn filled<'v>(flags: Flags, width: usize, zeros: bool, content: Content<'v>) -> Layout<'v>
    requires room { width + content.zeros ≤ usize.MAX }
    ensures { layout_bytes result ≡ filled_lem flags width zeros (prefix_bytes content.entry.prefix) (content_body content.entry) }
{
    let mut content = content;
    let room = shortage(width, content.len());
    if flags.minus {
        return Layout {
            before: 0,
            content,
            after: room,
        };
    }
    if takes_noughts(flags, zeros) {
        content.zeros += room;
        return Layout {
            before: 0,
            content,
            after: 0,
        };
    }
    Layout {
        before: room,
        content,
        after: 0,
    }
}

impl<'v> Layout<'v> {
    fn len(&self) -> u64
        ensures { result ≡ saturated (length (layout_bytes self.now)) }
    {
        (self.before as u64)
            .saturating_add(self.content.len())
            .saturating_add(self.after as u64)
    }

    fn write(&self, out: &mut Vec<u8>) -> Result<(), NoMemory>
        ensures { OnOk result (out.new.items ≡ out.old.items ++ layout_bytes self.now) }
    {
        push_copies(out, b' ', self.before)?;
        self.content.write(out)?;
        push_copies(out, b' ', self.after)
    }
}

/// Writes a byte as it stands between the quotes of `%q`.
fn push_quoted(out: &mut Vec<u8>, byte: u8) -> Result<(), NoMemory>
    ensures { OnOk result (out.new.items ≡ out.old.items ++ quoted_byte byte) }
{
    match byte {
        b'"' => push_all(out, b"\\\""),
        b'\\' => push_all(out, b"\\\\"),
        b'\n' => push_all(out, b"\\\n"),
        b'\r' => push_all(out, b"\\r"),
        0 => push_all(out, b"\\000"),
        _ => push_all(out, &[byte]),
    }
}

fn quoted_byte_len(byte: u8) -> u64
    ensures { result ≡ length (quoted_byte byte) }
{
    match byte {
        b'"' => 2,
        b'\\' => 2,
        b'\n' => 2,
        b'\r' => 2,
        0 => 4,
        _ => 1,
    }
}

fn quoted_len(bytes: &[u8]) -> u64
    ensures { result ≡ saturated (length (quoted bytes.now)) }
{
    let mut len: u64 = 2;
    let mut rest = bytes;
    'bytes: loop {
        let Some((byte, behind)) = first_byte(rest) else {
            return len;
        };
        len = len.saturating_add(quoted_byte_len(byte));
        rest = behind;
    }
}

fn write_quoted(bytes: &[u8], out: &mut Vec<u8>) -> Result<(), NoMemory>
    ensures { OnOk result (out.new.items ≡ out.old.items ++ quoted bytes.now) }
{
    push_all(out, b"\"")?;
    let mut rest = bytes;
    'bytes: while let [byte, behind @ ..] = rest {
        push_quoted(out, *byte)?;
        rest = behind;
    }
    push_all(out, b"\"")
}

impl<'v> Piece<'v> {
    /// How many bytes it writes; the greatest number where they are more.
    pub fn len(&self) -> u64
        ensures { result ≡ saturated (length (piece_bytes self.now)) }
    {
        match self {
            Piece::Laid(layout) => layout.len(),
            Piece::Quoted(source) => quoted_len(source.bytes()),
        }
    }

    pub fn write(&self, out: &mut Vec<u8>) -> Result<(), NoMemory>
        ensures { OnOk result (out.new.items ≡ out.old.items ++ piece_bytes self.now) }
    {
        match self {
            Piece::Laid(layout) => layout.write(out),
            Piece::Quoted(source) => write_quoted(source.bytes(), out),
        }
    }
}
