//! What a directive makes of a number or a text.
ghost use Rattle.std.specs.Prelude.{◌≡◌, ◌≤◌, ◌++◌, [], IfSome, Some, None, Ok, Err, true, false, unsigned_abs, slice_get, MatchOption, MatchResult};
ghost use Rattle.std.specs.Fmt.{decimal};
ghost use Rattle.lua_format.specs.Layouts.{counted_digits, octal_digits, sign_of, hexadecimal_prefix, fraction, noughts, word as word_lem, number_by, text_by, cut as cut_lem};
ghost use Rattle.lua_format.specs.Format.{number_in as number_in_lem, text_in as text_in_lem, is_code, of_number, item_of, wants};
ghost use Rattle.lua_format.specs.declared.directive.Conversion.TheVariants as letter;
ghost use Rattle.lua_format.specs.Pieces.{prefix_bytes, source_bytes, content_body, layout_bytes, piece_bytes};

use crate::directive::{Conversion, Directive, Flags};
use crate::layout::{Content, Layout, Piece, Prefix, Source, filled};
use crate::short::{Short, digits, signed};
use crate::value::{FormatFault, FormatValue, Want};
use lua_number::read_number;

fn sign(flags: Flags, n: i64) -> Prefix
    ensures { prefix_bytes result ≡ sign_of flags n }
{
    if n < 0 {
        Prefix::Minus
    } else if flags.plus {
        Prefix::Plus
    } else if flags.space {
        Prefix::Space
    } else {
        Prefix::Empty
    }
}

/// The digits of a number under a precision: how many zeros stand before them, and they.
fn counted(base: u64, upper: bool, precision: Option<usize>, m: u64) -> (usize, Short)
    requires low { 8 ≤ base }
    requires high { base ≤ 16 }
    requires small { IfSome precision (λ p. p ≤ 99) }
    ensures digits { noughts result.0 ++ result.1 ≡ counted_digits base upper precision m }
    ensures small { result.0 ≤ 99 }
{
    let text = digits(m, base, upper);
    match precision {
        None => (0, text),
        Some(least) => {
            if m == 0 && least == 0 {
                return (0, Short::empty());
            }
            (least.saturating_sub(text.as_slice().len()), text)
        }
    }
}

/// The same of an octal number, with a 0 in front under `#`.
fn counted_octal(flags: Flags, precision: Option<usize>, m: u64) -> (usize, Short)
    requires small { IfSome precision (λ p. p ≤ 99) }
    ensures digits { noughts result.0 ++ result.1 ≡ octal_digits flags precision m }
    ensures small { result.0 ≤ 99 }
{
    let (zeros, text) = counted(8, false, precision, m);
    if !flags.sharp || 0 < zeros {
        return (zeros, text);
    }
    match text.as_slice() {
        [b'0', ..] => (0, text),
        _ => (1, text),
    }
}

fn word(n: i64) -> u64
    ensures { result ≡ word_lem n }
{
    n.cast_unsigned()
}

fn integer<'v>(prefix: Prefix, digits: (usize, Short)) -> Content<'v>
    ensures body { content_body result ≡ noughts digits.0 ++ digits.1 }
    ensures prefix { result.prefix ≡ prefix }
    ensures zeros { result.zeros ≡ digits.0 }
{
    let (zeros, text) = digits;
    Content {
        prefix,
        zeros,
        source: Source::Made(text),
        point: false,
        fraction: 0,
    }
}

/// `d` and `i`
fn decimal_layout<'v>(flags: Flags, width: usize, precision: Option<usize>, n: i64) -> Layout<'v>
    requires width { width ≤ 99 }
    requires small { IfSome precision (λ p. p ≤ 99) }
    ensures { layout_bytes result ≡ number_by letter.Decimal flags width precision n }
{
    let digits = counted(10, false, precision, n.unsigned_abs());
    filled(
        flags,
        width,
        precision.is_none(),
        integer(sign(flags, n), digits),
    )
}

/// `u`
fn unsigned_layout<'v>(flags: Flags, width: usize, precision: Option<usize>, n: i64) -> Layout<'v>
    requires width { width ≤ 99 }
    requires small { IfSome precision (λ p. p ≤ 99) }
    ensures { layout_bytes result ≡ number_by letter.Unsigned flags width precision n }
{
    let digits = counted(10, false, precision, word(n));
    filled(
        flags,
        width,
        precision.is_none(),
        integer(Prefix::Empty, digits),
    )
}

/// `o`
fn octal_layout<'v>(flags: Flags, width: usize, precision: Option<usize>, n: i64) -> Layout<'v>
    requires width { width ≤ 99 }
    requires small { IfSome precision (λ p. p ≤ 99) }
    ensures { layout_bytes result ≡ number_by letter.Octal flags width precision n }
{
    let digits = counted_octal(flags, precision, word(n));
    filled(
        flags,
        width,
        precision.is_none(),
        integer(Prefix::Empty, digits),
    )
}

fn hexadecimal_mark(flags: Flags, upper: bool, m: u64) -> Prefix
    ensures { prefix_bytes result ≡ hexadecimal_prefix flags upper m }
{
    if flags.sharp && m != 0 {
        Prefix::Hexadecimal(upper)
    } else {
        Prefix::Empty
    }
}

/// `x` and `X`
fn hexadecimal_layout<'v>(
    flags: Flags,
    width: usize,
    precision: Option<usize>,
    upper: bool,
    n: i64,
) -> Layout<'v>
    requires width { width ≤ 99 }
    requires small { IfSome precision (λ p. p ≤ 99) }
    ensures { layout_bytes result ≡ number_by (letter.Hexadecimal upper) flags width precision n }
{
    let m = word(n);
    let prefix = hexadecimal_mark(flags, upper, m);
    let digits = counted(16, upper, precision, m);
    filled(flags, width, precision.is_none(), integer(prefix, digits))
}

/// `f`
fn fixed_layout<'v>(flags: Flags, width: usize, precision: Option<usize>, n: i64) -> Layout<'v>
    requires width { width ≤ 99 }
    ensures { layout_bytes result ≡ number_by letter.Fixed flags width precision n }
{
    let places = precision.unwrap_or(6);
    let content = Content {
        prefix: sign(flags, n),
        zeros: 0,
        source: Source::Made(digits(n.unsigned_abs(), 10, false)),
        point: flags.sharp || places != 0,
        fraction: places,
    };
    filled(flags, width, true, content)
}

/// `c`
fn byte_layout<'v>(
    flags: Flags,
    width: usize,
    precision: Option<usize>,
    n: i64,
) -> Option<Layout<'v>>
    requires width { width ≤ 99 }
    ensures { MatchOption result (is_code n ≡ false) (λ l. (is_code n ≡ true) × (layout_bytes l ≡ number_by letter.Byte flags width precision n)) }
{
    let Ok(code) = u8::try_from(n) else {
        return None;
    };
    let content = Content::of(Source::Made(Short::one(code)));
    Some(filled(flags, width, false, content))
}

fn no_layout<'v>() -> Layout<'v>
    ensures { layout_bytes result ≡ [] }
{
    let content = Content::of(Source::Made(Short::empty()));
    Layout {
        before: 0,
        content,
        after: 0,
    }
}

/// What a directive makes of a number.
fn number_layout<'v>(directive: &Directive, at: usize, n: i64) -> Result<Layout<'v>, FormatFault>
    requires width { directive.now.width ≤ 99 }
    requires small { IfSome directive.now.precision (λ p. p ≤ 99) }
    ensures { MatchResult result (λ l. of_number directive.now at (Some n) ≡ Ok (layout_bytes l)) (λ e. of_number directive.now at (Some n) ≡ Err e) }
{
    let (flags, width, precision) = (directive.flags, directive.width, directive.precision);
    match directive.conversion {
        Conversion::Decimal => Ok(decimal_layout(flags, width, precision, n)),
        Conversion::Unsigned => Ok(unsigned_layout(flags, width, precision, n)),
        Conversion::Octal => Ok(octal_layout(flags, width, precision, n)),
        Conversion::Hexadecimal(upper) => Ok(hexadecimal_layout(flags, width, precision, upper, n)),
        Conversion::Fixed => Ok(fixed_layout(flags, width, precision, n)),
        Conversion::Byte => match byte_layout(flags, width, precision, n) {
            Some(layout) => Ok(layout),
            None => Err(FormatFault::OutOfRange(at)),
        },
        Conversion::Quoted => Ok(no_layout()),
        Conversion::Text => Ok(no_layout()),
        Conversion::Percent => Ok(no_layout()),
    }
}

/// The number that a value stands for, where a number is wanted.
fn number_in(value: &FormatValue) -> Option<i64>
    ensures { result ≡ number_in_lem value.now }
{
    match value {
        FormatValue::Number(n) => Some(*n),
        FormatValue::Text(text) => read_number(text.as_slice()),
        FormatValue::Other => None,
    }
}

/// The text that a value stands for, where a text is wanted.
fn text_in(value: &FormatValue) -> Option<Source<'_>>
    ensures { MatchOption result (text_in_lem value.now ≡ None) (λ s. text_in_lem value.now ≡ Some (source_bytes s)) }
{
    match value {
        FormatValue::Number(n) => Some(Source::Made(signed(*n))),
        FormatValue::Text(text) => Some(Source::Given(text.as_slice())),
        FormatValue::Other => None,
    }
}

fn cut<'v>(precision: Option<usize>, source: Source<'v>) -> Source<'v>
    ensures { source_bytes result ≡ cut_lem precision (source_bytes source.entry) }
{
    let Some(most) = precision else {
        return source;
    };
    match source {
        Source::Given(bytes) => Source::Given(bytes.get(..most).unwrap_or(bytes)),
        Source::Made(short) => Source::Made(short.cut(most)),
    }
}

/// What a directive makes of a text.
fn text_piece<'v>(directive: &Directive, source: Source<'v>) -> Piece<'v>
    requires width { directive.now.width ≤ 99 }
    ensures { piece_bytes result ≡ text_by directive.now.conversion directive.now.flags directive.now.width directive.now.precision (source_bytes source.entry) }
{
    let (flags, width, precision) = (directive.flags, directive.width, directive.precision);
    if let Conversion::Quoted = directive.conversion {
        return Piece::Quoted(source);
    }
    let content = Content::of(cut(precision, source));
    Piece::Laid(filled(flags, width, false, content))
}

fn want(conversion: Conversion) -> Want
    ensures { result ≡ wants conversion }
{
    match conversion {
        Conversion::Quoted => Want::Text,
        Conversion::Text => Want::Text,
        _ => Want::Number,
    }
}

fn of_value<'v>(
    directive: &Directive,
    at: usize,
    value: &'v FormatValue,
) -> Result<Piece<'v>, FormatFault>
    requires width { directive.now.width ≤ 99 }
    requires small { IfSome directive.now.precision (λ p. p ≤ 99) }
    ensures { MatchResult result (λ p. item_of directive.now at (Some value.now) ≡ Ok (piece_bytes p)) (λ e. item_of directive.now at (Some value.now) ≡ Err e) }
{
    match want(directive.conversion) {
        Want::Number => match number_in(value) {
            None => Err(FormatFault::WrongKind(at, Want::Number)),
            Some(n) => match number_layout(directive, at, n) {
                Ok(layout) => Ok(Piece::Laid(layout)),
                Err(fault) => Err(fault),
            },
        },
        Want::Text => match text_in(value) {
            None => Err(FormatFault::WrongKind(at, Want::Text)),
            Some(source) => Ok(text_piece(directive, source)),
        },
    }
}

/// What a directive makes of the value at a place.
pub fn item<'v>(
    directive: &Directive,
    values: &'v [FormatValue],
    at: usize,
) -> Result<Piece<'v>, FormatFault>
    requires width { directive.now.width ≤ 99 }
    requires small { IfSome directive.now.precision (λ p. p ≤ 99) }
    ensures { MatchResult result (λ p. item_of directive.now at (slice_get values.now at) ≡ Ok (piece_bytes p)) (λ e. item_of directive.now at (slice_get values.now at) ≡ Err e) }
{
    match values.get(at) {
        None => Err(FormatFault::Missing(at, want(directive.conversion))),
        Some(value) => of_value(directive, at, value),
    }
}
