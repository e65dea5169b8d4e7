//! The sets of `trim` and `encode`: one that a pattern writes, or the usual one (Scribunto manual, mw.text.trim).
ghost use Rattle.std.specs.Prelude.{◌≡◌, Ok, MatchResult};
ghost use Rattle.std.specs.Option.{option_map};
ghost use Rattle.mw_text.specs.Sets.{chosen_set, member, IsChoiceFault};
ghost use Rattle.mw_text.specs.Trim.{is_space};
ghost use Rattle.mw_text.specs.References.{is_special};

use mw_ustring::{OnePoint, PatternFault, PreparedSet, read_set};
use std::alloc::Global;

/// The set between `[` and `]`, or none where the usual one is meant. A text that is no set gives the fault of the pattern;
/// one that closes the set before its end gives fault 2.
pub fn read_choice(alloc: Global, set: Option<&[u8]>) -> Result<Option<PreparedSet>, PatternFault>
    ensures { MatchResult result (λ choice. chosen_set (option_map (λ t. t.now) set.entry) ≡ Ok choice) (λ e. IsChoiceFault (chosen_set (option_map (λ t. t.now) set.entry)) e) }
{
    match set {
        None => Ok(None),
        Some(text) => match read_set::<OnePoint>(alloc, text) {
            Ok(set) => Ok(Some(set)),
            Err(fault) => Err(fault),
        },
    }
}

/// Whether `trim` takes a code point off: by default tab, line feed, form feed, carriage return and space.
pub fn is_trimmed(set: &Option<PreparedSet>, point: char) -> bool
    ensures { result ≡ member is_space set.now point }
{
    match set {
        Some(set) => set.has::<OnePoint>(point),
        None => {
            point == '\t' || point == '\n' || point == '\x0C' || point == '\r' || point == ' '
        }
    }
}

/// Whether `encode` writes a code point as a reference: by default `&`, `<`, `>`, `"`, `'` and U+00A0.
pub fn is_encoded(set: &Option<PreparedSet>, point: char) -> bool
    ensures { result ≡ member is_special set.now point }
{
    match set {
        Some(set) => set.has::<OnePoint>(point),
        None => {
            point == '&'
                || point == '<'
                || point == '>'
                || point == '"'
                || point == '\''
                || point == '\u{A0}'
        }
    }
}
