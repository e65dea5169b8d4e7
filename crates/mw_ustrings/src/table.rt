//! Which functions of the library they are.
ghost use Rattle.std.specs.Prelude.{◌≡◌};
ghost use Rattle.mw_ustrings.specs.Table.{ustring_function_in, AreInTable};

use mw_frame_texts::Library;

/// A function of `mw.ustring` that calls back nobody (Scribunto, Ustring library).
#[derive(Clone, Copy, Debug, PartialEq, Eq)]
pub enum UstringFunction {
    Char,
    Codepoint,
    Byteoffset,
    Find,
    Match,
    Len,
    Sub,
    IsUtf8,
    ToNfc,
    ToNfd,
    ToNfkc,
    ToNfkd,
}

/// The function of `mw.ustring` that this one is.
pub fn ustring_function(which: Library) -> Option<UstringFunction>
    ensures { result ≡ ustring_function_in which }
{
    match which {
        Library::UstringChar => Some(UstringFunction::Char),
        Library::UstringCodepoint => Some(UstringFunction::Codepoint),
        Library::UstringByteOffset => Some(UstringFunction::Byteoffset),
        Library::UstringFind => Some(UstringFunction::Find),
        Library::UstringMatch => Some(UstringFunction::Match),
        Library::UstringLen => Some(UstringFunction::Len),
        Library::UstringSub => Some(UstringFunction::Sub),
        Library::UstringIsUtf8 => Some(UstringFunction::IsUtf8),
        Library::UstringToNfc => Some(UstringFunction::ToNfc),
        Library::UstringToNfd => Some(UstringFunction::ToNfd),
        Library::UstringToNfkc => Some(UstringFunction::ToNfkc),
        Library::UstringToNfkd => Some(UstringFunction::ToNfkd),
        _ => None,
    }
}

/// What each gives is what the meaning says of it.
pub fn ustring_functions_are_in_the_table()
    ensures { AreInTable }
{}
