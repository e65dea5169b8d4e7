//! Which functions of the library they are.
ghost use Rattle.std.specs.Prelude.{◌≡◌};
ghost use Rattle.mw_texts.specs.Table.{text_function_in, AreInTable};

use mw_ustrings::Library;

/// A function of `mw.text` that calls back nobody (Scribunto, Text library).
#[derive(Clone, Copy, Debug, PartialEq, Eq)]
pub enum TextFunction {
    Trim,
    Split,
    Encode,
    Decode,
    ListToText,
    Nowiki,
    Tag,
    Truncate,
}

/// The function of `mw.text` that this one is.
pub fn text_function(which: Library) -> Option<TextFunction>
    ensures { result ≡ text_function_in which }
{
    match which {
        Library::TextTrim => Some(TextFunction::Trim),
        Library::TextSplit => Some(TextFunction::Split),
        Library::TextEncode => Some(TextFunction::Encode),
        Library::TextDecode => Some(TextFunction::Decode),
        Library::TextListToText => Some(TextFunction::ListToText),
        Library::TextNowiki => Some(TextFunction::Nowiki),
        Library::TextTag => Some(TextFunction::Tag),
        Library::TextTruncate => Some(TextFunction::Truncate),
        _ => None,
    }
}

/// What each gives is what the meaning says of it.
pub fn text_functions_are_in_the_table()
    ensures { AreInTable }
{}
