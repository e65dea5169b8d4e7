//! Which functions of the library they are.
ghost use Rattle.std.specs.Prelude.{◌≡◌};
ghost use Rattle.lua_iterators.specs.Table.{iterator_function_in, AreInTable};

use lua_strings::Library;

/// A function that makes an iterator (manual 5.4, `string.gmatch`; Scribunto, `mw.ustring.gmatch`, `mw.ustring.gcodepoint`,
/// `mw.text.gsplit`).
#[derive(Clone, Copy, Debug, PartialEq, Eq)]
pub enum Maker {
    Gmatch,
    UstringGmatch,
    Gcodepoint,
    Gsplit,
}

/// A step of an iterator. Its first argument is the iterator.
#[derive(Clone, Copy, Debug, PartialEq, Eq)]
pub enum Stepper {
    Gmatch,
    UstringGmatch,
    Gcodepoint,
    Gsplit,
}

#[derive(Clone, Copy, Debug, PartialEq, Eq)]
pub enum IteratorFunction {
    Makes(Maker),
    Steps(Stepper),
}

/// The function of iterators that this one is.
pub fn iterator_function(which: Library) -> Option<IteratorFunction>
    ensures { result ≡ iterator_function_in which }
{
    match which {
        Library::StringGmatch => Some(IteratorFunction::Makes(Maker::Gmatch)),
        Library::UstringGmatch => Some(IteratorFunction::Makes(Maker::UstringGmatch)),
        Library::UstringGcodepoint => Some(IteratorFunction::Makes(Maker::Gcodepoint)),
        Library::TextGsplit => Some(IteratorFunction::Makes(Maker::Gsplit)),
        Library::GmatchStep => Some(IteratorFunction::Steps(Stepper::Gmatch)),
        Library::UstringGmatchStep => Some(IteratorFunction::Steps(Stepper::UstringGmatch)),
        Library::GcodepointStep => Some(IteratorFunction::Steps(Stepper::Gcodepoint)),
        Library::GsplitStep => Some(IteratorFunction::Steps(Stepper::Gsplit)),
        _ => None,
    }
}

/// What each gives is what the meaning says of it.
pub fn iterator_functions_are_in_the_table()
    ensures { AreInTable }
{}
