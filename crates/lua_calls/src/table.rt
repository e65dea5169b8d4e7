//! What each function of the library is (manual 5; Scribunto).
ghost use Rattle.std.specs.Prelude.{◌≡◌, MatchOption};
ghost use Rattle.lua_calls.specs.Table.{other_in, InNoGroup, IsLine};
ghost use Rattle.lua_calls.specs.declared.table.Act.TheVariants as act;

use lua_acts::{PlainFunction, plain_function};
use lua_gsubs::{GsubFunction, IteratorFunction, iterator_function};
use lua_tables::{Library, TableFunction, table_function};
use mw_frame_calls::{FrameFunction, frame_function};
use mw_htmls::{HtmlFunction, StringFunction, html_function, string_function};
use mw_texts::{TextFunction, UstringFunction, text_function, ustring_function};

/// A function that answers at once: it sees nothing but its arguments and the heap.
#[derive(Clone, Copy, Debug, PartialEq, Eq)]
pub enum AtOnce {
    Basic(PlainFunction),
    /// of `string` or `math`
    Strings(StringFunction),
    Tables(TableFunction),
    Ustrings(UstringFunction),
    Texts(TextFunction),
    /// that make iterators, and the steps of these
    Iterators(IteratorFunction),
    /// of `mw.html`, and the methods of its objects
    Html(HtmlFunction),
}

/// A function that calls back, or that sees more of a run than its heap and its frames.
#[derive(Clone, Copy, Debug, PartialEq, Eq)]
pub enum CallBack {
    Pcall,
    Xpcall,
    ToString,
    Pairs,
    Ipairs,
    NextPlace,
    Require,
    LoadData,
    StrictRead,
    StrictWrite,
}

/// What a function of the library is.
#[derive(Clone, Copy, Debug, PartialEq, Eq)]
pub enum Act {
    Answers(AtOnce),
    Framed(FrameFunction),
    Clone,
    CurrentTitle,
    ArgsIndex,
    Calls(CallBack),
    Gsub(GsubFunction),
}

/// The function that answers at once which this one is, where it is in a group of them.
fn at_once(which: Library) -> Option<AtOnce>
    ensures { MatchOption result (InNoGroup which) (λ f. IsLine which (act.Answers f)) }
{
    match plain_function(which) {
        Some(function) => Some(AtOnce::Basic(function)),
        None => match string_function(which) {
            Some(function) => Some(AtOnce::Strings(function)),
            None => match table_function(which) {
                Some(function) => Some(AtOnce::Tables(function)),
                None => match ustring_function(which) {
                    Some(function) => Some(AtOnce::Ustrings(function)),
                    None => match text_function(which) {
                        Some(function) => Some(AtOnce::Texts(function)),
                        None => match iterator_function(which) {
                            Some(function) => Some(AtOnce::Iterators(function)),
                            None => match html_function(which) {
                                Some(function) => Some(AtOnce::Html(function)),
                                None => None,
                            },
                        },
                    },
                },
            },
        },
    }
}

/// What a function is that is in no group and none of the frames.
fn other_act(which: Library) -> Act
    ensures { result ≡ other_in which }
{
    match which {
        Library::MwClone => Act::Clone,
        Library::MwGetCurrentTitle => Act::CurrentTitle,
        Library::ArgsIndex => Act::ArgsIndex,
        Library::BasicPcall => Act::Calls(CallBack::Pcall),
        Library::BasicXpcall => Act::Calls(CallBack::Xpcall),
        Library::BasicToString => Act::Calls(CallBack::ToString),
        Library::BasicPairs => Act::Calls(CallBack::Pairs),
        Library::BasicIpairs => Act::Calls(CallBack::Ipairs),
        Library::IpairsStep => Act::Calls(CallBack::NextPlace),
        Library::BasicRequire => Act::Calls(CallBack::Require),
        Library::MwLoadData => Act::Calls(CallBack::LoadData),
        Library::StrictIndex => Act::Calls(CallBack::StrictRead),
        Library::StrictNewIndex => Act::Calls(CallBack::StrictWrite),
        Library::StringGsub => Act::Gsub(GsubFunction::OfBytes),
        // `mw.ustring.gsub` is left
        _ => Act::Gsub(GsubFunction::OfPoints),
    }
}

/// What a function of the library is, as the meaning's table says it.
pub fn act_of(which: Library) -> Act
    ensures { IsLine which result }
{
    match at_once(which) {
        Some(function) => Act::Answers(function),
        None => match frame_function(which) {
            Some(function) => Act::Framed(function),
            None => other_act(which),
        },
    }
}
