//! Which functions of the library call back nobody, and see nothing but their arguments and the heap.
ghost use Rattle.std.specs.Prelude.{◌≡◌};
ghost use Rattle.lua_libs.specs.Table.{plain_in, AreInTable};

use lua_basic::Library;

/// A function of the library that calls back nobody (manual 5.1; Scribunto, `mw.log`, `frame:getArgument`).
#[derive(Clone, Copy, Debug, PartialEq, Eq)]
pub enum PlainFunction {
    Assert,
    Error,
    GetMetatable,
    SetMetatable,
    Next,
    RawEqual,
    RawGet,
    RawSet,
    Select,
    ToNumber,
    Kind,
    Unpack,
    Log,
    Expand,
}

/// The plain function that this one is. Of those that the meaning answers at once `mw.clone` (`mw_clone`),
/// `mw.title.getCurrentTitle` (`mw_get_current_title`) and the `__index` of a frame's `args` are not among them.
pub fn plain_function(which: Library) -> Option<PlainFunction>
    ensures { result ≡ plain_in which }
{
    match which {
        Library::BasicAssert => Some(PlainFunction::Assert),
        Library::BasicError => Some(PlainFunction::Error),
        Library::BasicGetMetatable => Some(PlainFunction::GetMetatable),
        Library::BasicSetMetatable => Some(PlainFunction::SetMetatable),
        Library::BasicNext => Some(PlainFunction::Next),
        Library::BasicRawEqual => Some(PlainFunction::RawEqual),
        Library::BasicRawGet => Some(PlainFunction::RawGet),
        Library::BasicRawSet => Some(PlainFunction::RawSet),
        Library::BasicSelect => Some(PlainFunction::Select),
        Library::BasicToNumber => Some(PlainFunction::ToNumber),
        Library::BasicType => Some(PlainFunction::Kind),
        Library::BasicUnpack => Some(PlainFunction::Unpack),
        Library::MwLog => Some(PlainFunction::Log),
        Library::ArgumentExpand => Some(PlainFunction::Expand),
        _ => None,
    }
}

/// What a plain function gives is what the meaning says of it.
pub fn plain_functions_are_in_the_table()
    ensures { AreInTable }
{}
