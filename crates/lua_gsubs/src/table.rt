//! The two functions `gsub`.
ghost use Rattle.std.specs.Prelude.{◌≡◌};
ghost use Rattle.lua_gsubs.specs.Table.{gsub_function_in};

use lua_iterators::Library;

/// `string.gsub` (manual 5.4), which goes over bytes, or `mw.ustring.gsub` (Scribunto), which goes over code points.
#[derive(Clone, Copy, Debug, PartialEq, Eq)]
pub enum GsubFunction {
    OfBytes,
    OfPoints,
}

/// The function that this one of the library is, if it is one of the two.
pub fn gsub_function(which: Library) -> Option<GsubFunction>
    ensures { result ≡ gsub_function_in which }
{
    match which {
        Library::StringGsub => Some(GsubFunction::OfBytes),
        Library::UstringGsub => Some(GsubFunction::OfPoints),
        _ => None,
    }
}
