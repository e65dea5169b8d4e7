//! A page of which all is prepared that its text alone settles.
use lua_code::Protos;
use lua_parser::FaultAt;
use wiki_pages::Entry;

/// What is prepared of a page: its text cut and paired, as the page itself shows it and as it is included in others; and of a page of namespace
/// Module the code of its text, or the text's first fault.
#[derive(Drop)]
pub struct Prepared {
    pub(crate) entry: Entry,
    pub(crate) code: Option<Result<Protos, FaultAt>>,
}
