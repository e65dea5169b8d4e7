//! A page as it is held.
use lua_code::{Bytes, Title};

/// A page of a wiki: its title, and its text.
#[derive(Drop, Debug)]
pub struct RawPage {
    pub title: Title,
    pub bytes: Bytes,
}
