//! What stays the same from match to match, and what waits for the replacement of one.
use crate::far::Far;
use lua_pattern::{OneByte, OnePoint, Pattern};
use lua_store::{TableId, TextId, Value};

/// A pattern over bytes or over code points.
#[derive(Drop)]
pub enum AnyPattern {
    Bytes(Pattern<OneByte>),
    Points(Pattern<OnePoint>),
}

/// What is asked for the replacement of a match.
#[derive(Clone, Copy, Debug)]
pub enum Replacer {
    Table(TableId),
    Function(Value),
}

/// What stays the same from match to match.
#[derive(Drop)]
pub struct Job {
    pub subject: TextId,
    pub pattern: AnyPattern,
    pub by: Replacer,
}

/// What waits for the replacement of a match: the job, how many more matches there may be, how far it is up to this match, and where the
/// match begins and ends in the subject.
#[derive(Drop)]
pub struct Replacing {
    pub job: Job,
    pub limit: u64,
    pub far: Far,
    pub start: usize,
    pub end: usize,
}
