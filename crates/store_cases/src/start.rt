//! What each test begins with: the seed of every map, what is left to spend, and how rows are read.
use std::hash::RandomState;
use std::io;
use std::process::Abort;
use std::random::RandomSource;
use wk_base::Left;

/// A source whose bytes are all 5, so that each run of the tests is the same.
struct Fives;

impl RandomSource for Fives {
    fn fill_bytes(&self, bytes: &mut [u8]) -> io::Result<()> {
        bytes.fill(5);
        Ok(())
    }
}

/// The seed of every map.
pub fn fixed_seed() -> io::Result<RandomState> {
    RandomState::new(&Fives)
}

/// So many steps are left, and nothing else.
pub fn left_with(steps: u64) -> Left {
    Left {
        steps,
        nodes: 0,
        bytes: 0,
        calls: 0,
        depth: 0,
        templates: 0,
    }
}

/// Tries that what a row or a name stands for holds.
pub fn holds(rt: &impl Abort, held: bool, row: &str) {
    assert!(rt; held, "{row}");
}

/// The two sides of a row: what is given, and what is wanted.
pub fn sides(row: &str) -> (&str, &str) {
    row.split_once(" => ").unwrap_or((row, ""))
}

/// The first word of a text, and what stands behind the space.
pub fn words(text: &str) -> (&str, &str) {
    text.split_once(' ').unwrap_or((text, ""))
}
