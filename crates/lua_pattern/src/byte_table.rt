//! A table with a bit for each byte.
ghost use Rattle.std.specs.Prelude.{◌≡◌, ℕ, ◌<◌, ◌==◌, ◌||◌, false, length};
ghost use Rattle.lua_pattern.specs.ByteTables.{table_has};

/// Bytes, each with its bit.
#[derive(Drop, Debug)]
pub struct ByteTable {
    pub words: [u64; 4],
    pub ghost whole: { length words ≡ 4 },
}

impl ByteTable {
    /// The table of no bytes.
    pub fn empty() -> ByteTable
        ensures { (c : ℕ) → table_has result.words c ≡ false }
    {
        ByteTable { words: [0; 4] }
    }

    /// Whether a byte is in the table.
    pub fn has(&self, byte: u8) -> bool
        ensures { result ≡ table_has self.now.words byte }
    {
        self.words[byte as usize / 64] >> (byte % 64) & 1 == 1
    }

    /// Puts a byte into the table.
    pub fn insert(&mut self, byte: u8)
        ensures { (c : ℕ) → c < 256 → table_has self.new.words c ≡ ((c == byte) || table_has self.old.words c) }
    {
        self.words[byte as usize / 64] |= 1 << (byte % 64);
    }
}
