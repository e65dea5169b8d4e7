//! What a row's text comes to, while it is written.
use itoa::Buffer;
use std::alloc::Global;
use wiki_markup::NoMemory;

/// A text that grows. Want of memory is told at its end, so that what writes into it has no errors to hand on.
#[derive(Drop)]
pub(crate) struct Out {
    pub(crate) alloc: Global,
    pub(crate) text: Vec<u8>,
    pub(crate) is_lacking: bool,
}

impl Out {
    pub(crate) fn new(alloc: Global) -> Out {
        Out {
            alloc,
            text: Vec::new(alloc),
            is_lacking: false,
        }
    }

    /// What was written, or want of memory.
    pub(crate) fn given(self) -> Result<Vec<u8>, NoMemory> {
        if self.is_lacking {
            return Err(NoMemory);
        }
        Ok(self.text)
    }

    /// Tells that memory ran out.
    pub(crate) fn lack(&mut self) {
        self.is_lacking = true;
    }

    pub(crate) fn put(&mut self, bytes: &[u8]) {
        if self.text.extend_from_slice(bytes).is_err() {
            self.is_lacking = true;
        }
    }

    /// A space, but none at the beginning nor behind what opens.
    pub(crate) fn put_gap(&mut self) {
        match self.text.as_slice() {
            [] | [.., b'('] => {}
            _ => self.put(b" "),
        }
    }

    pub(crate) fn put_word(&mut self, word: &[u8]) {
        self.put_gap();
        self.put(word);
    }

    pub(crate) fn put_number(&mut self, n: i64) {
        let mut buffer = Buffer::new();
        self.put(buffer.format(n).as_bytes());
    }

    pub(crate) fn put_count(&mut self, n: usize) {
        let mut buffer = Buffer::new();
        self.put(buffer.format(n).as_bytes());
    }

    pub(crate) fn put_sum(&mut self, n: u64) {
        let mut buffer = Buffer::new();
        self.put(buffer.format(n).as_bytes());
    }

    pub(crate) fn put_line(&mut self, line: u32) {
        self.put_number(i64::from(line));
    }
}
