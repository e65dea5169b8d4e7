//! A sink over a stream, such as standard output.
ghost use Rattle.std.specs.Prelude.{◌≡◌, None};

use crate::{Sink, SinkFailed};
use std::alloc::Global;
use std::io::{self, Write};
use std::marker::Model;

/// A stream. It tells no content, and counts the puts that failed.
#[derive(Drop)]
pub struct StreamSink<W> {
    stream: W,
    alloc: Global,
    faults: u64,
}

impl<W> Model for StreamSink<W> {
    ghost use Rattle.std.specs.Prelude.{ℕ};

    ghost Value = { ℕ };

    ghost view = { λ s. s.faults };
}

impl<W> StreamSink<W> {
    /// A sink over the runtime's own stream.
    pub fn new(alloc: Global, stream: W) -> StreamSink<W>
        ensures { result ≡ 0 }
    {
        StreamSink {
            stream,
            alloc,
            faults: 0,
        }
    }
}

/// Writes the whole piece, and hands on what the stream keeps back.
fn write_through<W: Write>(stream: &mut W, bytes: &[u8]) -> io::Result<()> {
    stream.write_all(bytes)?;
    stream.flush()
}

impl<W: Write> Sink for StreamSink<W> {
    ghost contents = { λ _. None };

    ghost faults = { λ s. s };

    fn put(&mut self, bytes: &[u8]) -> Result<(), SinkFailed> {
        match write_through(&mut self.stream, bytes) {
            Ok(_) => Ok(()),
            Err(_) => {
                self.faults = self.faults.saturating_add(1);
                Err(SinkFailed)
            }
        }
    }
}
