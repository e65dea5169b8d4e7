//! What `parse` says of a text determines its answer, whatever memory it finds.
ghost use Rattle.std.specs.Prelude.{ℕ, List};
ghost use Rattle.lua_parser.specs.ParsedOnce.{ChunkOrFault, OneChunk, OneFault};

/// What `parse` says of a text determines its answer, but for want of memory: one chunk, or one fault.
pub fn parsed_once()
    ensures chunk { (text : List ℕ) → OneChunk text }
    ensures fault { (text : List ℕ) → OneFault text }
    ensures chunk_or_fault { (text : List ℕ) → ChunkOrFault text }
{}
