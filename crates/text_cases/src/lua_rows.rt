//! Which module answers a row of texts of Lua.
use crate::laws::put_call;
use crate::numbers::{put_based, put_digits, put_negated, put_numeral, put_operations, put_read};
use crate::out::Out;
use crate::tokens::{self, put_lexed};
use crate::trees::{self, put_beginnings, put_parsed, put_pieces, put_repeated};
use case_text::unescaped;

/// What a text of a kind comes to, as `tokens`, `numbers`, `trees` and `laws` say: of the row as it stands, where it has parts.
pub(crate) fn put_of_row(out: &mut Out, kind: &str, row: &str) {
    match kind {
        "operations" => put_operations(out, row),
        "negated" => put_negated(out, row),
        "digits" => put_digits(out, row),
        "repeated" => put_repeated(out, row),
        "pieces" => put_pieces(out, row),
        "call" => put_call(out, row),
        _ => put_unescaped(out, kind, row),
    }
}

fn put_unescaped(out: &mut Out, kind: &str, row: &str) {
    match unescaped(out.alloc, row.as_bytes()) {
        Ok(text) => put_of_text(out, kind, &text),
        Err(_) => out.lack(),
    }
}

/// Of the text for which the row stands.
fn put_of_text(out: &mut Out, kind: &str, text: &[u8]) {
    match kind {
        "numeral" => put_numeral(out, text),
        "number" => put_read(out, text),
        "based" => put_based(out, text),
        "tokens" => put_lexed(out, tokens::Asked::Tokens, text),
        "looks" => put_lexed(out, tokens::Asked::Looks, text),
        "levels" => put_lexed(out, tokens::Asked::Levels, text),
        "goes" => put_lexed(out, tokens::Asked::Goes, text),
        "tree" => put_parsed(out, trees::Asked::Tree, text),
        "chunk" => put_parsed(out, trees::Asked::WhetherChunk, text),
        "beginnings" => put_beginnings(out, text),
        "lines" => put_parsed(out, trees::Asked::Lines, text),
        "functions" => put_parsed(out, trees::Asked::Functions, text),
        _ => out.put(b"no such kind"),
    }
}
