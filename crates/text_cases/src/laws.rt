//! Rows that call what no text is handed to: the laws of the grammar and of the parser, and small parts of `lua_reading`.
//!
//! - `call`: what is called, by its name, comes to what the row says; a law comes to `called`, since it gives nothing
use crate::out::Out;
use lua_grammar::{Context, examples, laws};
use lua_reading::context::{in_function, in_loop, under};
use lua_reading::short_lists::short_list;
use lua_reading::{Fault, FaultPlace, fault_at};

pub(crate) fn put_call(out: &mut Out, name: &str) {
    match name {
        "laws of the grammar" => call_laws(out),
        "examples of the grammar" => call_examples(out),
        "law of the parser" => call_parser_law(out),
        "body of a function in a loop" => put_context(out),
        "short list" => put_short_list(out),
        "fault 5 at 3" => put_fault(out),
        _ => out.put(b"no such call"),
    }
}

fn call_laws(out: &mut Out) {
    laws::chunk_fits();
    laws::chunk_is_low();
    laws::trees_are_low();
    laws::nodes_are_shallow();
    laws::fewer_begin();
    laws::one_fault();
    laws::fault_or_chunk();
    lua_grammar_laws::spelled_once();
    lua_grammar_laws::text_spelled_once();
    out.put(b"called");
}

fn call_examples(out: &mut Out) {
    examples::operator_chunks();
    examples::call_chunks();
    examples::statement_chunks();
    examples::function_chunks();
    examples::misfits_are_refused();
    out.put(b"called");
}

fn call_parser_law(out: &mut Out) {
    lua_parser::parsed_once();
    out.put(b"called");
}

fn put_context(out: &mut Out) {
    let outside = Context {
        above: 0,
        inside_loop: false,
        vararg: true,
    };
    let body = in_function(false, in_loop(under(outside)));
    out.put_line(body.above);
    out.put(if body.inside_loop {
        b" in a loop"
    } else {
        b" in no loop"
    });
    out.put(if body.vararg { b", dots" } else { b", no dots" });
}

fn put_short_list(out: &mut Out) {
    match short_list::<u32>(out.alloc) {
        Ok(items) => out.put_count(items.as_slice().len()),
        Err(_) => out.lack(),
    }
}

fn put_fault(out: &mut Out) {
    match fault_at::<u8>(5, 3) {
        Err(Fault::At(fault)) => put_place(out, fault),
        _ => out.put(b"no fault"),
    }
}

fn put_place(out: &mut Out, fault: FaultPlace) {
    out.put_line(u32::from(fault.kind));
    out.put(b" at ");
    out.put_count(fault.place);
}
