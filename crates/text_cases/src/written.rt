//! A tree as an S-expression, in which each node has its line: `(assign@1 ((name@1 x)) ((number@1 1)))`.
use crate::out::Out;
use lua_syntax::{
    Arm, BinaryOp, Block, Chunk, Expr, ExprKind, Field, Function, Stat, StatKind, UnaryOp,
};
use mw_frame::Bytes;

pub(crate) fn put_chunk(out: &mut Out, chunk: &Chunk) {
    block(out, &chunk.body)
}

fn open(out: &mut Out) {
    out.put_word(b"(");
}

fn close(out: &mut Out) {
    out.put(b")");
}

fn open_node(out: &mut Out, name: &[u8], line: u32) {
    open(out);
    out.put(name);
    out.put(b"@");
    out.put_line(line);
}

fn hex_digit(n: u8) -> u8 {
    match n {
        0..=9 => n.wrapping_add(b'0'),
        _ => n.wrapping_add(b'a' - 10),
    }
}

/// A byte of a string, as `\x` and two digits where it is no plain character.
fn put_byte(out: &mut Out, byte: u8) {
    match byte {
        b'"' | b'\\' | 0..=31 | 127..=255 => {
            out.put(&[b'\\', b'x', hex_digit(byte / 16), hex_digit(byte % 16)])
        }
        _ => out.put(&[byte]),
    }
}

fn put_text(out: &mut Out, text: &Bytes) {
    out.put_word(b"\"");
    for byte in text.as_slice() {
        put_byte(out, *byte);
    }
    out.put(b"\"");
}

fn put_each_name(out: &mut Out, names: &[Bytes]) {
    for name in names {
        out.put_word(name.as_slice());
    }
}

fn put_names(out: &mut Out, names: &[Bytes]) {
    open(out);
    put_each_name(out, names);
    close(out);
}

fn put_params(out: &mut Out, names: &[Bytes], dots: bool) {
    open(out);
    put_each_name(out, names);
    if dots {
        out.put_word(b"...");
    }
    close(out);
}

#[cycle(written)]
fn block(out: &mut Out, b: &Block) {
    open(out);
    for s in b.stats.as_slice() {
        stat(out, s);
    }
    close(out);
}

#[cycle(written)]
fn function(out: &mut Out, f: &Function) {
    put_params(out, f.params.as_slice(), f.dots);
    block(out, &f.body);
}

fn stat_name(kind: &StatKind) -> &'static [u8] {
    match kind {
        StatKind::Assign(_, _) => b"assign",
        StatKind::Call(_) => b"call",
        StatKind::Do(_) => b"do",
        StatKind::While(_, _) => b"while",
        StatKind::Repeat(_, _) => b"repeat",
        StatKind::If(_, _) => b"if",
        StatKind::Count(_, _, _, _, _) => b"count",
        StatKind::Each(_, _, _) => b"each",
        StatKind::LocalFunction(_, _) => b"localfunction",
        StatKind::Local(_, _) => b"local",
        StatKind::Return(_) => b"return",
        StatKind::Break => b"break",
    }
}

#[cycle(written)]
fn stat(out: &mut Out, s: &Stat) {
    open_node(out, stat_name(&s.kind), s.line);
    stat_kind(out, &s.kind);
    close(out);
}

#[cycle(written)]
fn stat_kind(out: &mut Out, kind: &StatKind) {
    match kind {
        StatKind::Assign(targets, values) => {
            exprs(out, targets.as_slice());
            exprs(out, values.as_slice());
        }
        StatKind::Call(e) => expr(out, e),
        StatKind::Do(b) => block(out, b),
        StatKind::While(test, b) => {
            expr(out, test);
            block(out, b);
        }
        StatKind::Repeat(b, test) => {
            block(out, b);
            expr(out, test);
        }
        StatKind::If(list, other) => {
            arms(out, list.as_slice());
            block_or_none(out, other);
        }
        StatKind::Count(name, from, to, by, b) => {
            out.put_word(name.as_slice());
            expr(out, from);
            expr(out, to);
            expr_or_none(out, by);
            block(out, b);
        }
        StatKind::Each(names, values, b) => {
            put_names(out, names.as_slice());
            exprs(out, values.as_slice());
            block(out, b);
        }
        StatKind::LocalFunction(name, f) => {
            out.put_word(name.as_slice());
            function(out, f);
        }
        StatKind::Local(names, values) => {
            put_names(out, names.as_slice());
            exprs(out, values.as_slice());
        }
        StatKind::Return(values) => exprs(out, values.as_slice()),
        StatKind::Break => {}
    }
}

#[cycle(written)]
fn block_or_none(out: &mut Out, b: &Option<Block>) {
    match b {
        None => out.put_word(b"none"),
        Some(b) => block(out, b),
    }
}

#[cycle(written)]
fn arm(out: &mut Out, a: &Arm) {
    open(out);
    expr(out, &a.test);
    block(out, &a.body);
    close(out);
}

#[cycle(written)]
fn arms(out: &mut Out, list: &[Arm]) {
    open(out);
    for a in list {
        arm(out, a);
    }
    close(out);
}

fn expr_name(kind: &ExprKind) -> &'static [u8] {
    match kind {
        ExprKind::Nil => b"nil",
        ExprKind::True => b"true",
        ExprKind::False => b"false",
        ExprKind::Number(_) => b"number",
        ExprKind::Text(_) => b"text",
        ExprKind::Dots => b"dots",
        ExprKind::Function(_) => b"function",
        ExprKind::Name(_) => b"name",
        ExprKind::Index(_, _) => b"index",
        ExprKind::Call(_, _) => b"call",
        ExprKind::Method(_, _, _) => b"method",
        ExprKind::Table(_) => b"table",
        ExprKind::Binary(_, _, _) => b"binary",
        ExprKind::Unary(_, _) => b"unary",
        ExprKind::Paren(_) => b"paren",
    }
}

#[cycle(written)]
fn expr(out: &mut Out, e: &Expr) {
    open_node(out, expr_name(&e.kind), e.line);
    kind(out, &e.kind);
    close(out);
}

#[cycle(written)]
fn expr_or_none(out: &mut Out, e: &Option<Expr>) {
    match e {
        None => out.put_word(b"none"),
        Some(e) => expr(out, e),
    }
}

fn put_number(out: &mut Out, n: i64) {
    out.put_gap();
    out.put_number(n);
}

#[cycle(written)]
fn kind(out: &mut Out, kind: &ExprKind) {
    match kind {
        ExprKind::Nil | ExprKind::True | ExprKind::False | ExprKind::Dots => {}
        ExprKind::Number(n) => put_number(out, *n),
        ExprKind::Text(text) => put_text(out, text),
        ExprKind::Name(name) => out.put_word(name.as_slice()),
        ExprKind::Function(f) => function(out, f),
        ExprKind::Index(of, key) => {
            expr(out, of);
            expr(out, key);
        }
        ExprKind::Call(called, args) => {
            expr(out, called);
            exprs(out, args.as_slice());
        }
        ExprKind::Method(of, name, args) => {
            expr(out, of);
            out.put_word(name.as_slice());
            exprs(out, args.as_slice());
        }
        ExprKind::Table(list) => fields(out, list.as_slice()),
        ExprKind::Binary(op, a, b) => {
            out.put_word(binary(*op));
            expr(out, a);
            expr(out, b);
        }
        ExprKind::Unary(op, a) => {
            out.put_word(unary(*op));
            expr(out, a);
        }
        ExprKind::Paren(a) => expr(out, a),
    }
}

#[cycle(written)]
fn exprs(out: &mut Out, list: &[Expr]) {
    open(out);
    for e in list {
        expr(out, e);
    }
    close(out);
}

#[cycle(written)]
fn field(out: &mut Out, f: &Field) {
    match f {
        Field::Item(e) => expr(out, e),
        Field::Pair(key, value) => {
            out.put_word(b"(pair");
            expr(out, key);
            expr(out, value);
            close(out);
        }
    }
}

#[cycle(written)]
fn fields(out: &mut Out, list: &[Field]) {
    open(out);
    for f in list {
        field(out, f);
    }
    close(out);
}

fn binary(op: BinaryOp) -> &'static [u8] {
    match op {
        BinaryOp::Or => b"or",
        BinaryOp::And => b"and",
        BinaryOp::Lt => b"<",
        BinaryOp::Gt => b">",
        BinaryOp::Le => b"<=",
        BinaryOp::Ge => b">=",
        BinaryOp::Ne => b"~=",
        BinaryOp::Eq => b"==",
        BinaryOp::Concat => b"..",
        BinaryOp::Add => b"+",
        BinaryOp::Sub => b"-",
        BinaryOp::Mul => b"*",
        BinaryOp::Div => b"/",
        BinaryOp::Mod => b"%",
        BinaryOp::Pow => b"^",
    }
}

fn unary(op: UnaryOp) -> &'static [u8] {
    match op {
        UnaryOp::Not => b"not",
        UnaryOp::Len => b"#",
        UnaryOp::Minus => b"-",
    }
}
