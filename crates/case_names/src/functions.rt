//! The keys under which a text puts functions into a table.
#![tactic(auto, using(lua_syntax::proofs::Views::gathered))]

ghost use Rattle.std.specs.Prelude.{◌≡◌, ◌++◌, [], map, option_map, IfOk, OnOk};
ghost use Rattle.lua_syntax.specs.Tree.{Fields as PlainFields};
ghost use Rattle.lua_syntax.specs.View.{chunk_view, stats_view, stat_view, stat_kind_view, exprs_view, expr_view, kind_view, fields_view, field_view};
ghost use Rattle.case_names.specs.Cases.{text_of, is_function, index_key, where_function, only_one, assigned_key, listed, field_keys, table_keys, returned_keys, stat_keys, block_keys};

use lua_syntax::{
    Chunk, Expr, ExprKind, Field, NoMemory, Stat, StatKind, WkBaseBytes as Bytes,
    WkBaseList as List,
};
use std::alloc::Global;

/// The text that an expression is.
fn text_of(e: &Expr) -> Option<&Bytes>
    ensures { option_map (λ text. text.now) result ≡ text_of (expr_view e.now) }
{
    match &e.kind {
        ExprKind::Text(text) => Some(text),
        ExprKind::Nil
        | ExprKind::True
        | ExprKind::False
        | ExprKind::Number(_)
        | ExprKind::Dots
        | ExprKind::Function(_)
        | ExprKind::Name(_)
        | ExprKind::Index(_, _)
        | ExprKind::Call(_, _)
        | ExprKind::Method(_, _, _)
        | ExprKind::Table(_)
        | ExprKind::Binary(_, _, _)
        | ExprKind::Unary(_, _)
        | ExprKind::Paren(_) => None,
    }
}

fn is_function(e: &Expr) -> bool
    ensures { result ≡ is_function (expr_view e.now) }
{
    match &e.kind {
        ExprKind::Function(_) => true,
        ExprKind::Nil
        | ExprKind::True
        | ExprKind::False
        | ExprKind::Number(_)
        | ExprKind::Text(_)
        | ExprKind::Dots
        | ExprKind::Name(_)
        | ExprKind::Index(_, _)
        | ExprKind::Call(_, _)
        | ExprKind::Method(_, _, _)
        | ExprKind::Table(_)
        | ExprKind::Binary(_, _, _)
        | ExprKind::Unary(_, _)
        | ExprKind::Paren(_) => false,
    }
}

/// The key of an index, where it is a text.
fn index_key(e: &Expr) -> Option<&Bytes>
    ensures { option_map (λ text. text.now) result ≡ index_key (expr_view e.now) }
{
    match &e.kind {
        ExprKind::Index(_, key) => text_of(key),
        ExprKind::Nil
        | ExprKind::True
        | ExprKind::False
        | ExprKind::Number(_)
        | ExprKind::Text(_)
        | ExprKind::Dots
        | ExprKind::Function(_)
        | ExprKind::Name(_)
        | ExprKind::Call(_, _)
        | ExprKind::Method(_, _, _)
        | ExprKind::Table(_)
        | ExprKind::Binary(_, _, _)
        | ExprKind::Unary(_, _)
        | ExprKind::Paren(_) => None,
    }
}

/// A key, where a function is its value.
fn where_function<'t>(value: &Expr, key: Option<&'t Bytes>) -> Option<&'t Bytes>
    ensures { option_map (λ text. text.now) result ≡ where_function (expr_view value.now) (option_map (λ text. text.now) key.entry) }
{
    if is_function(value) { key } else { None }
}

/// The only one of some expressions.
fn only_one(list: &[Expr]) -> Option<&Expr>
    ensures { option_map (λ e. expr_view e.now) result ≡ only_one (exprs_view list.now) }
{
    match list {
        [] => None,
        [e] => Some(e),
        [_, _, ..] => None,
    }
}

/// The key of one function that is assigned to one index.
fn assigned_key<'t>(targets: &'t [Expr], values: &[Expr]) -> Option<&'t Bytes>
    ensures { option_map (λ text. text.now) result ≡ assigned_key (only_one (exprs_view targets.now)) (only_one (exprs_view values.now)) }
{
    let target = only_one(targets)?;
    let value = only_one(values)?;
    where_function(value, index_key(target))
}

/// Adds a key, if there is one.
fn put_key<'t>(out: &mut List<&'t Bytes>, key: Option<&'t Bytes>) -> Result<(), NoMemory>
    ensures { OnOk result (map (λ k. k.now) out.new ≡ map (λ k. k.now) out.old ++ listed (option_map (λ k. k.now) key.entry)) }
{
    match key {
        Some(key) => out.push(key),
        None => Ok(()),
    }
}

// With whatever fields come after it.
fn put_field<'t>(field: &'t Field, out: &mut List<&'t Bytes>) -> Result<(), NoMemory>
    ensures { OnOk result ((rest : PlainFields) → map (λ k. k.now) out.new ++ field_keys rest ≡ map (λ k. k.now) out.old ++ field_keys (field_view field.now rest)) }
{
    match field {
        Field::Item(_) => Ok(()),
        Field::Pair(key, value) => put_key(out, where_function(value, text_of(key))),
    }
}

/// Adds the keys of the functions in a table.
fn put_fields<'t>(fields: &'t [Field], out: &mut List<&'t Bytes>) -> Result<(), NoMemory>
    ensures { OnOk result (map (λ k. k.now) out.new ≡ map (λ k. k.now) out.old ++ field_keys (fields_view fields.now)) }
{
    for field in fields {
        put_field(field, out)?;
    }
    Ok(())
}

/// Adds the keys of the functions in the table that an expression is.
fn put_table<'t>(e: &'t Expr, out: &mut List<&'t Bytes>) -> Result<(), NoMemory>
    ensures { OnOk result (map (λ k. k.now) out.new ≡ map (λ k. k.now) out.old ++ table_keys (expr_view e.now)) }
{
    match &e.kind {
        ExprKind::Table(fields) => put_fields(fields.as_slice(), out),
        ExprKind::Nil
        | ExprKind::True
        | ExprKind::False
        | ExprKind::Number(_)
        | ExprKind::Text(_)
        | ExprKind::Dots
        | ExprKind::Function(_)
        | ExprKind::Name(_)
        | ExprKind::Index(_, _)
        | ExprKind::Call(_, _)
        | ExprKind::Method(_, _, _)
        | ExprKind::Binary(_, _, _)
        | ExprKind::Unary(_, _)
        | ExprKind::Paren(_) => Ok(()),
    }
}

/// Adds the keys of the functions in the one table that is returned.
fn put_returned<'t>(values: &'t [Expr], out: &mut List<&'t Bytes>) -> Result<(), NoMemory>
    ensures { OnOk result (map (λ k. k.now) out.new ≡ map (λ k. k.now) out.old ++ returned_keys (only_one (exprs_view values.now))) }
{
    match only_one(values) {
        Some(value) => put_table(value, out),
        None => Ok(()),
    }
}

/// Adds the keys of the functions that a statement puts into a table.
fn put_stat<'t>(stat: &'t Stat, out: &mut List<&'t Bytes>) -> Result<(), NoMemory>
    ensures { OnOk result (map (λ k. k.now) out.new ≡ map (λ k. k.now) out.old ++ stat_keys (stat_view stat.now)) }
{
    match &stat.kind {
        StatKind::Assign(targets, values) => {
            put_key(out, assigned_key(targets.as_slice(), values.as_slice()))
        }
        StatKind::Return(values) => put_returned(values.as_slice(), out),
        StatKind::Call(_)
        | StatKind::Do(_)
        | StatKind::While(_, _)
        | StatKind::Repeat(_, _)
        | StatKind::If(_, _)
        | StatKind::Count(_, _, _, _, _)
        | StatKind::Each(_, _, _)
        | StatKind::LocalFunction(_, _)
        | StatKind::Local(_, _)
        | StatKind::Break => Ok(()),
    }
}

/// Adds the keys of the functions that statements put into a table.
fn put_stats<'t>(list: &'t [Stat], out: &mut List<&'t Bytes>) -> Result<(), NoMemory>
    ensures { OnOk result (map (λ k. k.now) out.new ≡ map (λ k. k.now) out.old ++ block_keys (stats_view list.now)) }
{
    for stat in list {
        put_stat(stat, out)?;
    }
    Ok(())
}

/// The keys under which the statements of a text put functions into a table, in order.
pub(crate) fn function_keys<'t>(
    alloc: Global,
    chunk: &'t Chunk,
) -> Result<List<&'t Bytes>, NoMemory>
    ensures { IfOk result (λ keys. map (λ k. k.now) keys ≡ block_keys (chunk_view chunk.now)) }
{
    let mut out = List::new(alloc);
    put_stats(chunk.body.stats.as_slice(), &mut out)?;
    Ok(out)
}
