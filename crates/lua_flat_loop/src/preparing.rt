//! A module made ready to run: its constants become values of a store.
ghost use Rattle.std.specs.Prelude.{◌≡◌, ◌++◌, map, IfOk, OnOk};
ghost use Rattle.lua_store.specs.Parts.{IsTextOf};
ghost use Rattle.lua_flat_loop.specs.Preparing.{constant_value, TextsIn, IsPrepared};

use crate::ready::Ready;
use lua_flat_code::{Constant, Functions};
use lua_store::{Store, TextId, Value};
use std::alloc::Global;
use wk_base::{Bytes, List, NoMemory};

/// A constant that is no text, as a value.
fn value_of(constant: Constant) -> Value
    ensures { result ≡ constant_value constant }
{
    match constant {
        Constant::Nil => Value::Nil,
        Constant::Truth(truth) => Value::Bool(truth),
        Constant::Number(n) => Value::Number(n),
    }
}

/// Texts as values.
fn texts_in(alloc: Global, store: &mut Store<'_>, texts: &[Bytes]) -> Result<List<Value>, NoMemory>
    ensures { IfOk result (TextsIn store.old store.new texts.now) }
{
    let mut values = List::new(alloc);
    for text in texts {
        let id = store.text(text.as_slice())?;
        values.push(Value::Text(id))?;
    }
    Ok(values)
}

/// Puts constants that are no texts behind values.
fn add_others(values: &mut List<Value>, constants: &[Constant]) -> Result<(), NoMemory>
    ensures { OnOk result (values.new ≡ values.old ++ map constant_value constants.now) }
{
    for constant in constants {
        values.push(value_of(*constant))?;
    }
    Ok(())
}

/// A module of this title that is ready to run. Its texts are found in the store, or made there.
pub fn prepare<'m>(
    alloc: Global,
    store: &mut Store<'_>,
    title: TextId,
    functions: &'m Functions,
) -> Result<Ready<'m>, NoMemory>
    requires { IsTextOf store.old title }
    ensures { IfOk result (IsPrepared store.old store.new title functions.now) }
{
    let mut values = texts_in(alloc, store, functions.texts.as_slice())?;
    add_others(&mut values, functions.constants.as_slice())?;
    Ok(Ready {
        title,
        functions,
        constants: values.into_vec(),
    })
}
