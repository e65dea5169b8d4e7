//! Plain functions that Scribunto adds (Scribunto, Lua reference manual).
ghost use Rattle.std.specs.Prelude.{◌≡◌, ◌++◌, IfOk};
ghost use Rattle.lua_basic.specs.LuaMeaningCallBacks as texts;
ghost use Rattle.lua_basic.specs.LuaMeaningFrames as frames;
ghost use Rattle.lua_basic.specs.LuaMeaningMessages as messages;
ghost use Rattle.lua_basic.specs.LuaMeaningMw as meaning;
ghost use Rattle.lua_graph.specs.LuaStoreSeen.{seen};
ghost use Rattle.lua_graph.specs.LuaStoreParts.{IsOf, IsLater};
ghost use Rattle.lua_basic.specs.Arguments.{text_bytes};
ghost use Rattle.lua_basic.specs.Seen.{values_seen, AllOf, Free, AnswerOf};

use lua_basic::Stop;
use lua_basic::arguments::a_table;
use lua_basic::fields::field;
use lua_basic::texts::TextIn;
use lua_basic::values::single;
use lua_graph::{Store, Value};
use std::alloc::Global;
use wk_base::{List, NoMemory};

/// `mw.log(...)` does nothing.
pub fn log(alloc: Global, store: &mut Store, args: &[Value]) -> Result<List<Value>, Stop>
    requires { AllOf store.old args.now }
    ensures answer { Free (meaning.log (values_seen store.old.texts args.now) store.old.heap)
        store.new result }
    ensures of { AnswerOf store.new result }
    ensures later { IsLater store.old store.new }
{
    Ok(List::new(alloc))
}

/// `expand` of what `frame:getArgument` gives: the field `value` of its first argument.
pub fn argument_expand(
    alloc: Global,
    store: &mut Store,
    args: &[Value],
) -> Result<List<Value>, Stop>
    requires { AllOf store.old args.now }
    ensures answer { Free
        (frames.argument_expand (values_seen store.old.texts args.now) store.old.heap)
        store.new result }
    ensures of { AnswerOf store.new result }
    ensures later { IsLater store.old store.new }
{
    let table = a_table(alloc, store, 1, b"expand", args)?;
    let value = field(store, Value::Table(table), b"value")?;
    let values = single(alloc, value)?;
    Ok(values)
}

/// The text of a value as `tostring` gives it where no handler is asked (manual 5.1).
pub fn text_of<'b>(alloc: Global, store: &Store<'b>, value: Value) -> Result<TextIn<'b>, NoMemory>
    requires { IsOf store.now value }
    ensures { IfOk result (λ text. text_bytes text ≡ texts.text_of (seen store.now.texts value)) }
{
    match value {
        Value::Nil => Ok(TextIn::Kept(b"nil")),
        Value::Bool(true) => Ok(TextIn::Kept(b"true")),
        Value::Bool(false) => Ok(TextIn::Kept(b"false")),
        Value::Number(n) => {
            let digits = lua_number::text(alloc, n)?;
            Ok(TextIn::Written(digits))
        }
        Value::Text(text) => Ok(TextIn::Kept(store.bytes(text))),
        Value::Table(_) => Ok(TextIn::Kept(b"table")),
        Value::Closure(_) => Ok(TextIn::Kept(b"function")),
        Value::Builtin(_) => Ok(TextIn::Kept(b"function")),
        Value::Markup(_) => Ok(TextIn::Kept(b"table")),
    }
}

/// A text between two others.
fn between(alloc: Global, before: &[u8], text: &[u8], after: &[u8]) -> Result<Vec<u8>, NoMemory>
    ensures { IfOk result (λ made. made.items ≡ before.now ++ text.now ++ after.now) }
{
    let Ok(mut made) = before.to_vec(alloc) else {
        return Err(NoMemory);
    };
    match made.extend_from_slice(text) {
        Ok(_) => {}
        Err(_) => return Err(NoMemory),
    }
    match made.extend_from_slice(after) {
        Ok(_) => Ok(made),
        Err(_) => Err(NoMemory),
    }
}

/// The message of the handlers of `strict` that there is no global variable of this name (Scribunto, strict).
pub fn undeclared_variable(alloc: Global, store: &Store, name: Value) -> Result<Vec<u8>, NoMemory>
    requires { IsOf store.now name }
    ensures { IfOk result (λ made.
        made.items ≡ messages.undeclared_variable (texts.text_of (seen store.now.texts name))) }
{
    let name = text_of(alloc, store, name)?;
    let message = between(alloc, b"variable '", name.as_slice(), b"' is not declared")?;
    Ok(message)
}

/// So it is where a value is assigned to one.
pub fn undeclared_target(alloc: Global, store: &Store, name: Value) -> Result<Vec<u8>, NoMemory>
    requires { IsOf store.now name }
    ensures { IfOk result (λ made.
        made.items ≡ messages.undeclared_target (texts.text_of (seen store.now.texts name))) }
{
    let name = text_of(alloc, store, name)?;
    let message = between(
        alloc,
        b"assign to undeclared variable '",
        name.as_slice(),
        b"'",
    )?;
    Ok(message)
}
