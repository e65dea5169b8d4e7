//! Functions that raise errors (manual 5.1).
ghost use Rattle.lua_meaning.specs.Basic as meaning;
ghost use Rattle.lua_store.specs.Parts.{IsLater};
ghost use Rattle.lua_basic.specs.Seen.{values_seen, AllOf, Free, AnswerOf};

use crate::arguments::number_or;
use crate::stop::Stop;
use crate::values::{copy, first, is_nil, is_true, rest, second};
use lua_store::{List, Store, Value};
use std::alloc::Global;

/// `assert(v, m)`: all its arguments, or m is raised, without a place.
pub fn assert(alloc: Global, store: &mut Store, args: &[Value]) -> Result<List<Value>, Stop>
    requires { AllOf store.old args.now }
    ensures answer { Free (meaning.assert (values_seen store.old.texts args.now) store.old.heap)
        store.new result }
    ensures of { AnswerOf store.new result }
    ensures later { IsLater store.old store.new }
{
    if is_true(first(args)) {
        let values = copy(alloc, args)?;
        return Ok(values);
    }
    let message = second(args);
    if is_nil(message) {
        let text = store.text(b"assertion failed!")?;
        return Err(Stop::Raised(Value::Text(text), 0));
    }
    Err(Stop::Raised(message, 0))
}

/// `error(m, level)`: m is raised at that level, or else at level 1.
pub fn error(alloc: Global, store: &mut Store, args: &[Value]) -> Result<List<Value>, Stop>
    requires { AllOf store.old args.now }
    ensures answer { Free (meaning.error (values_seen store.old.texts args.now) store.old.heap)
        store.new result }
    ensures of { AnswerOf store.new result }
    ensures later { IsLater store.old store.new }
{
    let level = number_or(alloc, store, 1, 2, b"error", rest(args))?;
    Err(Stop::Raised(first(args), level))
}
