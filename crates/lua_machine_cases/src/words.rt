//! How a run ended, in words.
ghost use Rattle.lua_machine.specs.LuaStoreParts.{IsOf, IsTextOf};
ghost use Rattle.lua_machine.specs.LuaStackOf.{GivenOf, JumpOf};
ghost use Rattle.lua_machine.specs.LuaStateOf.{OutcomeOf};
ghost use Rattle.lua_machine.specs.Events.{EventOf};

use crate::shown::{Out, put_bytes, put_question, put_spent};
use lua_machine::{Event, Given, Jump, Outcome, Store, Value};
use lua_resolve::TextId;

/// A text behind a word.
fn put_text(out: &mut Out, store: &Store, id: TextId, word: &str)
    requires { IsTextOf store.now id }
{
    out.put(word);
    out.put(" ");
    put_bytes(out, store.bytes(id));
}

/// A value at the end of a run, or one that nothing caught, behind a word.
fn put_value(out: &mut Out, store: &Store, value: Value, word: &str)
    requires { IsOf store.now value }
{
    match value {
        Value::Text(id) => put_text(out, store, id, word),
        Value::Table(_) => out.put("loads"),
        _ => out.put("another value"),
    }
}

/// What a run gave.
fn put_given(out: &mut Out, store: &Store, given: &Given)
    requires { GivenOf store.now given.now }
{
    match given {
        Given::One(value) => put_value(out, store, *value, "gives"),
        Given::Many(_) => out.put("several values"),
    }
}

/// What a run raised.
fn put_jump(out: &mut Out, store: &Store, jump: &Jump)
    requires { JumpOf store.now jump.now }
{
    match jump {
        Jump::Raised(value) => put_value(out, store, *value, "fails"),
        Jump::Returned(_) => out.put("returned"),
        Jump::Broke => out.put("broke"),
    }
}

/// An outcome in words.
fn put_outcome(out: &mut Out, store: &Store, outcome: &Outcome)
    requires { OutcomeOf store.now outcome.now }
{
    match outcome {
        Outcome::Goes(given) => put_given(out, store, given),
        Outcome::Jumps(jump) => put_jump(out, store, jump),
    }
}

/// An event in words.
pub fn put_event(out: &mut Out, store: &Store, event: &Event)
    requires { EventOf store.now event.now }
{
    match event {
        Event::Over(outcome) => put_outcome(out, store, outcome),
        Event::Spent(which) => put_spent(out, *which),
        Event::Asks(question) => put_question(out, question),
    }
}
