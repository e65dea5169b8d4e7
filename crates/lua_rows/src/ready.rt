//! Calls of functions of the library whose parts are read in place (manual 2.5.8).
ghost use Rattle.std.specs.Prelude.{◌≡◌, ◌∷◌, ◌++◌, [], IfOk, IfSome, MatchOption, OnOk};
ghost use Rattle.lua_code.specs.Seen.{expression_seen, expressions_seen};
ghost use Rattle.lua_code.specs.LuaSlotsCode.{CallC, MethodC};
ghost use Rattle.lua_turns.specs.LuaStateOf.{StateOf};
ghost use Rattle.lua_rows.specs.Ready.{IsCallee, IsMethodOf, IsReady, MayStandBehind};

use lua_calls::GsubFunction;
use lua_calls::table::{Act, AtOnce, act_of};
use lua_code::{Expression, NoMemory};
use lua_turns::{LEVELS, State, Store, Value, constant_at_hand, read};

/// A function of the library that calls back nobody, or only where it is given a function or a table.
#[derive(Clone, Copy, Debug, PartialEq, Eq)]
pub enum Callee {
    Answers(AtOnce),
    Gsub(GsubFunction),
}

/// A call of such a function: what is called and its arguments have been read, and nothing is paid yet. The arguments stand in a list of
/// the caller's, which serves one call after another.
#[derive(Clone, Copy)]
pub struct ReadyCall {
    pub callee: Callee,
    /// The line of the call.
    pub line: u32,
    /// The nodes of what was read, with that of the call.
    pub nodes: u64,
}

/// The function that a value is, if it is such a one.
fn callee_of(called: Value) -> Option<Callee>
    ensures { IfSome result (IsCallee called) }
{
    match called {
        Value::Builtin(which) => match act_of(which) {
            Act::Answers(function) => Some(Callee::Answers(function)),
            Act::Gsub(function) => Some(Callee::Gsub(function)),
            _ => None,
        },
        _ => None,
    }
}

/// Whether an expression may be read in place, so far as a look at it tells.
fn is_plain(e: &Expression) -> bool {
    match e {
        Expression::Nil => true,
        Expression::Truth(_) => true,
        Expression::Number(_) => true,
        Expression::Text(_) => true,
        Expression::Local(_) => true,
        Expression::Global(_, _) => true,
        Expression::Index(_, _, _) => true,
        Expression::Operate(_, _, _, _) => true,
        Expression::Unary(_, _, _) => true,
        _ => false,
    }
}

/// Whether all arguments may be read in place, so far as a look at them tells: where they may not, what is called is not looked up in vain.
fn are_plain(arguments: &[Expression]) -> bool {
    for argument in arguments {
        if !is_plain(argument) {
            return false;
        }
    }
    true
}

/// The first of some expressions, and those behind it.
#[derive(Clone, Copy)]
struct Front<'m> {
    first: &'m Expression,
    rest: &'m [Expression],
}

fn front_of<'m>(expressions: &'m [Expression]) -> Option<Front<'m>>
    ensures { MatchOption result (expressions.now ≡ []) (λ f. expressions.now ≡ f.first.now ∷ f.rest.now) }
{
    match expressions {
        [first, rest @ ..] => Some(Front { first, rest }),
        [] => None,
    }
}

/// One more argument.
fn push(values: &mut Vec<Value>, value: Value) -> Result<(), NoMemory>
    ensures { OnOk result (values.new.items ≡ values.old.items ++ (value ∷ [])) }
{
    match values.push(value) {
        Ok(_) => Ok(()),
        Err(_) => Err(NoMemory),
    }
}

/// The values of arguments that are read in place, behind others; the answer is the number of their nodes.
fn read_arguments<'m>(
    store: &Store,
    state: &State<'m>,
    arguments: &'m [Expression],
    values: &mut Vec<Value>,
) -> Result<Option<u64>, NoMemory>
    requires { StateOf store.now state.now }
    ensures { IfOk result (MayStandBehind store.now state.now (expressions_seen arguments.now) values.old.items values.new.items) }
{
    let mut nodes = 0;
    let mut left = arguments;
    'items: while let Some(front) = front_of(left) {
        match read(store, state, front.first, LEVELS) {
            Some(found) => {
                if nodes + found.nodes >= 1 << 32 {
                    return Ok(None);
                }
                push(values, found.value)?;
                nodes += found.nodes;
                left = front.rest;
            }
            None => return Ok(None),
        }
    }
    Ok(Some(nodes))
}

/// The call of what an expression is.
fn ready_function<'m>(
    store: &Store,
    state: &State<'m>,
    called: &'m Expression,
    arguments: &'m [Expression],
    line: u32,
    values: &mut Vec<Value>,
) -> Result<Option<ReadyCall>, NoMemory>
    requires { StateOf store.now state.now }
    ensures { IfOk result (λ r. IfSome r (IsReady store.now state.now (CallC (expression_seen called.now) (expressions_seen arguments.now) line) values.new.items)) }
{
    let Some(called) = read(store, state, called, LEVELS) else {
        return Ok(None);
    };
    let Some(callee) = callee_of(called.value) else {
        return Ok(None);
    };
    values.clear();
    match read_arguments(store, state, arguments, values)? {
        Some(nodes) => Ok(Some(ReadyCall {
            callee,
            line,
            nodes: 1 + (called.nodes + nodes),
        })),
        None => Ok(None),
    }
}

/// The function that a method of a text is, if it is such a one.
fn text_method(store: &Store, state: &State<'_>, object: Value, name: u32) -> Option<Callee>
    requires { StateOf store.now state.now }
    ensures { IfSome result (IsMethodOf store.now state.now object name) }
{
    match object {
        Value::Text(_) => match constant_at_hand(state, name) {
            Some(text) => callee_of(store.get(state.env.strings, Value::Text(text))),
            None => None,
        },
        _ => None,
    }
}

/// The call of a method of a text, which is its first argument.
fn ready_method<'m>(
    store: &Store,
    state: &State<'m>,
    object: &'m Expression,
    name: u32,
    arguments: &'m [Expression],
    line: u32,
    values: &mut Vec<Value>,
) -> Result<Option<ReadyCall>, NoMemory>
    requires { StateOf store.now state.now }
    ensures { IfOk result (λ r. IfSome r (IsReady store.now state.now (MethodC (expression_seen object.now) name (expressions_seen arguments.now) line) values.new.items)) }
{
    let Some(object) = read(store, state, object, LEVELS) else {
        return Ok(None);
    };
    let Some(callee) = text_method(store, state, object.value, name) else {
        return Ok(None);
    };
    values.clear();
    push(values, object.value)?;
    match read_arguments(store, state, arguments, values)? {
        Some(nodes) => Ok(Some(ReadyCall {
            callee,
            line,
            nodes: 1 + (object.nodes + nodes),
        })),
        None => Ok(None),
    }
}

/// The call that an expression is, if it is one of such a function, and its parts are read in place.
pub fn ready_call<'m>(
    store: &Store,
    state: &State<'m>,
    e: &'m Expression,
    values: &mut Vec<Value>,
) -> Result<Option<ReadyCall>, NoMemory>
    requires { StateOf store.now state.now }
    ensures { IfOk result (λ r. IfSome r (IsReady store.now state.now (expression_seen e.now) values.new.items)) }
{
    match e {
        Expression::Call(called, arguments, line) => {
            let arguments = arguments.as_slice();
            if !are_plain(arguments) {
                return Ok(None);
            }
            ready_function(store, state, called, arguments, *line, values)
        }
        Expression::Method(object, name, arguments, line) => {
            let arguments = arguments.as_slice();
            if !are_plain(arguments) {
                return Ok(None);
            }
            ready_method(store, state, object, *name, arguments, *line, values)
        }
        _ => Ok(None),
    }
}
