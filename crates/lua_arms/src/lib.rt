//! The moves of a machine of Lua, in code.
//!
//! - `step`: how an arm ends
//! - `tables`: handlers of tables
//! - `calls`: what is called begins
//! - `index`: indexing, up to the next link of a chain
//! - `setting`: assignment to an index, up to the next link of a chain
//! - `lists`: lists of expressions, operands of `and` and `or`
//! - `loops`: what follows a test, a bound or an iterator's results
//! - `operands`: expressions whose operands are evaluated
//! - `statements`: blocks of their own, and conditions
//! - `numbers`: the number that a value is taken for
//!
//! Begin with `specs/Steps.antt`: what a step is seen as. Each function's contract is the equation of its move in `lua_slots`.
#![tactic(auto)]

pub mod calls;
pub mod index;
pub mod lists;
pub mod loops;
pub mod numbers;
pub mod operands;
pub mod setting;
pub mod statements;
pub mod step;
pub mod tables;

pub use lua_basic::charges::ENTRY_CHARGE;
pub use lua_basic::texts::text_in;
pub use lua_basic::values::single;
pub use lua_basic::{ClosureKind, Left, Store, TextId, Value};
pub use lua_stack::activation::Level;
pub use lua_stack::opening::{open, open_all};
pub use lua_stack::raising::{raise_quote, raise_text};
pub use lua_stack::register::{Slot as LuaStackRegisterSlot, captures, read, write};
pub use lua_stack::values::{is_function, is_nil, is_true};
pub use lua_stack::{
    Activations, Asked, Callee, ClosureId, EachLoop, Ending, Environment, Finding, Focus, Found,
    Frame, Frames, Given, InAssignment, InConstructor, InExpression, InLoop, InRun, InStatement,
    Jump, Pending, Raising, Setting, Slot as LuaStackSlot, Stack, Thing, Values, Which, Work,
    boxed,
};
pub use step::{Failure, Paid, Step};
