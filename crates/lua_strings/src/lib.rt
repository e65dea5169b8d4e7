//! The functions of `string` and `math` that call back nobody and make no iterator, over the store of a page (manual 5.4, 5.6).
//!
//! What they give stands in `lua_meaning`: `specs/Strings.antt`, `specs/Searches.antt`, `specs/Formats.antt` and `specs/Numbers.antt`, with
//! their checks of arguments in `specs/Checks.antt`. Read these first, then `call`.
//!
//! - `table`: which functions they are
//! - `paying`: steps that are taken, and texts that are paid for
//! - `messages`: messages that name an argument by any number
//! - `arguments`: all arguments as numbers or codes
//! - `places`: `byte` and `sub`
//! - `making`: `char`, `len`, `lower`, `upper`, `rep` and `reverse`
//! - `captures`: what is given of a match
//! - `searching`: `find` and `match`
//! - `formatting`: `format`
//! - `numbers`: the functions of `math`
//! - `call`: one of them is called
//! - `examples`: worked examples
#![tactic(auto)]

pub mod arguments;
pub mod call;
pub mod captures;
pub mod examples;
pub mod formatting;
pub mod making;
pub mod messages;
pub mod numbers;
pub mod paying;
pub mod places;
pub mod searching;
pub mod table;

pub use call::string_call;
pub use lua_basic::arguments::{a_text, number_or};
pub use lua_basic::charges::{CLOSURE_CHARGE, RUN_CHARGE};
pub use lua_basic::fields::field;
pub use lua_basic::messages::{fail, refuse_kind};
pub use lua_basic::objects::object;
pub use lua_basic::texts::{TextIn, text_in};
pub use lua_basic::values::{first, is_nil, is_true, kind_of, pair, rest, second, single};
pub use lua_basic::{
    CellId, Closure, ClosureId, ClosureKind, Left, Library, MarkupChild, MarkupId, MarkupNode,
    MarkupStyle, Stop, Store, TableId, TextId, TextPair, Value,
};
pub use table::{StringFunction, string_function};
