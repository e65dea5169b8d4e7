//! The functions of `mw.ustring` that call back nobody, over the store of a page (Scribunto, Ustring library).
//!
//! What each function gives stands in `specs/Ustring.antt` of `lua_meaning`; begin there. `specs/TextArguments.antt` has the arguments that
//! are texts.
//!
//! - `arguments`: arguments that are texts in UTF-8
//! - `giving`: texts and numbers that are given, after what they cost
//! - `char_of`: `char`
//! - `parts`: `codepoint`, `byteoffset` and `sub`
//! - `wholes`: `len` and `isutf8`
//! - `forms`: the normal forms
//! - `captures`: what a match gives, and what that costs
//! - `finding`: `find` and `match`
//! - `table`: which functions they are
//! - `call`: a function is called
#![tactic(auto)]

pub mod arguments;
pub mod call;
pub mod captures;
pub mod char_of;
pub mod finding;
pub mod forms;
pub mod giving;
pub mod parts;
pub mod table;
pub mod wholes;

pub use call::ustring_call;
pub use mw_frame_texts::costs::pay_given;
pub use mw_frame_texts::tagging::tag_of;
pub use mw_frame_texts::{
    ENTRY_CHARGE, FieldNames, Left, Library, Stop, Store, TABLE_CHARGE, TableId, TextIn, Value,
    a_number, a_table, a_text, is_true, pay, pay_texts, rest, second, single, third,
};
pub use table::{UstringFunction, ustring_function};
