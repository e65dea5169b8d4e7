//! The values of Lua.
ghost use Rattle.std.specs.Prelude.{◌≡◌};

use crate::ids::{ClosureId, MarkupId, TableId, TextId};
use lua_heap::Library;
use lua_table::Slot;

/// A value of Lua (manual 2.2). Numbers are whole. Equal values are the same value, as `rawequal` tells it.
#[derive(Clone, Copy, Debug, PartialEq, Eq, Hash)]
pub enum Value {
    Nil,
    Bool(bool),
    Number(i64),
    Text(TextId),
    Table(TableId),
    Closure(ClosureId),
    /// A function of the library.
    Builtin(Library),
    /// An object of `mw.html`.
    Markup(MarkupId),
}

impl Slot for Value {
    ghost use Rattle.std.specs.Prelude.{refl};
    ghost use Rattle.lua_store.specs.declared.value.Value.TheVariants as value;
    ghost use Rattle.lua_store.specs.Whole.{whole_number};
    ghost use Rattle.lua_store.specs.ValueLaws.{same_value, only_number};

    ghost nil_value = { value.Nil };

    ghost number_of = { value.Number };

    ghost whole_of = { whole_number };

    ghost same = { same_value };

    ghost reads_back = { λ n. refl };

    ghost only = { only_number };

    ghost no_number = { refl };

    fn nil() -> Value {
        Value::Nil
    }

    fn is_nil(&self) -> bool {
        *self == Value::Nil
    }

    fn number(n: i64) -> Value {
        Value::Number(n)
    }

    fn whole(&self) -> Option<i64> {
        match self {
            Value::Number(n) => Some(*n),
            _ => None,
        }
    }
}
