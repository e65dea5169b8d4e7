//! Which functions of the library they are.
ghost use Rattle.std.specs.Prelude.{◌≡◌};
ghost use Rattle.lua_tables.specs.Table.{table_function_in, AreInTable};

use lua_basic::Library;

/// A function of `table` (manual 5.5).
#[derive(Clone, Copy, Debug, PartialEq, Eq)]
pub enum TableFunction {
    Concat,
    Insert,
    Maxn,
    Remove,
    Sort,
}

/// The function of `table` that this one is.
pub fn table_function(which: Library) -> Option<TableFunction>
    ensures { result ≡ table_function_in which }
{
    match which {
        Library::TableConcat => Some(TableFunction::Concat),
        Library::TableInsert => Some(TableFunction::Insert),
        Library::TableMaxn => Some(TableFunction::Maxn),
        Library::TableRemove => Some(TableFunction::Remove),
        Library::TableSort => Some(TableFunction::Sort),
        _ => None,
    }
}

/// What each gives is what the meaning says of it.
pub fn table_functions_are_in_the_table()
    ensures { AreInTable }
{}
