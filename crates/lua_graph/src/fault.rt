//! Why a value is no data.

/// Why a value is no graph of plain data, or why its graph was not made (Scribunto, `mw.loadData`).
#[derive(Clone, Copy, Debug, PartialEq, Eq)]
pub enum DataFault {
    /// The value is no table.
    NotATable,
    /// A function stands as a value.
    HasFunction,
    /// A table has a metatable, or an object of `mw.html` stands as a value.
    HasMetatable,
    /// A key is no truth value, number or text.
    BadKey,
    NoMemory,
}
