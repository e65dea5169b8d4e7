//! The names of what stands in a store. Each is the place of a thing among those of its kind, in the order in which they
//! were made. It is of use with the store that gave it alone.
ghost use Rattle.std.specs.Prelude.{◌≡◌};

/// The name of a text.
#[derive(Clone, Copy, Debug, PartialEq, Eq, Hash)]
pub struct TextId {
    at: usize,
}

impl TextId {
    pub(crate) fn of_place(at: usize) -> TextId
        ensures { result.at ≡ at }
    {
        TextId { at }
    }

    pub(crate) fn place(self) -> usize
        ensures { result ≡ self.at }
    {
        self.at
    }
}

/// The name of a table.
#[derive(Clone, Copy, Debug, PartialEq, Eq, Hash)]
pub struct TableId {
    at: usize,
}

impl TableId {
    pub(crate) fn of_place(at: usize) -> TableId
        ensures { result.at ≡ at }
    {
        TableId { at }
    }

    pub(crate) fn place(self) -> usize
        ensures { result ≡ self.at }
    {
        self.at
    }
}

/// The name of a cell, which holds the value of one variable.
#[derive(Clone, Copy, Debug, PartialEq, Eq, Hash)]
pub struct CellId {
    at: usize,
}

impl CellId {
    pub(crate) fn of_place(at: usize) -> CellId
        ensures { result.at ≡ at }
    {
        CellId { at }
    }

    pub(crate) fn place(self) -> usize
        ensures { result ≡ self.at }
    {
        self.at
    }
}

/// The name of a closure.
#[derive(Clone, Copy, Debug, PartialEq, Eq, Hash)]
pub struct ClosureId {
    at: usize,
}

impl ClosureId {
    pub(crate) fn of_place(at: usize) -> ClosureId
        ensures { result.at ≡ at }
    {
        ClosureId { at }
    }

    pub(crate) fn place(self) -> usize
        ensures { result ≡ self.at }
    {
        self.at
    }
}

/// The name of a markup object.
#[derive(Clone, Copy, Debug, PartialEq, Eq, Hash)]
pub struct MarkupId {
    at: usize,
}

impl MarkupId {
    pub(crate) fn of_place(at: usize) -> MarkupId
        ensures { result.at ≡ at }
    {
        MarkupId { at }
    }

    pub(crate) fn place(self) -> usize
        ensures { result ≡ self.at }
    {
        self.at
    }
}
