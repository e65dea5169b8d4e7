//! Where local variables stand.

/// Where a local variable stands (manual 2.6).
#[derive(Clone, Copy, Debug, PartialEq, Eq)]
pub enum Place {
    /// In this register, counted from the newest, which is 0.
    Register(usize),
    /// In the cell that this register names. The register is counted from the newest.
    Cell(usize),
    /// In this one of the cells that the running function captured.
    Captured(usize),
}
