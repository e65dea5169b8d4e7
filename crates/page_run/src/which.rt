//! The allowances that end a run of Lua.

/// The allowance of Lua that is spent. A run that spends one of them ends there, and nothing catches it.
#[derive(Clone, Copy, Debug, PartialEq, Eq)]
pub enum Which {
    /// No steps are left for the next charge.
    Steps,
    /// No call is left for the function to be entered.
    Calls,
}
