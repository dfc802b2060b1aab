//! A column of ORDER BY.

/// A column of the result by which its rows are ordered.
#[derive(Clone, Copy, Debug, PartialEq, Eq)]
pub struct OrderKey {
    /// The place of the column, from 0.
    pub column: u32,
    /// Whether the order is turned round, nulls first.
    pub is_descending: bool,
}
