//! Places of rows.

/// The place of a row in batches, and a number that keeps the order of the first column that
/// decides.
#[derive(Clone, Copy)]
pub(crate) struct RowPlace {
    pub(crate) sketch: i64,
    pub(crate) batch: u32,
    pub(crate) row: u32,
}
