//! A refresh as its readers see it.
use base_columns::Rows;
use base_refusals::{LineRefusal, RefreshFile};

/// What a refresh is to do, of whose rows or keys nothing is copied.
#[derive(Clone, Copy)]
pub enum Action<'a> {
    /// Adds orders and their lineitems.
    Insert(&'a Rows, &'a Rows),
    /// Removes the orders of these keys with their lineitems.
    Delete(&'a [i64]),
    /// Nothing, since a file of the set of this number has a bad line.
    Malformed(RefreshFile, u32, LineRefusal),
}
