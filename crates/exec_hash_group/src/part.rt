//! A part of rows with its own groups.
ghost use Rattle.std.specs.Prelude.{◌≡◌, ◌<◌, ◌^◌, length};
ghost use Rattle.base_columns.specs.Lists.{AreBelow};

use base_columns::{Bag, Batch};

/// A part of rows, with its groups.
#[derive(Drop)]
pub struct GroupedPart {
    pub(crate) rows: Bag,
    // The number of each row's group.
    pub(crate) numbers: Vec<u32>,
    // The key of each group, at the least standing of its rows.
    pub(crate) keys: Batch,
    ghost long: { length numbers.items ≡ length rows.rows },
    ghost few: { length numbers.items < 2 ^ 32 },
    ghost below: { AreBelow (length keys.rows) numbers.items },
}

impl GroupedPart {
    /// How many rows the part has.
    pub fn row_count(&self) -> usize
        ensures { result ≡ length self.now.rows.rows }
    {
        self.rows.len()
    }

    /// The number of each row's group.
    pub fn numbers(&self) -> &[u32]
        ensures value { result.now ≡ self.now.numbers.items }
        ensures long { length result.now ≡ length self.now.rows.rows }
        ensures few { length result.now < 2 ^ 32 }
        ensures below { AreBelow (length self.now.keys.rows) result.now }
    {
        self.numbers.as_slice()
    }

    /// The key of each group, at the least standing of its rows.
    pub fn keys(&self) -> &Batch
        ensures { result.now ≡ self.now.keys }
    {
        &self.keys
    }

    /// How many groups its rows have.
    pub fn group_count(&self) -> usize
        ensures { result ≡ length self.now.keys.rows }
    {
        self.keys.len()
    }
}
