//! How many rows a group has and how they stand, apart from its cells.
ghost use Rattle.std.specs.Prelude.{◌≡◌, ◌+◌, min, OnOk};
ghost use Rattle.base_value.specs.Truth.{standing_rank};

use base_value::Standing;
use std::alloc::AllocError;

/// How many rows, the least of their standings, and how many cells.
#[derive(Clone, Copy)]
pub(crate) struct Head {
    pub(crate) rows: u64,
    pub(crate) least: Standing,
    pub(crate) count: usize,
}

impl Head {
    /// Counts a row of this standing. More rows than are counted are an error, as memory that isn't
    /// there.
    pub(crate) fn put(&mut self, standing: Standing) -> Result<(), AllocError>
        ensures count { self.new.count ≡ self.old.count }
        ensures rows { OnOk result (self.new.rows ≡ self.old.rows + 1) }
        ensures least { OnOk result (standing_rank self.new.least
            ≡ min (standing_rank self.old.least) (standing_rank standing)) }
    {
        self.rows = self.rows.checked_add(1).ok_or(AllocError)?;
        self.least = self.least.lesser(standing);
        Ok(())
    }
}
