//! Batches with more columns or fewer.
ghost use Rattle.std.specs.Prelude.{◌≡◌, ◌+◌, ◌-◌, IfOk, length, drop, map};
ghost use Rattle.base_row_laws.specs.Rows.{strip};
ghost use Rattle.base_columns.specs.Batches.{AreLong, rows_beside, joined_rows, longer_rows};

use crate::batch::Batch;
use crate::column::Column;
use std::alloc::{AllocError, Global};

#[tactic(auto, using(crate::proofs::WiderRows::wider))]
impl Batch {
    /// The rows of these columns, at the standings of the rows here.
    pub fn with_columns(&self, alloc: Global, columns: Vec<Column>) -> Result<Batch, AllocError>
        requires { AreLong (length self.now.rows) columns.items }
        ensures width { IfOk result (λ b. b.width ≡ length columns.items) }
        ensures rows { IfOk result (λ b. b.rows ≡ rows_beside columns.items 0 self.now.rows) }
    {
        let standings = self.standings.copy(alloc)?;
        Ok(Batch { columns, standings })
    }

    /// The rows of both batches side by side, each at the lesser of its two standings.
    pub fn beside(self, alloc: Global, right: Batch) -> Result<Batch, AllocError>
        requires { length self.rows ≡ length right.rows }
        ensures width { IfOk result (λ b. b.width ≡ self.width + right.width) }
        ensures rows { IfOk result (λ b. b.rows ≡ joined_rows self.rows right.rows) }
    {
        let Batch {
            mut columns,
            standings,
        } = self;
        let Batch {
            columns: mut more,
            standings: others,
        } = right;
        let standings = standings.lesser(alloc, &others)?;
        columns.append(&mut more)?;
        Ok(Batch { columns, standings })
    }

    /// The rows with one column more at the end.
    pub fn with_column(self, column: Column) -> Result<Batch, AllocError>
        requires { length column ≡ length self.rows }
        ensures width { IfOk result (λ b. b.width ≡ self.width + 1) }
        ensures rows { IfOk result (λ b. b.rows ≡ longer_rows self.rows column) }
    {
        let Batch {
            mut columns,
            standings,
        } = self;
        columns.push(column)?;
        Ok(Batch { columns, standings })
    }
}
