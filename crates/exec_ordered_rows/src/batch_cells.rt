//! The rows of batches, read value by value without copies.
ghost use Rattle.std.specs.Prelude.{◌≡◌, ◌<◌, IfOk, IsTrue, length, slice_index_or};
ghost use Rattle.std.specs.List.{All};
ghost use Rattle.base_value.specs.declared.value.Value.TheVariants.{Null};
ghost use Rattle.base_value.specs.Truth.{standing_rank};
ghost use Rattle.base_columns.specs.Batches.{first_columns, row_at};
ghost use Rattle.exec_ordered_rows.specs.Cells.{HaveNoFault, cell_value};

use crate::cell::Cell;
use crate::column_cells::ColumnCells;
use base_columns::Batch;
use base_value::Standing;
use std::alloc::{AllocError, Global};
use std::marker::Model;

/// The rows of a batch, seen as their width and their list.
pub(crate) struct BatchCells<'a> {
    batch: &'a Batch,
    columns: Vec<ColumnCells<'a>>,
}

impl<'a> Drop for BatchCells<'a> {
    #[inline]
    fn drop(self) {
        let BatchCells { batch: _, columns } = self;
        drop(columns);
    }
}

impl<'a> Model for BatchCells<'a> {
    ghost use Rattle.std.specs.Prelude.{◌≡◌, length};
    ghost use Rattle.std.specs.List.{All};
    ghost use Rattle.base_row_laws.specs.Ranked.{Relation};
    ghost use Rattle.base_value.specs.declared.value.Value.{Value as Datum};
    ghost use Rattle.base_columns.specs.Batches.{first_columns};

    ghost Value = { Relation Datum };

    ghost view = { λ b. b.batch.now };

    ghost invariant = { λ b. (b.columns.items ≡ first_columns b.batch.now.rows b.batch.now.width)
        × All (λ r. length r.values ≡ b.batch.now.width) b.batch.now.rows };
}

// The columns of a batch.
fn columns_of<'a>(alloc: Global, batch: &'a Batch) -> Result<Vec<ColumnCells<'a>>, AllocError>
    ensures { IfOk result (λ v. v.items ≡ first_columns batch.now.rows batch.now.width) }
{
    let mut columns = Vec::with_capacity(alloc, batch.width())?;
    for j in 0..batch.width() {
        let column = ColumnCells::new(alloc, batch.column(j))?;
        columns.push(column)?;
    }
    Ok(columns)
}

#[tactic(auto, using(crate::proofs::CellReads::rows))]
impl<'a> BatchCells<'a> {
    /// The rows of a batch.
    pub(crate) fn new(alloc: Global, batch: &'a Batch) -> Result<BatchCells<'a>, AllocError>
        ensures { IfOk result (λ c. c ≡ batch.now) }
    {
        let _width = batch.width();
        let columns = columns_of(alloc, batch)?;
        Ok(BatchCells { batch, columns })
    }

    /// How many rows there are.
    pub(crate) fn len(&self) -> usize
        ensures { result ≡ length self.now.rows }
    {
        self.batch.len()
    }

    /// How a row stands.
    pub(crate) fn standing(&self, i: usize) -> Standing
        requires { i < length self.now.rows }
        ensures { standing_rank result ≡ (row_at self.now.rows i).standing }
    {
        self.batch.standing(i)
    }

    /// How many values a row has, none past the end.
    pub(crate) fn width_at(&self, i: usize) -> usize
        ensures { result ≡ length (row_at self.now.rows i).values }
    {
        if i >= self.batch.len() {
            return 0;
        }
        self.columns.len()
    }

    /// A value of a row, null where there is none.
    pub(crate) fn at(&self, i: usize, j: usize) -> Cell<'_>
        ensures { cell_value result ≡ slice_index_or (row_at self.now.rows i).values j Null }
    {
        if i >= self.batch.len() {
            return Cell::Null;
        }
        if j >= self.columns.len() {
            return Cell::Null;
        }
        self.columns[j].at(i)
    }

    /// Whether no value of a row can be a fault.
    pub(crate) fn has_no_fault(&self) -> bool
        ensures { IsTrue result → All (λ r. HaveNoFault r.values) self.now.rows }
    {
        are_without_fault(self.columns.as_slice())
    }
}

// Whether no value of columns can be a fault.
#[tactic(auto, using(crate::proofs::CellReads::faults))]
fn are_without_fault(columns: &[ColumnCells<'_>]) -> bool
    ensures { IsTrue result → All HaveNoFault columns.now }
{
    for column in columns {
        if !column.has_no_fault() {
            return false;
        }
    }
    true
}

/// The rows of batches.
pub(crate) fn table_of<'a>(
    alloc: Global,
    batches: &'a [Batch],
) -> Result<Vec<BatchCells<'a>>, AllocError>
    ensures { IfOk result (λ t. t.items ≡ batches.now) }
{
    let mut table = Vec::with_capacity(alloc, batches.len())?;
    for batch in batches {
        let cells = BatchCells::new(alloc, batch)?;
        table.push(cells)?;
    }
    Ok(table)
}
