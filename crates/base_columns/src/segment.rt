//! A stored batch.
ghost use Rattle.std.specs.Prelude.{◌≡◌, ◌<◌, ◌≤◌, ◌++◌, [], IfOk, OnOk, length, slice_index_or};
ghost use Rattle.std.specs.List.{All};
ghost use Rattle.base_value.specs.declared.value.Value.TheVariants.{Null};
ghost use Rattle.base_columns.specs.Numbers.{small_number};
ghost use Rattle.base_row_laws.specs.Ranked.{true_rank};
ghost use Rattle.base_columns.specs.Tables.{IsStored, plain_rows, standing_rows};

use crate::batch::Batch;
use base_value::{Row, Value};
use std::alloc::{AllocError, Global};
use std::marker::Model;
use std::sync::Arc;

/// The most rows of a segment.
pub const SEGMENT_ROWS: usize = 4096;

/// A batch of 1 to 4096 rows that all stand at True, seen as the list of their values. A clone is
/// another share of the same batch.
#[derive(Drop)]
pub struct Segment {
    batch: Arc<Batch>,
}

impl Model for Segment {
    ghost use Rattle.std.specs.Prelude.{List};
    ghost use Rattle.std.specs.Arc.{arc_value};
    ghost use Rattle.base_value.specs.declared.value.Value.{Value as Datum};
    ghost use Rattle.base_columns.specs.Tables.{IsStored, plain_rows};

    ghost Value = { List (List Datum) };

    ghost view = { λ s. plain_rows (arc_value s.batch).rows };

    ghost invariant = { λ s. IsStored (arc_value s.batch) };
}

#[tactic(auto, using(crate::proofs::SegmentLists::segments))]
impl Segment {
    /// The segment of this batch.
    pub fn new(alloc: Global, batch: Batch) -> Result<Segment, AllocError>
        requires some { 0 < length batch.rows }
        requires most { length batch.rows ≤ 4096 }
        requires stand { All (λ r. r.standing ≡ true_rank) batch.rows }
        ensures { IfOk result (λ s. s ≡ plain_rows batch.rows) }
    {
        // A batch tells that each row is of its width.
        let _width = batch.width();
        let batch = Arc::new(alloc, batch)?;
        Ok(Segment { batch })
    }

    /// How many rows there are.
    pub fn len(&self) -> usize
        ensures value { result ≡ length self.now }
        ensures some { 0 < result }
        ensures most { result ≤ 4096 }
    {
        self.batch().len()
    }

    /// The rows as a batch, of which nothing is copied.
    pub fn batch(&self) -> &Batch
        ensures rows { result.now.rows ≡ standing_rows self.now }
        ensures width { All (λ row. length row ≡ result.now.width) self.now }
        ensures some { 0 < length self.now }
        ensures most { length self.now ≤ 4096 }
    {
        &*self.batch
    }

    /// The values of a row, counted from 0.
    pub fn row(&self, alloc: Global, i: usize) -> Result<Vec<Value>, AllocError>
        requires { i < length self.now }
        ensures { IfOk result (λ row. row.items ≡ slice_index_or self.now i []) }
    {
        self.batch().row(alloc, i)
    }

    /// The number of a row in a column, where it is one of 64 bits.
    pub fn number(&self, i: usize, j: usize) -> Option<i64>
        requires { i < length self.now }
        ensures { result ≡ small_number (slice_index_or (slice_index_or self.now i []) j Null) }
    {
        let batch = self.batch();
        if j < batch.width() {
            batch.column(j).number(i)
        } else {
            None
        }
    }

    /// The rows at the end of others, as far as memory goes.
    pub(crate) fn put_rows(&self, alloc: Global, rows: &mut Vec<Row>) -> Result<(), AllocError>
        ensures { OnOk result (rows.new.items ≡ rows.old.items ++ self.now) }
    {
        for i in 0..self.len() {
            let row = Row::new(self.row(alloc, i)?)?;
            rows.push(row)?;
        }
        Ok(())
    }
}

impl Clone for Segment {
    ghost is_clone = { λ s t. t ≡ s };

    fn clone(&self) -> Result<Segment, AllocError>
        ensures { IfOk result (λ s. s ≡ self.now) }
    {
        let batch = self.batch.clone()?;
        Ok(Segment { batch })
    }
}
