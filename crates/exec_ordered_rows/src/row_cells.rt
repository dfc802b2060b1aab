//! A row of batches, read value by value without copies.
ghost use Rattle.std.specs.Prelude.{◌≡◌, length, slice_index_or};
ghost use Rattle.base_value.specs.declared.value.Value.TheVariants.{Null};
ghost use Rattle.exec_ordered_rows.specs.Cells.{cell_value};
ghost use Rattle.exec_ordered_rows.specs.Places.{placed_row};

use crate::batch_cells::BatchCells;
use crate::cell::Cell;
use crate::place::RowPlace;
use std::marker::Model;

/// The row at a place, seen as the list of its values. It has none where there is no row.
#[derive(Drop)]
pub(crate) struct RowCells<'a, 'b> {
    table: &'a [BatchCells<'b>],
    place: RowPlace,
}

impl<'a, 'b> Model for RowCells<'a, 'b> {
    ghost use Rattle.std.specs.Prelude.{List};
    ghost use Rattle.base_value.specs.declared.value.Value.{Value as Datum};
    ghost use Rattle.exec_ordered_rows.specs.Places.{placed_row};

    ghost Value = { List Datum };

    ghost view = { λ r. placed_row r.table.now r.place };
}

#[tactic(auto, using(crate::proofs::CellReads::places))]
impl<'a, 'b> RowCells<'a, 'b> {
    /// The row at a place of batches.
    pub(crate) fn of(table: &'a [BatchCells<'b>], place: RowPlace) -> RowCells<'a, 'b>
        ensures { result ≡ placed_row table.now place }
    {
        RowCells { table, place }
    }

    /// How many values there are.
    pub(crate) fn len(&self) -> usize
        ensures { result ≡ length self.now }
    {
        let batch = self.place.batch as usize;
        if batch >= self.table.len() {
            return 0;
        }
        self.table[batch].width_at(self.place.row as usize)
    }

    /// The value of a column, null where there is none.
    pub(crate) fn at(&self, j: usize) -> Cell<'_>
        ensures { cell_value result ≡ slice_index_or self.now j Null }
    {
        let batch = self.place.batch as usize;
        if batch >= self.table.len() {
            return Cell::Null;
        }
        self.table[batch].at(self.place.row as usize, j)
    }
}
