//! The rows of an answer, in order.
ghost use Rattle.std.specs.Prelude.{◌≡◌, ◌<◌, ◌==◌, [], length, slice_index_or};
ghost use Rattle.base_columns.specs.Batches.{row_at};
ghost use Rattle.exec_ordered_rows.specs.Places.{AreThere, placed_rows};

use crate::place::RowPlace;
use base_columns::Batch;
use std::marker::Model;

/// The rows of an answer in its order, seen as the list of their values. They stay in the columns
/// of batches.
pub struct OrderedRows {
    batches: Vec<Batch>,
    places: Vec<RowPlace>,
}

impl Drop for OrderedRows {
    #[inline]
    fn drop(self) {
        let OrderedRows { batches, places } = self;
        drop(batches);
        drop(places);
    }
}

impl Model for OrderedRows {
    ghost use Rattle.std.specs.Prelude.{List};
    ghost use Rattle.base_value.specs.declared.value.Value.{Value as Datum};
    ghost use Rattle.exec_ordered_rows.specs.Places.{AreThere, placed_rows};

    ghost Value = { List (List Datum) };

    ghost view = { λ r. placed_rows r.batches.items r.places.items };

    ghost invariant = { λ r. AreThere r.batches.items r.places.items };
}

impl OrderedRows {
    // The rows at places of batches.
    pub(crate) fn of(batches: Vec<Batch>, places: Vec<RowPlace>) -> OrderedRows
        requires { AreThere batches.items places.items }
        ensures { result ≡ placed_rows batches.items places.items }
    {
        OrderedRows { batches, places }
    }

    /// How many rows there are.
    pub fn len(&self) -> usize
        ensures { result ≡ length self.now }
    {
        self.places.len()
    }

    /// Whether there is no row.
    pub fn is_empty(&self) -> bool
        ensures { result ≡ (length self.now == 0) }
    {
        self.len() == 0
    }

    /// The batch in which a row lies, and the row's place in it.
    pub fn at(&self, i: usize) -> (&Batch, usize)
        requires { i < length self.now }
        ensures there { result.1 < length result.0.now.rows }
        ensures row { (row_at result.0.now.rows result.1).values ≡ slice_index_or self.now i [] }
    {
        let place = self.places[i];
        (&self.batches[place.batch as usize], place.row as usize)
    }
}
