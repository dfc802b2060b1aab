//! The least fault of rows.
ghost use Rattle.std.specs.Prelude.{◌≡◌, ◌<◌, length, min};
ghost use Rattle.std.specs.List.{All};
ghost use Rattle.base_value.specs.Truth.{standing_rank};
ghost use Rattle.base_columns.specs.Batches.{row_at};
ghost use Rattle.base_columns.specs.Bags.{bag_rows};
ghost use Rattle.expr_aggregates.specs.Values.{value_rank};
ghost use Rattle.base_order_limit.specs.Answers.{least_rank, row_rank};
ghost use Rattle.exec_ordered_rows.specs.Cells.{HaveNoFault, cell_value};

use crate::batch_cells::BatchCells;
use crate::cell::Cell;
use base_value::Standing;

// The lesser of a standing and a value's fault.
fn lesser_of(least: Standing, cell: &Cell<'_>) -> Standing
    ensures { standing_rank result ≡ min (standing_rank least) (value_rank (cell_value cell.now)) }
{
    match cell {
        Cell::Fault(fault) => least.lesser(Standing::AtFault(*fault)),
        Cell::Number(_, _) => least,
        Cell::Text(_) => least,
        Cell::Date(_) => least,
        Cell::Null => least,
    }
}

// The least of a row's standing and of the faults in its columns, True where there is none.
#[tactic(auto, using(crate::proofs::Faults::values))]
fn least_of_row(batch: &BatchCells<'_>, i: usize) -> Standing
    requires { i < length batch.now.rows }
    ensures { standing_rank result ≡ row_rank (row_at batch.now.rows i) }
{
    let mut least = batch.standing(i);
    for j in 0..batch.width_at(i) {
        least = lesser_of(least, &batch.at(i, j));
    }
    least
}

// The same, where no value can be a fault.
#[tactic(auto, using(crate::proofs::Faults::plain))]
fn least_standing(batch: &BatchCells<'_>) -> Standing
    requires { All (λ r. HaveNoFault r.values) batch.now.rows }
    ensures { standing_rank result ≡ least_rank batch.now.rows }
{
    let mut least = Standing::AtTrue;
    for i in 0..batch.len() {
        least = least.lesser(batch.standing(i));
    }
    least
}

// The least standing and fault of a batch's rows, True where there is none.
#[tactic(auto, using(crate::proofs::Faults::rows))]
fn least_of_batch(batch: &BatchCells<'_>) -> Standing
    ensures { standing_rank result ≡ least_rank batch.now.rows }
{
    if batch.has_no_fault() {
        return least_standing(batch);
    }
    let mut least = Standing::AtTrue;
    for i in 0..batch.len() {
        least = least.lesser(least_of_row(batch, i));
    }
    least
}

/// The least standing and fault of all rows, True where there is none.
#[tactic(auto, using(crate::proofs::Faults::batches))]
pub(crate) fn least_of(table: &[BatchCells<'_>]) -> Standing
    ensures { standing_rank result ≡ least_rank (bag_rows table.now) }
{
    let mut least = Standing::AtTrue;
    for batch in table {
        least = least.lesser(least_of_batch(batch));
    }
    least
}
