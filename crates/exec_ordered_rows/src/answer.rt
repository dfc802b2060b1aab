//! The answer of a bag: its rows in order, or its least fault.
ghost use Rattle.std.specs.Prelude.{◌≡◌, ◌<◌, ◌++◌, length, map, IfOk};
ghost use Rattle.std.specs.Prelude.{MatchResult, Ok, Err};
ghost use Rattle.base_value.specs.declared.value.Value.TheVariants.{Fault as Failed};
ghost use Rattle.base_columns.specs.Bags.{bag_rows};
ghost use Rattle.base_order_limit.specs.Answers.{finished, row_values};
ghost use Rattle.exec_ordered_rows.specs.Limits.{AreEnough};
ghost use Rattle.exec_ordered_rows.specs.Places.{AreThere, placed_rows, rows_of};
ghost use Rattle.exec_ordered_rows.specs.Sketches.{AreSketched, IsSketched};

use crate::batch_cells::{BatchCells, table_of};
use crate::fault::least_of;
use crate::order::{RowOrder, ordered};
use crate::ordered_rows::OrderedRows;
use crate::place::RowPlace;
use crate::row_cells::RowCells;
use crate::sketch::row_sketch;
use base_columns::{Bag, Batch, ColumnForm};
use base_order_limit::OrderKey;
use base_value::{Fault, Standing};
use std::alloc::{AllocError, Global};

// Rows are cut to the limit once there are as many as this and twice the limit.
const SORTED_AT_ONCE: u64 = 1024;

// The first places of the order, as many as the limit says, once there are more than twice as many:
// those past the limit are dropped before all are there.
fn without_last(
    places: Vec<RowPlace>,
    table: &[BatchCells<'_>],
    order: &RowOrder<'_>,
    limit: Option<u64>,
) -> Result<Vec<RowPlace>, AllocError>
    requires { AreSketched order.now.keys.now order.now.form table.now places.items }
    ensures rows { IfOk result (λ v. AreEnough order.now.keys.now limit
        (placed_rows table.now v.items) (placed_rows table.now places.items)) }
    ensures places { IfOk result
        (λ v. AreSketched order.now.keys.now order.now.form table.now v.items) }
{
    match limit {
        Some(most) => {
            let count = places.len() as u64;
            if count < SORTED_AT_ONCE || count / 2 < most {
                return Ok(places);
            }
            let places = ordered(places, table, order, limit)?;
            Ok(places)
        }
        None => Ok(places),
    }
}

// The place of a row.
fn place_of(table: &[BatchCells<'_>], order: &RowOrder<'_>, batch: u32, row: u32) -> RowPlace
    requires batch { batch < length table.now }
    requires row { row < length (rows_of table.now batch) }
    ensures batch { result.batch ≡ batch }
    ensures row { result.row ≡ row }
    ensures sketched { IsSketched order.now.keys.now order.now.form table.now result }
{
    let place = RowPlace {
        sketch: 0,
        batch,
        row,
    };
    let sketch = row_sketch(order, &RowCells::of(table, place));
    RowPlace { sketch, batch, row }
}

// The places of a batch's rows after others, as far as the limit may ask for them.
fn put_batch(
    places: Vec<RowPlace>,
    table: &[BatchCells<'_>],
    order: &RowOrder<'_>,
    limit: Option<u64>,
    batch: u32,
) -> Result<Vec<RowPlace>, AllocError>
    requires there { batch < length table.now }
    requires sketched { AreSketched order.now.keys.now order.now.form table.now places.items }
    ensures rows { IfOk result (λ v. AreEnough order.now.keys.now limit
        (placed_rows table.now v.items)
        (placed_rows table.now places.items ++ map row_values (rows_of table.now batch))) }
    ensures places { IfOk result
        (λ v. AreSketched order.now.keys.now order.now.form table.now v.items) }
{
    let count = table[batch as usize].len();
    let Ok(count) = u32::try_from(count) else {
        return Err(AllocError);
    };
    let mut places = places;
    for row in 0..count {
        places.push(place_of(table, order, batch, row))?;
        places = without_last(places, table, order, limit)?;
    }
    Ok(places)
}

// The places of all rows, as far as the limit may ask for them.
fn all_places(
    alloc: Global,
    table: &[BatchCells<'_>],
    order: &RowOrder<'_>,
    limit: Option<u64>,
) -> Result<Vec<RowPlace>, AllocError>
    ensures rows { IfOk result (λ v. AreEnough order.now.keys.now limit
        (placed_rows table.now v.items) (map row_values (bag_rows table.now))) }
    ensures places { IfOk result
        (λ v. AreSketched order.now.keys.now order.now.form table.now v.items) }
{
    let Ok(count) = u32::try_from(table.len()) else {
        return Err(AllocError);
    };
    let mut places = Vec::new(alloc);
    for batch in 0..count {
        places = put_batch(places, table, order, limit, batch)?;
    }
    Ok(places)
}

// The form of the column that decides first: by the first batch that has rows.
fn form_of(batches: &[Batch], keys: &[OrderKey]) -> ColumnForm {
    let column = match keys {
        [] => 0,
        [key, ..] => key.column as usize,
    };
    for batch in batches {
        if !batch.is_empty() && column < batch.width() {
            return batch.column(column).kept_form();
        }
    }
    ColumnForm::Values
}

// The places of the rows of batches by the keys, ties by all columns, up to the limit; or the least
// fault, where a row has one.
fn answer_places(
    alloc: Global,
    batches: &[Batch],
    keys: &[OrderKey],
    limit: Option<u64>,
) -> Result<Result<Vec<RowPlace>, Fault>, AllocError>
    ensures rows { IfOk result (λ r. MatchResult r
        (λ v. finished keys.now limit (bag_rows batches.now)
        ≡ Ok (placed_rows batches.now v.items))
        (λ f. finished keys.now limit (bag_rows batches.now) ≡ Err (Failed f))) }
    ensures there { IfOk result (λ r. IfOk r (λ v. AreThere batches.now v.items)) }
{
    let table = table_of(alloc, batches)?;
    let table = table.as_slice();
    match least_of(table) {
        Standing::AtTrue => {
            let form = form_of(batches, keys);
            let order = RowOrder { keys, form };
            let places = all_places(alloc, table, &order, limit)?;
            let places = ordered(places, table, &order, limit)?;
            Ok(Ok(places))
        }
        Standing::AtFault(fault) => Ok(Err(fault)),
    }
}

// Further shares of a bag's batches.
fn shares(alloc: Global, bag: &Bag) -> Result<Vec<Batch>, AllocError>
    ensures { IfOk result (λ v. bag_rows v.items ≡ bag.now.rows) }
{
    let batches = bag.batches();
    let mut shares = Vec::with_capacity(alloc, batches.len())?;
    for batch in batches {
        let share = batch.share(alloc)?;
        shares.push(share)?;
    }
    Ok(shares)
}

/// The rows of a bag by the keys, ties by all columns, up to the limit; or the least fault, where a
/// row has one. 2^32 batches or rows of one batch may be answered as want of memory.
pub fn finish(
    alloc: Global,
    bag: &Bag,
    keys: &[OrderKey],
    limit: Option<u64>,
) -> Result<Result<OrderedRows, Fault>, AllocError>
    ensures { IfOk result (λ r.
        MatchResult r (λ v. finished keys.now limit bag.now.rows ≡ Ok v)
        (λ f. finished keys.now limit bag.now.rows ≡ Err (Failed f))) }
{
    let batches = shares(alloc, bag)?;
    match answer_places(alloc, batches.as_slice(), keys, limit)? {
        Ok(places) => Ok(Ok(OrderedRows::of(batches, places))),
        Err(fault) => Ok(Err(fault)),
    }
}
