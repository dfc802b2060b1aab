//! Places of rows in the order of an answer, up to a limit.
ghost use Rattle.std.specs.Prelude.{◌≡◌, IfOk, take};
ghost use Rattle.base_value.specs.Value.{row_cmp};
ghost use Rattle.base_order_limit.specs.Answers.{key_order, answer_order, comes_before, in_order};
ghost use Rattle.base_order_limit.specs.Answers.{limited};
ghost use Rattle.exec_ordered_rows.specs.Places.{placed_rows};
ghost use Rattle.exec_ordered_rows.specs.Sketches.{AreSketched, place_order};

use crate::batch_cells::BatchCells;
use crate::place::RowPlace;
use crate::row_cells::RowCells;
use base_columns::ColumnForm;
use base_order_limit::OrderKey;
use std::alloc::AllocError;
use std::cmp::Ordering;

/// How the rows of an answer are ordered: by these keys, of which the first has values of some
/// form.
#[derive(Clone, Copy)]
pub(crate) struct RowOrder<'a> {
    pub(crate) keys: &'a [OrderKey],
    pub(crate) form: ColumnForm,
}

// The order of two rows by one column.
fn compare_by(key: &OrderKey, x: &RowCells<'_, '_>, y: &RowCells<'_, '_>) -> Ordering
    ensures { result ≡ key_order key.now x.now y.now }
{
    let column = key.column as usize;
    let order = x.at(column).order(&y.at(column));
    if key.is_descending {
        order.reverse()
    } else {
        order
    }
}

// The order of two rows by all columns.
fn compare_all(x: &RowCells<'_, '_>, y: &RowCells<'_, '_>) -> Ordering
    ensures { result ≡ row_cmp x.now y.now }
{
    for j in 0..x.len() {
        if j >= y.len() {
            return Ordering::Greater;
        }
        let order = x.at(j).order(&y.at(j));
        if order.is_ne() {
            return order;
        }
    }
    if x.len() < y.len() {
        return Ordering::Less;
    }
    Ordering::Equal
}

// The order of two rows by the keys, and then by all columns.
fn compare(keys: &[OrderKey], x: &RowCells<'_, '_>, y: &RowCells<'_, '_>) -> Ordering
    ensures { result ≡ answer_order keys.now x.now y.now }
{
    for key in keys {
        let order = compare_by(key, x, y);
        if order.is_ne() {
            return order;
        }
    }
    compare_all(x, y)
}

// The order of two places: by their numbers, and then by their rows.
fn compare_places(
    table: &[BatchCells<'_>],
    keys: &[OrderKey],
    x: &RowPlace,
    y: &RowPlace,
) -> Ordering
    ensures { result ≡ place_order keys.now table.now x.now y.now }
{
    let order = x.sketch.cmp(&y.sketch);
    if order.is_ne() {
        return order;
    }
    compare(keys, &RowCells::of(table, *x), &RowCells::of(table, *y))
}

// The places in order.
fn sorted(
    places: Vec<RowPlace>,
    table: &[BatchCells<'_>],
    order: &RowOrder<'_>,
) -> Result<Vec<RowPlace>, AllocError>
    requires { AreSketched order.now.keys.now order.now.form table.now places.items }
    ensures rows { IfOk result (λ v. placed_rows table.now v.items
        ≡ in_order (comes_before order.now.keys.now) (placed_rows table.now places.items)) }
    ensures places { IfOk result
        (λ v. AreSketched order.now.keys.now order.now.form table.now v.items) }
{
    let keys = order.keys;
    let mut places = places;
    places.sort_by(|a, b| compare_places(table, keys, a, b))?;
    Ok(places)
}

// The first n places.
fn first_places(places: Vec<RowPlace>, n: u64) -> Vec<RowPlace>
    ensures { result.items ≡ take n places.items }
{
    let mut places = places;
    if n < places.len() as u64 {
        places.truncate(n as usize);
    }
    places
}

/// The places by the keys, ties by all columns, up to the limit.
#[tactic(auto, using(crate::proofs::PlaceOrders::firsts))]
pub(crate) fn ordered(
    places: Vec<RowPlace>,
    table: &[BatchCells<'_>],
    order: &RowOrder<'_>,
    limit: Option<u64>,
) -> Result<Vec<RowPlace>, AllocError>
    requires { AreSketched order.now.keys.now order.now.form table.now places.items }
    ensures rows { IfOk result (λ v. placed_rows table.now v.items
        ≡ limited limit (in_order (comes_before order.now.keys.now)
        (placed_rows table.now places.items))) }
    ensures places { IfOk result
        (λ v. AreSketched order.now.keys.now order.now.form table.now v.items) }
{
    let places = sorted(places, table, order)?;
    match limit {
        Some(limit) => Ok(first_places(places, limit)),
        None => Ok(places),
    }
}
