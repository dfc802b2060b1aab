//! Keys and aggregates over some columns of the rows that they read.
ghost use Rattle.std.specs.Prelude.{◌≡◌, Some, IfOk, IfSome, slice_get};
ghost use Rattle.plan_tree_moves.specs.Regroup.{KeysMove, AggregateMoves, AggregatesMove};

use crate::narrow::is_found;
use expr_scalar::{rename, used_columns};
use plan_algebra::Aggregate;
use sqlite_items::{Boxed, Items};
use std::alloc::{AllocError, Global};

// Where a column stands.
fn position_of(column: u32, whole: &[u32]) -> Option<u32>
    ensures { IfSome result (λ p. slice_get whole.now p ≡ Some column) }
{
    for (i, other) in whole.iter().enumerate() {
        if *other == column {
            return u32::try_from(i).ok();
        }
    }
    None
}

/// Where columns stand, if all do.
pub fn moved_keys(
    alloc: Global,
    by: &[u32],
    whole: &[u32],
) -> Result<Option<Items<u32>>, AllocError>
    ensures { IfOk result (λ o. IfSome o (KeysMove whole.now by.now)) }
{
    let mut keys = Items::new(alloc);
    for column in by {
        match position_of(*column, whole) {
            Some(place) => keys.push(place)?,
            None => return Ok(None),
        }
    }
    Ok(Some(keys))
}

// An aggregate over the columns that are left, if all that it reads are.
fn moved_aggregate(
    alloc: Global,
    aggregate: &Aggregate,
    places: &[u32],
    whole: &[u32],
) -> Result<Option<Aggregate>, AllocError>
    ensures { IfOk result (λ o. IfSome o (AggregateMoves whole.now aggregate.now)) }
{
    match aggregate {
        Aggregate::CountRows => Ok(Some(Aggregate::CountRows)),
        Aggregate::Of(function, scale, e) => {
            let found = is_found(alloc, e.get(), places, whole)?;
            if !found {
                return Ok(None);
            }
            let new = rename(alloc, e.get(), places)?;
            let new = Boxed::new(alloc, new)?;
            Ok(Some(Aggregate::Of(*function, *scale, new)))
        }
    }
}

/// Aggregates over the columns that are left, if all that they read are.
pub fn moved_aggregates(
    alloc: Global,
    aggregates: &[Aggregate],
    places: &[u32],
    whole: &[u32],
) -> Result<Option<Items<Aggregate>>, AllocError>
    ensures { IfOk result (λ o. IfSome o (AggregatesMove whole.now aggregates.now)) }
{
    let mut all = Items::new(alloc);
    for aggregate in aggregates {
        match moved_aggregate(alloc, aggregate, places, whole)? {
            Some(new) => all.push(new)?,
            None => return Ok(None),
        }
    }
    Ok(Some(all))
}

/// Puts the columns that aggregates read.
pub fn put_aggregated(
    alloc: Global,
    aggregates: &[Aggregate],
    to: &mut Vec<u32>,
) -> Result<(), AllocError> {
    for aggregate in aggregates {
        match aggregate {
            Aggregate::CountRows => {}
            Aggregate::Of(_, _, e) => {
                let mut columns = used_columns(alloc, e.get())?;
                to.append(&mut columns)?;
            }
        }
    }
    Ok(())
}
