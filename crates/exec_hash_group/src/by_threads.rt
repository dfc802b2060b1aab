//! GROUP BY of many groups by several threads.
ghost use Rattle.std.specs.Prelude.{◌≡◌, ◌+◌, ◌<◌, ◌^◌, map, length, slice_index_or, IfOk};
ghost use Rattle.base_columns.specs.Lists.{AreBelow};
ghost use Rattle.plan_algebra.specs.declared.aggregate.Aggregate.{Aggregate as Aggregation};
ghost use Rattle.plan_algebra.specs.Plans.{groups};
ghost use Rattle.exec_hash_group.specs.Grouping.{aggregate_column};

use crate::group_by::{aggregate_column, grouped};
use crate::workers::SeveralThreads;
use base_columns::{Bag, Column};
use plan_algebra::Aggregate;
use rayon::prelude::*;
use std::alloc::{AllocError, Global};
use std::thread::Threads;

// The aggregate at a place, of each group.
fn aggregate_at(
    alloc: Global,
    rows: &Bag,
    numbers: &[u32],
    count: usize,
    aggregates: &[Aggregate],
    place: usize,
) -> Result<Column, AllocError>
    requires rows { length numbers.now ≡ length rows.now.rows }
    requires small { length numbers.now < 2 ^ 32 }
    requires numbers { AreBelow count numbers.now }
    requires place { place < length aggregates.now }
    ensures { IfOk result (λ c. (a : Aggregation) → c
        ≡ aggregate_column rows.now.rows numbers.now count (slice_index_or aggregates.now place a)) }
{
    let column = aggregate_column(alloc, rows, numbers, count, &aggregates[place])?;
    Ok(column)
}

/// The aggregates of each group, a column for each: a thread for each of them.
pub(crate) fn aggregate_columns<R: Threads + Sync>(
    rt: &R,
    alloc: Global,
    rows: &Bag,
    numbers: &[u32],
    count: usize,
    aggregates: &[Aggregate],
) -> Result<Vec<Column>, AllocError>
    requires rows { length numbers.now ≡ length rows.now.rows }
    requires small { length numbers.now < 2 ^ 32 }
    requires numbers { AreBelow count numbers.now }
    ensures { IfOk result (λ v. v.items
        ≡ map (aggregate_column rows.now.rows numbers.now count) aggregates.now) }
{
    let made = (0..aggregates.len())
        .into_par_iter()
        .with_min_len(1)
        .map(
            |place: usize| -> Result<Column, AllocError>
                requires rows { length numbers.now ≡ length rows.now.rows }
                requires small { length numbers.now < 2 ^ 32 }
                requires numbers { AreBelow count numbers.now }
                requires place { place < length aggregates.now }
                ensures { IfOk result (λ c. (a : Aggregation) → c
                    ≡ aggregate_column rows.entry.now.rows numbers.entry.now count
                    (slice_index_or aggregates.entry.now place a)) }
            { aggregate_at(alloc, rows, numbers, count, aggregates, place) },
        )
        .collect::<Result<Vec<Column>, AllocError>>(rt, alloc)?;
    let columns = made?;
    Ok(columns)
}

/// GROUP BY as `group` makes it, of rows with many groups, by as many threads as there are
/// processors: each reads all keys and numbers those of its own part, and each aggregate has a
/// thread of its own.
pub fn group_by_threads<R: Threads + Sync>(
    rt: &R,
    alloc: Global,
    rows: &Bag,
    by: &[u32],
    aggregates: &[Aggregate],
) -> Result<Bag, AllocError>
    ensures width { IfOk result (λ b. b.width ≡ length by.now + length aggregates.now) }
    ensures rows { IfOk result (λ b. b.rows ≡ groups by.now aggregates.now rows.now.rows) }
{
    let workers = SeveralThreads { rt };
    let bag = grouped(&workers, alloc, rows, by, aggregates)?;
    Ok(bag)
}
