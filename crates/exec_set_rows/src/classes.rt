//! INTERSECT and EXCEPT.
ghost use Rattle.std.specs.Prelude.{◌≡◌, ◌≤◌, [], length, IfOk};
ghost use Rattle.std.specs.List.{All, range_with_len};
ghost use Rattle.base_row_laws.specs.Ranked.{ranked, true_rank};
ghost use Rattle.base_value.specs.Value.{same_value};
ghost use Rattle.base_set_rows.specs.SetOperations.{by_classes};
ghost use Rattle.base_set_rows.specs.Numbered.{numbers_taken};
ghost use Rattle.base_columns.specs.Lists.{gathered};
ghost use Rattle.exec_hash_group.specs.PartGroups.{IsGrouped};

use crate::bags::union_all;
use base_columns::{Bag, Batch};
use base_set_rows::{ClassKind, numbers_taken};
use exec_hash_group::{GroupedPart, all_places, grouped_part, one_batch, part_by_threads};
use exec_threads::thread_share;
use std::alloc::{AllocError, Global};
use std::thread::Threads;

// Rows with their classes: the groups by all columns, made by several threads where there are more
// than a few rows.
fn row_classes<R: Threads + Sync>(
    rt: &R,
    alloc: Global,
    rows: &Bag,
) -> Result<GroupedPart, AllocError>
    ensures rows { IfOk result (λ p. p.rows.rows ≡ rows.now.rows) }
    ensures classes { IfOk result (λ p. IsGrouped (range_with_len 0 rows.now.width) p) }
    ensures wide { All (λ r. length r.values ≡ rows.now.width) rows.now.rows }
{
    let places = all_places(alloc, rows)?;
    let batches = rows.batches();
    if thread_share(rt, batches.len(), rows.len()) >= batches.len() {
        let part = grouped_part(alloc, rows.width(), batches, places.as_slice())?;
        return Ok(part);
    }
    let part = part_by_threads(rt, alloc, rows.width(), batches, places.as_slice())?;
    Ok(part)
}

// The rows that the operation takes of rows with their classes, the first `split` of which are the
// left side's.
fn rows_taken(
    alloc: Global,
    kind: ClassKind,
    all: bool,
    part: &GroupedPart,
    split: usize,
) -> Result<Batch, AllocError>
    requires { split ≤ length part.now.rows.rows }
    ensures width { IfOk result (λ b. b.width ≡ part.now.keys.width) }
    ensures rows { IfOk result (λ b. b.rows ≡ gathered (ranked [] true_rank) part.now.keys.rows
        (numbers_taken kind all split part.now.numbers.items (length part.now.keys.rows))) }
{
    match u32::try_from(part.group_count()) {
        Ok(count) => {
            let taken = numbers_taken(alloc, kind, all, part.numbers(), split, count)?;
            let batch = part.keys().gather(alloc, taken.as_slice())?;
            Ok(batch)
        }
        Err(_) => Err(AllocError),
    }
}

/// INTERSECT or EXCEPT, with ALL or without, of two bags of one width: for each class of identical
/// rows on both sides, in the order in which they first come, as many rows as the operation says,
/// at the least of the class's standings. 2^32 rows or more are an error, as memory that isn't
/// there.
pub(crate) fn by_classes<R: Threads + Sync>(
    rt: &R,
    alloc: Global,
    kind: ClassKind,
    all: bool,
    left: &Bag,
    right: &Bag,
) -> Result<Bag, AllocError>
    requires { right.now.width ≡ left.now.width }
    ensures width { IfOk result (λ b. b.width ≡ left.now.width) }
    ensures rows { IfOk result (λ b. b.rows
        ≡ by_classes same_value kind all left.now.rows right.now.rows) }
{
    let both = union_all(alloc, left, right)?;
    let part = row_classes(rt, alloc, &both)?;
    let taken = rows_taken(alloc, kind, all, &part, left.len())?;
    let bag = one_batch(alloc, taken)?;
    Ok(bag)
}
