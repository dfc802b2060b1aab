//! Groups of the rows of a table or of a bag, by several threads.
ghost use Rattle.std.specs.Prelude.{◌≡◌, ◌+◌, ◌<◌, length, IfOk};
ghost use Rattle.std.specs.List.{All};
ghost use Rattle.base_row_laws.specs.Rows.{scanned};
ghost use Rattle.base_columns.specs.Bags.{bag_rows, AreWide};
ghost use Rattle.base_columns.specs.Lists.{one_list};
ghost use Rattle.plan_algebra.specs.Plans.{groups};
ghost use Rattle.exec_hash_group.specs.PartGroups.{IsGrouped, part_rows};
ghost use Rattle.exec_parallel_scan.specs.Stages.{staged};

use crate::merged::put_merged;
use crate::scan::staged_scan;
use crate::stages::Stage;
use base_columns::{Bag, Batch};
use exec_hash_group::{GroupedPart, group, group_by_threads, grouped_part, merged_groups};
use exec_threads::{all_made, map_parts, part_len};
use plan_algebra::{Aggregate, Piece};
use std::alloc::{AllocError, Global};
use std::thread::Threads;

// The rows of a bag in parts of `size` batches, each with its groups by these columns: a thread
// for each part.
fn grouped_parts<R: Threads + Sync>(
    rt: &R,
    alloc: Global,
    rows: &Bag,
    by: &[u32],
    size: usize,
) -> Result<Vec<GroupedPart>, AllocError>
    requires { 0 < size }
    ensures rows { IfOk result (λ v. part_rows v.items ≡ rows.now.rows) }
    ensures groups { IfOk result (λ v. All (IsGrouped by.now) v.items) }
{
    let width = rows.width();
    let batches = rows.batches();
    let made = map_parts(
        rt,
        alloc,
        batches,
        size,
        &|_start: usize, part: &[Batch]| -> Result<GroupedPart, AllocError>
            requires { AreWide width part.now }
            ensures { IfOk result (λ p.
                (p.rows.rows ≡ bag_rows part.now) × IsGrouped by.entry.now p) }
        { grouped_part(alloc, width, part, by) },
    )?;
    let parts = all_made(alloc, made)?;
    Ok(parts)
}

// A bag of one batch.
fn bag_of_one(alloc: Global, batch: Batch) -> Result<Bag, AllocError>
    ensures width { IfOk result (λ b. b.width ≡ batch.width) }
    ensures rows { IfOk result (λ b. b.rows ≡ batch.rows) }
{
    let mut bag = Bag::new(alloc, batch.width());
    bag.push(batch)?;
    Ok(bag)
}

// The groups of all parts.
fn merged_bag<R: Threads + Sync>(
    rt: &R,
    alloc: Global,
    parts: &[GroupedPart],
    by: &[u32],
    aggregates: &[Aggregate],
) -> Result<Bag, AllocError>
    requires { All (IsGrouped by.now) parts.now }
    ensures width { IfOk result (λ b. b.width ≡ length by.now + length aggregates.now) }
    ensures rows { IfOk result
        (λ b. b.rows ≡ groups by.now aggregates.now (part_rows parts.now)) }
{
    let merged = merged_groups(alloc, parts, by)?;
    let mut columns = merged.keys;
    let numbers = merged.numbers.as_slice();
    put_merged(
        rt,
        alloc,
        &mut columns,
        parts,
        numbers,
        merged.count,
        aggregates,
    )?;
    let batch = Batch::of(columns, merged.least);
    let bag = bag_of_one(alloc, batch)?;
    Ok(bag)
}

// Up to this number of groups are few, however many rows they have.
const FEW: usize = 32;

// Whether the rows have many groups: whether the first batches, one in 64, have more than an eighth
// as many groups as rows, and a few more.
fn have_many_groups(alloc: Global, rows: &Bag, by: &[u32]) -> Result<bool, AllocError> {
    let batches = rows.batches();
    let first = &batches[..batches.len().div_ceil(64)];
    let part = grouped_part(alloc, rows.width(), first, by)?;
    Ok(part.group_count() > part.row_count() / 8 + FEW)
}

/// GROUP BY over the rows of a bag: for each group of rows that are identical in these columns its
/// key and its aggregates, in the order in which the keys first come. With no column all rows are
/// one group, also where there are none. A column that isn't there is null. Where the bag has more
/// than a few batches several threads make the groups: of few groups each makes those of a part of
/// the bag, and of many each numbers the keys of its own part of the hash.
pub fn bag_groups<R: Threads + Sync>(
    rt: &R,
    alloc: Global,
    rows: &Bag,
    by: &[u32],
    aggregates: &[Aggregate],
) -> Result<Bag, AllocError>
    ensures width { IfOk result (λ b. b.width ≡ length by.now + length aggregates.now) }
    ensures rows { IfOk result (λ b. b.rows ≡ groups by.now aggregates.now rows.now.rows) }
{
    let count = rows.batches().len();
    let size = part_len(rt, count);
    if size >= count {
        let bag = group(alloc, rows, by, aggregates)?;
        return Ok(bag);
    }
    if have_many_groups(alloc, rows, by)? {
        let bag = group_by_threads(rt, alloc, rows, by, aggregates)?;
        return Ok(bag);
    }
    let parts = grouped_parts(rt, alloc, rows, by, size)?;
    let bag = merged_bag(rt, alloc, parts.as_slice(), by, aggregates)?;
    Ok(bag)
}

/// The groups of the rows of a table of that width after these stages, for every number of pieces:
/// those of one thread, in its order.
pub fn staged_groups<R: Threads + Sync>(
    rt: &R,
    alloc: Global,
    width: usize,
    pieces: &[Piece],
    stages: &[Stage<'_>],
    by: &[u32],
    aggregates: &[Aggregate],
) -> Result<Bag, AllocError>
    requires { All (λ row. length row ≡ width) (one_list pieces.now) }
    ensures width { IfOk result (λ b. b.width ≡ length by.now + length aggregates.now) }
    ensures rows { IfOk result (λ b. b.rows
        ≡ groups by.now aggregates.now (staged stages.now (scanned (one_list pieces.now)))) }
{
    let rows = staged_scan(rt, alloc, width, pieces, stages)?;
    let bag = bag_groups(rt, alloc, &rows, by, aggregates)?;
    Ok(bag)
}
