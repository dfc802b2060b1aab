//! Groups of the parts of rows, and how those of all parts are put together.
ghost use Rattle.std.specs.Prelude.{◌≡◌, IfOk};
ghost use Rattle.std.specs.List.{All};
ghost use Rattle.base_columns.specs.Bags.{bag_rows, AreWide};
ghost use Rattle.exec_hash_group.specs.PartGroups.{IsGrouped, part_keys, AreMerged};

use crate::group_by::{Groups, groups_of};
use crate::grouping::all_places;
use crate::part::GroupedPart;
use crate::standings::{least_standings, row_standings};
use crate::workers::{OneThread, SeveralThreads, Workers};
use base_columns::{Bag, Batch, Column};
use base_value::Standing;
use std::alloc::{AllocError, Global};
use std::thread::Threads;

/// The groups of all parts: columns of their keys, the least standings of their rows, the number
/// of each part's groups among them, and how many there are.
#[derive(Drop)]
pub struct MergedGroups {
    /// The keys, column by column.
    pub keys: Vec<Column>,
    /// The least standing of each group's rows.
    pub least: Vec<Standing>,
    /// The groups to which those of the parts belong, one part after the other.
    pub numbers: Vec<u32>,
    /// How many groups there are.
    pub count: usize,
}

// The rows of batches of that width as a bag, which shares their columns.
fn shared_bag(alloc: Global, width: usize, batches: &[Batch]) -> Result<Bag, AllocError>
    requires { AreWide width batches.now }
    ensures { IfOk result (λ b. b.rows ≡ bag_rows batches.now) }
{
    let mut bag = Bag::new(alloc, width);
    for batch in batches {
        let shared = batch.share(alloc)?;
        bag.push(shared)?;
    }
    Ok(bag)
}

// Rows as a part, with their groups by these columns, which these workers make. `AllocError` at
// 2^32 rows: row numbers are `u32`.
fn part_of<W: Workers>(
    workers: &W,
    alloc: Global,
    rows: Bag,
    by: &[u32],
) -> Result<GroupedPart, AllocError>
    requires { W.ready workers.now }
    ensures { IfOk result (λ p. (p.rows.rows ≡ rows.rows) × IsGrouped by.now p) }
{
    if rows.len() > u32::MAX as usize {
        return Err(AllocError);
    }
    let Groups {
        keys,
        numbers,
        count,
    } = groups_of(workers, alloc, &rows, by)?;
    let standings = row_standings(alloc, &rows)?;
    let least = least_standings(alloc, standings.as_slice(), numbers.as_slice(), count)?;
    let keys = Batch::of(keys, least);
    Ok(GroupedPart {
        rows,
        numbers,
        keys,
    })
}

/// A part of rows, in batches of that width, with its groups by these columns. `AllocError` at 2^32
/// rows: row numbers are `u32`.
pub fn grouped_part(
    alloc: Global,
    width: usize,
    batches: &[Batch],
    by: &[u32],
) -> Result<GroupedPart, AllocError>
    requires { AreWide width batches.now }
    ensures { IfOk result (λ p. (p.rows.rows ≡ bag_rows batches.now) × IsGrouped by.now p) }
{
    let rows = shared_bag(alloc, width, batches)?;
    let part = part_of(&OneThread, alloc, rows, by)?;
    Ok(part)
}

/// The same, by as many threads as there are processors: each reads all keys and numbers those of
/// its own part of the hash.
pub fn part_by_threads<R: Threads + Sync>(
    rt: &R,
    alloc: Global,
    width: usize,
    batches: &[Batch],
    by: &[u32],
) -> Result<GroupedPart, AllocError>
    requires { AreWide width batches.now }
    ensures { IfOk result (λ p. (p.rows.rows ≡ bag_rows batches.now) × IsGrouped by.now p) }
{
    let rows = shared_bag(alloc, width, batches)?;
    let workers = SeveralThreads { rt };
    let part = part_of(&workers, alloc, rows, by)?;
    Ok(part)
}

// The keys of all parts' groups, of `width` columns.
fn keys_bag(alloc: Global, width: usize, parts: &[GroupedPart]) -> Result<Bag, AllocError>
    requires { All (λ p. p.keys.width ≡ width) parts.now }
    ensures width { IfOk result (λ b. b.width ≡ width) }
    ensures rows { IfOk result (λ b. b.rows ≡ part_keys parts.now) }
{
    let mut bag = Bag::new(alloc, width);
    for part in parts {
        let keys = part.keys.share(alloc)?;
        bag.push(keys)?;
    }
    Ok(bag)
}

/// The groups by these columns of the rows of all parts, from the parts' groups. `AllocError` at
/// 2^32 groups of parts: their numbers are `u32`.
pub fn merged_groups(
    alloc: Global,
    parts: &[GroupedPart],
    by: &[u32],
) -> Result<MergedGroups, AllocError>
    requires { All (IsGrouped by.now) parts.now }
    ensures { IfOk result (λ m. AreMerged by.now parts.now m.keys.items m.least.items
        m.numbers.items m.count) }
{
    let entries = keys_bag(alloc, by.len(), parts)?;
    if entries.len() > u32::MAX as usize {
        return Err(AllocError);
    }
    let places = all_places(alloc, &entries)?;
    let Groups {
        keys,
        numbers,
        count,
    } = groups_of(&OneThread, alloc, &entries, places.as_slice())?;
    let standings = row_standings(alloc, &entries)?;
    let least = least_standings(alloc, standings.as_slice(), numbers.as_slice(), count)?;
    Ok(MergedGroups {
        keys,
        least,
        numbers,
        count,
    })
}
