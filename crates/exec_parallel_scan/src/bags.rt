//! Stages over the rows of a bag, by several threads.
ghost use Rattle.std.specs.Prelude.{◌≡◌, IfOk};
ghost use Rattle.exec_parallel_scan.specs.Stages.{staged, staged_width, AreStaged};

use crate::parts::{joined, put_batch};
use crate::stages::{Stage, staged_batch, staged_width};
use base_columns::{Bag, Batch};
use exec_threads::{map_parts, part_len};
use std::alloc::{AllocError, Global};
use std::thread::Threads;

// What stages make of each batch; batches without rows are left out.
fn staged_batches(
    alloc: Global,
    batches: &[Batch],
    stages: &[Stage<'_>],
) -> Result<Vec<Batch>, AllocError>
    ensures { IfOk result (λ v. AreStaged stages.now batches.now v.items) }
{
    let mut made = Vec::new(alloc);
    for batch in batches {
        let rows = staged_batch(alloc, stages, batch)?;
        put_batch(&mut made, rows)?;
    }
    Ok(made)
}

/// The rows of a bag after these stages, in the order in which one thread has them. Several threads
/// take parts of the bag, where it has more than a few batches.
pub fn staged_bag<R: Threads + Sync>(
    rt: &R,
    alloc: Global,
    rows: &Bag,
    stages: &[Stage<'_>],
) -> Result<Bag, AllocError>
    ensures width { IfOk result (λ b. b.width ≡ staged_width stages.now rows.now.width) }
    ensures rows { IfOk result (λ b. b.rows ≡ staged stages.now rows.now.rows) }
{
    let width = staged_width(stages, rows.width());
    let batches = rows.batches();
    let size = part_len(rt, batches.len());
    let parts = map_parts(
        rt,
        alloc,
        batches,
        size,
        &|_start: usize, part: &[Batch]| -> Result<Vec<Batch>, AllocError>
            ensures { IfOk result (λ v. AreStaged stages.entry.now part.now v.items) }
        { staged_batches(alloc, part, stages) },
    )?;
    let bag = joined(alloc, width, parts)?;
    Ok(bag)
}
