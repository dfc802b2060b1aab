//! How what threads make of their parts is put together.
ghost use Rattle.std.specs.Prelude.{◌≡◌, ℕ, ◌++◌, IfOk, OnOk};
ghost use Rattle.std.specs.List.{All};
ghost use Rattle.base_columns.specs.Bags.{bag_rows, AreWide};
ghost use Rattle.exec_parallel_scan.specs.Parts.{ArePartsJoined, IsPartWide};

use base_columns::{Bag, Batch};
use std::alloc::{AllocError, Global};

/// One batch more, unless it has no row.
pub(crate) fn put_batch(batches: &mut Vec<Batch>, batch: Batch) -> Result<(), AllocError>
    ensures width { OnOk result ((w : ℕ) → AreWide w batches.old.items → batch.width ≡ w
        → AreWide w batches.new.items) }
    ensures rows { OnOk result (bag_rows batches.new.items
        ≡ bag_rows batches.old.items ++ batch.rows) }
{
    if !batch.is_empty() {
        batches.push(batch)?;
    }
    Ok(())
}

// The batches at the end of a bag.
fn put_batches(bag: &mut Bag, batches: Vec<Batch>) -> Result<(), AllocError>
    requires { AreWide bag.old.width batches.items }
    ensures width { bag.new.width ≡ bag.old.width }
    ensures rows { OnOk result (bag.new.rows ≡ bag.old.rows ++ bag_rows batches.items) }
{
    for batch in batches {
        bag.push(batch)?;
    }
    Ok(())
}

/// The batches of all parts as one bag, in the order of the parts. Where memory ran out for a part
/// it ran out for all.
pub(crate) fn joined(
    alloc: Global,
    width: usize,
    parts: Vec<Result<Vec<Batch>, AllocError>>,
) -> Result<Bag, AllocError>
    requires { All (IsPartWide width) parts.items }
    ensures width { IfOk result (λ b. b.width ≡ width) }
    ensures rows { IfOk result (λ b. ArePartsJoined parts.items b.rows) }
{
    let mut bag = Bag::new(alloc, width);
    for part in parts {
        let batches = part?;
        put_batches(&mut bag, batches)?;
    }
    Ok(bag)
}
