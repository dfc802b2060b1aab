//! The rows of two bags together.
ghost use Rattle.std.specs.Prelude.{◌≡◌, ◌++◌, IfOk, OnOk};

use base_columns::Bag;
use std::alloc::{AllocError, Global};

// The rows of another bag of that width after a bag's own, in batches that share their columns.
fn put_rows(alloc: Global, bag: &mut Bag, others: &Bag) -> Result<(), AllocError>
    requires { others.now.width ≡ bag.old.width }
    ensures width { bag.new.width ≡ bag.old.width }
    ensures rows { OnOk result (bag.new.rows ≡ bag.old.rows ++ others.now.rows) }
{
    let batches = others.batches();
    for batch in batches {
        let shared = batch.share(alloc)?;
        bag.push(shared)?;
    }
    Ok(())
}

/// UNION ALL: the rows of the left side and then those of the right one, each at its own standing,
/// in batches that share their columns.
pub(crate) fn union_all(alloc: Global, left: &Bag, right: &Bag) -> Result<Bag, AllocError>
    requires { right.now.width ≡ left.now.width }
    ensures width { IfOk result (λ b. b.width ≡ left.now.width) }
    ensures rows { IfOk result (λ b. b.rows ≡ left.now.rows ++ right.now.rows) }
{
    let mut both = Bag::new(alloc, left.width());
    put_rows(alloc, &mut both, left)?;
    put_rows(alloc, &mut both, right)?;
    Ok(both)
}
