//! Set operations.
ghost use Rattle.std.specs.Prelude.{◌≡◌, IfOk};
ghost use Rattle.base_value.specs.Value.{same_value};
ghost use Rattle.base_set_rows.specs.SetOperations.{set_rows};

use crate::bags::union_all;
use crate::classes::by_classes;
use base_columns::Bag;
use base_set_rows::SetOperation;
use std::alloc::{AllocError, Global};
use std::thread::Threads;

/// A set operation of two bags of one width, list for list. UNION ALL has the rows of the left side
/// and then those of the right one, in batches that share their columns. INTERSECT and EXCEPT have
/// rows of both sides in the order in which they first come; 2^32 rows or more are an error, as
/// memory that isn't there.
pub fn set_rows<R: Threads + Sync>(
    rt: &R,
    alloc: Global,
    operation: SetOperation,
    left: &Bag,
    right: &Bag,
) -> Result<Bag, AllocError>
    requires { right.now.width ≡ left.now.width }
    ensures width { IfOk result (λ b. b.width ≡ left.now.width) }
    ensures rows { IfOk result
        (λ b. b.rows ≡ set_rows same_value operation left.now.rows right.now.rows) }
{
    match operation {
        SetOperation::Union => {
            let bag = union_all(alloc, left, right)?;
            Ok(bag)
        }
        SetOperation::Classes(kind, all) => {
            let bag = by_classes(rt, alloc, kind, all, left, right)?;
            Ok(bag)
        }
    }
}
