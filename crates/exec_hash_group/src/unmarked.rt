//! Items without those that are marked.
ghost use Rattle.std.specs.Prelude.{◌≡◌, IfOk};
ghost use Rattle.exec_hash_group.specs.Unmarked.{unmarked};

use base_null_marks::Marks;
use std::alloc::{AllocError, Global};

/// The items whose places aren't marked.
pub(crate) fn unmarked<T: Copy>(
    alloc: Global,
    items: &[T],
    marks: &Marks,
) -> Result<Vec<T>, AllocError>
    ensures { IfOk result (λ v. v.items ≡ unmarked marks.now items.now) }
{
    let mut out = Vec::with_capacity(alloc, items.len())?;
    for i in 0..items.len() {
        if !marks.has(i) {
            out.push(items[i])?;
        }
    }
    Ok(out)
}
