//! Lists that threads made, one after the other.
ghost use Rattle.std.specs.Prelude.{◌≡◌, map, IfOk};
ghost use Rattle.base_columns.specs.Lists.{one_list};

use std::alloc::{AllocError, Global};

/// The elements of all lists, in their order.
pub(crate) fn one_after_other<T: Drop>(
    alloc: Global,
    lists: Vec<Vec<T>>,
) -> Result<Vec<T>, AllocError>
    ensures { IfOk result (λ v. v.items ≡ one_list (map (λ l. l.items) lists.items)) }
{
    let mut all = Vec::new(alloc);
    for list in lists {
        let mut more = list;
        all.append(&mut more)?;
    }
    Ok(all)
}
