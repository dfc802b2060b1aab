//! What threads made of parts, one after the other.
ghost use Rattle.std.specs.Prelude.{◌≡◌, map, Ok, IfOk};

use std::alloc::{AllocError, Global};

/// What was made of each part, in the order of the parts. Where memory ran out for a part it ran
/// out for all.
pub fn all_made<T: Drop>(
    alloc: Global,
    parts: Vec<Result<T, AllocError>>,
) -> Result<Vec<T>, AllocError>
    ensures { IfOk result (λ v. parts.items ≡ map (λ x. Ok x) v.items) }
{
    let mut made = Vec::with_capacity(alloc, parts.len())?;
    for part in parts {
        let x = part?;
        made.push(x)?;
    }
    Ok(made)
}
