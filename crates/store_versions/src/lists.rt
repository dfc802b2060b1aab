//! Lists of refreshes.
ghost use Rattle.std.specs.Prelude.{◌≡◌, ◌≤◌, ◌++◌, ◌∷◌, [], IfOk, IsTrue, length};
ghost use Rattle.store_state.specs.Prefixes.{IsPrefix};

use std::alloc::{AllocError, Global};
use store_state::Refresh;

/// Shares of these refreshes, and one refresh more.
pub(crate) fn with_refresh(
    alloc: Global,
    list: &[Refresh],
    refresh: Refresh,
) -> Result<Vec<Refresh>, AllocError>
    ensures { IfOk result (λ longer. longer.items ≡ list.now ++ refresh ∷ []) }
{
    let mut longer = Vec::new(alloc);
    for earlier in list {
        longer.push(earlier.clone()?)?;
    }
    longer.push(refresh)?;
    Ok(longer)
}

/// Whether the second list is found to begin with the first.
pub(crate) fn is_beginning(short: &[Refresh], long: &[Refresh]) -> bool
    requires { length short.now ≤ length long.now }
    ensures { IsTrue result → IsPrefix short.now long.now }
{
    for k in 0..short.len() {
        if !short[k].is_same(&long[k]) {
            return false;
        }
    }
    true
}
